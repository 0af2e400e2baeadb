// The columns that a sheet is read into.

// How many entries they have.
#[derive(Clone, Copy, PartialEq, Eq, Debug)]
pub struct Columns {
    pub factors: usize,
    pub shares: usize,
}
