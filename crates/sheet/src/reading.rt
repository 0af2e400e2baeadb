// What reading a sheet answers.
use crate::part::Part;

// How many states and years the basis has, and the rest of the input, after the sheet.
#[derive(Clone, Copy, PartialEq, Eq, Debug)]
pub struct Reading<'a> {
    pub states: usize,
    pub years: usize,
    pub rest: Part<'a>,
}
