// The age shift: any basis, some years on.
mod basis;

// The basis below from its year `by` on, or its last year where it has no such year.
#[derive(Drop)]
pub struct AgeShift<B> {
    below: B,
    by: usize,
}
