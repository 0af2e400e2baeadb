// Closing a year: the move by which it closes, and what the closing works from.
ghost use Rattle.std.specs.Prelude.{◌≡◌, ◌<◌, MatchOption};

mod values;

use basis::Basis;
pub use values::closing_values;

// A move that the basis gives a share above nought in a year: one by which the year can close.
#[derive(Drop)]
pub struct Move<'a, B: Basis> {
    basis: &'a B,
    from: usize,
    to: usize,
    year: usize,
    ghost possible: { 0 < (B.meaning basis.now).share from to year },
}

impl<'a, B: Basis> Move<'a, B> {
    ghost use Rattle.valuation.specs.Closings.{IsMove};

    // Nothing where the share is nought.
    pub fn new(basis: &'a B, from: usize, to: usize, year: usize) -> Option<Move<'a, B>>
        ensures { MatchOption result
            ((B.meaning basis.now).share from to year ≡ 0)
            (λ step. IsMove step basis.now from to year) }
    {
        if basis.share(from, to, year) == 0 {
            return None;
        }
        Some(Move {
            basis,
            from,
            to,
            year,
        })
    }
}
