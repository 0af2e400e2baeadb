// The endowment: a sum at death within the term, or at its end.
ghost use Rattle.plan.specs.EndowmentTerms.{FitYears};

mod make;
mod plan;

use std::fmt;
use units::MOST_YEARS;
use units::amount::Amount;

// The longest term.
pub const MOST_TERM: usize = MOST_YEARS;

// The sum insured, the term, and the number of years in which the premium is due.
#[derive(Clone, Copy, PartialEq, Eq)]
pub struct Endowment {
    sum: Amount,
    term: usize,
    paying_years: usize,
    ghost years: { FitYears term paying_years },
}

// By hand, to show the sum as a number of ticks.
impl fmt::Debug for Endowment {
    fn fmt<W: fmt::Write>(&self, f: &mut fmt::Formatter<W>) -> fmt::Result {
        f.debug_struct("Endowment")
            .field("sum", &self.sum.ticks())
            .field("term", &self.term)
            .field("paying_years", &self.paying_years)
            .finish()
    }
}
