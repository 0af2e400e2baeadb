// The annuity: an amount in each of some years that are spent in one state.
ghost use Rattle.plan.specs.AnnuityTerms.{FitYears};

mod make;
mod plan;

use std::fmt;
use units::amount::Amount;

// The amount, the state in which it is paid, the first year and the year before which it ends,
// and the number of years in which the premium is due.
#[derive(Clone, Copy, PartialEq, Eq)]
pub struct Annuity {
    amount: Amount,
    state: usize,
    first: usize,
    end: usize,
    paying_years: usize,
    ghost years: { FitYears state first end paying_years },
}

// By hand, to show the amount as a number of ticks.
impl fmt::Debug for Annuity {
    fn fmt<W: fmt::Write>(&self, f: &mut fmt::Formatter<W>) -> fmt::Result {
        f.debug_struct("Annuity")
            .field("amount", &self.amount.ticks())
            .field("state", &self.state)
            .field("first", &self.first)
            .field("end", &self.end)
            .field("paying_years", &self.paying_years)
            .finish()
    }
}
