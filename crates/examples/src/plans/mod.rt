// Plans: what they pay, and what they are refused with.
mod annuity;
mod endowment;
mod table;

use plan::Plan;
use std::process::Abort;
use units::fault::{Fault, Layer};

// The refusal of a plan at a year and a state, whatever was to be made.
pub(crate) fn refused<T>(year: usize, state: usize) -> Result<T, Fault> {
    Err(Fault::at_entry(12, Layer::Plan, year, state))
}

// Its benefits and where the premium is due, by state and year, and what it pays for moves, by
// from, to and year.
pub(crate) fn pays<P: Plan>(
    rt: &impl Abort,
    plan: &P,
    benefits: &[(usize, usize, u64)],
    dues: &[(usize, usize, bool)],
    moves: &[(usize, usize, usize, u64)],
) {
    for (state, year, amount) in benefits {
        assert_eq!(rt; plan.benefit(*state, *year), *amount, "{state} {year}");
    }
    for (state, year, is_due) in dues {
        assert_eq!(rt; plan.due(*state, *year), *is_due, "{state} {year}");
    }
    for (from, to, year, amount) in moves {
        assert_eq!(rt;
            plan.move_benefit(*from, *to, *year),
            *amount,
            "{from} {to} {year}"
        );
    }
}
