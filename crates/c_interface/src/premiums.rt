// The least premiums of a contract for several bounds.
ghost use Rattle.std.specs.Prelude.{◌≡◌, length};
ghost use Rattle.basis.specs.TransitionTables.{transition_table};
ghost use Rattle.plan.specs.PaymentTables.{payment_table};
ghost use Rattle.c_interface.specs.Columns.{Asked};
ghost use Rattle.c_interface.specs.Outcomes.{Premiums, PremiumFor, PremiumsFor};

use crate::columns::{Columns, Tables};
use crate::{DONE, UNFIT_PLACES};
use std::alloc::{AllocError, Global};
use valuation::pricing::least_premium;

// What is written where no premium will do.
const NO_PREMIUM: i64 = -1;

// What is written for a bound.
fn entry_for(tables: &Tables, state: usize, year: usize, bound: i64) -> i64
    ensures { PremiumFor (transition_table tables.now.basis) (payment_table tables.now.plan)
        state year bound result }
{
    match least_premium(&tables.basis, &tables.plan, state, year, bound) {
        Ok(premium) => premium.ticks() as i64,
        Err(_) => NO_PREMIUM,
    }
}

// Writes at each place the least premium for the bound of that place.
fn fill_premiums(tables: &Tables, state: usize, year: usize, bounds: &[i64], premiums: &mut [i64])
    requires { length premiums.old ≡ length bounds.now }
    ensures { PremiumsFor (transition_table tables.now.basis) (payment_table tables.now.plan)
        state year bounds.now premiums.new }
{
    for (k, place) in premiums.iter_mut().enumerate() {
        *place = entry_for(tables, state, year, bounds[k]);
    }
}

// What the export answers, by what it comes to that memory is asked for.
fn answer_premiums(
    asked: Result<Tables, AllocError>,
    columns: &Columns,
    state: usize,
    year: usize,
    bounds: &[i64],
    premiums: &mut [i64],
) -> u8
    ensures { Premiums asked columns.now state year bounds.now premiums.old premiums.new result }
{
    if premiums.len() != bounds.len() {
        return UNFIT_PLACES;
    }
    match columns.tables(asked) {
        Ok(tables) => {
            fill_premiums(&tables, state, year, bounds, premiums);
            DONE
        }
        Err(number) => number,
    }
}

// The least premiums at which the reserve in a state and a year is not above a bound, one for each
// of the bounds, and -1 where no premium will do.
#[unsafe(no_mangle)]
pub extern "C" fn fineochre_premiums(
    heap: Global,
    columns: &Columns,
    state: usize,
    year: usize,
    bounds: &[i64],
    premiums: &mut [i64],
) -> u8
    ensures { (asked : Asked) × Premiums asked columns.now
        state year bounds.now premiums.old premiums.new result }
{
    answer_premiums(Tables::new(heap), columns, state, year, bounds, premiums)
}
