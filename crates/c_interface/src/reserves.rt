// The reserves of a contract at several premiums.
ghost use Rattle.std.specs.Prelude.{◌≡◌, length, pos};
ghost use Rattle.units.specs.Columns.{AllBetween};
ghost use Rattle.units.specs.Ranges.{limit};
ghost use Rattle.basis.specs.TransitionTables.{transition_table};
ghost use Rattle.plan.specs.PaymentTables.{payment_table};
ghost use Rattle.c_interface.specs.Columns.{Asked};
ghost use Rattle.c_interface.specs.Outcomes.{Reserves, ReservesAt};

use crate::columns::{Columns, Tables};
use crate::{DONE, UNFIT_PLACES, UNFIT_PREMIUM, all_premiums, premium};
use std::alloc::{AllocError, Global};
use valuation::reserve::reserve;

// Writes at each place the reserve in a state and a year at the premium of that place.
fn fill_reserves(tables: &Tables, state: usize, year: usize, premiums: &[i64], reserves: &mut [i64])
    requires places { length reserves.old ≡ length premiums.now }
    requires premiums { AllBetween (pos 0) (pos limit) premiums.now }
    ensures { ReservesAt (transition_table tables.now.basis) (payment_table tables.now.plan)
        state year premiums.now reserves.new }
{
    for (k, place) in reserves.iter_mut().enumerate() {
        *place = reserve(
            &tables.basis,
            &tables.plan,
            premium(premiums[k]),
            state,
            year,
        );
    }
}

// What the export answers, by what it comes to that memory is asked for.
fn answer_reserves(
    asked: Result<Tables, AllocError>,
    columns: &Columns,
    state: usize,
    year: usize,
    premiums: &[i64],
    reserves: &mut [i64],
) -> u8
    ensures { Reserves asked columns.now state year premiums.now reserves.old reserves.new result }
{
    if reserves.len() != premiums.len() {
        return UNFIT_PLACES;
    }
    if !all_premiums(premiums) {
        return UNFIT_PREMIUM;
    }
    match columns.tables(asked) {
        Ok(tables) => {
            fill_reserves(&tables, state, year, premiums, reserves);
            DONE
        }
        Err(number) => number,
    }
}

// The reserves in a state and a year, one at each of the premiums.
#[unsafe(no_mangle)]
pub extern "C" fn fineochre_reserves(
    heap: Global,
    columns: &Columns,
    state: usize,
    year: usize,
    premiums: &[i64],
    reserves: &mut [i64],
) -> u8
    ensures { (asked : Asked) × Reserves asked columns.now
        state year premiums.now reserves.old reserves.new result }
{
    answer_reserves(Tables::new(heap), columns, state, year, premiums, reserves)
}
