// The spans of a contract at several premiums.
ghost use Rattle.std.specs.Prelude.{◌≡◌, length, pos};
ghost use Rattle.units.specs.Columns.{AllBetween};
ghost use Rattle.units.specs.Ranges.{limit};
ghost use Rattle.basis.specs.TransitionTables.{transition_table};
ghost use Rattle.plan.specs.PaymentTables.{payment_table};
ghost use Rattle.c_interface.specs.Columns.{Asked};
ghost use Rattle.c_interface.specs.Outcomes.{Spans, SpansAt};

use crate::columns::{Columns, Tables};
use crate::{DONE, UNFIT_PLACES, UNFIT_PREMIUM, all_premiums, premium};
use std::alloc::{AllocError, Global};
use valuation::span::span;

// Writes at each place both ends of the span in a state and a year at the premium of that place.
fn fill_spans(
    tables: &Tables,
    state: usize,
    year: usize,
    premiums: &[i64],
    least: &mut [i64],
    greatest: &mut [i64],
)
    requires least { length least.old ≡ length premiums.now }
    requires greatest { length greatest.old ≡ length premiums.now }
    requires premiums { AllBetween (pos 0) (pos limit) premiums.now }
    ensures { SpansAt (transition_table tables.now.basis) (payment_table tables.now.plan)
        state year premiums.now least.new greatest.new }
{
    for (k, entry) in premiums.iter().enumerate() {
        let ends = span(&tables.basis, &tables.plan, premium(*entry), state, year);
        least[k] = ends.least;
        greatest[k] = ends.greatest;
    }
}

// What the export answers, by what it comes to that memory is asked for.
fn answer_spans(
    asked: Result<Tables, AllocError>,
    columns: &Columns,
    state: usize,
    year: usize,
    premiums: &[i64],
    least: &mut [i64],
    greatest: &mut [i64],
) -> u8
    ensures { Spans asked columns.now state year premiums.now
        least.old greatest.old least.new greatest.new result }
{
    if least.len() != premiums.len() || greatest.len() != premiums.len() {
        return UNFIT_PLACES;
    }
    if !all_premiums(premiums) {
        return UNFIT_PREMIUM;
    }
    match columns.tables(asked) {
        Ok(tables) => {
            fill_spans(&tables, state, year, premiums, least, greatest);
            DONE
        }
        Err(number) => number,
    }
}

// The spans in a state and a year, one at each of the premiums.
#[unsafe(no_mangle)]
pub extern "C" fn fineochre_spans(
    heap: Global,
    columns: &Columns,
    state: usize,
    year: usize,
    premiums: &[i64],
    least: &mut [i64],
    greatest: &mut [i64],
) -> u8
    ensures { (asked : Asked) × Spans asked columns.now
        state year premiums.now least.old greatest.old least.new greatest.new result }
{
    answer_spans(
        Tables::new(heap),
        columns,
        state,
        year,
        premiums,
        least,
        greatest,
    )
}
