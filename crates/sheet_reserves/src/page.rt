// The page of an endowment's reserves.
ghost use Rattle.std.specs.Prelude.{◌≡◌, ◌++◌, OnOk, pos};
ghost use Rattle.std.specs.String.{string_bytes};
ghost use Rattle.basis.specs.TransitionTables.{transition_table};
ghost use Rattle.plan.specs.Endowments.{endowment};
ghost use Rattle.sheet_reserves.specs.Outcomes.{PageOutcome};
ghost use Rattle.sheet_reserves.specs.Pages.{heading, opening, row, rows, state_heading};

use crate::text::{write_at_right, write_text};
use basis::Basis;
use basis::table::TransitionTable;
use plan::endowment::Endowment;
use sheet::spot::Spot;
use sheet::table::read_into;
use std::alloc::{AllocError, Global};
use streams::input::MOST_BYTES;
use units::failure::Failure;
use units::francs::Francs;
use units::premium::Premium;
use units::rule::Rule;
use valuation::pricing::least_premium;
use valuation::reserve::reserve;

// The sum insured, 1000 francs.
const SUM: i64 = 10_000_000;

fn write_row(
    heap: Global,
    out: &mut String,
    basis: &TransitionTable,
    plan: &Endowment,
    premium: Premium,
    year: usize,
) -> Result<(), AllocError>
    ensures { OnOk result (string_bytes out.new ≡ string_bytes out.old
        ++ row (transition_table basis.now) (endowment plan.now) premium.ticks year) }
{
    write_at_right(out, 4, year.to_string(heap)?.as_str())?;
    for state in 0..basis.states() {
        let ticks = reserve(basis, plan, premium, state, year);
        write_at_right(out, 12, Francs { ticks }.to_string(heap)?.as_str())?;
    }
    write_text(out, "\n")
}

fn write_state_heading(heap: Global, out: &mut String, state: usize) -> Result<(), AllocError>
    ensures { OnOk result (string_bytes out.new ≡ string_bytes out.old ++ state_heading state) }
{
    write_at_right(out, 11, "state ")?;
    write_text(out, state.to_string(heap)?.as_str())
}

fn write_heading(heap: Global, out: &mut String, states: usize) -> Result<(), AllocError>
    ensures { OnOk result (string_bytes out.new ≡ string_bytes out.old ++ heading states) }
{
    write_text(out, "year")?;
    for state in 0..states {
        write_state_heading(heap, out, state)?;
    }
    write_text(out, "\n")
}

fn write_opening(
    heap: Global,
    out: &mut String,
    years: usize,
    premium: Premium,
) -> Result<(), AllocError>
    ensures { OnOk result
        (string_bytes out.new ≡ string_bytes out.old ++ opening years premium.ticks) }
{
    write_text(out, "Endowment of 1000 francs over ")?;
    write_text(out, years.to_string(heap)?.as_str())?;
    write_text(out, " years, yearly premium of ")?;
    let ticks = premium.ticks() as i64;
    write_text(out, Francs { ticks }.to_string(heap)?.as_str())?;
    write_text(out, " francs\n\n")
}

fn write_rows(
    heap: Global,
    out: &mut String,
    basis: &TransitionTable,
    plan: &Endowment,
    premium: Premium,
) -> Result<(), AllocError>
    ensures { OnOk result (string_bytes out.new ≡ string_bytes out.old
        ++ rows (transition_table basis.now) (endowment plan.now) premium.ticks) }
{
    for year in 0..basis.years() + 1 {
        write_row(heap, out, basis, plan, premium, year)?;
    }
    Ok(())
}

// The page for the sheet at the head of an input, or why there is none.
pub(crate) fn page_of(heap: Global, bytes: &[u8]) -> Result<String, Failure>
    ensures { PageOutcome bytes.now result }
{
    let start = Spot { line: 1, offset: 0 };
    if bytes.len() > MOST_BYTES {
        return Err(Failure::Refused(start.fault(Rule::Input)));
    }
    let mut basis = TransitionTable::new(heap)?;
    read_into(&mut basis, bytes)?;
    let years = basis.years();
    let plan = Endowment::new(SUM, years, years)?;
    let premium = least_premium(&basis, &plan, 0, 0, 0)?;
    let mut out = String::new(heap);
    write_opening(heap, &mut out, years, premium)?;
    write_heading(heap, &mut out, basis.states())?;
    write_rows(heap, &mut out, &basis, &plan, premium)?;
    Ok(out)
}
