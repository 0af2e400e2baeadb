// The worked case: an endowment over two years, with a premium and without.
ghost use Rattle.std.specs.Prelude.{◌≡◌, MatchResult};
ghost use Rattle.units.specs.declared.failure.Failure.TheVariants.{NoMemory};
ghost use Rattle.basis.specs.LifeTables.{Holds};
ghost use Rattle.figures.specs.TwoYears.{deaths, factor};

use crate::closing::print_closings;
use crate::show::{print_course, print_premium, print_refusal, print_spans};
use basis::life::LifeTable;
use plan::endowment::Endowment;
use std::alloc::Global;
use units::failure::Failure;
use valuation::pricing::least_premium;

// A tenth and then a fifth of the living die, at a factor of nine tenths.
const DEATHS: [i64; 2] = [100_000, 200_000];

const FACTOR: i64 = 900_000;

const SUM: i64 = 1_000_000;

const TERM: usize = 2;

// The table of two years.
fn two_years(heap: Global) -> Result<LifeTable, Failure>
    ensures { MatchResult result (λ s. Holds s deaths factor) (λ failure. failure ≡ NoMemory) }
{
    let mut table = LifeTable::new(heap)?;
    table.take_in(&DEATHS, FACTOR)?;
    Ok(table)
}

fn print_with_premium(rt: &HostRuntime, basis: &LifeTable) -> anyhow::Result<()> {
    println!(rt; "Endowment of 1000000 ticks over 2 years, premium due in both")?;
    let plan = Endowment::new(SUM, TERM, TERM)?;
    let premium = least_premium(basis, &plan, 0, 0, 0)?;
    print_premium(rt, basis, &plan, premium)?;
    println!(rt; "")?;
    println!(rt; "Its reserves and spans in year 0")?;
    print_spans(rt, basis, &plan, premium)?;
    println!(rt; "")?;
    println!(rt; "Its course from year 0")?;
    print_course(rt, basis, &plan, premium, 0, &mut [0; 6])
}

fn print_without_premium(rt: &HostRuntime, basis: &LifeTable) -> anyhow::Result<()> {
    println!(rt; "The same endowment, premium never due")?;
    let plan = Endowment::new(SUM, TERM, 0)?;
    print_refusal(rt, least_premium(basis, &plan, 0, 0, 0))
}

// The first year of the endowment with a premium, closed.
pub(crate) fn print_first_year(rt: &HostRuntime) -> anyhow::Result<()> {
    println!(rt;
        "The endowment over 2 years, issued at its least premium, and year 0 closed in state 0"
    )?;
    let basis = two_years(rt.alloc())?;
    let plan = Endowment::new(SUM, TERM, TERM)?;
    print_closings(rt, &basis, plan)
}

pub(crate) fn print_endowment(rt: &HostRuntime) -> anyhow::Result<()> {
    let basis = two_years(rt.alloc())?;
    print_with_premium(rt, &basis)?;
    println!(rt; "")?;
    print_without_premium(rt, &basis)
}
