// A disability pension over three years: state 0 is active, 1 disabled, 2 dead.
ghost use Rattle.std.specs.Prelude.{◌≡◌, MatchResult};
ghost use Rattle.units.specs.declared.failure.Failure.TheVariants.{NoMemory};
ghost use Rattle.basis.specs.TransitionTables.{Holds};
ghost use Rattle.figures.specs.ThreeStates.{factors, shares};

use crate::show::{print_course, print_premium, print_refusal, print_spans};
use basis::table::TransitionTable;
use plan::annuity::Annuity;
use std::alloc::Global;
use units::failure::Failure;
use units::premium::Premium;
use valuation::course::course;
use valuation::pricing::least_premium;

// The shares out of active, disabled and dead, the same in every year.
const SHARES: [i64; 9] = [
    900_000, 70_000, 30_000, 200_000, 750_000, 50_000, 0, 0, 1_000_000,
];

const FACTORS: [i64; 3] = [970_000; 3];

const PENSION: i64 = 120_000_000;

// The state in which the pension is paid, and its years.
const DISABLED: usize = 1;

const YEARS: usize = 3;

// The table of three states and three years.
fn three_states(heap: Global) -> Result<TransitionTable, Failure>
    ensures { MatchResult result (λ s. Holds s 3 factors shares) (λ failure. failure ≡ NoMemory) }
{
    let shares = SHARES.repeat(heap, YEARS)?;
    let mut table = TransitionTable::new(heap)?;
    table.take_in(3, YEARS, &FACTORS, &shares)?;
    Ok(table)
}

// The refusal of the course from year 1 on, which is nine reserves, in a column of eight, and what that column holds then.
fn print_short_course(
    rt: &HostRuntime,
    basis: &TransitionTable,
    plan: &Annuity,
    premium: Premium,
) -> anyhow::Result<()> {
    println!(rt; "The same course into a column one entry short")?;
    let mut column = [1, 2, 3, 4, 5, 6, 7, 8];
    print_refusal(rt, course(basis, plan, premium, 1, &mut column))?;
    print!(rt; "the column still holds")?;
    for entry in column {
        print!(rt; " {entry}")?;
    }
    println!(rt; "")?;
    Ok(())
}

pub(crate) fn print_pension(rt: &HostRuntime) -> anyhow::Result<()> {
    println!(rt; "Disability pension of 120000000 ticks over 3 years, premium due while active")?;
    let basis = three_states(rt.alloc())?;
    let plan = Annuity::new(PENSION, DISABLED, 0, YEARS, YEARS)?;
    let premium = least_premium(&basis, &plan, 0, 0, 0)?;
    print_premium(rt, &basis, &plan, premium)?;
    println!(rt; "")?;
    println!(rt; "Its reserves and spans in year 0")?;
    print_spans(rt, &basis, &plan, premium)?;
    println!(rt; "")?;
    println!(rt; "Its course from year 1")?;
    print_course(rt, &basis, &plan, premium, 1, &mut [0; 9])?;
    println!(rt; "")?;
    print_short_course(rt, &basis, &plan, premium)
}
