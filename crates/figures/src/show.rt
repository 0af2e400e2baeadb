// What is printed of every contract.
use crate::issue::reserve_at_issue;
use basis::Basis;
use plan::Plan;
use units::fault::Fault;
use units::premium::Premium;
use valuation::course::course;
use valuation::reserve::reserve;
use valuation::span::span;

// A premium, and the reserves at issue a tick below it and at it.
pub(crate) fn print_premium<B: Basis, P: Plan>(
    rt: &HostRuntime,
    basis: &B,
    plan: &P,
    premium: Premium,
) -> anyhow::Result<()> {
    let least = premium.ticks() as i64;
    println!(rt; "least premium with V(0,0) not above 0: {least}")?;
    for ticks in [least - 1, least] {
        let reserve = reserve_at_issue(basis, plan, ticks)?;
        println!(rt; "V(0,0) at a premium of {ticks}: {reserve}")?;
    }
    Ok(())
}

// The reserves and the spans of all states in year 0.
pub(crate) fn print_spans<B: Basis, P: Plan>(
    rt: &HostRuntime,
    basis: &B,
    plan: &P,
    premium: Premium,
) -> anyhow::Result<()> {
    println!(rt; "state     reserve       least    greatest")?;
    for state in 0..basis.states() {
        let reserve = reserve(basis, plan, premium, state, 0);
        let ends = span(basis, plan, premium, state, 0);
        let least = ends.least;
        let greatest = ends.greatest;
        println!(rt; "{state:>5}{reserve:>12}{least:>12}{greatest:>12}")?;
    }
    Ok(())
}

fn print_heading(rt: &HostRuntime, states: usize) -> anyhow::Result<()> {
    print!(rt; "year")?;
    for state in 0..states {
        print!(rt; "{:>11}{state}", "state ")?;
    }
    println!(rt; "")?;
    Ok(())
}

fn print_row(rt: &HostRuntime, year: usize, row: &[i64]) -> anyhow::Result<()> {
    print!(rt; "{year:>4}")?;
    for ticks in row {
        print!(rt; "{ticks:>12}")?;
    }
    println!(rt; "")?;
    Ok(())
}

// The course from a year on, a line for each year, by way of a column that is as long.
pub(crate) fn print_course<B: Basis, P: Plan>(
    rt: &HostRuntime,
    basis: &B,
    plan: &P,
    premium: Premium,
    first: usize,
    column: &mut [i64],
) -> anyhow::Result<()> {
    course(basis, plan, premium, first, column)?;
    let states = basis.states();
    print_heading(rt, states)?;
    let rows = column.chunks_exact(states);
    for (year, row) in (first..=basis.years()).zip(rows) {
        print_row(rt, year, row)?;
    }
    Ok(())
}

// What a call was refused with.
pub(crate) fn print_refusal<T: Drop>(
    rt: &HostRuntime,
    outcome: Result<T, Fault>,
) -> anyhow::Result<()> {
    match outcome {
        Ok(_) => println!(rt; "not refused")?,
        Err(fault) => println!(rt; "{fault}")?,
    }
    Ok(())
}
