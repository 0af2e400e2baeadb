// A contract that stands in year 3 while active, asked and taken further call by call until it is left.
use crate::plans::{YEARS, pension};
use crate::show::{
    print_alteration, print_amount, print_closing, print_column, print_fault, print_left,
    print_span,
};
use basis::table::TransitionTable;
use contract::contract::Contract;
use plan::annuity::Annuity;
use valuation::span::valuation::Span;

type Standing<'a> = Contract<'a, TransitionTable, Annuity>;

// Its course is nine reserves, in a column that is one short and in one that is long enough.
fn print_questions(rt: &HostRuntime, contract: &Standing<'_>) -> anyhow::Result<()> {
    print_amount(rt, "reserve", contract.reserve())?;
    print_span(rt, contract.span())?;
    print!(rt; "figure in the span: ")?;
    print_span(rt, contract.figure(&Span))?;
    for length in [8, 9] {
        let mut column = vec![in rt.alloc(); 10_000; length]?;
        match contract.course(&mut column) {
            Ok(()) => print_column(rt, "course", &column)?,
            Err(fault) => print_fault(rt, &fault)?,
        }
    }
    Ok(())
}

fn print_alterations(rt: &HostRuntime, contract: &mut Standing<'_>) -> anyhow::Result<()> {
    for (ticks, paying_years) in [(480_000_000, 0), (300_000_000, YEARS)] {
        print!(rt; "alter: ")?;
        print_alteration(rt, contract.alter(pension(ticks, paying_years)?))?;
    }
    Ok(())
}

// It dies, and the dead never come back. Then no year is left.
fn print_closings(rt: &HostRuntime, contract: &mut Standing<'_>) -> anyhow::Result<()> {
    let cases = [
        (8, 500_001),
        (2, 500_001),
        (2, -500_001),
        (2, 500_000),
        (0, -500_000),
        (2, -500_000),
        (8, 500_001),
    ];
    for (end, rate) in cases {
        print!(rt; "close in state {end} at a rate of {rate}: ")?;
        print_closing(rt, contract.close(end, rate))?;
    }
    Ok(())
}

pub(crate) fn print_standing(rt: &HostRuntime, mut contract: Standing<'_>) -> anyhow::Result<()> {
    print_questions(rt, &contract)?;
    print_alterations(rt, &mut contract)?;
    print_closings(rt, &mut contract)?;
    print_left(rt, &contract.leave())
}
