// Answers in plain words, a line each.
use contract::answer::{Altered, Answer, Closed, Left};
use units::fault::Fault;
use units::francs::Francs;
use valuation::span::ends::Ends;

pub(crate) fn print_closed(rt: &HostRuntime, closed: &Closed) -> anyhow::Result<()> {
    let number = closed.number;
    let interest = Francs {
        ticks: closed.interest_result,
    };
    let risk = Francs {
        ticks: closed.risk_result,
    };
    println!(rt; "closed with number {number}, result on interest {interest}, on risk {risk}")?;
    Ok(())
}

pub(crate) fn print_altered(rt: &HostRuntime, altered: &Altered) -> anyhow::Result<()> {
    let number = altered.number;
    let premium = Francs {
        ticks: altered.premium.ticks() as i64,
    };
    let result = Francs {
        ticks: altered.result,
    };
    println!(rt; "altered with number {number}, premium {premium}, result {result}")?;
    Ok(())
}

pub(crate) fn print_left(rt: &HostRuntime, left: &Left) -> anyhow::Result<()> {
    let paid = Francs { ticks: left.paid };
    let result = Francs { ticks: left.result };
    println!(rt; "left, paid {paid}, result {result}")?;
    Ok(())
}

pub(crate) fn print_amount(rt: &HostRuntime, name: &str, ticks: i64) -> anyhow::Result<()> {
    let amount = Francs { ticks };
    println!(rt; "{name} {amount}")?;
    Ok(())
}

pub(crate) fn print_span(rt: &HostRuntime, span: Ends) -> anyhow::Result<()> {
    let least = Francs { ticks: span.least };
    let greatest = Francs {
        ticks: span.greatest,
    };
    println!(rt; "span from {least} to {greatest}")?;
    Ok(())
}

pub(crate) fn print_column(rt: &HostRuntime, name: &str, column: &[i64]) -> anyhow::Result<()> {
    print!(rt; "{name}")?;
    for ticks in column {
        let amount = Francs { ticks: *ticks };
        print!(rt; " {amount}")?;
    }
    println!(rt; "")?;
    Ok(())
}

pub(crate) fn print_fault(rt: &HostRuntime, fault: &Fault) -> anyhow::Result<()> {
    println!(rt; "{fault}")?;
    Ok(())
}

pub(crate) fn print_answer(rt: &HostRuntime, answer: &Answer<i64>) -> anyhow::Result<()> {
    match answer {
        Answer::Closed(closed) => print_closed(rt, closed),
        Answer::Altered(altered) => print_altered(rt, altered),
        Answer::Reserve(ticks) => print_amount(rt, "reserve", *ticks),
        Answer::Span(span) => print_span(rt, *span),
        Answer::Figure(ticks) => print_amount(rt, "figure", *ticks),
        Answer::Course(column) => print_column(rt, "course", column),
        Answer::TooShort { fault, column } => {
            print!(rt; "{fault}, ")?;
            print_column(rt, "and the column still holds", column)
        }
        Answer::Refused(fault) => print_fault(rt, fault),
    }
}

// What a call answers that gives nothing back.
pub(crate) fn print_done(rt: &HostRuntime, outcome: Result<(), Fault>) -> anyhow::Result<()> {
    match outcome {
        Ok(()) => println!(rt; "done")?,
        Err(fault) => print_fault(rt, &fault)?,
    }
    Ok(())
}

pub(crate) fn print_closing(
    rt: &HostRuntime,
    outcome: Result<Closed, Fault>,
) -> anyhow::Result<()> {
    match outcome {
        Ok(closed) => print_closed(rt, &closed),
        Err(fault) => print_fault(rt, &fault),
    }
}

pub(crate) fn print_alteration(
    rt: &HostRuntime,
    outcome: Result<Altered, Fault>,
) -> anyhow::Result<()> {
    match outcome {
        Ok(altered) => print_altered(rt, &altered),
        Err(fault) => print_fault(rt, &fault),
    }
}
