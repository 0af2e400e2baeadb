// Contracts on a case worked by hand: two years, a tenth and then a fifth of the living die, a
// factor of nine tenths, an endowment of 1,000,000 ticks over both years with the premium due in
// both.
mod altering;
mod asking;
mod closing;
mod numbers;
mod printed;
mod proposing;
mod running;
mod undiscounted;

use basis::life::LifeTable;
use contract::answer::Closed;
use contract::contract::Contract;
use contract::proposal::Proposal;
use plan::endowment::Endowment;
use std::process::Abort;
use std::test::Fail;
use units::fault::{Fault, Layer};

pub(crate) type EndowmentContract<'a> = Contract<'a, LifeTable, Endowment>;

pub(crate) fn two_years(rt: &HostRuntime) -> Result<LifeTable, Fail> {
    let mut table = LifeTable::new(rt.alloc())?;
    table.take_in(&[100_000, 200_000], 900_000)?;
    Ok(table)
}

// Issued on a deposit, in a start state.
pub(crate) fn issued<'a>(
    table: &'a LifeTable,
    plan: Endowment,
    start: usize,
    deposit: i64,
) -> Result<EndowmentContract<'a>, Fail> {
    let mut proposal = Proposal::new(table, plan);
    proposal.place(start)?;
    proposal.deposit(deposit)?;
    let _premium = proposal.price()?;
    Ok(proposal.issue().contract)
}

// Of the case, issued in state 0 with no deposit.
pub(crate) fn worked(table: &LifeTable) -> Result<EndowmentContract<'_>, Fail> {
    issued(table, Endowment::new(1_000_000, 2, 2)?, 0, 0)
}

pub(crate) fn fault(number: u8, year: usize, state: usize) -> Fault {
    Fault::at_entry(number, Layer::Contract, year, state)
}

pub(crate) fn stands(rt: &impl Abort, contract: &EndowmentContract<'_>, reserve: i64) {
    assert_eq!(rt; contract.reserve(), reserve);
}

// A closing, by its number and its results on interest and on risk.
pub(crate) fn closes(
    rt: &impl Abort,
    contract: &mut EndowmentContract<'_>,
    end: usize,
    rate: i64,
    outcome: Result<(u16, i64, i64), Fault>,
) {
    let closed = contract.close(end, rate).map(|year| (
        year.number,
        year.interest_result,
        year.risk_result,
    ));
    assert_eq!(rt; closed, outcome, "{end} {rate}");
}

// Closings that are refused at a year and a state, by end state, rate and number: they change
// nothing.
pub(crate) fn refuses(
    rt: &impl Abort,
    contract: &mut EndowmentContract<'_>,
    year: usize,
    state: usize,
    cases: &[(usize, i64, u8)],
) {
    let before = (contract.reserve(), contract.span());
    for (end, rate, number) in cases {
        let refusal = contract.close(*end, *rate);
        assert_eq!(rt; refusal, Err(fault(*number, year, state)), "{end} {rate}");
        assert_eq!(rt;
            (contract.reserve(), contract.span()),
            before,
            "{end} {rate}"
        );
    }
}

// An alteration to an endowment of this sum, term and paying years, by its number, premium and
// result.
pub(crate) fn alters(
    rt: &impl Abort,
    contract: &mut EndowmentContract<'_>,
    terms: (i64, usize, usize),
    outcome: Result<(u16, u64, i64), Fault>,
) -> Result<(), Fail> {
    let (sum, term, paying) = terms;
    let altered = contract
        .alter(Endowment::new(sum, term, paying)?)
        .map(|year| (year.number, year.premium.ticks(), year.result));
    assert_eq!(rt; altered, outcome, "{sum} {term} {paying}");
    Ok(())
}

// The year in which he lives, at twelve per cent.
pub(crate) fn lived() -> Closed {
    Closed {
        number: 1,
        year: 0,
        premium: 452_487,
        benefits: 0,
        interest_earned: 54_298,
        interest_result: 4_022,
        risk_result: 55_249,
        reserve: 447_513,
    }
}

// The year after, in which he dies, at one per cent below nought.
pub(crate) fn died() -> Closed {
    Closed {
        number: 2,
        year: 1,
        premium: 452_487,
        benefits: 1_000_000,
        interest_earned: -9_000,
        interest_result: -109_000,
        risk_result: 0,
        reserve: 0,
    }
}
