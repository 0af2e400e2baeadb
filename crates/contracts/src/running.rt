// Cases that are run.
use crate::plans::{YEARS, pension};
use crate::requests::{all_requests, print_request};
use crate::show::{print_answer, print_left};
use crate::standing::print_standing;
use basis::table::TransitionTable;
use contract::answer::Answer;
use contract::case::{Case, End, Run};
use contract::request::Request;
use contract::run::run;
use plan::annuity::Annuity;
use units::francs::Francs;
use valuation::mean::Mean;

// The yearly pension of the cases, and the deposit of the whole case, in ticks.
const PENSION: i64 = 240_000_000;

const DEPOSIT: i64 = 5_000_000;

fn print_answers(rt: &HostRuntime, answers: &[Answer<i64>]) -> anyhow::Result<()> {
    for (index, answer) in answers.iter().enumerate() {
        let number = index + 1;
        print!(rt; "{number}. ")?;
        print_answer(rt, answer)?;
    }
    Ok(())
}

// Uses up what came of a case.
fn print_run(
    rt: &HostRuntime,
    outcome: Run<'_, TransitionTable, Annuity>,
    answers: &[Answer<i64>],
) -> anyhow::Result<()> {
    let premium = Francs {
        ticks: outcome.premium.ticks() as i64,
    };
    let result = Francs {
        ticks: outcome.opening_result,
    };
    println!(rt; "issued at a premium of {premium}, result {result}")?;
    print_answers(rt, answers)?;
    match outcome.end {
        End::Left(left) => print_left(rt, &left),
        End::Stands(contract) => print_standing(rt, contract),
    }
}

fn print_case(
    rt: &HostRuntime,
    basis: &TransitionTable,
    case: Case<Annuity>,
) -> anyhow::Result<()> {
    let mut answers = Vec::new(rt.alloc());
    match run(&Mean, basis, case, &mut answers) {
        Ok(outcome) => print_run(rt, outcome, &answers)?,
        Err(failure) => println!(rt; "{failure}")?,
    }
    Ok(())
}

pub(crate) fn print_refused_cases(rt: &HostRuntime, basis: &TransitionTable) -> anyhow::Result<()> {
    println!(rt; "Cases that are not issued")?;
    // paying years, start state, deposit
    for (paying_years, start, deposit) in [(0, 3, -100), (0, 1, -100), (0, 1, 0)] {
        let case = Case {
            plan: pension(PENSION, paying_years)?,
            start,
            deposit,
            requests: Vec::new(rt.alloc()),
            leaves: true,
        };
        print_case(rt, basis, case)?;
    }
    Ok(())
}

// One is left at once, with a reserve below nought, and one while disabled, with a reserve above.
pub(crate) fn print_left_cases(rt: &HostRuntime, basis: &TransitionTable) -> anyhow::Result<()> {
    println!(rt; "Cases that are left")?;
    for closings in [0, 1] {
        let mut requests = Vec::new(rt.alloc());
        for _closing in 0..closings {
            requests.push(Request::Close { end: 1, rate: 0 })?;
        }
        let case = Case {
            plan: pension(PENSION, YEARS)?,
            start: 0,
            deposit: 0,
            requests,
            leaves: true,
        };
        print_case(rt, basis, case)?;
    }
    Ok(())
}

pub(crate) fn print_whole_case(rt: &HostRuntime, basis: &TransitionTable) -> anyhow::Result<()> {
    let requests = all_requests(rt.alloc())?;
    println!(rt; "A case of {} requests", requests.len())?;
    for (index, request) in requests.iter().enumerate() {
        let number = index + 1;
        print!(rt; "{number}. ")?;
        print_request(rt, request)?;
    }
    println!(rt; "")?;
    println!(rt; "Its answers, and the contract that stands then")?;
    let case = Case {
        plan: pension(PENSION, YEARS)?,
        start: 0,
        deposit: DEPOSIT,
        requests,
        leaves: false,
    };
    print_case(rt, basis, case)
}
