// Running a case.
ghost use Rattle.std.specs.Prelude.{◌≡◌, ◌+◌, ◌≤◌, vec_items, vec_len, vec_capacity, OnErr};
ghost use Rattle.valuation.specs.Means.{mean, mean_ends};
ghost use Rattle.contract.specs.Calls.{Goes};
ghost use Rattle.contract.specs.Cases.{IssuesOn, RunsCase, Finishes};
ghost use Rattle.contract.specs.Promises.{Promise};
ghost use Rattle.contract.specs.WorkedRun.{WorkedRun};

use crate::answer::Answer;
use crate::case::{Case, End, Issued, Run};
use crate::contract::Contract;
use crate::proposal::Proposal;
use crate::request::Request;
use basis::Basis;
use plan::Plan;
use units::failure::Failure;
use units::fault::Fault;
use valuation::Valuation;

// Places a proposal, deposits on it, prices it and issues it.
pub fn issue<'a, B: Basis, P: Plan + Drop>(
    basis: &'a B,
    plan: P,
    start: usize,
    deposit: i64,
) -> Result<Issued<'a, B, P>, Fault>
    ensures answer { IssuesOn basis.now plan start deposit result }
    ensures promise { Promise (B.meaning basis.now) mean_ends mean }
{
    let mut proposal = Proposal::new(basis, plan);
    proposal.place(start)?;
    proposal.deposit(deposit)?;
    proposal.issue_at_least_premium()
}

// Answers every request in its order.
fn answer_all<V: Valuation, B: Basis, P: Plan + Drop>(
    valuation: &V,
    contract: &mut Contract<'_, B, P>,
    requests: Vec<Request<P>>,
    answers: &mut Vec<Answer<V::Figure>>,
)
    requires room { vec_len answers.old + vec_len requests ≤ vec_capacity answers.old }
    ensures { Goes (V.operations valuation.now) contract.old (vec_items requests)
        (vec_items answers.old) (vec_items answers.new) contract.new }
{
    for request in requests {
        let answer = contract.answer(valuation, request);
        answers.push_reserved(answer);
    }
}

// The end of a contract that is left, or goes on.
fn end_of<B: Basis, P: Plan + Drop>(contract: Contract<'_, B, P>, leaves: bool) -> End<'_, B, P>
    ensures { Finishes contract.entry leaves result }
{
    if leaves {
        End::Left(contract.leave())
    } else {
        End::Stands(contract)
    }
}

// Issues the contract of a case at its least premium, and answers every request in its order, each
// acting on the contract as it stands then; the answers go behind those that are there.
pub fn run<'a, V: Valuation, B: Basis, P: Plan + Drop>(
    valuation: &V,
    basis: &'a B,
    case: Case<P>,
    answers: &mut Vec<Answer<V::Figure>>,
) -> Result<Run<'a, B, P>, Failure>
    ensures answer { RunsCase (V.operations valuation.now)
        basis.now case answers.old answers.new result }
    ensures unchanged { OnErr result (vec_items answers.new ≡ vec_items answers.old) }
    ensures promise { Promise (B.meaning basis.now) V.ends (V.operations valuation.now) }
    ensures worked { WorkedRun }
{
    let Case {
        plan,
        start,
        deposit,
        requests,
        leaves,
    } = case;
    let Issued {
        mut contract,
        premium,
        opening_result,
        ..
    } = issue(basis, plan, start, deposit)?;
    answers.reserve(requests.len())?;
    answer_all(valuation, &mut contract, requests, answers);
    Ok(Run {
        premium,
        opening_result,
        end: end_of(contract, leaves),
    })
}
