// What comes of a command.
ghost use Rattle.std.specs.Prelude.{◌≡◌, ℕ, pos, Option, Some, None};
ghost use Rattle.contract.specs.ContractStates.{standing};
ghost use Rattle.contract.specs.Standings.{Ledger};
ghost use Rattle.desk.specs.Commands.{Command as Meant, issue, close, alter, leave};
ghost use Rattle.desk.specs.Meanings.{Means};
ghost use Rattle.desk.specs.Serving.{Keeps, CarriesOut};
ghost use Rattle.desk.specs.Sessions.{told_at};

use crate::command::Command;
use crate::reply::Reply;
use basis::table::TransitionTable;
use contract::answer::Left;
use contract::case::Issued;
use contract::contract::Contract;
use contract::run::issue;
use plan::endowment::Endowment;
use sheet::spot::Spot;
use units::fault::{Fault, Place};
use units::rule::Rule;

// The contract that the desk holds.
pub(crate) type HeldContract<'a> = Contract<'a, TransitionTable, Endowment>;

// A refusal in a line: a fault in the text is told where it stands, and one of the contract at the
// line.
pub(crate) fn refusal(spot: Spot, fault: Fault) -> Reply
    ensures { result ≡ told_at spot fault }
{
    let number = fault.number;
    match fault.place {
        Place::Text { line, offset } => Reply::Refused {
            number,
            line,
            offset,
        },
        Place::Entry { .. } => Reply::Refused {
            number,
            line: spot.line,
            offset: spot.offset,
        },
    }
}

// Issues an endowment in state 0.
fn issue_endowment(
    basis: &TransitionTable,
    spot: Spot,
    plan: Endowment,
    deposit: i64,
) -> (Option<HeldContract<'_>>, Reply)
    ensures { (d : ℕ) → pos d ≡ deposit → CarriesOut basis.now spot None
        (issue plan.sum.ticks plan.term plan.paying_years d) result }
{
    match issue(basis, plan, 0, deposit) {
        Ok(
            Issued {
                contract,
                premium,
                reserve,
                opening_result,
            },
        ) => {
            let reply = Reply::Issued {
                premium: premium.ticks() as i64,
                reserve,
                result: opening_result,
            };
            (Some(contract), reply)
        }
        Err(fault) => (None, refusal(spot, fault)),
    }
}

// Closes the year of the contract.
fn close_year(
    contract: HeldContract<'_>,
    spot: Spot,
    end: usize,
    rate: i64,
) -> (Option<HeldContract<'_>>, Reply)
    ensures { (l : Ledger) → standing contract.entry ≡ l.stands →
        CarriesOut contract.entry.basis.now spot (Some l) (close end rate) result }
{
    let mut contract = contract;
    match contract.close(end, rate) {
        Ok(closed) => {
            let reply = Reply::Closed {
                number: closed.number,
                year: closed.year,
                interest_result: closed.interest_result,
                risk_result: closed.risk_result,
                reserve: closed.reserve,
            };
            (Some(contract), reply)
        }
        Err(fault) => (Some(contract), refusal(spot, fault)),
    }
}

// Alters the plan of the contract.
fn alter_plan(
    contract: HeldContract<'_>,
    spot: Spot,
    plan: Endowment,
) -> (Option<HeldContract<'_>>, Reply)
    ensures { (l : Ledger) → standing contract.entry ≡ l.stands →
        CarriesOut contract.entry.basis.now spot (Some l)
        (alter plan.sum.ticks plan.term plan.paying_years) result }
{
    let mut contract = contract;
    match contract.alter(plan) {
        Ok(altered) => {
            let reply = Reply::Altered {
                number: altered.number,
                premium: altered.premium.ticks() as i64,
                reserve: altered.reserve,
                result: altered.result,
            };
            (Some(contract), reply)
        }
        Err(fault) => (Some(contract), refusal(spot, fault)),
    }
}

// Leaves the contract.
fn leave_contract(contract: HeldContract<'_>, spot: Spot) -> (Option<HeldContract<'_>>, Reply)
    ensures { (l : Ledger) → standing contract.entry ≡ l.stands →
        CarriesOut contract.entry.basis.now spot (Some l) leave result }
{
    let Left { paid, result } = contract.leave();
    (None, Reply::Left { paid, result })
}

// Carries out a command where no contract is held: only an issue is in its place.
fn begin(basis: &TransitionTable, spot: Spot, command: Command) -> (Option<HeldContract<'_>>, Reply)
    ensures { (c : Meant) → Means command c → CarriesOut basis.now spot None c result }
{
    match command {
        Command::Issue { plan, deposit } => issue_endowment(basis, spot, plan, deposit),
        _ => (None, refusal(spot, spot.fault(Rule::Standing))),
    }
}

// Carries out a command on the contract that is held: only an issue is out of its place.
fn go_on(
    contract: HeldContract<'_>,
    spot: Spot,
    command: Command,
) -> (Option<HeldContract<'_>>, Reply)
    ensures { (c : Meant) (l : Ledger) → Means command c → standing contract.entry ≡ l.stands →
        CarriesOut contract.entry.basis.now spot (Some l) c result }
{
    match command {
        Command::Close { state, rate } => close_year(contract, spot, state, rate),
        Command::Alter { plan } => alter_plan(contract, spot, plan),
        Command::Leave => leave_contract(contract, spot),
        Command::Issue { .. } => (Some(contract), refusal(spot, spot.fault(Rule::Standing))),
    }
}

// Carries out the command of the line at a spot, and gives the contract that is held then.
pub(crate) fn serve<'a>(
    basis: &'a TransitionTable,
    held: Option<HeldContract<'a>>,
    spot: Spot,
    command: Command,
) -> (Option<HeldContract<'a>>, Reply)
    ensures { (c : Meant) (kept : Option Ledger) → Means command c →
        Keeps basis.now held.entry kept → CarriesOut basis.now spot kept c result }
{
    match held {
        None => begin(basis, spot, command),
        Some(contract) => go_on(contract, spot, command),
    }
}
