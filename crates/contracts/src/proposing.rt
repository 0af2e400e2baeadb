// Proposals: placing, depositing, pricing and issuing.
use crate::plans::{YEARS, pension};
use crate::show::{print_amount, print_done, print_fault};
use basis::table::TransitionTable;
use contract::proposal::Proposal;
use plan::annuity::Annuity;
use units::fault::Fault;
use units::francs::Francs;
use units::premium::Premium;

// The yearly pension of a proposal, and its deposit, in ticks.
const PENSION: i64 = 240_000_000;

const DEPOSIT: i64 = 5_000_000;

fn print_pricing(rt: &HostRuntime, outcome: Result<Premium, Fault>) -> anyhow::Result<()> {
    print!(rt; "price: ")?;
    match outcome {
        Ok(premium) => print_amount(rt, "premium", premium.ticks() as i64),
        Err(fault) => print_fault(rt, &fault),
    }
}

// Uses the proposal up.
fn print_issue(
    rt: &HostRuntime,
    proposal: Proposal<'_, TransitionTable, Annuity>,
) -> anyhow::Result<()> {
    let issued = proposal.issue();
    let reserve = Francs {
        ticks: issued.reserve,
    };
    let result = Francs {
        ticks: issued.opening_result,
    };
    println!(rt; "issue: reserve {reserve}, result {result}")?;
    Ok(())
}

fn print_priced(rt: &HostRuntime, basis: &TransitionTable) -> anyhow::Result<()> {
    println!(rt; "A pension of 24000 francs, premium due while active")?;
    let mut proposal = Proposal::new(basis, pension(PENSION, YEARS)?);
    for state in [3, 1, 3, 0] {
        print!(rt; "place in state {state}: ")?;
        print_done(rt, proposal.place(state))?;
    }
    for ticks in [-100, 10_000_000_100, 10_000_000_000, DEPOSIT] {
        let amount = Francs { ticks };
        print!(rt; "deposit {amount}: ")?;
        print_done(rt, proposal.deposit(ticks))?;
    }
    print_pricing(rt, proposal.price())?;
    print_issue(rt, proposal)
}

// The refused pricing leaves the premium at nought.
fn print_unpriced(rt: &HostRuntime, basis: &TransitionTable) -> anyhow::Result<()> {
    println!(rt; "The same to a disabled, premium never due")?;
    let mut proposal = Proposal::new(basis, pension(PENSION, 0)?);
    proposal.place(1)?;
    print_pricing(rt, proposal.price())?;
    print_issue(rt, proposal)
}

pub(crate) fn print_proposals(rt: &HostRuntime, basis: &TransitionTable) -> anyhow::Result<()> {
    print_priced(rt, basis)?;
    println!(rt; "")?;
    print_unpriced(rt, basis)
}
