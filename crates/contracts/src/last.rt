// The last number that a closing or an alteration is given.
use crate::plans::{YEARS, pension};
use crate::show::{print_alteration, print_closing, print_left};
use basis::table::TransitionTable;
use contract::proposal::Proposal;

const PENSION: i64 = 240_000_000;

pub(crate) fn print_last_number(rt: &HostRuntime, basis: &TransitionTable) -> anyhow::Result<()> {
    println!(rt; "A contract that is altered 9998 times, always to its own plan")?;
    let plan = pension(PENSION, YEARS)?;
    let mut proposal = Proposal::new(basis, plan);
    let _premium = proposal.price()?;
    let mut contract = proposal.issue().contract;
    for _time in 0..9_998 {
        let _altered = contract.alter(plan)?;
    }
    for (end, rate) in [(0, 0), (8, 0), (0, 500_001), (0, 0)] {
        print!(rt; "close in state {end} at a rate of {rate}: ")?;
        print_closing(rt, contract.close(end, rate))?;
    }
    for (ticks, paying_years) in [(PENSION, YEARS), (480_000_000, 0)] {
        print!(rt; "alter: ")?;
        print_alteration(rt, contract.alter(pension(ticks, paying_years)?))?;
    }
    print_left(rt, &contract.leave())
}
