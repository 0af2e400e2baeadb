// Shows contracts from their proposal to their end: what is asked of them, and what they answer.
#![tactic(auto)]

mod books;
mod disability;
mod keeping;
mod last;
mod plans;
mod proposing;
mod requests;
mod running;
mod show;
mod standing;

use disability::disability;

fn print_contracts(rt: &HostRuntime) -> anyhow::Result<()> {
    let basis = disability(rt.alloc())?;
    println!(rt;
        "Contracts on a disability basis over 5 years: state 0 is active, 1 disabled, 2 dead"
    )?;
    println!(rt; "")?;
    proposing::print_proposals(rt, &basis)?;
    println!(rt; "")?;
    running::print_refused_cases(rt, &basis)?;
    println!(rt; "")?;
    running::print_left_cases(rt, &basis)?;
    println!(rt; "")?;
    running::print_whole_case(rt, &basis)?;
    println!(rt; "")?;
    last::print_last_number(rt, &basis)?;
    println!(rt; "")?;
    keeping::print_kept(rt, &basis)
}

fn main(rt: HostRuntime) -> anyhow::Result<()> {
    print_contracts(&rt)
}
