// Prints figures for comparison, all in ticks (premiums, reserves, spans, courses and a closing),
// sheets at their bounds, and refusals.
#![tactic(auto)]

mod closing;
mod endowment;
mod issue;
mod lives;
mod pension;
mod sheet_text;
mod sheets;
mod show;
mod staying;

fn print_figures(rt: &HostRuntime) -> anyhow::Result<()> {
    endowment::print_endowment(rt)?;
    println!(rt; "")?;
    lives::print_lives(rt)?;
    println!(rt; "")?;
    pension::print_pension(rt)?;
    println!(rt; "")?;
    sheets::print_sheets(rt)?;
    println!(rt; "")?;
    endowment::print_first_year(rt)
}

fn main(rt: HostRuntime) -> anyhow::Result<()> {
    print_figures(&rt)
}
