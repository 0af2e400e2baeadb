// Prints the reserves of a disability pension in every state and year, as an annuity and with a capital besides.
#![tactic(auto)]

mod capital;
mod disability;

use basis::Basis;
use basis::table::TransitionTable;
use capital::pension_with_capital;
use disability::disability;
use plan::Plan;
use plan::annuity::Annuity;
use units::francs::Francs;
use units::premium::Premium;
use valuation::reserve::reserve;

// The yearly pension, and the yearly premiums without and with a capital, in ticks.
const PENSION: i64 = 240_000_000;

const PENSION_PREMIUM: i64 = 4_152_700;

const CAPITAL_PREMIUM: i64 = 13_768_900;

// The state in which the pension is paid, and its years.
const DISABLED: usize = 1;

const YEARS: usize = 10;

// A row of figures as in the other program, of which the two share no crate.
fn print_year<P: Plan>(
    rt: &HostRuntime,
    basis: &TransitionTable,
    plan: &P,
    premium: Premium,
    year: usize,
) -> anyhow::Result<()> {
    print!(rt; "{year:>4}")?;
    for state in 0..basis.states() {
        let ticks = reserve(basis, plan, premium, state, year);
        let text = Francs { ticks }.to_string(rt.alloc())?;
        print!(rt; "{text:>12}")?;
    }
    println!(rt; "")?;
    Ok(())
}

fn print_reserves<P: Plan>(
    rt: &HostRuntime,
    basis: &TransitionTable,
    plan: &P,
    ticks: i64,
) -> anyhow::Result<()> {
    let text = Francs { ticks }.to_string(rt.alloc())?;
    println!(rt; "yearly premium of {text} francs while active")?;
    println!(rt; "")?;
    println!(rt; "year      active    disabled        dead")?;
    let premium = Premium::try_from(ticks)?;
    for year in 0..=YEARS {
        print_year(rt, basis, plan, premium, year)?;
    }
    Ok(())
}

fn print_both(rt: &HostRuntime) -> anyhow::Result<()> {
    let basis = disability(rt.alloc())?;
    println!(rt; "Disability pension of 24000 francs over 10 years")?;
    let pension = Annuity::new(PENSION, DISABLED, 0, YEARS, YEARS)?;
    print_reserves(rt, &basis, &pension, PENSION_PREMIUM)?;
    println!(rt; "")?;
    println!(rt; "The pension with 50000 francs at death and 10000 at the end")?;
    let with_capital = pension_with_capital(rt.alloc())?;
    print_reserves(rt, &basis, &with_capital, CAPITAL_PREMIUM)
}

fn main(rt: HostRuntime) -> anyhow::Result<()> {
    print_both(&rt)
}
