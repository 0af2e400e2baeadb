// Prints a page of net single premiums over a life table, and the reserves of one contract year by year.
#![tactic(auto)]

mod premiums;
mod swiss_men;

use basis::life::LifeTable;
use basis::shift::AgeShift;
use plan::endowment::Endowment;
use premiums::single_premium;
use swiss_men::swiss_men;
use units::francs::Francs;
use units::premium::Premium;
use valuation::reserve::reserve;

// The page: an age to a row, a term to a column.
const AGES: [usize; 10] = [20, 25, 30, 35, 40, 45, 50, 55, 60, 65];

const TERMS: [usize; 6] = [5, 10, 15, 20, 25, 30];

// The contract: a man of 50, 50000 francs, five years, a yearly premium of 9375.22 francs.
const AGE: usize = 50;

const SUM: i64 = 500_000_000;

const TERM: usize = 5;

const PREMIUM: i64 = 93_752_200;

// A row of figures as in the other program, of which the two share no crate.
fn print_row(rt: &HostRuntime, lives: &AgeShift<LifeTable>, age: usize) -> anyhow::Result<()> {
    print!(rt; "{age:>3}")?;
    for term in TERMS {
        let ticks = single_premium(lives, term)?;
        let text = Francs { ticks }.to_string(rt.alloc())?;
        print!(rt; "{text:>10}")?;
    }
    println!(rt; "")?;
    Ok(())
}

fn print_premiums(rt: &HostRuntime, lives: &mut AgeShift<LifeTable>) -> anyhow::Result<()> {
    println!(rt; "Net single premium of an endowment of 1000 francs")?;
    println!(rt; "Swiss insured men 1995, 2.5 per cent")?;
    println!(rt; "")?;
    print!(rt; "age")?;
    for term in TERMS {
        print!(rt; "{term:>4} years")?;
    }
    println!(rt; "")?;
    for age in AGES {
        lives.shift_to(age);
        print_row(rt, lives, age)?;
    }
    Ok(())
}

fn print_reserves(rt: &HostRuntime, lives: &mut AgeShift<LifeTable>) -> anyhow::Result<()> {
    println!(rt; "Reserve of a man of 50, endowment of 50000 francs over 5 years")?;
    println!(rt; "yearly premium of 9375.22 francs")?;
    println!(rt; "")?;
    println!(rt; "year     reserve")?;
    lives.shift_to(AGE);
    let plan = Endowment::new(SUM, TERM, TERM)?;
    let premium = Premium::try_from(PREMIUM)?;
    for year in 0..=TERM {
        let ticks = reserve(lives, &plan, premium, 0, year);
        let text = Francs { ticks }.to_string(rt.alloc())?;
        println!(rt; "{year:>4}{text:>12}")?;
    }
    Ok(())
}

fn print_page(rt: &HostRuntime) -> anyhow::Result<()> {
    let mut lives = AgeShift::new(swiss_men(rt.alloc())?, 0);
    print_premiums(rt, &mut lives)?;
    println!(rt; "")?;
    print_reserves(rt, &mut lives)
}

fn main(rt: HostRuntime) -> anyhow::Result<()> {
    print_page(&rt)
}
