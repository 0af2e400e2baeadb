// A contract that is taken to its end call by call, with books kept of it.
use crate::books::Books;
use crate::plans::capital;
use crate::show::{print_altered, print_amount, print_closed, print_left};
use basis::table::TransitionTable;
use contract::contract::Contract;
use contract::proposal::Proposal;
use plan::endowment::Endowment;

// The capital at issue and the deposit, in ticks.
const CAPITAL: i64 = 500_000_000;

const DEPOSIT: i64 = 10_000_000;

#[derive(Drop)]
struct Kept<'a> {
    contract: Contract<'a, TransitionTable, Endowment>,
    books: Books,
}

fn print_balance(rt: &HostRuntime, books: &Books) -> anyhow::Result<()> {
    let Books {
        premiums,
        interest,
        benefits,
        results,
        carried,
    } = *books;
    let left = books.kept_of(DEPOSIT);
    let right = results.saturating_add(carried);
    print!(rt;
        "books in ticks: deposit {DEPOSIT} + premiums {premiums} + interest earned {interest}"
    )?;
    print!(rt; " - benefits {benefits} = {left}, ")?;
    println!(rt; "results {results} + reserve carried {carried} = {right}")?;
    Ok(())
}

fn issue<'a>(rt: &HostRuntime, basis: &'a TransitionTable) -> anyhow::Result<Kept<'a>> {
    let mut proposal = Proposal::new(basis, capital(CAPITAL)?);
    proposal.deposit(DEPOSIT)?;
    let _premium = proposal.price()?;
    let issued = proposal.issue();
    print_amount(rt, "issued at a premium of", issued.premium.ticks() as i64)?;
    Ok(Kept {
        contract: issued.contract,
        books: Books::new(issued.opening_result, issued.reserve),
    })
}

// Closes the year by a move between two states.
fn close(
    rt: &HostRuntime,
    kept: &mut Kept<'_>,
    (from, to): (usize, usize),
    rate: i64,
) -> anyhow::Result<()> {
    let closed = kept.contract.close(to, rate)?;
    kept.books.post_year(&closed);
    let year = closed.year;
    print!(rt; "year {year}, from state {from} to {to} at a rate of {rate}: ")?;
    print_closed(rt, &closed)
}

fn alter(rt: &HostRuntime, kept: &mut Kept<'_>, ticks: i64) -> anyhow::Result<()> {
    let altered = kept.contract.alter(capital(ticks)?)?;
    kept.books.post_alteration(&altered);
    print_amount(rt, "another capital of", ticks)?;
    print_altered(rt, &altered)
}

fn leave(rt: &HostRuntime, kept: Kept<'_>) -> anyhow::Result<()> {
    let Kept {
        contract,
        mut books,
    } = kept;
    let left = contract.leave();
    books.post_leaving(&left);
    print_left(rt, &left)?;
    print_balance(rt, &books)
}

// Active for two years, disabled for one, and active to the end.
pub(crate) fn print_kept(rt: &HostRuntime, basis: &TransitionTable) -> anyhow::Result<()> {
    println!(rt;
        "A capital of 50000 francs to those who become disabled or are active at the end, with its books"
    )?;
    let mut kept = issue(rt, basis)?;
    close(rt, &mut kept, (0, 0), 25_000)?;
    alter(rt, &mut kept, 800_000_000)?;
    close(rt, &mut kept, (0, 0), -10_000)?;
    print_balance(rt, &kept.books)?;
    close(rt, &mut kept, (0, 1), 30_000)?;
    alter(rt, &mut kept, 200_000_000)?;
    close(rt, &mut kept, (1, 0), 500_000)?;
    close(rt, &mut kept, (0, 0), -500_000)?;
    leave(rt, kept)
}
