// The last year of a life table, and the year after.
ghost use Rattle.std.specs.Prelude.{◌≡◌, MatchResult};
ghost use Rattle.units.specs.declared.failure.Failure.TheVariants.{NoMemory};
ghost use Rattle.basis.specs.LifeTables.{Holds};
ghost use Rattle.figures.specs.Lives.{deaths, factor};

use basis::Basis;
use basis::life::{LifeTable, MOST_YEARS};
use std::alloc::Global;
use std::array;
use units::failure::Failure;

// A million over one and a fiftieth, to the nearest.
const FACTOR: i64 = 980_392;

// How many of a million die in each year: a thousand in year 0, and five thousand more in each later year.
fn deaths_by_rule() -> [i64; MOST_YEARS]
    ensures { result ≡ deaths }
{
    array::from_fn(|year| 1_000 + 5_000 * year as i64)
}

// The longest life table.
fn longest(heap: Global) -> Result<LifeTable, Failure>
    ensures { MatchResult result (λ s. Holds s deaths factor) (λ failure. failure ≡ NoMemory) }
{
    let mut table = LifeTable::new(heap)?;
    table.take_in(&deaths_by_rule(), FACTOR)?;
    Ok(table)
}

pub(crate) fn print_lives(rt: &HostRuntime) -> anyhow::Result<()> {
    println!(rt; "Life table over 120 years, in year t of which 1000 + 5000 t of a million die")?;
    println!(rt; "year       dying      factor")?;
    let basis = longest(rt.alloc())?;
    for year in [119, 120] {
        let dying = basis.share(0, 1, year);
        let factor = basis.factor(year);
        println!(rt; "{year:>4}{dying:>12}{factor:>12}")?;
    }
    Ok(())
}
