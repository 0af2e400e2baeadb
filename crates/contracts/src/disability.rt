// A disability basis over five years, at three per cent: state 0 is active, 1 disabled, 2 dead.
ghost use Rattle.std.specs.Prelude.{◌≡◌, MatchResult};
ghost use Rattle.units.specs.declared.failure.Failure.TheVariants.{NoMemory};
ghost use Rattle.basis.specs.TransitionTables.{Holds};
ghost use Rattle.contracts.specs.Disability.{factors, shares};

use basis::table::TransitionTable;
use std::alloc::Global;
use units::failure::Failure;

// The shares out of active, disabled and dead, year by year.
const SHARES: [[i64; 3]; 15] = [
    [987_000, 9_000, 4_000],
    [30_000, 956_000, 14_000],
    [0, 0, 1_000_000],
    [985_500, 10_000, 4_500],
    [26_000, 959_500, 14_500],
    [0, 0, 1_000_000],
    [984_000, 11_000, 5_000],
    [22_000, 963_000, 15_000],
    [0, 0, 1_000_000],
    [982_500, 12_000, 5_500],
    [18_000, 966_500, 15_500],
    [0, 0, 1_000_000],
    [981_000, 13_000, 6_000],
    [14_000, 970_000, 16_000],
    [0, 0, 1_000_000],
];

// A million over one and three hundredths, to the nearest.
const FACTORS: [i64; 5] = [970_874; 5];

// The columns as a basis.
pub(crate) fn disability(heap: Global) -> Result<TransitionTable, Failure>
    ensures { MatchResult result (λ s. Holds s 3 factors shares) (λ failure. failure ≡ NoMemory) }
{
    let shares = SHARES.concat(heap)?;
    let mut table = TransitionTable::new(heap)?;
    table.take_in(3, 5, &FACTORS, &shares)?;
    Ok(table)
}
