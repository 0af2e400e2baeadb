// A disability basis over ten years, at three and a half per cent: state 0 is active, 1 disabled, 2 dead.
ghost use Rattle.std.specs.Prelude.{◌≡◌, MatchResult};
ghost use Rattle.units.specs.declared.failure.Failure.TheVariants.{NoMemory};
ghost use Rattle.basis.specs.TransitionTables.{Holds};
ghost use Rattle.pension.specs.Disability.{factors, shares};

use basis::table::TransitionTable;
use std::alloc::Global;
use units::failure::Failure;

// The shares out of active, disabled and dead, year by year. The rates change evenly from one year to the next.
const SHARES: [[i64; 3]; 30] = [
    [995_100, 3_400, 1_500],
    [50_000, 940_500, 9_500],
    [0, 0, 1_000_000],
    [994_360, 3_850, 1_790],
    [47_500, 942_710, 9_790],
    [0, 0, 1_000_000],
    [993_620, 4_300, 2_080],
    [45_000, 944_920, 10_080],
    [0, 0, 1_000_000],
    [992_880, 4_750, 2_370],
    [42_500, 947_130, 10_370],
    [0, 0, 1_000_000],
    [992_140, 5_200, 2_660],
    [40_000, 949_340, 10_660],
    [0, 0, 1_000_000],
    [991_400, 5_650, 2_950],
    [37_500, 951_550, 10_950],
    [0, 0, 1_000_000],
    [990_660, 6_100, 3_240],
    [35_000, 953_760, 11_240],
    [0, 0, 1_000_000],
    [989_920, 6_550, 3_530],
    [32_500, 955_970, 11_530],
    [0, 0, 1_000_000],
    [989_180, 7_000, 3_820],
    [30_000, 958_180, 11_820],
    [0, 0, 1_000_000],
    [988_440, 7_450, 4_110],
    [27_500, 960_390, 12_110],
    [0, 0, 1_000_000],
];

// A million over one and seven two-hundredths, to the nearest.
const FACTORS: [i64; 10] = [966_184; 10];

// The columns as a basis.
pub fn disability(heap: Global) -> Result<TransitionTable, Failure>
    ensures { MatchResult result (λ s. Holds s 3 factors shares) (λ failure. failure ≡ NoMemory) }
{
    let shares = SHARES.concat(heap)?;
    let mut table = TransitionTable::new(heap)?;
    table.take_in(3, 10, &FACTORS, &shares)?;
    Ok(table)
}
