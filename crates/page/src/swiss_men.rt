// The table of Swiss insured men of 1995, ages 0 to 119, at two and a half per cent.
ghost use Rattle.std.specs.Prelude.{◌≡◌, MatchResult};
ghost use Rattle.units.specs.declared.failure.Failure.TheVariants.{NoMemory};
ghost use Rattle.basis.specs.LifeTables.{Holds};
ghost use Rattle.page.specs.SwissMen.{deaths, factor};

use basis::life::LifeTable;
use std::alloc::Global;
use units::failure::Failure;

// How many of a million men of each age die within the year.
const DEATHS: [i64; 120] = [
    3096, 1177, 805, 719, 643, 577, 522, 478, 446, 427, 422, 431, 453, 496, 591, 772, 1067, 1475,
    1888, 2177, 2254, 2174, 2028, 1863, 1714, 1593, 1497, 1421, 1365, 1327, 1305, 1297, 1302, 1318,
    1342, 1374, 1411, 1469, 1539, 1623, 1724, 1843, 1984, 2148, 2340, 2561, 2813, 3098, 3417, 3773,
    4166, 4598, 5070, 5587, 6154, 6777, 7451, 8177, 8959, 9815, 10752, 11746, 12788, 13908, 15062,
    16271, 17551, 18905, 20333, 21838, 23423, 25106, 26970, 29115, 31639, 34642, 38220, 42471,
    47492, 53380, 60230, 67782, 75670, 83909, 92497, 101436, 110725, 120365, 130355, 140695,
    151386, 162427, 173818, 185559, 197651, 210092, 222884, 236025, 249516, 263356, 277546, 292085,
    306973, 322211, 337797, 353732, 370015, 386646, 403626, 420953, 438628, 456650, 475019, 493735,
    512797, 532205, 551959, 572058, 592501, 613289,
];

// A million over one and a fortieth, to the nearest.
const FACTOR: i64 = 975_610;

// The table as a basis, from birth on.
pub fn swiss_men(heap: Global) -> Result<LifeTable, Failure>
    ensures { MatchResult result (λ s. Holds s deaths factor) (λ failure. failure ≡ NoMemory) }
{
    let mut table = LifeTable::new(heap)?;
    table.take_in(&DEATHS, FACTOR)?;
    Ok(table)
}
