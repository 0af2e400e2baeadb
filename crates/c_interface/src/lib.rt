// The engine for callers in C: each export takes columns, makes tables of them and calls the
// library, but for the one that reads a sheet into columns. A call answers 0 where it is done.
// Otherwise it answers the number of a rule, or one of those that stand for no rule, and writes
// nothing but where a sheet is at fault. The calls stand for C in `fineochre.h`.
#![tactic(auto)]

ghost use Rattle.std.specs.Prelude.{◌≡◌, ◌↔◌, IsTrue, pos};
ghost use Rattle.units.specs.Columns.{AllBetween};
ghost use Rattle.units.specs.Ranges.{limit, WithinLimit};

pub mod columns;
pub mod courses;
pub mod premiums;
pub mod reserves;
pub mod sheets;
pub mod spans;

use units::LIMIT;
use units::columns::first_outside;
use units::premium::Premium;

const DONE: u8 = 0;

// There are not as many places to write to as there are entries to answer.
const UNFIT_PLACES: u8 = 253;

// A premium is outside 0 to the limit.
const UNFIT_PREMIUM: u8 = 254;

fn all_premiums(column: &[i64]) -> bool
    ensures { IsTrue result ↔ AllBetween (pos 0) (pos limit) column.now }
{
    first_outside(column, 0, LIMIT as i64).is_none()
}

// The premium of an entry that was checked.
fn premium(entry: i64) -> Premium
    requires { WithinLimit entry }
    ensures { pos result.ticks ≡ entry }
{
    Premium::new(entry).unwrap()
}
