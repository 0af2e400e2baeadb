// Checks of the columns that callers hand in.
ghost use Rattle.std.specs.Prelude.{◌<◌, MatchOption};
ghost use Rattle.units.specs.Columns.{AllBetween, FirstOutside};

// The place of the first entry that is not from `low` to `high`. A `for` over elements with their
// index stops at the first bad one.
pub fn first_outside(column: &[i64], low: i64, high: i64) -> Option<usize>
    ensures { MatchOption result (AllBetween low high column.now) (λ t. FirstOutside low high column.now t) }
{
    for (t, entry) in column.iter().enumerate() {
        if *entry < low || *entry > high {
            return Some(t);
        }
    }
    None
}
