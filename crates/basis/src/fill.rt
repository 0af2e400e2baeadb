// Writing a checked column over the shares or factors that a table has.
ghost use Rattle.std.specs.Prelude.{◌≡◌, ◌≤◌, map, length, pos, vec_capacity};
ghost use Rattle.units.specs.Ranges.{million};
ghost use Rattle.units.specs.Columns.{AllBetween};

// Puts the entries of `column` in place of those of `parts`, within the memory that they have. A
// public function may ask nothing of its callers, so the crates cannot share one that asks for
// entries it can keep.
pub(crate) fn refill(parts: &mut Vec<u32>, column: &[i64])
    requires checked { AllBetween (pos 0) (pos million) column.now }
    requires room { length column.now ≤ vec_capacity parts.old }
    ensures items { map pos parts.new.items ≡ column.now }
    ensures capacity { vec_capacity parts.new ≡ vec_capacity parts.old }
{
    parts.clear();
    for entry in column {
        parts.push_reserved(*entry as u32);
    }
}
