// The check of the shares, row by row.
ghost use Rattle.std.specs.Prelude.{◌/◌, ◌<◌, ◌≤◌, ◌↔◌, IsTrue, length, MatchOption};
ghost use Rattle.basis.specs.TransitionColumns.{LawfulRow, LawfulBelow, row};

use units::MILLION;

// Whether the shares out of one state in one year lie from 0 to a million and add up to a million.
fn is_lawful(shares: &[i64]) -> bool
    requires { length shares.now ≤ 8 }
    ensures { IsTrue result ↔ LawfulRow shares.now }
{
    let mut sum = 0;
    for share in shares {
        if *share < 0 || *share > i64::from(MILLION) {
            return false;
        }
        sum += *share as u32;
    }
    sum == MILLION
}

// The number of the first row that is unlawful.
pub(super) fn first_unlawful(shares: &[i64], states: usize) -> Option<usize>
    requires some { 0 < states }
    requires few { states ≤ 8 }
    ensures { MatchOption result (LawfulBelow states shares.now (length shares.now / states)) (λ found. (found < length shares.now / states) × (LawfulRow (row states shares.now found) → ⊥) × LawfulBelow states shares.now found) }
{
    shares.chunks_exact(states).position(
        |row: &[i64]| -> bool
            requires { length row.now ≤ 8 }
        { !is_lawful(row) },
    )
}
