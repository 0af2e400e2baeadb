// The pension with a capital at death and another at the end, over ten years, as a table plan.
ghost use Rattle.std.specs.Prelude.{◌≡◌, ◌++◌, IfOk, MatchResult};
ghost use Rattle.std.specs.List.{repeat};
ghost use Rattle.units.specs.declared.failure.Failure.TheVariants.{NoMemory};
ghost use Rattle.plan.specs.PaymentTables.{Holds};
ghost use Rattle.pension.specs.Capital.{benefits, marks, moves};

use plan::table::PaymentTable;
use std::alloc::{AllocError, Global};
use units::failure::Failure;

// What is paid to the active and the disabled in a year, and in year 10.
const BENEFITS: [i64; 8] = [0, 240_000_000, 0, 0, 0, 0, 0, 0];

const LAST_BENEFITS: [i64; 8] = [100_000_000, 100_000_000, 0, 0, 0, 0, 0, 0];

// The premium is due while active.
const MARKS: [i64; 8] = [1, 0, 0, 0, 0, 0, 0, 0];

// What is paid in a year for a move, those out of one state in a row.
const MOVES: [[i64; 8]; 8] = [
    [0, 0, 500_000_000, 0, 0, 0, 0, 0],
    [0, 0, 500_000_000, 0, 0, 0, 0, 0],
    [0, 0, 0, 0, 0, 0, 0, 0],
    [0, 0, 0, 0, 0, 0, 0, 0],
    [0, 0, 0, 0, 0, 0, 0, 0],
    [0, 0, 0, 0, 0, 0, 0, 0],
    [0, 0, 0, 0, 0, 0, 0, 0],
    [0, 0, 0, 0, 0, 0, 0, 0],
];

// The entries of a year ten times over, and then those of year 10.
fn ten_years(heap: Global, year: &[i64], last: &[i64]) -> Result<Vec<i64>, AllocError>
    ensures { IfOk result (λ v. v.items ≡ repeat 10 year.now ++ last.now) }
{
    let mut column = year.repeat(heap, 10)?;
    column.extend_from_slice(last)?;
    Ok(column)
}

// The columns as a plan.
pub fn pension_with_capital(heap: Global) -> Result<PaymentTable, Failure>
    ensures { MatchResult result (λ s. Holds s 10 benefits marks moves) (λ failure. failure ≡ NoMemory) }
{
    let benefits = ten_years(heap, &BENEFITS, &LAST_BENEFITS)?;
    let marks = ten_years(heap, &MARKS, &[0; 8])?;
    let moves = ten_years(heap, &MOVES.concat(heap)?, &[])?;
    let mut table = PaymentTable::new(heap)?;
    table.take_in(10, &benefits, &marks, &moves)?;
    Ok(table)
}
