// A sheet, read into a table.
ghost use Rattle.std.specs.Prelude.{◌≡◌, ℕ, List, IsOkAnd, Err};
ghost use Rattle.units.specs.declared.fault.Fault.{Fault};
ghost use Rattle.basis.specs.TransitionTables.{KeepsCapacity};
ghost use Rattle.sheet.specs.Faults.{Refuses};
ghost use Rattle.sheet.specs.Fields.{bytes_of};
ghost use Rattle.sheet.specs.Sheets.{Sheet, IsSheet};
ghost use Rattle.sheet.specs.Taken.{most, IsTaken, ReadsInto};

use crate::part::Part;
use crate::read::read;
use basis::table::TransitionTable;
use units::fault::Fault;
use units::{MOST_STATES, MOST_YEARS};

// Reads the sheet at the head of the input into a table, and gives what stands after it. It wants
// no memory. What is refused is refused in reading: a table takes in every sheet that is read.
pub fn read_into<'a>(table: &mut TransitionTable, bytes: &'a [u8]) -> Result<Part<'a>, Fault>
    ensures answer { ReadsInto bytes.now table.old table.new result }
    ensures every_sheet { (s : Sheet) (rest : List ℕ) → IsSheet most bytes.now s rest →
        IsOkAnd result (λ part. (bytes_of part ≡ rest) × IsTaken bytes.now table.new part s) }
    ensures every_fault { (fault : Fault) → Refuses most bytes.now fault →
        (result ≡ Err fault) × (table.new ≡ table.old) }
    ensures capacity { KeepsCapacity table.old table.new }
{
    let mut factors = [0; MOST_YEARS];
    let mut shares = [0; MOST_YEARS * MOST_STATES * MOST_STATES];
    let reading = read(bytes, &mut factors, &mut shares)?;
    let (m, n) = (reading.states, reading.years);
    table.take_in(m, n, &factors[..n], &shares[..n * m * m])?;
    Ok(reading.rest)
}
