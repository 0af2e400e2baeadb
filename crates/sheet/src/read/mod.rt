// Reading a sheet into columns.
ghost use Rattle.std.specs.Prelude.{◌≡◌, ℕ, List, IsOkAnd, IfOk, IfErr, Err};
ghost use Rattle.units.specs.declared.fault.Fault.{Fault};
ghost use Rattle.sheet.specs.Faults.{Refuses, InText};
ghost use Rattle.sheet.specs.Fields.{bytes_of};
ghost use Rattle.sheet.specs.Readers.{held};
ghost use Rattle.sheet.specs.Reading.{nothing_yet};
ghost use Rattle.sheet.specs.Readings.{lengths, IsRestAfter, ReadsLines, IsRead, ReadsSheet};
ghost use Rattle.sheet.specs.Sheets.{Sheet, IsSheet, basis_of};
ghost use Rattle.sheet.specs.Texts.{text_of};
ghost use Rattle.sheet.specs.WorkedSheet.{worked_sheet, worked_text};

use crate::columns::Columns;
use crate::part::Part;
use crate::reader::Reader;
use crate::reading::Reading;
use units::fault::Fault;

// Takes line after line up to the end of the sheet, and gives what stands after it.
fn read_lines<'a>(bytes: &'a [u8], reader: &mut Reader, columns: Columns) -> Result<Part<'a>, Fault>
    requires { held reader.old ≡ nothing_yet }
    ensures outcome { ReadsLines columns bytes.now (held reader.new) result }
    ensures rest { IfOk result (λ rest. (before : List ℕ) × IsRestAfter before bytes.now rest) }
{
    let mut text = Part::new(bytes);
    loop {
        let (line, rest) = text.first_line()?;
        if reader.take(line, columns)? {
            return Ok(rest);
        }
        text = rest;
    }
}

// Reads a sheet at the head of the input into the first places of the columns, or says which line
// first breaks a rule, and which rule, and leaves the columns as they were.
pub fn read<'a>(
    bytes: &'a [u8],
    factors: &mut [i64],
    shares: &mut [i64],
) -> Result<Reading<'a>, Fault>
    ensures answer { ReadsSheet bytes.now factors.old shares.old factors.new shares.new result }
    ensures every_sheet { (s : Sheet) (rest : List ℕ) →
        IsSheet (lengths factors.old shares.old) bytes.now s rest →
        IsOkAnd result (λ reading. (bytes_of reading.rest ≡ rest)
        × IsRead bytes.now factors.old shares.old factors.new shares.new reading s) }
    ensures every_fault { (fault : Fault) →
        Refuses (lengths factors.old shares.old) bytes.now fault → result ≡ Err fault }
    ensures told { IfErr result (InText 2 8) }
    ensures worked { text_of (basis_of worked_sheet) ≡ worked_text }
{
    let columns = Columns {
        factors: factors.len(),
        shares: shares.len(),
    };
    let mut reader = Reader::new();
    let rest = read_lines(bytes, &mut reader, columns)?;
    reader.fill(factors, shares);
    Ok(Reading {
        states: reader.states(),
        years: reader.years(),
        rest,
    })
}
