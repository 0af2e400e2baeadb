// A basis from the text of a sheet.
ghost use Rattle.std.specs.Prelude.{ℕ, List};
ghost use Rattle.units.specs.declared.fault.Fault.{Fault};
ghost use Rattle.sheet.specs.Faults.{Refuses};
ghost use Rattle.sheet.specs.Readings.{lengths};
ghost use Rattle.sheet.specs.Sheets.{Sheet, IsSheet};
ghost use Rattle.c_interface.specs.SheetOutcomes.{IsSheetRead, IsSheetRefused, SheetOutcome};

use crate::DONE;
use sheet::read::read;
use units::fault::Place;

// What C is told of a sheet: its numbers, and the line and the offset where the rest of the input
// begins, or where a fault stands.
#[derive(Clone, Copy)]
#[repr(C)]
pub struct SheetReport {
    pub states: usize,
    pub years: usize,
    pub line: usize,
    pub offset: usize,
}

// Reads a sheet at the head of the bytes into the first places of the columns. A refusal leaves
// them as they were, and in the report the states and years too.
#[unsafe(no_mangle)]
pub extern "C" fn fineochre_read_sheet(
    bytes: &[u8],
    factors: &mut [i64],
    shares: &mut [i64],
    report: &mut SheetReport,
) -> u8
    ensures answer { SheetOutcome bytes.now factors.old shares.old
        factors.new shares.new report.old report.new result }
    ensures every_sheet { (s : Sheet) (rest : List ℕ)
        → IsSheet (lengths factors.old shares.old) bytes.now s rest
        → IsSheetRead bytes.now factors.old shares.old
        factors.new shares.new report.old report.new result s rest }
    ensures every_fault { (fault : Fault)
        → Refuses (lengths factors.old shares.old) bytes.now fault
        → IsSheetRefused bytes.now factors.old shares.old
        factors.new shares.new report.old report.new result fault }
{
    match read(bytes, factors, shares) {
        Ok(reading) => {
            let spot = reading.rest.spot();
            *report = SheetReport {
                states: reading.states,
                years: reading.years,
                line: spot.line,
                offset: spot.offset,
            };
            DONE
        }
        Err(fault) => {
            // All faults of a sheet stand in its text.
            if let Place::Text { line, offset } = fault.place {
                report.line = line;
                report.offset = offset;
            }
            fault.number
        }
    }
}
