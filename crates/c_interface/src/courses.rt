// The course of a contract at a premium.
ghost use Rattle.c_interface.specs.Columns.{Asked};
ghost use Rattle.c_interface.specs.Outcomes.{Course};

use crate::columns::{Columns, Tables};
use crate::{DONE, UNFIT_PREMIUM};
use std::alloc::{AllocError, Global};
use units::premium::Premium;
use valuation::course::course;

// What the export answers, by what it comes to that memory is asked for.
fn answer_course(
    asked: Result<Tables, AllocError>,
    columns: &Columns,
    premium: i64,
    year: usize,
    column: &mut [i64],
) -> u8
    ensures { Course asked columns.now premium year column.old column.new result }
{
    let Some(premium) = Premium::new(premium) else {
        return UNFIT_PREMIUM;
    };
    match columns.tables(asked) {
        Ok(tables) => match course(&tables.basis, &tables.plan, premium, year, column) {
            Ok(()) => DONE,
            Err(fault) => fault.number,
        },
        Err(number) => number,
    }
}

// The course from a year on. A column that is too short for it is refused as the library refuses
// it.
#[unsafe(no_mangle)]
pub extern "C" fn fineochre_course(
    heap: Global,
    columns: &Columns,
    premium: i64,
    year: usize,
    column: &mut [i64],
) -> u8
    ensures { (asked : Asked) × Course asked columns.now
        premium year column.old column.new result }
{
    answer_course(Tables::new(heap), columns, premium, year, column)
}
