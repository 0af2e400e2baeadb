// One line of a sheet.
ghost use Rattle.sheet.specs.Outcomes.{LeadsOn};
ghost use Rattle.sheet.specs.Readers.{held};

use super::Reader;
use crate::columns::Columns;
use crate::line::Line;
use crate::part::Part;
use units::fault::Fault;
use units::rule::Rule;

impl Reader {
    // Takes a line if it breaks no rule, and says whether it ends the sheet.
    pub(crate) fn take(&mut self, whole: Part<'_>, columns: Columns) -> Result<bool, Fault>
        ensures { LeadsOn columns (held self.old) whole.entry (held self.new) result }
    {
        let spot = whole.spot;
        match Line::split(whole)? {
            Line::Basis { states, years } => self.take_basis(spot, states, years, columns)?,
            Line::Year { year, factor } => self.take_year(spot, year, factor)?,
            Line::Move {
                year,
                from,
                to,
                share,
            } => self.take_move(spot, year, from, to, share)?,
            Line::End => {
                self.take_end(spot)?;
                return Ok(true);
            }
            _ => return Err(spot.fault(Rule::Form)),
        }
        Ok(false)
    }
}
