// The rows of a year, and the end of a sheet.
ghost use Rattle.std.specs.Prelude.{◌≡◌, ◌≤◌, [], length, sum};
ghost use Rattle.sheet.specs.Checks.{end_line, full_rows};
ghost use Rattle.sheet.specs.Readers.{held, KeepsRows, Takes};

use super::Reader;
use crate::spot::Spot;
use units::MILLION;
use units::fault::Fault;
use units::rule::Rule;

// What the shares of a row come to.
fn total(row: &[u32]) -> u64
    requires { length row.now ≤ 8 }
    ensures { result ≡ sum row.now }
{
    let mut total: u64 = 0;
    for share in row {
        total += u64::from(*share);
    }
    total
}

impl Reader {
    // Whether every row of the last year that has come makes the million.
    fn has_full_rows(&self) -> bool
        ensures { result ≡ full_rows (held self.now) }
    {
        if self.come == 0 {
            return true;
        }
        let year = self.come - 1;
        for state in 0..self.states {
            let row = (year * self.states + state) * self.states;
            if total(&self.shares[row..row + self.states]) != u64::from(MILLION) {
                return false;
            }
        }
        true
    }

    pub(super) fn check_rows(&self, spot: Spot) -> Result<(), Fault>
        ensures { KeepsRows (held self.now) spot result }
    {
        if self.has_full_rows() {
            Ok(())
        } else {
            Err(spot.fault(Rule::Row))
        }
    }

    // `E`
    pub(super) fn take_end(&mut self, spot: Spot) -> Result<(), Fault>
        ensures { Takes (end_line (held self.old) spot) spot [] (held self.new) result }
    {
        if self.years == 0 || self.come != self.years {
            return Err(spot.fault(Rule::Form));
        }
        self.check_rows(spot)?;
        self.next = self.years * self.states * self.states;
        Ok(())
    }
}
