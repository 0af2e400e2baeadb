// The beginning.
ghost use Rattle.std.specs.Prelude.{◌≡◌};
ghost use Rattle.sheet.specs.Readers.{held};
ghost use Rattle.sheet.specs.Reading.{nothing_yet};

use super::{MOST_SHARES, Reader};
use units::MOST_YEARS;

impl Reader {
    // Before the first line.
    pub(crate) fn new() -> Reader
        ensures { held result ≡ nothing_yet }
    {
        Reader {
            states: 0,
            years: 0,
            come: 0,
            next: 0,
            factors: [0; MOST_YEARS],
            shares: [0; MOST_SHARES],
        }
    }
}
