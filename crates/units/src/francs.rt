// Amounts for a reader: francs with two decimals, written by hand since no derive writes them.
ghost use Rattle.std.specs.Prelude.{◌≡◌, Some};
ghost use Rattle.units.specs.Francs.{hundredths, francs};

use crate::rounding::to_nearest;
use crate::unpadded::write_unpadded;
use std::fmt;

// An amount in ticks, shown in francs.
#[derive(Clone, Copy)]
pub struct Francs {
    pub ticks: i64,
}

// Ticks in hundredths of a franc, to the nearest, halves upwards.
fn hundredths_of(ticks: i64) -> i64
    ensures { result ≡ hundredths ticks }
{
    to_nearest::<100>(ticks)
}

impl fmt::Display for Francs {
    ghost output = { λ x. Some (francs x.ticks) };

    ghost styled_output = { λ x _. Some (francs x.ticks) };

    fn fmt<W: fmt::Write>(&self, f: &mut fmt::Formatter<W>) -> fmt::Result {
        let hundredths = hundredths_of(self.ticks);
        let size = hundredths.unsigned_abs();
        let whole = size / 100;
        let part = size % 100;
        if hundredths < 0 {
            write_unpadded(f, format_args!("-{whole}.{part:02}"))
        } else {
            write_unpadded(f, format_args!("{whole}.{part:02}"))
        }
    }
}
