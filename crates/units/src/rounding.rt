// Rounding of parts of a whole back to wholes.
ghost use Rattle.std.specs.Prelude.{◌≡◌, ◌<◌, ◌%◌};
ghost use Rattle.units.specs.Rounding.{rounded, nearest, ToNearest};

// So many parts, of which an even number make a whole, to the nearest whole: halves upwards, below
// nought too.
pub(crate) fn to_nearest<const PARTS: u32>(amount: i64) -> i64
    requires some { 0 < PARTS }
    requires even { PARTS % 2 ≡ 0 }
    ensures { result ≡ rounded PARTS amount }
{
    let parts = i64::from(PARTS);
    let whole = amount.div_euclid(parts);
    if amount.rem_euclid(parts) < parts / 2 {
        whole
    } else {
        whole + 1
    }
}

// A millionth of an amount, to the nearest whole, halves upwards, below nought too.
pub fn nearest(amount: i64) -> i64
    ensures value { result ≡ nearest amount }
    ensures laws { ToNearest nearest }
{
    to_nearest::<1_000_000>(amount)
}
