// What a search for a premium finds.
ghost use Rattle.units.specs.Near.{Within};

use units::premium::Premium;

// A premium, and the reserve at it.
#[derive(Clone, Copy, PartialEq, Eq, Debug)]
pub struct Priced {
    pub premium: Premium,
    pub reserve: i64,
    ghost range: { Within 5000000000000 reserve },
}
