// Steps back by a year of figures that leave room, so that nothing saturates.
ghost use Rattle.std.specs.Prelude.{◌≡◌, ◌≤◌, ◌↔◌, pos, IsTrue};
ghost use Rattle.std.proofs.Props.{props};
ghost use Rattle.units.specs.Near.{Within};
ghost use Rattle.units.specs.Ranges.{million, limit};
ghost use Rattle.valuation.specs.Means.{mean};
ghost use Rattle.valuation.specs.Room.{IsRoomy, nought_is_roomy, AllRoomy};

use crate::rounding::round_near_discount;

// Amounts in a figure leave room for another: a million times their sum is near enough to nought.
const ROOMY: i64 = 4_580_000_000_000;

// Figures of which it can be told whether they leave room.
pub(crate) trait Roomy: Copy {
    ghost leaves_room: { Self → Type 0 };

    ghost is_fact: { (figure : Self) → IsProp (leaves_room figure) };

    // The figure of nothing, which does.
    ghost nothing: { Self };

    ghost nothing_leaves_room: { leaves_room nothing };

    fn is_roomy(self) -> bool
        ensures { IsTrue result ↔ leaves_room self };
}

impl Roomy for i64 {
    ghost leaves_room = { IsRoomy };

    ghost is_fact = { λ figure. Prim.hlevel props };

    ghost nothing = { pos 0 };

    ghost nothing_leaves_room = { nought_is_roomy };

    fn is_roomy(self) -> bool {
        -ROOMY <= self && self <= ROOMY
    }
}

// Whether all figures leave room. A loop of its own, so that no test breaks off a sum.
pub(crate) fn all_roomy<F: Roomy>(after: &[F]) -> bool
    ensures { IsTrue result ↔ AllRoomy F.leaves_room F.nothing after.now }
{
    for figure in after {
        if !figure.is_roomy() {
            return false;
        }
    }
    true
}

// What a figure a year later comes to, discounted and with a flow.
pub(crate) fn brought_back(factor: u32, figure: i64, flow: i64) -> i64
    requires factor { factor ≤ million }
    requires figure { Within 4590000000000 figure }
    requires flow { Within limit flow }
    ensures { result ≡ mean.add (mean.discount factor figure) flow }
{
    round_near_discount(i64::from(factor) * figure) + flow
}
