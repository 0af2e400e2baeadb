// A year in which nothing has to saturate: what has to be tested of the figures of the year after
// is tested once, and their type tells it.
ghost use Rattle.std.specs.Prelude.{◌≡◌, ◌<◌, length, IfSome};
ghost use Rattle.valuation.specs.Room.{AllRoomy};

use crate::within::{Roomy, all_roomy};
use basis::Basis;
use plan::Plan;
use units::premium::Premium;

// A year that the basis has, where the figures of all states a year later leave room.
#[derive(Drop)]
pub(crate) struct ExactYear<'a, F: Roomy, B: Basis, P: Plan> {
    pub(crate) basis: &'a B,
    pub(crate) plan: &'a P,
    pub(crate) premium: Premium,
    pub(crate) year: usize,
    pub(crate) after: &'a [F],
    ghost early: { year < (B.meaning basis.now).years },
    ghost fits: { length after.now ≡ (B.meaning basis.now).states },
    ghost roomy: { AllRoomy F.leaves_room F.nothing after.now } by { Prim.hlevel F.is_fact },
}

impl<'a, F: Roomy, B: Basis, P: Plan> ExactYear<'a, F, B, P> {
    // Nothing where the year is none of the basis, or a figure leaves no room.
    pub(crate) fn new(
        basis: &'a B,
        plan: &'a P,
        premium: Premium,
        year: usize,
        after: &'a [F],
    ) -> Option<ExactYear<'a, F, B, P>>
        ensures { IfSome result (λ exact. (exact.basis.now ≡ basis.now) ×
            (exact.plan.now ≡ plan.now) × (exact.premium ≡ premium) × (exact.year ≡ year) ×
            (exact.after.now ≡ after.now)) }
    {
        if year >= basis.years() || after.len() != basis.states() || !all_roomy(after) {
            return None;
        }
        Some(ExactYear {
            basis,
            plan,
            premium,
            year,
            after,
        })
    }
}
