// What closing a year works from, of any basis and plan.
ghost use Rattle.valuation.specs.Closings.{AreClosingValues};

use super::Move;
use crate::mean::Mean;
use crate::sweep::Sweep;
use basis::Basis;
use plan::Plan;
use units::premium::Premium;

// The discounted join and the join in the state and year in which a move begins, as a pair, and the
// reserve of the state that it leads to a year later.
#[tactic(auto, using(crate::specs::Orders::mean_ordered))]
pub fn closing_values<B: Basis, P: Plan>(
    step: &Move<'_, B>,
    plan: &P,
    premium: Premium,
) -> ((i64, i64), i64)
    ensures { AreClosingValues step.now (P.payments plan.now) premium.ticks result }
{
    let sweep = Sweep {
        valuation: &Mean,
        basis: step.basis,
        plan,
        premium,
    };
    sweep.ahead_of(step.from, step.year, step.to)
}
