// What is paid at the start of a year.
ghost use Rattle.std.specs.Prelude.{◌≡◌};
ghost use Rattle.units.specs.Near.{Within};
ghost use Rattle.units.specs.Ranges.{limit};
ghost use Rattle.valuation.specs.Figures.{flow};

use basis::Basis;
use plan::Plan;
use units::premium::Premium;

// What is paid in a state at the start of a year, less the premium where it is due.
pub(crate) fn flow_of<B: Basis, P: Plan>(
    basis: &B,
    plan: &P,
    premium: Premium,
    state: usize,
    year: usize,
) -> i64
    ensures value { result ≡
        flow (B.meaning basis.now) (P.payments plan.now) premium.ticks state year }
    ensures range { Within limit result }
{
    let benefit = plan.benefit(state, year) as i64;
    if year < basis.years() && plan.due(state, year) {
        benefit - premium.ticks() as i64
    } else {
        benefit
    }
}
