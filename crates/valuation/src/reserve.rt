// The reserve of any basis and plan.
ghost use Rattle.std.specs.Prelude.{◌≡◌, ◌<◌, ◌≤◌};
ghost use Rattle.units.specs.Near.{Within};
ghost use Rattle.valuation.specs.Comparisons.{NowhereValuedLower, NeverRaisedByPremium};
ghost use Rattle.valuation.specs.Exact.{NearExact};
ghost use Rattle.valuation.specs.Figures.{IsFigureOf};
ghost use Rattle.valuation.specs.Means.{mean, mean_ends};
ghost use Rattle.valuation.specs.Reserves.{reserve};
ghost use Rattle.valuation.specs.WorkedCase.{worked_basis, WorkedRounding, WorkedFigures};

use crate::figure::figure;
use crate::mean::Mean;
use basis::Basis;
use plan::Plan;
use units::premium::Premium;

// The reserve in a state and a year, at a premium. Past the last year, and in a state that the
// basis does not have, nothing follows: it is the benefit there, less a premium that is due.
pub fn reserve<B: Basis, P: Plan>(
    basis: &B,
    plan: &P,
    premium: Premium,
    state: usize,
    year: usize,
) -> i64
    ensures value { result ≡ reserve (B.meaning basis.now) (P.payments plan.now) premium.ticks
        state year }
    ensures figure_of_the_mean { IsFigureOf mean reserve }
    ensures range { Within 5000000000000 result }
    ensures near_exact { state < (B.meaning basis.now).states → year ≤ (B.meaning basis.now).years →
        NearExact (B.meaning basis.now) (P.payments plan.now) premium.ticks state year result }
    ensures nowhere_valued_lower { NowhereValuedLower mean_ends (B.meaning basis.now)
        (reserve (B.meaning basis.now)) }
    ensures never_raised_by_premium { NeverRaisedByPremium mean_ends (B.meaning basis.now)
        (reserve (B.meaning basis.now)) }
    ensures worked_rounding { WorkedRounding }
    ensures worked_figures { WorkedFigures worked_basis }
{
    figure(&Mean, basis, plan, premium, state, year)
}
