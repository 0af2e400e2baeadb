// A figure in any valuation, of any basis and plan.
ghost use Rattle.std.specs.Prelude.{◌≡◌};
ghost use Rattle.valuation.specs.Comparisons.{NowhereValuedLower, NeverRaisedByPremium};
ghost use Rattle.valuation.specs.Figures.{figure};

use crate::Valuation;
use crate::sweep::Sweep;
use basis::Basis;
use plan::Plan;
use units::premium::Premium;

// What a contract is valued at in a state and a year, at a premium. Past the last year it is the
// figure of the benefit there.
pub fn figure<V: Valuation, B: Basis, P: Plan>(
    valuation: &V,
    basis: &B,
    plan: &P,
    premium: Premium,
    state: usize,
    year: usize,
) -> V::Figure
    ensures value { result ≡ figure (V.operations valuation.now) (B.meaning basis.now)
        (P.payments plan.now) premium.ticks state year }
    ensures nowhere_valued_lower { NowhereValuedLower V.ends (B.meaning basis.now)
        (figure (V.operations valuation.now) (B.meaning basis.now)) }
    ensures never_raised_by_premium { NeverRaisedByPremium V.ends (B.meaning basis.now)
        (figure (V.operations valuation.now) (B.meaning basis.now)) }
{
    let sweep = Sweep {
        valuation,
        basis,
        plan,
        premium,
    };
    sweep.figure_at(state, year)
}
