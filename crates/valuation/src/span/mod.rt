// The span of any basis and plan.
ghost use Rattle.std.specs.Prelude.{◌≡◌};
ghost use Rattle.valuation.specs.Comparisons.{NowhereValuedLower, NeverRaisedByPremium};
ghost use Rattle.valuation.specs.Extremes.{smallest, largest, AreExtremes};
ghost use Rattle.valuation.specs.Figures.{IsFigureOf};
ghost use Rattle.valuation.specs.SpanOperations.{span, span_ends, LawfulEnds};
ghost use Rattle.valuation.specs.Spans.{ends, Encloses};

pub mod ends;
pub mod valuation;
mod year;

use crate::figure::figure;
use crate::span::ends::Ends;
use crate::span::valuation::Span;
use basis::Basis;
use plan::Plan;
use units::premium::Premium;

// The least and the most that a contract can come to in a state and a year, at a premium, whichever
// moves with a share it makes.
pub fn span<B: Basis, P: Plan>(
    basis: &B,
    plan: &P,
    premium: Premium,
    state: usize,
    year: usize,
) -> Ends
    ensures value { result ≡ ends (B.meaning basis.now) (P.payments plan.now) premium.ticks
        state year }
    ensures figure_of_the_span { IsFigureOf span ends }
    ensures laws { AreExtremes smallest largest }
    ensures range { LawfulEnds result }
    ensures encloses { Encloses (B.meaning basis.now) (P.payments plan.now) premium.ticks
        state year result }
    ensures nowhere_valued_lower { NowhereValuedLower span_ends (B.meaning basis.now)
        (ends (B.meaning basis.now)) }
    ensures never_raised_by_premium { NeverRaisedByPremium span_ends (B.meaning basis.now)
        (ends (B.meaning basis.now)) }
{
    figure(&Span, basis, plan, premium, state, year)
}
