// Reserves at issue.
ghost use Rattle.std.specs.Prelude.{◌≡◌, ℕ, pos, MatchResult};
ghost use Rattle.units.specs.Ranges.{WithinLimit};
ghost use Rattle.valuation.specs.Reserves.{reserve};

use basis::Basis;
use plan::Plan;
use units::amount::OutsideLimit;
use units::premium::Premium;
use valuation::reserve::reserve;

// The reserve in state 0 and year 0, at a premium of so many ticks.
pub(crate) fn reserve_at_issue<B: Basis, P: Plan>(
    basis: &B,
    plan: &P,
    ticks: i64,
) -> Result<i64, OutsideLimit>
    ensures { MatchResult result (λ v. (p : ℕ) → pos p ≡ ticks → v ≡ reserve (B.meaning basis.now) (P.payments plan.now) p 0 0) (λ _. WithinLimit ticks → ⊥) }
{
    let premium = Premium::try_from(ticks)?;
    Ok(reserve(basis, plan, premium, 0, 0))
}
