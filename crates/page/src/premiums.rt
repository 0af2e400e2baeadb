// Net single premiums.
ghost use Rattle.std.specs.Prelude.{◌≡◌, pos, MatchResult};
ghost use Rattle.plan.specs.EndowmentTerms.{Refuses};
ghost use Rattle.plan.specs.Endowments.{endows};
ghost use Rattle.valuation.specs.Reserves.{reserve};

use basis::Basis;
use plan::endowment::Endowment;
use units::fault::Fault;
use units::premium::Premium;
use valuation::reserve::reserve;

// The sum insured of the page, 1000 francs.
const SUM: i64 = 10_000_000;

// What an endowment of 1000 francs costs at once: the reserve in year 0 with no yearly premium to come.
pub fn single_premium<B: Basis>(basis: &B, term: usize) -> Result<i64, Fault>
    ensures { MatchResult result (λ premium. premium ≡ reserve (B.meaning basis.now) (endows 10000000 term 0) 0 0 0) (λ fault. Refuses (pos 10000000) term 0 fault) }
{
    let plan = Endowment::new(SUM, term, 0)?;
    Ok(reserve(basis, &plan, Premium::zero(), 0, 0))
}
