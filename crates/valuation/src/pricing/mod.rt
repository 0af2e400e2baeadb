// The least premium of any basis and plan.
ghost use Rattle.std.specs.Prelude.{◌≡◌, IfOk, MatchResult};
ghost use Rattle.valuation.specs.Brackets.{HasReserves};
ghost use Rattle.valuation.specs.Comparisons.{NeverRaisedByPremium};
ghost use Rattle.valuation.specs.Means.{mean_ends};
ghost use Rattle.valuation.specs.Premiums.{LeastPremium, NoPremium};
ghost use Rattle.valuation.specs.Reserves.{reserve};

mod bracket;
pub mod priced;

use crate::reserve::reserve;
use basis::Basis;
use bracket::Bracket;
use plan::Plan;
use priced::Priced;
use units::LIMIT;
use units::fault::Fault;
use units::premium::Premium;
use units::rule::Rule;

// In 34 trials that halve, one premium is left of all in range. Two more let the line go where it
// leads, however little that leaves out, before it has to halve.
const MOST_TRIALS: u32 = 36;

fn priced_at<B: Basis, P: Plan>(
    basis: &B,
    plan: &P,
    premium: Premium,
    state: usize,
    year: usize,
) -> Priced
    ensures premium { result.premium ≡ premium }
    ensures reserve { result.reserve
        ≡ reserve (B.meaning basis.now) (P.payments plan.now) premium.ticks state year }
{
    Priced {
        premium,
        reserve: reserve(basis, plan, premium, state, year),
    }
}

// The least premium in a bracket. Each trial is a sweep, and halves how far apart the ends can be.
fn least_between<B: Basis, P: Plan>(
    basis: &B,
    plan: &P,
    state: usize,
    year: usize,
    mut bracket: Bracket,
) -> Priced
    requires { HasReserves (B.meaning basis.now) (P.payments plan.now) state year bracket }
    ensures least { LeastPremium (B.meaning basis.now) (P.payments plan.now) state year
        bracket.bound result.premium.ticks }
    ensures reserve { result.reserve
        ≡ reserve (B.meaning basis.now) (P.payments plan.now) result.premium.ticks state year }
{
    for left in (0..MOST_TRIALS).rev() {
        match bracket.next_premium(1 << left) {
            Some(premium) => bracket.narrow(priced_at(basis, plan, premium, state, year)),
            None => break,
        }
    }
    bracket.high
}

// The least premium at which the reserve in a state and a year is not above a bound, and that
// reserve. A higher premium never raises a reserve, and lowers it nearly along a straight line.
pub fn price<B: Basis, P: Plan>(
    basis: &B,
    plan: &P,
    state: usize,
    year: usize,
    bound: i64,
) -> Result<Priced, Fault>
    ensures least { MatchResult result
        (λ priced. LeastPremium (B.meaning basis.now) (P.payments plan.now) state year bound
        priced.premium.ticks)
        (λ fault. NoPremium (B.meaning basis.now) (P.payments plan.now) state year bound fault) }
    ensures reserve { IfOk result (λ priced. priced.reserve
        ≡ reserve (B.meaning basis.now) (P.payments plan.now) priced.premium.ticks state year) }
{
    let low = priced_at(basis, plan, Premium::zero(), state, year);
    if low.reserve <= bound {
        return Ok(low);
    }
    let most = Premium::new(LIMIT as i64);
    match most.map(|premium| priced_at(basis, plan, premium, state, year)) {
        Some(high) if high.reserve <= bound => {
            let bracket = Bracket { bound, low, high };
            Ok(least_between(basis, plan, state, year, bracket))
        }
        _ => Err(Fault::breach(Rule::Premium, year, state)),
    }
}

// The least premium at which the reserve in a state and a year is not above a bound.
pub fn least_premium<B: Basis, P: Plan>(
    basis: &B,
    plan: &P,
    state: usize,
    year: usize,
    bound: i64,
) -> Result<Premium, Fault>
    ensures least { MatchResult result
        (λ premium. LeastPremium (B.meaning basis.now) (P.payments plan.now) state year bound
        premium.ticks)
        (λ fault. NoPremium (B.meaning basis.now) (P.payments plan.now) state year bound fault) }
    ensures never_raised_by_premium { NeverRaisedByPremium mean_ends (B.meaning basis.now)
        (reserve (B.meaning basis.now)) }
{
    price(basis, plan, state, year, bound).map(|priced| priced.premium)
}
