// Making an annuity.
ghost use Rattle.std.specs.Result.{MatchResult};
ghost use Rattle.plan.specs.Annuities.{Holds};
ghost use Rattle.plan.specs.AnnuityTerms.{Fit, Refuses};

use super::Annuity;
use units::amount::Amount;
use units::fault::Fault;
use units::rule::Rule;
use units::{MOST_STATES, MOST_YEARS};

impl Annuity {
    // An annuity of an amount in ticks in a state of 0 to 7, in the years from `first` up to but
    // not including `end`, with the premium due in the first `paying_years`.
    pub fn new(
        amount: i64,
        state: usize,
        first: usize,
        end: usize,
        paying_years: usize,
    ) -> Result<Annuity, Fault>
        ensures { MatchResult result (λ s. Fit amount state first end paying_years × Holds s amount state first end paying_years) (λ fault. (Fit amount state first end paying_years → ⊥) × Refuses amount state first end paying_years fault) }
    {
        if state >= MOST_STATES || first > end || end > MOST_YEARS || paying_years > MOST_YEARS {
            return Err(Fault::breach(Rule::Payment, 0, 0));
        }
        let amount = Amount::new(amount).ok_or_else(|| Fault::breach(Rule::Payment, first, state))?;
        Ok(Annuity {
            amount,
            state,
            first,
            end,
            paying_years,
        })
    }
}
