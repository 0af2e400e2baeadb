// Making an endowment.
ghost use Rattle.std.specs.Result.{MatchResult};
ghost use Rattle.plan.specs.EndowmentTerms.{Fit, Refuses};
ghost use Rattle.plan.specs.Endowments.{Holds};

use super::{Endowment, MOST_TERM};
use units::amount::Amount;
use units::fault::Fault;
use units::rule::Rule;

impl Endowment {
    // An endowment of a sum in ticks, over a term of 1 to 120 years, of which the premium is due in
    // the first `paying_years`.
    pub fn new(sum: i64, term: usize, paying_years: usize) -> Result<Endowment, Fault>
        ensures { MatchResult result (λ s. Fit sum term paying_years × Holds s sum term paying_years) (λ fault. (Fit sum term paying_years → ⊥) × Refuses sum term paying_years fault) }
    {
        if term < 1 || term > MOST_TERM || paying_years > term {
            return Err(Fault::breach(Rule::Payment, 0, 0));
        }
        let sum = Amount::new(sum).ok_or_else(|| Fault::breach(Rule::Payment, term, 0))?;
        Ok(Endowment {
            sum,
            term,
            paying_years,
        })
    }
}
