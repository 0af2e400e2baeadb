// Altering the plan.
ghost use Rattle.std.specs.Prelude.{◌≡◌, IfOk, OnErr};
ghost use Rattle.valuation.specs.Means.{mean, mean_ends};
ghost use Rattle.contract.specs.ContractStates.{basis_of, standing, Enters, altering_said};
ghost use Rattle.contract.specs.Ledgers.{Alter};
ghost use Rattle.contract.specs.Promises.{Promise};
ghost use Rattle.contract.specs.Standings.{altered};

use super::{Contract, LAST_NUMBER};
use crate::answer::Altered;
use basis::Basis;
use plan::Plan;
use units::fault::Fault;
use units::rule::Rule;
use valuation::pricing::price;

impl<'a, B: Basis, P: Plan + Drop> Contract<'a, B, P> {
    // Goes on under a new plan, at the least premium that the reserve covers.
    pub fn alter(&mut self, plan: P) -> Result<Altered, Fault>
        ensures entry { Enters self.old (Alter (P.payments plan)) (altering_said result) self.new }
        ensures alters { IfOk result (λ k. standing self.new
            ≡ altered (standing self.old) (P.payments plan) k.premium.ticks) }
        ensures unchanged { OnErr result (self.new ≡ self.old) }
        ensures promise { Promise (basis_of self.old) mean_ends mean }
    {
        let before = self.reserve();
        let priced = price(self.basis, &plan, self.state, self.year, before)?;
        if self.number >= LAST_NUMBER {
            return Err(self.fault(Rule::NumberLeft));
        }
        self.plan = plan;
        self.premium = priced.premium;
        self.reserve = priced.reserve;
        self.number += 1;
        Ok(Altered {
            number: self.number,
            premium: priced.premium,
            result: before - priced.reserve,
            reserve: priced.reserve,
        })
    }
}
