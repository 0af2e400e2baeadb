// The questions to a contract, which leave it as it is.
ghost use Rattle.std.specs.Prelude.{◌≡◌, length, OnErr};
ghost use Rattle.units.specs.Faults.{entry_fault};
ghost use Rattle.units.specs.Near.{Within};
ghost use Rattle.units.specs.Rules.{rule_number, rule_layer};
ghost use Rattle.valuation.specs.Means.{mean, mean_ends};
ghost use Rattle.valuation.specs.SpanOperations.{span, span_ends};
ghost use Rattle.contract.specs.Calls.{Turns, valued_in};
ghost use Rattle.contract.specs.ContractStates.{basis_of, standing, Enters, course_said};
ghost use Rattle.contract.specs.ContractStates.{IsNearExact, EnclosesReserve};
ghost use Rattle.contract.specs.Ledgers.{AskReserve, AskSpan, AskCourse, IsWorth, LiesWithin};
ghost use Rattle.contract.specs.Promises.{Promise};
ghost use Rattle.contract.specs.Runs.{AskFigure, HasFigure};
ghost use Rattle.contract.specs.Standings.{reserve_at};

use super::Contract;
use basis::Basis;
use plan::Plan;
use units::fault::Fault;
use units::rule::Rule;
use valuation::Valuation;
use valuation::course::course;
use valuation::figure::figure;
use valuation::span::ends::Ends;
use valuation::span::span;

impl<'a, B: Basis, P: Plan> Contract<'a, B, P> {
    // The breach of a rule where the contract stands.
    pub(super) fn fault(&self, rule: Rule) -> Fault
        ensures { result
            ≡ entry_fault (rule_number rule) (rule_layer rule) self.now.year self.now.state }
    {
        Fault::breach(rule, self.year, self.state)
    }

    // The reserve where the contract stands.
    pub fn reserve(&self) -> i64
        ensures entry { Enters self.now AskReserve (IsWorth result) self.now }
        ensures value { result ≡ reserve_at (basis_of self.now) (standing self.now) }
        ensures range { Within 5000000000000 result }
        ensures near_exact { IsNearExact self.now result }
        ensures promise { Promise (basis_of self.now) mean_ends mean }
    {
        self.reserve
    }

    // The least and the most that it can still come to.
    pub fn span(&self) -> Ends
        ensures entry { Enters self.now AskSpan (LiesWithin result) self.now }
        ensures encloses { EnclosesReserve self.now result }
        ensures promise { Promise (basis_of self.now) span_ends span }
    {
        span(self.basis, &self.plan, self.premium, self.state, self.year)
    }

    // What it is valued at in any valuation.
    pub fn figure<V: Valuation>(&self, valuation: &V) -> V::Figure
        ensures turn { Turns (V.operations valuation.now)
            self.now AskFigure (HasFigure result) self.now }
        ensures value { result ≡ valued_in (V.operations valuation.now) self.now }
        ensures promise { Promise (basis_of self.now) V.ends (V.operations valuation.now) }
    {
        let (state, year) = (self.state, self.year);
        figure(valuation, self.basis, &self.plan, self.premium, state, year)
    }

    // Writes the course from the contract's year on into the front of the column.
    pub fn course(&self, column: &mut [i64]) -> Result<(), Fault>
        ensures entry { Enters self.now
            (AskCourse column.old) (course_said result column.new) self.now }
        ensures unchanged { OnErr result (column.new ≡ column.old) }
        ensures length { length column.new ≡ length column.old }
        ensures promise { Promise (basis_of self.now) mean_ends mean }
    {
        match course(self.basis, &self.plan, self.premium, self.year, column) {
            Ok(()) => Ok(()),
            Err(_) => Err(self.fault(Rule::Course)),
        }
    }
}
