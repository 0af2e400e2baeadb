// Closing a year.
ghost use Rattle.std.specs.Prelude.{◌≡◌, ◌<◌, ◌≤◌, pos, ◌-ℤ◌, ◌*ℤ◌, OnOk, OnErr};
ghost use Rattle.units.specs.Near.{Within};
ghost use Rattle.units.specs.Ranges.{limit};
ghost use Rattle.valuation.specs.Closings.{IsMove};
ghost use Rattle.valuation.specs.Means.{mean, mean_ends};
ghost use Rattle.contract.specs.Closings.{MayClose, FindsMove};
ghost use Rattle.contract.specs.ContractStates.{basis_of, standing, Enters, closing_said, year_told};
ghost use Rattle.contract.specs.Ledgers.{Close};
ghost use Rattle.contract.specs.Promises.{Promise};
ghost use Rattle.contract.specs.Standings.{moved};
ghost use Rattle.contract.specs.Steps.{rounded_interest, premium_taken, benefits_paid, closed_year};

use super::{Contract, LAST_NUMBER};
use crate::answer::Closed;
use basis::Basis;
use plan::Plan;
use units::fault::Fault;
use units::rounding::nearest;
use units::rule::Rule;
use valuation::closing::{Move, closing_values};

// The most that a rate can be, either way, in parts of a million.
const MOST_RATE: i64 = 500_000;

// The interest that an amount earns at a rate.
fn interest_earned(amount: i64, rate: i64) -> i64
    requires amount { Within 5000000000000 amount }
    requires rate { Within 500000 rate }
    ensures value { result ≡ rounded_interest (amount *ℤ rate) }
    ensures range { Within 2500000000000 result }
{
    nearest(amount * rate)
}

// The results of a closing, on interest and on risk: from the pair of discounted join and join, the
// reserve of the end state a year later, the benefit for the move to it and the interest earned.
fn results(pair: (i64, i64), later: i64, benefit: u64, earned: i64) -> (i64, i64)
    requires discounted { Within 5000000000000 pair.0 }
    requires join { Within 5000000000000 pair.1 }
    requires later { Within 5000000000000 later }
    requires benefit { benefit ≤ limit }
    requires earned { Within 2500000000000 earned }
    ensures interest { result.0 ≡ earned -ℤ (pair.1 -ℤ pair.0) }
    ensures risk { result.1 ≡ (pair.1 -ℤ pos benefit) -ℤ later }
{
    let (discounted, join) = pair;
    let interest = earned - (join - discounted);
    (interest, join - benefit as i64 - later)
}

impl<'a, B: Basis, P: Plan> Contract<'a, B, P> {
    // The move by which the year closes, or the first rule that stands against closing it.
    fn closing_move(&self, end: usize, rate: i64) -> Result<Move<'a, B>, Rule>
        ensures { FindsMove self.now end rate result }
    {
        if self.year >= self.basis.years() {
            return Err(Rule::YearLeft);
        }
        if end >= self.basis.states() {
            return Err(Rule::EndState);
        }
        if rate < -MOST_RATE {
            return Err(Rule::Rate);
        }
        if rate > MOST_RATE {
            return Err(Rule::Rate);
        }
        let Some(step) = Move::new(self.basis, self.state, end, self.year) else {
            return Err(Rule::PossibleMove);
        };
        if self.number >= LAST_NUMBER {
            return Err(Rule::NumberLeft);
        }
        Ok(step)
    }

    // The premium that is due now, or nought.
    fn premium_taken(&self) -> u64
        ensures { result ≡ premium_taken (standing self.now) }
    {
        if self.plan.due(self.state, self.year) {
            self.premium.ticks()
        } else {
            0
        }
    }

    // What is paid in the year that closes in an end state.
    fn benefits_paid(&self, end: usize) -> u64
        ensures { result ≡ benefits_paid (standing self.now) end }
    {
        let benefit = self.plan.benefit(self.state, self.year);
        benefit + self.plan.move_benefit(self.state, end, self.year)
    }

    // What is told of the year that closes by a move to the end state, at a rate.
    fn closed_year(&self, step: &Move<'_, B>, end: usize, rate: i64) -> Closed
        requires may { MayClose (basis_of self.now) (standing self.now) end rate }
        requires step { IsMove step.now self.now.basis.now self.now.state end self.now.year }
        ensures { year_told result ≡ closed_year (basis_of self.now) (standing self.now) end rate }
    {
        let (pair, reserve) = closing_values(step, &self.plan, self.premium);
        let interest_earned = interest_earned(pair.0, rate);
        let benefit = self.plan.move_benefit(self.state, end, self.year);
        let (interest_result, risk_result) = results(pair, reserve, benefit, interest_earned);
        Closed {
            number: self.number + 1,
            year: self.year,
            premium: self.premium_taken(),
            benefits: self.benefits_paid(end),
            interest_earned,
            interest_result,
            risk_result,
            reserve,
        }
    }

    // Closes the year: the contract is found in the end state, and what it set aside has earned the
    // rate, in parts of a million.
    pub fn close(&mut self, end: usize, rate: i64) -> Result<Closed, Fault>
        ensures entry { Enters self.old (Close end rate) (closing_said result) self.new }
        ensures moves { OnOk result (standing self.new ≡ moved (standing self.old) end) }
        ensures unchanged { OnErr result (self.new ≡ self.old) }
        ensures promise { Promise (basis_of self.old) mean_ends mean }
    {
        let closed = match self.closing_move(end, rate) {
            Ok(step) => self.closed_year(&step, end, rate),
            Err(rule) => return Err(self.fault(rule)),
        };
        self.state = end;
        self.year += 1;
        self.number += 1;
        self.reserve = closed.reserve;
        Ok(closed)
    }
}
