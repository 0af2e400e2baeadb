// Making a proposal, and issuing it.
ghost use Rattle.std.specs.Prelude.{◌≡◌, IfOk, MatchResult};
ghost use Rattle.units.specs.Faults.{entry_fault};
ghost use Rattle.units.specs.Rules.{rule_number, rule_layer};
ghost use Rattle.valuation.specs.Means.{mean, mean_ends};
ghost use Rattle.contract.specs.Promises.{Promise};
ghost use Rattle.contract.specs.Proposals.{basis_proposed, terms_of, begins_with};
ghost use Rattle.contract.specs.Proposals.{bearing, reserve_proposed, IssuesAtLeastPremium};
ghost use Rattle.contract.specs.Proposals.{Places, Deposits, LeastOf, NoneOf, Prices, Issues};

use super::Proposal;
use crate::case::Issued;
use crate::contract::Contract;
use basis::Basis;
use plan::Plan;
use units::amount::Amount;
use units::fault::Fault;
use units::premium::Premium;
use units::rule::Rule;
use valuation::pricing::price;
use valuation::pricing::priced::Priced;
use valuation::reserve::reserve;

impl<'a, B: Basis, P: Plan + Drop> Proposal<'a, B, P> {
    // A proposal to start in state 0, with no deposit and no premium.
    pub fn new(basis: &'a B, plan: P) -> Proposal<'a, B, P>
        ensures basis { result.basis.now ≡ basis.now }
        ensures terms { terms_of result ≡ begins_with (P.payments plan) }
    {
        Proposal {
            basis,
            plan,
            start: 0,
            deposit: Amount::zero(),
            premium: Premium::zero(),
        }
    }

    // The breach of a rule, at year 0 and the start state.
    fn fault(&self, rule: Rule) -> Fault
        ensures { result ≡ entry_fault (rule_number rule) (rule_layer rule) 0 self.now.start }
    {
        Fault::breach(rule, 0, self.start)
    }

    // Sets the start state.
    pub fn place(&mut self, state: usize) -> Result<(), Fault>
        ensures { Places self.old state result self.new }
    {
        if state >= self.basis.states() {
            return Err(self.fault(Rule::StartState));
        }
        self.start = state;
        Ok(())
    }

    // Sets the deposit, in ticks.
    pub fn deposit(&mut self, ticks: i64) -> Result<(), Fault>
        ensures { Deposits self.old ticks result self.new }
    {
        match Amount::new(ticks) {
            Some(deposit) => {
                self.deposit = deposit;
                Ok(())
            }
            None => Err(self.fault(Rule::Deposit)),
        }
    }

    // The least premium at which the reserve in the start state is not above the deposit, and that
    // reserve.
    fn least_priced(&self) -> Result<Priced, Fault>
        ensures least { MatchResult result
            (λ priced. LeastOf self.now priced.premium.ticks) (NoneOf self.now) }
        ensures reserve { IfOk result (λ priced. priced.reserve
            ≡ reserve_proposed (bearing priced.premium self.now)) }
    {
        let deposit = self.deposit.ticks() as i64;
        price(self.basis, &self.plan, self.start, 0, deposit)
    }

    // Sets the least premium.
    pub fn price(&mut self) -> Result<Premium, Fault>
        ensures { Prices self.old result self.new }
    {
        let premium = self.least_priced()?.premium;
        self.premium = premium;
        Ok(premium)
    }

    // Issues the contract at a premium whose reserve is known.
    fn issue_at(self, priced: Priced) -> Issued<'a, B, P>
        requires { priced.reserve ≡ reserve_proposed (bearing priced.premium self) }
        ensures { Issues (bearing priced.premium self.entry) result }
    {
        let Priced { premium, reserve } = priced;
        Issued {
            contract: Contract::issued(self.basis, self.plan, premium, self.start, reserve),
            premium,
            reserve,
            opening_result: self.deposit.ticks() as i64 - reserve,
        }
    }

    // Issues the contract at the premium that the proposal bears, and posts the deposit less the
    // reserve.
    pub fn issue(self) -> Issued<'a, B, P>
        ensures issues { Issues self.entry result }
        ensures promise { Promise (basis_proposed self.entry) mean_ends mean }
    {
        let premium = self.premium;
        let reserve = reserve(self.basis, &self.plan, premium, self.start, 0);
        self.issue_at(Priced { premium, reserve })
    }

    // Prices the proposal and issues it, with no sweep beyond those of pricing.
    pub(crate) fn issue_at_least_premium(self) -> Result<Issued<'a, B, P>, Fault>
        ensures { MatchResult result (IssuesAtLeastPremium self.entry) (NoneOf self.entry) }
    {
        let priced = self.least_priced()?;
        Ok(self.issue_at(priced))
    }
}
