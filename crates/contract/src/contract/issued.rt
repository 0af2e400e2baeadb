// A contract as it is issued.
ghost use Rattle.std.specs.Prelude.{◌≡◌, ◌<◌};
ghost use Rattle.contract.specs.ContractStates.{standing};
ghost use Rattle.contract.specs.Standings.{reserve_at};

use super::Contract;
use basis::Basis;
use plan::Plan;
use units::premium::Premium;

impl<'a, B: Basis, P: Plan> Contract<'a, B, P> {
    // In year 0 in its start state, with the reserve there. Only a proposal issues one.
    pub(crate) fn issued(
        basis: &'a B,
        plan: P,
        premium: Premium,
        start: usize,
        reserve: i64,
    ) -> Contract<'a, B, P>
        requires start { start < (B.meaning basis.now).states }
        requires reserve { reserve ≡ reserve_at (B.meaning basis.now) (record {
          plan = P.payments plan;
          premium = premium.ticks;
          state = start;
          year = 0;
          number = 0;
        }) }
        ensures basis { result.basis.now ≡ basis.now }
        ensures standing { standing result ≡ record {
          plan = P.payments plan;
          premium = premium.ticks;
          state = start;
          year = 0;
          number = 0;
        } }
    {
        Contract {
            basis,
            plan,
            premium,
            state: start,
            year: 0,
            number: 0,
            reserve,
        }
    }
}
