// Leaving.
ghost use Rattle.valuation.specs.Means.{mean, mean_ends};
ghost use Rattle.contract.specs.ContractStates.{basis_of, Leaves};
ghost use Rattle.contract.specs.Promises.{Promise};

use super::Contract;
use crate::answer::Left;
use basis::Basis;
use plan::Plan;

impl<'a, B: Basis, P: Plan + Drop> Contract<'a, B, P> {
    // Uses the contract up: its reserve is paid, where it is above nought, and nothing is carried
    // any more.
    pub fn leave(self) -> Left
        ensures leaves { Leaves self.entry result }
        ensures promise { Promise (basis_of self.entry) mean_ends mean }
    {
        let reserve = self.reserve();
        let paid = reserve.max(0);
        Left {
            paid,
            result: reserve - paid,
        }
    }
}
