// What an endowment answers as a plan.
ghost use Rattle.plan.specs.Endowments.{endowment};
ghost use Rattle.plan.specs.Bounds.{endowment_bounded};

use super::Endowment;
use crate::Plan;
use crate::paying::is_paying;
use units::MOST_STATES;
use units::amount::Amount;

impl Plan for Endowment {
    ghost payments = { endowment };

    ghost bounded = { endowment_bounded };

    fn benefit(&self, state: usize, year: usize) -> u64 {
        if state == 0 && year == self.term {
            self.sum.ticks()
        } else {
            0
        }
    }

    fn due(&self, state: usize, year: usize) -> bool {
        is_paying(state, year, self.paying_years)
    }

    fn move_benefit(&self, from: usize, to: usize, year: usize) -> u64 {
        if from == 0 && to == 1 && year < self.term {
            self.sum.ticks()
        } else {
            0
        }
    }

    fn move_benefits<'a>(
        &'a self,
        from: usize,
        year: usize,
        room: &'a mut [Amount; MOST_STATES],
    ) -> &'a [Amount] {
        *room = [Amount::zero(); MOST_STATES];
        if from == 0 && year < self.term {
            room[1] = self.sum;
        }
        room
    }
}
