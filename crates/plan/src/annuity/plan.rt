// What an annuity answers as a plan.
ghost use Rattle.plan.specs.Annuities.{annuity};
ghost use Rattle.plan.specs.Bounds.{annuity_bounded};

use super::Annuity;
use crate::Plan;
use crate::paying::is_paying;
use units::MOST_STATES;
use units::amount::Amount;

impl Plan for Annuity {
    ghost payments = { annuity };

    ghost bounded = { annuity_bounded };

    fn benefit(&self, state: usize, year: usize) -> u64 {
        if state == self.state && self.first <= year && year < self.end {
            self.amount.ticks()
        } else {
            0
        }
    }

    fn due(&self, state: usize, year: usize) -> bool {
        is_paying(state, year, self.paying_years)
    }

    fn move_benefit(&self, _from: usize, _to: usize, _year: usize) -> u64 {
        0
    }

    fn move_benefits<'a>(
        &'a self,
        _from: usize,
        _year: usize,
        room: &'a mut [Amount; MOST_STATES],
    ) -> &'a [Amount] {
        *room = [Amount::zero(); MOST_STATES];
        room
    }
}
