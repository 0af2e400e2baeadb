// What a table answers as a plan.
ghost use Rattle.std.specs.Prelude.{◌≡◌, ◌<◌, ◌≤◌, MatchOption};
ghost use Rattle.plan.specs.PaymentColumns.{place};
ghost use Rattle.plan.specs.PaymentTables.{payment_table};
ghost use Rattle.plan.specs.Bounds.{payment_table_bounded};

use super::PaymentTable;
use crate::Plan;
use units::MOST_STATES;
use units::amount::Amount;

impl PaymentTable {
    // Where the benefit and the mark of a state at the start of a year stand, if the table has
    // them.
    fn place(&self, state: usize, year: usize) -> Option<usize>
        ensures { MatchOption result ((year ≤ self.now.years) × (state < 8) → ⊥) (λ p. (year ≤ self.now.years) × (state < 8) × (p ≡ place state year)) }
    {
        (year <= self.years && state < MOST_STATES).then(|| year * MOST_STATES + state)
    }
}

impl Plan for PaymentTable {
    ghost payments = { payment_table };

    ghost bounded = { payment_table_bounded };

    fn benefit(&self, state: usize, year: usize) -> u64 {
        self.place(state, year)
            .map_or(0, |place| self.benefits[place].ticks())
    }

    fn due(&self, state: usize, year: usize) -> bool {
        self.place(state, year)
            .is_some_and(|place| self.marks[place])
    }

    fn move_benefit(&self, from: usize, to: usize, year: usize) -> u64 {
        match self.place(from, year) {
            Some(place) if year < self.years && to < MOST_STATES => {
                self.moves[place * MOST_STATES + to].ticks()
            }
            _ => 0,
        }
    }

    fn move_benefits<'a>(
        &'a self,
        from: usize,
        year: usize,
        room: &'a mut [Amount; MOST_STATES],
    ) -> &'a [Amount] {
        match self.place(from, year) {
            Some(place) if year < self.years => {
                let start = place * MOST_STATES;
                &self.moves[start..start + MOST_STATES]
            }
            _ => {
                *room = [Amount::zero(); MOST_STATES];
                room
            }
        }
    }
}
