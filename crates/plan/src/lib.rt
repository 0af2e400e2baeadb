// Plans: what a contract pays, and when its premium is due.
#![tactic(auto)]

ghost use Rattle.std.specs.Prelude.{◌≡◌, map};
ghost use Rattle.plan.specs.Payments.{Payments, InRange, benefits_of_moves};

pub mod annuity;
pub mod endowment;
mod paying;
pub mod table;

use units::MOST_STATES;
use units::amount::Amount;

// What every plan answers, for any year and state. Amounts are ticks.
pub trait Plan {
    ghost payments: { Self → Payments };

    // What is paid in a state at the start of a year.
    fn benefit(&self, state: usize, year: usize) -> u64
        ensures { result ≡ (payments self.now).benefit state year };

    // Whether the premium is due in a state at the start of a year.
    fn due(&self, state: usize, year: usize) -> bool
        ensures { result ≡ (payments self.now).due state year };

    // What is paid for a move at the end of a year. Three plain numbers: every plan would take a
    // struct of them apart at once.
    fn move_benefit(&self, from: usize, to: usize, year: usize) -> u64
        ensures { result ≡ (payments self.now).move_benefit from to year };

    // What is paid for the moves out of a state at the end of a year, to each state that a basis
    // can have. A plan that has it side by side lends it; any other writes it to `room`.
    fn move_benefits<'a>(
        &'a self,
        from: usize,
        year: usize,
        room: &'a mut [Amount; MOST_STATES],
    ) -> &'a [Amount]
        ensures { map (λ amount. amount.ticks) result.now ≡
            benefits_of_moves (payments self.now) from year }
    {
        let amounts = &mut room[..];
        for (to, place) in amounts.iter_mut().enumerate() {
            let ticks = self.move_benefit(from, to, year) as i64;
            *place = Amount::new(ticks).unwrap_or(Amount::zero());
        }
        amounts
    }

    ghost bounded: { (s : Self) → InRange (payments s) };
}
