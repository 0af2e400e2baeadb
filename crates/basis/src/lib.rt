// Bases: yearly chances of moving between states, and yearly discount factors.
#![tactic(auto)]

ghost use Rattle.std.specs.Prelude.{◌≡◌};
ghost use Rattle.basis.specs.Transitions.{Transitions, Lawful, row};

mod fill;
pub mod life;
pub mod shift;
pub mod table;

use units::MOST_STATES;

// What every basis answers, for any year and state. Shares and factors are parts of a million.
pub trait Basis {
    ghost meaning: { Self → Transitions };

    fn states(&self) -> usize
        ensures { result ≡ (meaning self.now).states };

    fn years(&self) -> usize
        ensures { result ≡ (meaning self.now).years };

    fn factor(&self, year: usize) -> u32
        ensures { result ≡ (meaning self.now).factor year };

    // Three plain numbers: every basis would take a struct of them apart at once.
    fn share(&self, from: usize, to: usize, year: usize) -> u32
        ensures { result ≡ (meaning self.now).share from to year };

    // The shares of all moves out of a state in a year. A basis that has them side by side lends
    // them: that saves a copy in each state of a sweep. Any other writes them to `room`.
    fn row<'a>(&'a self, from: usize, year: usize, room: &'a mut [u32; MOST_STATES]) -> &'a [u32]
        ensures { result.now ≡ row (meaning self.now) from year }
    {
        let shares = &mut room[..self.states()];
        for (to, place) in shares.iter_mut().enumerate() {
            *place = self.share(from, to, year);
        }
        shares
    }

    ghost lawful: { (s : Self) → Lawful (meaning s) };
}
