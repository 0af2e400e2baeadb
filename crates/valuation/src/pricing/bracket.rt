// The bracket of the search for the least premium.
ghost use Rattle.std.specs.Prelude.{◌<◌, ◌≤ℤ◌, ◌<ℤ◌};

use super::priced::Priced;
use units::premium::Premium;

// Two premiums: at the lower the reserve is above the bound, at the upper it is not. So the least
// premium at which it is not lies above the lower, and is the upper where they are neighbours.
#[derive(Drop)]
pub(super) struct Bracket {
    pub(super) bound: i64,
    pub(super) low: Priced,
    pub(super) high: Priced,
    ghost ordered: { low.premium.ticks < high.premium.ticks },
    ghost low_above: { bound <ℤ low.reserve },
    ghost high_within: { high.reserve ≤ℤ bound },
}

impl Bracket {
    ghost use Rattle.std.specs.Prelude.{◌≡◌, ◌+◌, ◌*◌, ◌≤◌, MatchOption};
    ghost use Rattle.valuation.specs.Brackets.{width_of, IsInside, Narrows};

    fn width(&self) -> u64
        ensures { result ≡ width_of self.now }
    {
        self.high.premium.ticks() - self.low.premium.ticks()
    }

    // How far below the upper end the line through both ends is half a tick above the bound, to the
    // nearest: reserves are whole ticks, so about there they come down to the bound.
    fn line_below_high(&self) -> u64
        ensures { result ≤ width_of self.now }
    {
        let above = u128::from(self.low.reserve.abs_diff(self.bound));
        let below = u128::from(self.bound.abs_diff(self.high.reserve));
        let fall = above + below;
        let width = u128::from(self.width());
        let nearest = (width * (2 * below + 1) + fall) / (2 * fall);
        nearest.min(width) as u64
    }

    // The premium to try next, at most so far from either end: where the line through both meets
    // the bound, if it can be. None lies between ends that are neighbours.
    pub(super) fn next_premium(&self, reach: u64) -> Option<Premium>
        requires { width_of self.now ≤ 2 * reach }
        ensures { MatchOption result (width_of self.now ≡ 1)
            (λ premium. IsInside self.now reach premium.ticks) }
    {
        let width = self.width();
        if width == 1 {
            return None;
        }
        let least = width.saturating_sub(reach).max(1);
        let most = reach.min(width - 1);
        let below_high = self.line_below_high().clamp(least, most);
        Premium::new((self.high.premium.ticks() - below_high) as i64)
    }

    // Moves the end that a premium between the ends can stand for.
    pub(super) fn narrow(&mut self, tried: Priced)
        requires above_low { self.old.low.premium.ticks < tried.premium.ticks }
        requires below_high { tried.premium.ticks < self.old.high.premium.ticks }
        ensures { Narrows self.old tried self.new }
    {
        if tried.reserve <= self.bound {
            self.high = tried;
        } else {
            self.low = tried;
        }
    }
}
