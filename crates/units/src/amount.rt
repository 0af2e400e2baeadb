// An amount of a plan or a premium, which lies from 0 to the limit.
ghost use Rattle.std.specs.Prelude.{◌≡◌, ◌≤◌, pos, MatchOption, MatchResult, codes, Some, ⊤};
ghost use Rattle.units.specs.Ranges.{limit, WithinLimit};

use crate::LIMIT;
use std::alloc::AllocError;
use std::error::Error;
use std::fmt;

#[derive(Copy, PartialEq, Eq)]
pub struct Amount {
    ticks: u64,
    ghost range: { ticks ≤ limit },
}

// By hand, to state it here: an amount equals its clone, and cloning it wants no memory.
impl Clone for Amount {
    ghost is_clone = { λ amount clone. clone ≡ amount };

    ghost is_infallible = { λ _. ⊤ };

    fn clone(&self) -> Result<Amount, AllocError> {
        Ok(*self)
    }
}

// By hand: an amount that is looked at by itself is a premium, and a plan shows the number alone.
impl fmt::Debug for Amount {
    fn fmt<W: fmt::Write>(&self, f: &mut fmt::Formatter<W>) -> fmt::Result {
        f.debug_struct("Premium")
            .field("ticks", &self.ticks)
            .finish()
    }
}

impl Amount {
    // The amount of so many ticks, where they lie in the range of an amount. It stays beside
    // `try_from`, which names an error.
    pub fn new(ticks: i64) -> Option<Amount>
        ensures { MatchOption result (WithinLimit ticks → ⊥) (λ p. pos p.ticks ≡ ticks) }
    {
        Amount::try_from(ticks).ok()
    }

    // Nothing at all.
    pub fn zero() -> Amount
        ensures { result.ticks ≡ 0 }
    {
        Amount { ticks: 0 }
    }

    pub fn ticks(&self) -> u64
        ensures value { result ≡ self.now.ticks }
        ensures range { result ≤ limit }
    {
        self.ticks
    }
}

// A number of ticks that no amount has.
#[derive(Clone, Copy, PartialEq, Eq, Debug)]
pub struct OutsideLimit(pub i64);

impl TryFrom<i64> for Amount {
    type Error = OutsideLimit;

    ghost try_from_gives = { λ ticks result. MatchResult result (λ a. pos a.ticks ≡ ticks) (λ e. (e.0 ≡ ticks) × (WithinLimit ticks → ⊥)) };

    fn try_from(ticks: i64) -> Result<Amount, OutsideLimit> {
        if ticks < 0 || ticks > LIMIT as i64 {
            return Err(OutsideLimit(ticks));
        }
        Ok(Amount {
            ticks: ticks as u64,
        })
    }
}

// By hand: of what a derived display writes, a contract could say nothing.
impl fmt::Display for OutsideLimit {
    ghost output = { λ _. Some (codes "an amount is outside 0 to the limit") };

    ghost styled_output = { λ _ _. Some (codes "an amount is outside 0 to the limit") };

    fn fmt<W: fmt::Write>(&self, f: &mut fmt::Formatter<W>) -> fmt::Result {
        f.write_str("an amount is outside 0 to the limit")
    }
}

impl Error for OutsideLimit {}
