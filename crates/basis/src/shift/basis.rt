// What an age shift answers as a basis.
ghost use Rattle.std.specs.Prelude.{◌≡◌, ◌+◌, ◌-◌, ◌<◌, ◌≤◌, MatchOption};
ghost use Rattle.basis.specs.Shifts.{first_year, shifted};
ghost use Rattle.basis.specs.Later.{shifted_lawful};

use super::AgeShift;
use crate::Basis;
use units::{MILLION, MOST_STATES};

impl<B: Basis> AgeShift<B> {
    pub fn new(below: B, by: usize) -> AgeShift<B>
        ensures { (result.below ≡ below) × (result.by ≡ by) }
    {
        AgeShift { below, by }
    }

    // Shifts anew by so many years, counted from the basis below.
    pub fn shift_to(&mut self, by: usize)
        ensures { (self.new.below ≡ self.old.below) × (self.new.by ≡ by) }
    {
        self.by = by;
    }

    // The year below that is year 0 here.
    fn first(&self) -> usize
        ensures { result ≡ first_year (B.meaning self.now.below) self.now.by }
    {
        self.by.min(self.below.years() - 1)
    }

    // The year below that is a year here, where there is such a year.
    fn year_below(&self, year: usize) -> Option<usize>
        ensures { MatchOption result ((B.meaning self.now.below).years ≤ year + first_year (B.meaning self.now.below) self.now.by) (λ t. (t ≡ year + first_year (B.meaning self.now.below) self.now.by) × (t < (B.meaning self.now.below).years)) }
    {
        year.checked_add(self.first())
            .filter(|t| *t < self.below.years())
    }
}

impl<B: Basis> Basis for AgeShift<B> {
    ghost meaning = { λ s. shifted (B.meaning s.below) s.by };

    ghost lawful = { λ s. shifted_lawful _ _ (B.lawful s.below) };

    fn states(&self) -> usize {
        self.below.states()
    }

    fn years(&self) -> usize {
        self.below.years() - self.first()
    }

    fn factor(&self, year: usize) -> u32 {
        self.year_below(year)
            .map_or(MILLION, |t| self.below.factor(t))
    }

    fn share(&self, from: usize, to: usize, year: usize) -> u32 {
        self.year_below(year)
            .map_or(0, |t| self.below.share(from, to, t))
    }

    fn row<'a>(&'a self, from: usize, year: usize, room: &'a mut [u32; MOST_STATES]) -> &'a [u32] {
        match self.year_below(year) {
            Some(t) => self.below.row(from, t, room),
            None => {
                *room = [0; MOST_STATES];
                &room[..self.states()]
            }
        }
    }
}
