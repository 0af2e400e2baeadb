// The checks of what a table is to take in, in the order of the refusals.
ghost use Rattle.std.specs.Prelude.{◌↔◌, IsTrue, pos, MatchResult};
ghost use Rattle.units.specs.Columns.{AllBetween};
ghost use Rattle.units.specs.Ranges.{million};
ghost use Rattle.basis.specs.TransitionColumns.{LawfulRows, FitSize, Fit, UnfitFactor, UnfitRow, Refuses};

use super::rows::first_unlawful;
use units::columns::first_outside;
use units::fault::Fault;
use units::rule::Rule;
use units::{MILLION, MOST_STATES, MOST_YEARS};

// A basis over several states as it is handed in.
#[derive(Clone, Copy)]
pub(super) struct Columns<'a> {
    pub(super) states: usize,
    pub(super) years: usize,
    pub(super) factors: &'a [i64],
    pub(super) shares: &'a [i64],
}

impl Columns<'_> {
    // Whether a table can have so many states and years, and the columns one entry for each of
    // their places.
    fn fits(&self) -> bool
        ensures { IsTrue result ↔ FitSize self.now.states self.now.years self.now.factors.now self.now.shares.now }
    {
        2 <= self.states
            && self.states <= MOST_STATES
            && 1 <= self.years
            && self.years <= MOST_YEARS
            && self.factors.len() == self.years
            && self.shares.len() == self.years * self.states * self.states
    }

    // Refuses the first factor that is out of range.
    fn check_factors(&self) -> Result<(), Fault>
        ensures { MatchResult result (λ _. AllBetween (pos 1) (pos million) self.now.factors.now) (λ fault. UnfitFactor self.now.factors.now fault) }
    {
        match first_outside(self.factors, 1, i64::from(MILLION)) {
            Some(year) => Err(Fault::breach(Rule::Factor, year, 0)),
            None => Ok(()),
        }
    }

    // Refuses the first row that is unlawful.
    fn check_rows(&self) -> Result<(), Fault>
        requires { FitSize self.now.states self.now.years self.now.factors.now self.now.shares.now }
        ensures { MatchResult result (λ _. LawfulRows self.now.states self.now.years self.now.shares.now) (λ fault. UnfitRow self.now.states self.now.years self.now.shares.now fault) }
    {
        match first_unlawful(self.shares, self.states) {
            Some(row) => Err(Fault::breach(Rule::Share, row / self.states, row % self.states)),
            None => Ok(()),
        }
    }

    // Whether a table can hold the columns, and otherwise what is first wrong with them.
    pub(super) fn check(&self) -> Result<(), Fault>
        ensures { MatchResult result (λ _. Fit self.now.states self.now.years self.now.factors.now self.now.shares.now) (λ fault. Refuses self.now.states self.now.years self.now.factors.now self.now.shares.now fault) }
    {
        if !self.fits() {
            return Err(Fault::breach(Rule::Size, 0, 0));
        }
        self.check_factors()?;
        self.check_rows()
    }
}
