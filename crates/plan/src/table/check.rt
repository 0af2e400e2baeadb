// The checks of what a table is to take in, in the order of the refusals.
ghost use Rattle.std.specs.Prelude.{◌≡◌, ◌/◌, ◌%◌, ◌↔◌, IsTrue, pos, MatchResult};
ghost use Rattle.units.specs.Columns.{AllBetween};
ghost use Rattle.units.specs.Faults.{entry_fault};
ghost use Rattle.units.specs.Ranges.{limit};
ghost use Rattle.units.specs.declared.fault.Layer.TheVariants.{Plan};
ghost use Rattle.plan.specs.PaymentColumns.{FitSize, Fit, UnfitPlace, UnfitMove, Refuses};

use units::columns::first_outside;
use units::fault::Fault;
use units::rule::Rule;
use units::{LIMIT, MOST_STATES, MOST_YEARS};

// The fault of the entry that stands at a place of the benefits or the marks.
fn fault_at(place: usize) -> Fault
    ensures { result ≡ entry_fault 12 Plan (place / 8) (place % 8) }
{
    Fault::breach(Rule::Payment, place / MOST_STATES, place % MOST_STATES)
}

// Refuses the first benefit or mark that is not from 0 to `high`. A `match` as in each check: a
// function of what was found and of its fault would say no less.
fn check_places(column: &[i64], high: i64) -> Result<(), Fault>
    ensures { MatchResult result (λ _. AllBetween (pos 0) high column.now) (λ fault. UnfitPlace high column.now fault) }
{
    match first_outside(column, 0, high) {
        Some(place) => Err(fault_at(place)),
        None => Ok(()),
    }
}

// Refuses the first move benefit that is out of range. Its fault is at the state that is left,
// eight places to a state.
fn check_moves(moves: &[i64]) -> Result<(), Fault>
    ensures { MatchResult result (λ _. AllBetween (pos 0) (pos limit) moves.now) (λ fault. UnfitMove moves.now fault) }
{
    match first_outside(moves, 0, LIMIT as i64) {
        Some(place) => Err(fault_at(place / MOST_STATES)),
        None => Ok(()),
    }
}

// What a table of so many years is to take in, as it is handed in.
#[derive(Clone, Copy)]
pub(super) struct Columns<'a> {
    pub(super) years: usize,
    pub(super) benefits: &'a [i64],
    pub(super) marks: &'a [i64],
    pub(super) moves: &'a [i64],
}

impl Columns<'_> {
    // Whether a table can have so many years, and the columns one entry for each of their places.
    fn fits(&self) -> bool
        ensures { IsTrue result ↔ FitSize self.now.years self.now.benefits.now self.now.marks.now self.now.moves.now }
    {
        self.years <= MOST_YEARS
            && self.benefits.len() == MOST_STATES * (self.years + 1)
            && self.marks.len() == MOST_STATES * (self.years + 1)
            && self.moves.len() == MOST_STATES * MOST_STATES * self.years
    }

    // Whether a table can hold the columns, and otherwise what is first wrong with them.
    pub(super) fn check(&self) -> Result<(), Fault>
        ensures { MatchResult result (λ _. Fit self.now.years self.now.benefits.now self.now.marks.now self.now.moves.now) (λ fault. Refuses self.now.years self.now.benefits.now self.now.marks.now self.now.moves.now fault) }
    {
        if !self.fits() {
            return Err(Fault::breach(Rule::Payment, 0, 0));
        }
        check_places(self.benefits, LIMIT as i64)?;
        check_places(self.marks, 1)?;
        check_moves(self.moves)
    }
}
