// Making a life table, and taking a column in.
ghost use Rattle.std.specs.Prelude.{[], ◌∷◌, pos, IfOk, MatchResult};
ghost use Rattle.units.specs.Ranges.{million};
ghost use Rattle.basis.specs.LifeColumns.{Fit, Refuses};
ghost use Rattle.basis.specs.LifeTables.{Holds, TakesIn, KeepsCapacity};

use super::{LifeTable, MOST_YEARS};
use crate::fill::refill;
use std::alloc::{AllocError, Global};
use units::MILLION;
use units::columns::first_outside;
use units::fault::Fault;
use units::rule::Rule;

// Whether a table can hold the column and the factor, and otherwise what is first wrong with them.
fn check(deaths: &[i64], factor: i64) -> Result<(), Fault>
    ensures { MatchResult result (λ _. Fit deaths.now factor) (λ fault. Refuses deaths.now factor fault) }
{
    if deaths.is_empty() || deaths.len() > MOST_YEARS {
        return Err(Fault::breach(Rule::Size, 0, 0));
    }
    if factor < 1 || factor > i64::from(MILLION) {
        return Err(Fault::breach(Rule::Factor, 0, 0));
    }
    match first_outside(deaths, 0, i64::from(MILLION)) {
        Some(year) => Err(Fault::breach(Rule::Share, year, 0)),
        None => Ok(()),
    }
}

impl LifeTable {
    // One year in which nobody dies and nothing is discounted. All the memory that a table can need
    // is asked for here.
    pub fn new(heap: Global) -> Result<LifeTable, AllocError>
        ensures { IfOk result (λ s. Holds s (pos 0 ∷ []) (pos million)) }
    {
        let mut deaths = Vec::with_capacity(heap, MOST_YEARS)?;
        deaths.push_reserved(0);
        Ok(LifeTable {
            deaths,
            factor: MILLION,
        })
    }

    // Takes in a column of death shares and a factor, or says what is first wrong with them and
    // stays as it was. It wants no memory.
    pub fn take_in(&mut self, deaths: &[i64], factor: i64) -> Result<(), Fault>
        ensures outcome { TakesIn self.old self.new deaths.now factor result }
        ensures capacity { KeepsCapacity self.old self.new }
    {
        check(deaths, factor)?;
        refill(&mut self.deaths, deaths);
        self.factor = factor as u32;
        Ok(())
    }
}
