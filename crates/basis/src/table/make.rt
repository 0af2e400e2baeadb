// Making a table, and taking columns in.
ghost use Rattle.std.specs.Prelude.{[], ◌∷◌, pos, IfOk};
ghost use Rattle.units.specs.Ranges.{million};
ghost use Rattle.basis.specs.TransitionTables.{Holds, TakesIn, KeepsCapacity};

use super::TransitionTable;
use super::check::Columns;
use crate::fill::refill;
use std::alloc::{AllocError, Global};
use units::fault::Fault;
use units::{MILLION, MOST_STATES, MOST_YEARS};

impl TransitionTable {
    // Two states and one year, in which everybody stays and nothing is discounted. All the memory
    // that a table can need is asked for here.
    pub fn new(heap: Global) -> Result<TransitionTable, AllocError>
        ensures { IfOk result (λ s. Holds s 2 (pos million ∷ []) (pos million ∷ pos 0 ∷ pos 0 ∷ pos million ∷ [])) }
    {
        let mut factors = Vec::with_capacity(heap, MOST_YEARS)?;
        factors.push_reserved(MILLION);
        let mut shares = Vec::with_capacity(heap, MOST_YEARS * MOST_STATES * MOST_STATES)?;
        shares.extend_from_slice(&[MILLION, 0, 0, MILLION])?;
        Ok(TransitionTable {
            states: 2,
            factors,
            shares,
        })
    }

    // Takes in the columns of so many states and years, or says what is first wrong with them and
    // stays as it was. It wants no memory.
    pub fn take_in(
        &mut self,
        states: usize,
        years: usize,
        factors: &[i64],
        shares: &[i64],
    ) -> Result<(), Fault>
        ensures outcome { TakesIn self.old self.new states years factors.now shares.now result }
        ensures capacity { KeepsCapacity self.old self.new }
    {
        let columns = Columns {
            states,
            years,
            factors,
            shares,
        };
        columns.check()?;
        refill(&mut self.factors, factors);
        refill(&mut self.shares, shares);
        self.states = states;
        Ok(())
    }
}
