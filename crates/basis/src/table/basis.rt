// What a table answers as a basis.
ghost use Rattle.basis.specs.TransitionTables.{transition_table};
ghost use Rattle.basis.specs.TableLaw.{transition_table_lawful};

use super::TransitionTable;
use crate::Basis;
use units::{MILLION, MOST_STATES};

impl Basis for TransitionTable {
    ghost meaning = { transition_table };

    ghost lawful = { transition_table_lawful };

    fn states(&self) -> usize {
        self.states
    }

    fn years(&self) -> usize {
        self.factors.len()
    }

    fn factor(&self, year: usize) -> u32 {
        self.factors.get(year).copied().unwrap_or(MILLION)
    }

    fn share(&self, from: usize, to: usize, year: usize) -> u32 {
        if year < self.factors.len() && from < self.states && to < self.states {
            self.shares[(year * self.states + from) * self.states + to]
        } else {
            0
        }
    }

    fn row<'a>(&'a self, from: usize, year: usize, room: &'a mut [u32; MOST_STATES]) -> &'a [u32] {
        if year < self.factors.len() && from < self.states {
            let start = (year * self.states + from) * self.states;
            return &self.shares[start..start + self.states];
        }
        *room = [0; MOST_STATES];
        &room[..self.states]
    }
}
