// The columns that C hands in, and the tables that are made of them.
ghost use Rattle.std.specs.Prelude.{◌≤◌, IsOk, IfErr, MatchResult};
ghost use Rattle.c_interface.specs.Columns.{Made, Refuses, Stops};

use basis::table::TransitionTable;
use plan::table::PaymentTable;
use std::alloc::{AllocError, Global};
use units::fault::Fault;

// No rule has this number.
const NO_MEMORY: u8 = 255;

// A basis and a plan as they are handed in. A slice is a pointer and a length.
#[derive(Clone, Copy)]
#[repr(C)]
pub struct Columns<'a> {
    pub states: usize,
    pub years: usize,
    pub factors: &'a [i64],
    pub shares: &'a [i64],
    pub plan_years: usize,
    pub benefits: &'a [i64],
    pub marks: &'a [i64],
    pub moves: &'a [i64],
}

// What columns that fit are made into.
#[derive(Drop)]
pub(crate) struct Tables {
    pub(crate) basis: TransitionTable,
    pub(crate) plan: PaymentTable,
}

impl Tables {
    // All the memory that an export asks for. It sees nothing that is handed in, so whether there
    // is memory cannot hang on that.
    pub(crate) fn new(heap: Global) -> Result<Tables, AllocError> {
        Ok(Tables {
            basis: TransitionTable::new(heap)?,
            plan: PaymentTable::new(heap)?,
        })
    }

    // Both tables of the columns, or the first fault, of the basis before the plan. It wants no
    // memory.
    fn take_in(&mut self, columns: &Columns) -> Result<(), Fault>
        ensures outcome { MatchResult result (λ _. Made columns.now self.new.basis self.new.plan)
            (λ fault. Refuses columns.now fault) }
        ensures numbers { IfErr result (λ fault. 9 ≤ fault.number × fault.number ≤ 12) }
    {
        let (states, years) = (columns.states, columns.years);
        self.basis
            .take_in(states, years, columns.factors, columns.shares)?;
        let plan_years = columns.plan_years;
        self.plan
            .take_in(plan_years, columns.benefits, columns.marks, columns.moves)?;
        Ok(())
    }
}

impl Columns<'_> {
    // Both tables, where there was memory for them, or the number that tells why they are not made.
    pub(crate) fn tables(&self, asked: Result<Tables, AllocError>) -> Result<Tables, u8>
        ensures { MatchResult result
            (λ tables. IsOk asked × Made self.now tables.basis tables.plan)
            (λ number. Stops asked self.now number) }
    {
        let Ok(mut tables) = asked else {
            return Err(NO_MEMORY);
        };
        match tables.take_in(self) {
            Ok(()) => Ok(tables),
            Err(fault) => Err(fault.number),
        }
    }
}
