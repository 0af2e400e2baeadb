// Making a table, and taking columns in.
ghost use Rattle.std.specs.Prelude.{◌≡◌, ℤ, ◌≤◌, [], length, map, replicate, pos, IfOk, vec_capacity};
ghost use Rattle.units.specs.Ranges.{WithinLimit};
ghost use Rattle.plan.specs.PaymentTables.{Holds, TakesIn, KeepsCapacity};
ghost use Rattle.plan.specs.Readings.{MayReadEach, GivesBack};

use super::PaymentTable;
use super::check::Columns;
use std::alloc::{AllocError, Global};
use std::mem;
use units::amount::Amount;
use units::fault::Fault;
use units::{MOST_STATES, MOST_YEARS};

// Puts what the entries of `column` stand for in place of those that are kept, within the memory
// that there is. A public function may ask nothing of its callers, so the crates cannot share one
// that asks for entries it can read.
fn refill<T: Copy, F: Fn(i64) -> T>(kept: &mut Vec<T>, column: &[i64], read: F)
    requires readable { MayReadEach (F.pre read) column.now }
    requires room { length column.now ≤ vec_capacity kept.old }
    ensures items { (value : T → ℤ) → GivesBack value (F.post read) column.now → map value kept.new.items ≡ column.now }
    ensures capacity { vec_capacity kept.new ≡ vec_capacity kept.old }
{
    // By value while it is filled: behind the reference its length would be written at each entry.
    let heap = *kept.allocator();
    let mut filled = mem::replace(kept, Vec::new(heap));
    filled.clear();
    for entry in column {
        filled.push_reserved(read(*entry));
    }
    *kept = filled;
}

// The amount of an entry that was checked. Any other would be nought: then no test ends a fill, and
// it becomes vector code.
fn amount(entry: i64) -> Amount
    requires { WithinLimit entry }
    ensures { pos result.ticks ≡ entry }
{
    Amount::new(entry).unwrap_or(Amount::zero())
}

impl PaymentTable {
    // Nothing paid and no premium due. All the memory that a table can need is asked for here.
    pub fn new(heap: Global) -> Result<PaymentTable, AllocError>
        ensures { IfOk result (λ s. Holds s 0 (replicate 8 (pos 0)) (replicate 8 (pos 0)) []) }
    {
        let mut benefits = Vec::with_capacity(heap, MOST_STATES * (MOST_YEARS + 1))?;
        benefits.extend_from_slice(&[Amount::zero(); MOST_STATES])?;
        let mut marks = Vec::with_capacity(heap, MOST_STATES * (MOST_YEARS + 1))?;
        marks.extend_from_slice(&[false; MOST_STATES])?;
        let moves = Vec::with_capacity(heap, MOST_STATES * MOST_STATES * MOST_YEARS)?;
        Ok(PaymentTable {
            years: 0,
            benefits,
            marks,
            moves,
        })
    }

    // Takes in the columns of so many years, or says what is first wrong with them and stays as it
    // was. It wants no memory.
    pub fn take_in(
        &mut self,
        years: usize,
        benefits: &[i64],
        marks: &[i64],
        moves: &[i64],
    ) -> Result<(), Fault>
        ensures outcome { TakesIn self.old self.new years benefits.now marks.now moves.now result }
        ensures capacity { KeepsCapacity self.old self.new }
    {
        let columns = Columns {
            years,
            benefits,
            marks,
            moves,
        };
        columns.check()?;
        refill(&mut self.benefits, benefits, amount);
        refill(&mut self.marks, marks, |mark| mark == 1);
        refill(&mut self.moves, moves, amount);
        self.years = years;
        Ok(())
    }
}
