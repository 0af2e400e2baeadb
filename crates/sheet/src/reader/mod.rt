// The sheet so far, while its lines are read.
ghost use Rattle.std.specs.Prelude.{◌≡◌, ◌*◌, ◌≤◌, ℕ, slice_index};

mod end;
mod fill;
mod lines;
mod moves;
mod new;
mod years;

use units::{MOST_STATES, MOST_YEARS};

const MOST_SHARES: usize = MOST_YEARS * MOST_STATES * MOST_STATES;

// The factors of the years that have come, and the shares before the place `next`. Memory is on the stack: a refused sheet leaves
// the columns of the caller as they were.
#[derive(Drop)]
pub(crate) struct Reader {
    states: usize,
    years: usize,
    come: usize,
    next: usize,
    factors: [u32; MOST_YEARS],
    shares: [u32; MOST_SHARES],
    ghost least_states: { 1 ≤ years → 2 ≤ states },
    ghost most_states: { states ≤ 8 },
    ghost most_years: { years ≤ 120 },
    ghost years_come: { come ≤ years },
    ghost places: { next ≤ come * states * states },
    ghost noughts: { (k : ℕ) → next ≤ k → slice_index shares k ≡ 0 },
}
