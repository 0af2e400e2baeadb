// What all other crates count in: ticks, parts of a million, amounts, and the rules and the fault
// that every refusal names.
#![tactic(auto)]

pub mod amount;
pub mod columns;
pub mod failure;
pub mod fault;
pub mod fault_text;
pub mod francs;
pub mod premium;
pub mod rounding;
pub mod rule;
mod unpadded;

// The most states and years that a basis or a plan can speak of.
pub const MOST_STATES: usize = 8;

pub const MOST_YEARS: usize = 120;

// Parts of a million: what a whole share, and a discount factor of one, come to.
pub const MILLION: u32 = 1_000_000;

// The largest amount of a plan or a premium, in ticks of one ten-thousandth of a franc.
pub const LIMIT: u64 = 10_000_000_000;
