// Whole inputs and outputs over streams, which take and give bytes in pieces of any size.
#![tactic(auto)]

pub mod input;
pub mod output;
mod step;
