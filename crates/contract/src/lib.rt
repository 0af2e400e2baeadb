// Contracts: issued on a proposal, closed year by year, altered, asked and left.
#![tactic(auto)]

pub mod answer;
pub mod case;
pub mod contract;
pub mod proposal;
pub mod request;
pub mod run;
