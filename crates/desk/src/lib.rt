// The desk: what it is asked for, line by line, and what it answers.
#![tactic(auto)]

pub mod command;
pub mod reply;
mod serve;
pub mod session;
