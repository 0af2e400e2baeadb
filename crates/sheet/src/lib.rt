// Sheets: a basis as text, read line by line.
#![tactic(auto)]

pub mod columns;
pub mod line;
pub mod part;
pub mod read;
mod reader;
pub mod reading;
mod search;
pub mod spot;
pub mod table;
