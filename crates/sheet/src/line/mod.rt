// The lines of a sheet and of the commands after it.
use crate::part::Part;

mod split;

// A line by its letter, with its fields as they stand in the input.
#[derive(Clone, Copy, PartialEq, Eq, Debug)]
pub enum Line<'a> {
    Basis {
        states: Part<'a>,
        years: Part<'a>,
    },
    Year {
        year: Part<'a>,
        factor: Part<'a>,
    },
    Move {
        year: Part<'a>,
        from: Part<'a>,
        to: Part<'a>,
        share: Part<'a>,
    },
    End,
    Issue {
        sum: Part<'a>,
        term: Part<'a>,
        paying_years: Part<'a>,
        deposit: Part<'a>,
    },
    Close {
        state: Part<'a>,
        rate: Part<'a>,
    },
    Alter {
        sum: Part<'a>,
        term: Part<'a>,
        paying_years: Part<'a>,
    },
    Leave,
}
