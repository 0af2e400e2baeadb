// What a contract is asked for.
#[derive(PartialEq, Debug, Drop)]
pub enum Request<P> {
    // To close the year, in an end state and at the rate that was earned, in parts of a million.
    Close { end: usize, rate: i64 },
    // To go on under another plan.
    Alter(P),
    Reserve,
    Span,
    // What it is valued at in the valuation of the run.
    Figure,
    // The course, in this column.
    Course(Vec<i64>),
}
