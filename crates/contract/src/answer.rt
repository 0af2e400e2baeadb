// What a contract answers.
use units::fault::Fault;
use units::premium::Premium;
use valuation::span::ends::Ends;

// A year that was closed, under the number of this closing. Whoever adds up what is told keeps the
// books. Amounts are ticks.
#[derive(Clone, Copy, PartialEq, Eq, Debug)]
pub struct Closed {
    pub number: u16,
    // The year that was closed.
    pub year: usize,
    // The premium that was taken, and the benefits that were paid at the start of the year and for
    // the move at its end.
    pub premium: u64,
    pub benefits: u64,
    pub interest_earned: i64,
    pub interest_result: i64,
    pub risk_result: i64,
    // The reserve after it.
    pub reserve: i64,
}

// A plan that was altered, under the number of this alteration.
#[derive(Clone, Copy, PartialEq, Eq, Debug)]
pub struct Altered {
    pub number: u16,
    pub premium: Premium,
    pub result: i64,
    // The reserve after it.
    pub reserve: i64,
}

// A contract that was left.
#[derive(Clone, Copy, PartialEq, Eq, Debug)]
pub struct Left {
    pub paid: i64,
    pub result: i64,
}

// What a request comes to, with a figure where one was asked for.
#[derive(PartialEq, Debug, Drop)]
pub enum Answer<F> {
    Closed(Closed),
    Altered(Altered),
    Reserve(i64),
    Span(Ends),
    Figure(F),
    // The column with the course in it.
    Course(Vec<i64>),
    // The column as it was: it is too short for the course.
    TooShort { fault: Fault, column: Vec<i64> },
    Refused(Fault),
}
