// Lines that the desk answers.
mod write;

pub(crate) use write::write_reply;

// The most bytes of the line of a reply, its line feed counted.
pub(crate) const MOST_REPLY_BYTES: usize = 96;

#[derive(Clone, Copy, PartialEq, Eq, Debug)]
pub enum Reply {
    Issued {
        premium: i64,
        reserve: i64,
        result: i64,
    },
    Closed {
        number: u16,
        year: usize,
        interest_result: i64,
        risk_result: i64,
        reserve: i64,
    },
    Altered {
        number: u16,
        premium: i64,
        reserve: i64,
        result: i64,
    },
    Left {
        paid: i64,
        result: i64,
    },
    Refused {
        number: u8,
        line: usize,
        offset: usize,
    },
}
