// What stops a call that asks for memory: a refusal, or want of memory, which has no number.
ghost use Rattle.std.specs.Prelude.{◌≡◌, Some};
ghost use Rattle.units.specs.FaultTexts.{failure_text};
ghost use Rattle.units.specs.declared.failure.Failure.TheVariants.{Refused, NoMemory};

use crate::fault::Fault;
use std::alloc::AllocError;
use std::error::Error;
use std::fmt;

#[derive(Clone, Copy, PartialEq, Eq, Debug)]
pub enum Failure {
    Refused(Fault),
    NoMemory,
}

// By hand: of what a derived `From` gives, a contract could say nothing.
impl From<Fault> for Failure {
    ghost from_gives = { λ fault failure. failure ≡ Refused fault };

    fn from(fault: Fault) -> Failure {
        Failure::Refused(fault)
    }
}

impl From<AllocError> for Failure {
    ghost from_gives = { λ _ failure. failure ≡ NoMemory };

    fn from(_error: AllocError) -> Failure {
        Failure::NoMemory
    }
}

// By hand: of what a derived display writes, a contract could say nothing.
impl fmt::Display for Failure {
    ghost output = { λ x. Some (failure_text x) };

    ghost styled_output = { λ x _. Some (failure_text x) };

    fn fmt<W: fmt::Write>(&self, f: &mut fmt::Formatter<W>) -> fmt::Result {
        match self {
            Failure::Refused(fault) => fault.fmt(f),
            Failure::NoMemory => f.write_str("no memory"),
        }
    }
}

impl Error for Failure {}
