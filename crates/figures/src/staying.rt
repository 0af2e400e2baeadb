// A basis that is computed, not kept: the largest there is, in which everybody stays.
ghost use Rattle.figures.specs.Staying.{staying};
ghost use Rattle.figures.specs.StayingLaw.{staying_lawful};

use basis::Basis;
use units::{MILLION, MOST_STATES, MOST_YEARS};

// Eight states and 120 years, and nothing is discounted.
#[derive(Clone, Copy)]
pub(crate) struct Staying;

impl Basis for Staying {
    ghost meaning = { λ _. staying };

    ghost lawful = { λ _. staying_lawful };

    fn states(&self) -> usize {
        MOST_STATES
    }

    fn years(&self) -> usize {
        MOST_YEARS
    }

    fn factor(&self, _year: usize) -> u32 {
        MILLION
    }

    fn share(&self, from: usize, to: usize, year: usize) -> u32 {
        if year < MOST_YEARS && from < MOST_STATES && from == to {
            MILLION
        } else {
            0
        }
    }
}
