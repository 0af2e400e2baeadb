// Bases: what they answer, and what they are refused with.
mod life;
mod table;

use basis::Basis;
use std::process::Abort;
use units::fault::{Fault, Layer};

// What a basis is refused with.
pub(crate) fn refused(number: u8, year: usize, state: usize) -> Result<(), Fault> {
    Err(Fault::at_entry(number, Layer::Basis, year, state))
}

// Its states and years, its factors by year, and its shares by from, to and year.
pub(crate) fn answers<B: Basis>(
    rt: &impl Abort,
    basis: &B,
    size: (usize, usize),
    factors: &[(usize, u32)],
    shares: &[(usize, usize, usize, u32)],
) {
    assert_eq!(rt; (basis.states(), basis.years()), size);
    for (year, factor) in factors {
        assert_eq!(rt; basis.factor(*year), *factor, "{year}");
    }
    for (from, to, year, share) in shares {
        assert_eq!(rt;
            basis.share(*from, *to, *year),
            *share,
            "{from} {to} {year}"
        );
    }
}
