// The input and its lines and fields.
ghost use Rattle.std.specs.Prelude.{◌+◌, ◌<◌, ◌≤◌, ◌^◌, length};

use crate::spot::Spot;

mod cut;
mod lines;
mod number;

// A part of the input, such as a line or a field, with the spot where it begins.
#[derive(Clone, Copy, PartialEq, Eq, Debug)]
pub struct Part<'a> {
    pub(crate) bytes: &'a [u8],
    pub(crate) spot: Spot,
    ghost fits: { spot.offset + length bytes.now < 2 ^ 63 },
    ghost one_feed_a_line: { spot.line ≤ spot.offset + 1 },
}
