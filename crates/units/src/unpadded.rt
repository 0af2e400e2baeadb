// Writing a text as it is, whatever width, sign or `#` the reader asks for. What `write!` writes to
// a formatter with such options, its contract does not say.
ghost use Rattle.std.specs.Fmt.{DisplaysOnOk, DisplaysStyledOnOk};

use std::fmt;
use std::fmt::{InlineText, Write};

// Room for the longest text of a fault, which has 180 bytes.
const ROOM: usize = 256;

// Writes what `{}` writes for `text`, of at most `ROOM` bytes; more is an error.
pub(crate) fn write_unpadded<W: Write, D: fmt::Display + Drop>(
    f: &mut fmt::Formatter<W>,
    text: D,
) -> fmt::Result
    ensures plain { DisplaysOnOk W.write_str_gives f.old result (D.output text) f.new }
    ensures styled { DisplaysStyledOnOk W.write_str_gives f.old result (D.output text) f.new }
{
    let mut whole = InlineText::<ROOM>::new();
    whole.write(text)?;
    f.write_str(whole.as_str())
}
