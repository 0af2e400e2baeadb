// Bytes written whole.
ghost use Rattle.std.specs.Prelude.{◌≡◌, MatchResult};
ghost use Rattle.std.specs.Io.KnownBytes.{Appends};
ghost use Rattle.streams.specs.Streams.{IsWrittenInPart, WritesOnce};

use crate::step::step;
use std::io;
use std::io::{ErrorKind, Write};

// One write of bytes, of which there are some: how many were taken. A writer that takes none has
// failed.
fn write_once<W: Write>(writer: &mut W, bytes: &[u8]) -> io::Result<usize>
    ensures { WritesOnce (W.contents writer.old) (W.contents writer.new) bytes.now result }
{
    match step(writer.write(bytes))? {
        Some(count) => Ok(count),
        None => Err(io::Error::from(ErrorKind::WriteZero)),
    }
}

// Writes all bytes and nothing else. A failed write ends it with its error, and what was written
// until then is a front of the bytes.
pub fn write_whole<W: Write>(writer: &mut W, bytes: &[u8]) -> io::Result<()>
    ensures { MatchResult result
        (λ _. Appends (W.contents writer.old) (W.contents writer.new) bytes.now)
        (λ _. IsWrittenInPart (W.contents writer.old) (W.contents writer.new) bytes.now) }
{
    let mut written = 0;
    for _ in 0..u64::MAX {
        if written == bytes.len() {
            return writer.flush();
        }
        let count = write_once(writer, &bytes[written..])?;
        written += count;
    }
    Err(io::Error::from(ErrorKind::Interrupted))
}
