// What a reader gives, up to its end or as far as there is room.
ghost use Rattle.std.specs.Prelude.{◌≡◌, ◌≤◌, length, take, MatchResult};
ghost use Rattle.streams.specs.Streams.{most_read, IsRead, IsReadInPart, ReadsOnce};

use crate::step::step;
use std::alloc::Global;
use std::io;
use std::io::{ErrorKind, Read};

// The most bytes of an input.
pub const MOST_BYTES: usize = 60_000;

// One read into a buffer that has room: how many bytes came, or `None` at the end.
fn read_once<R: Read>(reader: &mut R, buffer: &mut [u8]) -> io::Result<Option<usize>>
    ensures { ReadsOnce (R.remaining reader.old) (R.remaining reader.new) buffer.new result }
{
    step(reader.read(buffer))
}

// Fills the buffer from its front until it is full or the reader is at its end, and answers how
// many bytes came. A failed read ends it with its error.
pub fn read_up_to<R: Read>(reader: &mut R, buffer: &mut [u8]) -> io::Result<usize>
    ensures length { length buffer.new ≡ length buffer.old }
    ensures read { MatchResult result
        (λ n. IsRead (length buffer.new) (R.remaining reader.old) (R.remaining reader.new)
        (take n buffer.new) × (n ≤ length buffer.new))
        (λ _. IsReadInPart (length buffer.new) (R.remaining reader.old)
        (R.remaining reader.new)) }
{
    let mut filled = 0;
    for _ in 0..u64::MAX {
        if filled == buffer.len() {
            return Ok(filled);
        }
        let Some(count) = read_once(reader, &mut buffer[filled..])? else {
            return Ok(filled);
        };
        filled += count;
    }
    Err(io::Error::from(ErrorKind::Interrupted))
}

// The bytes that a reader gives, up to one beyond the longest input, which shows that there are too
// many. Memory for all of them is asked for before any is read.
pub fn read_input<R: Read>(heap: Global, reader: &mut R) -> io::Result<Vec<u8>>
    ensures { MatchResult result
        (λ input. IsRead most_read (R.remaining reader.old) (R.remaining reader.new) input.items)
        (λ _. IsReadInPart most_read (R.remaining reader.old) (R.remaining reader.new)) }
{
    let mut input = vec![in heap; 0; MOST_BYTES + 1]?;
    let count = read_up_to(reader, &mut input)?;
    input.truncate(count);
    Ok(input)
}
