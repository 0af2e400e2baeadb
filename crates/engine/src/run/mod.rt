// What the engine writes for what it reads.
ghost use Rattle.desk.specs.Inputs.{IsAnswer};
ghost use Rattle.streams.specs.Runs.{Runs};
ghost use Rattle.streams.specs.Streams.{IsReadInPart, most_read};

use desk::session::Session;
use std::alloc::Global;
use std::io;
use std::io::{Read, Write};
use streams::input::read_input;
use streams::output::write_whole;

// Answers the input that a reader gives by a text, and writes nothing else. It reads no more than a
// byte beyond the longest input, and asks for memory before it reads. A read or a write that fails
// ends it with an error: then nothing was written, or a front of the answer.
pub(crate) fn run<R: Read, W: Write>(heap: Global, reader: &mut R, writer: &mut W) -> io::Result<()>
    ensures few { IsReadInPart most_read (R.remaining reader.old) (R.remaining reader.new) }
    ensures answered { Runs IsAnswer most_read (R.remaining reader.old) (R.remaining reader.new)
        (W.contents writer.old) (W.contents writer.new) result }
{
    let mut session = Session::new(heap)?;
    let input = read_input(heap, reader)?;
    write_whole(writer, session.answer(&input).as_bytes())
}
