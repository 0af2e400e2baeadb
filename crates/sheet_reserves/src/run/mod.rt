// What is written for what is read.
ghost use Rattle.streams.specs.Runs.{Runs};
ghost use Rattle.streams.specs.Streams.{IsReadInPart, most_read};
ghost use Rattle.sheet_reserves.specs.Outcomes.{IsPage};

#[cfg(test)]
mod tests;

use crate::page::page_of;
use std::alloc::Global;
use std::io::{Read, Write};
use streams::input::read_input;
use streams::output::write_whole;

// Writes the page for the sheet that a reader gives, and nothing else. It reads no more than a byte
// beyond the longest input. A refusal, and a read or a write that fails, end it with an error: then
// nothing was written, or a front of the page.
pub(crate) fn run<R: Read, W: Write>(
    heap: Global,
    reader: &mut R,
    writer: &mut W,
) -> anyhow::Result<()>
    ensures few { IsReadInPart most_read (R.remaining reader.old) (R.remaining reader.new) }
    ensures written { Runs IsPage most_read (R.remaining reader.old) (R.remaining reader.new)
        (W.contents writer.old) (W.contents writer.new) result }
{
    let input = read_input(heap, reader)?;
    let page = page_of(heap, &input)?;
    write_whole(writer, page.as_bytes())?;
    Ok(())
}
