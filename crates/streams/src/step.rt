// What comes of one call of a stream.
ghost use Rattle.streams.specs.Steps.{IsStep};

use std::io;
use std::io::ErrorKind;

// How many bytes went through, or `None` where the stream takes or gives no more. A call that was
// interrupted has done nothing and is to be made again, so none went through; any other error is
// handed on.
pub(crate) fn step(outcome: io::Result<usize>) -> io::Result<Option<usize>>
    ensures { IsStep outcome result }
{
    match outcome {
        Ok(0) => Ok(None),
        Ok(count) => Ok(Some(count)),
        Err(error) if error.kind() == ErrorKind::Interrupted => Ok(Some(0)),
        Err(error) => Err(error),
    }
}
