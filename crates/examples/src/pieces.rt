// Streams that take and give little at a time, are interrupted and fail.
use std::io;
use std::io::{ErrorKind, Read, Write};
use std::process::Abort;
use std::test::Fail;
use streams::input::read_up_to;
use streams::output::write_whole;

// Gives a byte at a time and is interrupted before each. At its end it fails, if it is broken.
#[derive(Drop)]
struct Slow<'a> {
    left: &'a [u8],
    interrupted: bool,
    broken: bool,
}

impl<'a> Slow<'a> {
    fn new(bytes: &'a [u8], broken: bool) -> Slow<'a> {
        Slow {
            left: bytes,
            interrupted: false,
            broken,
        }
    }
}

impl Read for Slow<'_> {
    fn read(&mut self, buf: &mut [u8]) -> io::Result<usize> {
        self.interrupted = !self.interrupted;
        if self.interrupted {
            return Err(io::Error::from(ErrorKind::Interrupted));
        }
        if buf.is_empty() {
            return Ok(0);
        }
        match self.left {
            [first, rest @ ..] => {
                buf[0] = *first;
                self.left = rest;
                Ok(1)
            }
            [] if self.broken => Err(io::Error::from(ErrorKind::BrokenPipe)),
            [] => Ok(0),
        }
    }
}

// Takes two bytes at a time and is interrupted before each two, until it is full: then it fails
// with an error, or takes none, and cannot be flushed.
#[derive(Drop)]
struct Narrow {
    taken: Vec<u8>,
    flushed: usize,
    room: usize,
    interrupted: bool,
    broken: bool,
}

impl Write for Narrow {
    fn write(&mut self, buf: &[u8]) -> io::Result<usize> {
        self.interrupted = !self.interrupted;
        if self.interrupted {
            return Err(io::Error::from(ErrorKind::Interrupted));
        }
        if self.taken.len() >= self.room {
            return if self.broken {
                Err(io::Error::from(ErrorKind::BrokenPipe))
            } else {
                Ok(0)
            };
        }
        let count = buf.len().min(2);
        self.taken.extend_from_slice(&buf[..count])?;
        Ok(count)
    }

    fn flush(&mut self) -> io::Result<()> {
        self.flushed = self.taken.len();
        if self.taken.len() < self.room {
            Ok(())
        } else {
            Err(io::Error::from(ErrorKind::StorageFull))
        }
    }
}

fn writer_of(rt: &HostRuntime, room: usize, broken: bool) -> Narrow {
    Narrow {
        taken: Vec::new(rt.alloc()),
        flushed: 0,
        room,
        interrupted: false,
        broken,
    }
}

#[test]
fn reads_on_after_short_reads(rt: HostRuntime) -> Result<(), Fail> {
    let mut reader = Slow::new(b"abcde", false);
    let mut buffer = [b'.'; 8];
    assert_eq!(rt; read_up_to(&mut reader, &mut buffer)?, 5);
    assert_eq!(rt; buffer, *b"abcde...");
    Ok(())
}

#[test]
fn reads_no_more_than_there_is_room_for(rt: HostRuntime) -> Result<(), Fail> {
    let mut reader = Slow::new(b"abcde", true);
    let mut buffer = [b'.'; 3];
    assert_eq!(rt; read_up_to(&mut reader, &mut buffer)?, 3);
    assert_eq!(rt; buffer, *b"abc");
    assert_eq!(rt; reader.left, b"de".as_slice());
    Ok(())
}

#[test]
fn a_failed_read_ends_in_its_error(rt: HostRuntime) {
    let mut reader = Slow::new(b"abcde", true);
    let mut buffer = [b'.'; 8];
    let kind = read_up_to(&mut reader, &mut buffer).map_err(|error| error.kind());
    assert_eq!(rt; kind, Err(ErrorKind::BrokenPipe));
}

#[test]
fn writes_on_after_short_writes(rt: HostRuntime) -> Result<(), Fail> {
    let mut writer = writer_of(&rt, 8, true);
    write_whole(&mut writer, b"abcde")?;
    assert_eq!(rt; writer.taken.as_slice(), b"abcde".as_slice());
    assert_eq!(rt; writer.flushed, 5);
    Ok(())
}

#[test]
fn a_failed_flush_ends_in_its_error(rt: HostRuntime) {
    let mut writer = writer_of(&rt, 5, true);
    let outcome = write_whole(&mut writer, b"abcde").map_err(|error| error.kind());
    assert_eq!(rt; outcome, Err(ErrorKind::StorageFull));
    assert_eq!(rt; writer.taken.as_slice(), b"abcde".as_slice());
}

#[test]
fn a_failed_write_ends_in_its_error(rt: HostRuntime) {
    let cases = [(true, ErrorKind::BrokenPipe), (false, ErrorKind::WriteZero)];
    for (broken, kind) in cases {
        let mut writer = writer_of(&rt, 4, broken);
        let outcome = write_whole(&mut writer, b"abcde").map_err(|error| error.kind());
        assert_eq!(rt; outcome, Err(kind));
        assert_eq!(rt; writer.taken.as_slice(), b"abcd".as_slice());
    }
}
