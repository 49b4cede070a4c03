//! Sources and sinks that fail, in memory and behind readers and writers of std.
ghost use Rattle.std.specs.Prelude.{◌<◌};

use ed_io::{Ended, MemorySink, MemorySource, StdSink, StdSource, read_all, write_all};
use std::io;
use std::io::{ErrorKind, Read, Write};
use std::test::*;

const TEXT: &[u8] = b"one two three";

/// What a first reading of the text gives, and a second one of the same source, at the piece of a
/// read, the read that fails (0: none) and the limit.
#[test]
fn a_failed_read_loses_no_byte_and_a_limit_is_passed_by_one(rt: HostRuntime) -> Result<(), Fail> {
    for (piece, failing, limit, first, ended, second) in [
        (1, 1, 100, 0, Ended::Failed, 13),
        (1, 14, 100, 13, Ended::Failed, 0),
        (7, 2, 100, 7, Ended::Failed, 6),
        (7, 3, 100, 13, Ended::Failed, 0),
        (5, 0, 0, 1, Ended::Limit, 1),
        (5, 0, 12, 13, Ended::Limit, 0),
        (5, 0, 13, 13, Ended::End, 0),
        (5, 0, 4_000_000_000, 13, Ended::End, 0),
    ] {
        let fail_at = vec![in rt.alloc(); failing]?;
        let bytes = Vec::from_slice(rt.alloc(), TEXT)?;
        let mut source = MemorySource::new(bytes, piece, fail_at);
        let taken = read_all(rt.alloc(), &mut source, limit);
        assert_eq!(rt;
            taken.bytes.as_slice(),
            &TEXT[..first],
            "{piece}, {failing}, {limit}"
        );
        assert_eq!(rt; taken.ended, ended, "{piece}, {failing}, {limit}");
        let taken = read_all(rt.alloc(), &mut source, limit);
        assert_eq!(rt; taken.bytes.len(), second, "{piece}, {failing}, {limit}");
    }
    Ok(())
}

#[test]
fn a_failed_write_cuts_off_the_rest(rt: HostRuntime) -> Result<(), Fail> {
    for (room, piece, failing, written) in [
        (20, 1, 1, 0),
        (20, 1, 13, 12),
        (20, 5, 3, 10),
        (20, 5, 4, 13),
        (0, 5, 0, 0),
        (12, 5, 0, 12),
        (13, 5, 0, 13),
    ] {
        let fail_at = vec![in rt.alloc(); failing]?;
        let mut sink = MemorySink::new(rt.alloc(), room, piece, fail_at)?;
        let answer = write_all(&mut sink, TEXT);
        assert_eq!(rt;
            sink.written(),
            &TEXT[..written],
            "{room}, {piece}, {failing}"
        );
        assert_eq!(rt; answer.is_ok(), written == 13, "{room}, {piece}, {failing}");
    }
    Ok(())
}

/// Is interrupted, gives "a", fails, gives "b", and ends.
#[derive(Drop)]
struct FlakyReader {
    reads: u32,
}

impl Read for FlakyReader {
    fn read(&mut self, into: &mut [u8]) -> io::Result<usize> {
        self.reads = self.reads.saturating_add(1);
        let byte = match self.reads {
            1 => return Err(io::Error::from(ErrorKind::Interrupted)),
            2 => b'a',
            3 => return Err(io::Error::from(ErrorKind::BrokenPipe)),
            4 => b'b',
            _ => return Ok(0),
        };
        match into.first_mut() {
            Some(place) => {
                *place = byte;
                Ok(1)
            }
            None => Ok(0),
        }
    }
}

#[test]
fn an_interrupted_read_is_tried_again(rt: HostRuntime) {
    let mut source = StdSource::new(FlakyReader { reads: 0 });
    for (bytes, ended) in [("a", Ended::Failed), ("b", Ended::End)] {
        let taken = read_all(rt.alloc(), &mut source, 100);
        assert_eq!(rt; taken.bytes.as_slice(), bytes.as_bytes());
        assert_eq!(rt; taken.ended, ended);
    }
}

/// Takes two bytes per write into a buffer, which a flush empties. The first write is interrupted,
/// the third fails, the fifth takes none, and the fourth flush fails.
#[derive(Drop)]
struct FlakyWriter<'a> {
    writes: u32,
    flushes: u32,
    buffered: Vec<u8>,
    flushed: &'a mut Vec<u8>,
}

impl<'a> Write for FlakyWriter<'a> {
    fn write(&mut self, piece: &[u8]) -> io::Result<usize> {
        self.writes = self.writes.saturating_add(1);
        match self.writes {
            1 => return Err(io::Error::from(ErrorKind::Interrupted)),
            3 => return Err(io::Error::from(ErrorKind::BrokenPipe)),
            5 => return Ok(0),
            _ => {}
        }
        let count = piece.len().min(2);
        self.buffered.extend_from_slice(&piece[..count])?;
        Ok(count)
    }

    fn flush(&mut self) -> io::Result<()> {
        self.flushes = self.flushes.saturating_add(1);
        if self.flushes == 4 {
            return Err(io::Error::from(ErrorKind::BrokenPipe));
        }
        self.flushed.extend_from_slice(&self.buffered)?;
        self.buffered.clear();
        Ok(())
    }
}

#[test]
fn each_write_is_flushed(rt: HostRuntime) {
    let mut flushed = Vec::new(rt.alloc());
    let mut sink = StdSink::new(FlakyWriter {
        writes: 0,
        flushes: 0,
        buffered: Vec::new(rt.alloc()),
        flushed: &mut flushed,
    });
    for (text, is_ok) in [
        ("abcd", false),
        ("efgh", false),
        ("i", true),
        ("jk", false),
        ("lmn", true),
    ] {
        let answer = write_all(&mut sink, text.as_bytes());
        assert_eq!(rt; answer.is_ok(), is_ok, "{text}");
    }
    drop(sink);
    assert_eq!(rt; flushed.as_slice(), b"abefijklmn".as_slice());
}
