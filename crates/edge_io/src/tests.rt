//! Whole texts over sources and sinks that give and take little, and fail.
ghost use Rattle.std.specs.Prelude.{◌≤◌, ◌^◌, ◌-◌};

use crate::{
    CountSource, Got, MemSink, MemSource, ReadFault, Sink, Source, StdSink, StdSource, Took,
    WriteFault, read_all, write_all,
};
use std::alloc::Global;
use std::io;
use std::io::{ErrorKind, Read, Write};
use std::process::Abort;
use std::test::Fail;

/// What a source of these bytes gives to the end.
fn read_bytes(
    alloc: Global,
    bytes: &[u8],
    step: usize,
    fails: &[u64],
    limit: u64,
) -> Result<Result<Vec<u8>, ReadFault>, Fail>
    requires step { 1 ≤ step }
    requires fits { limit ≤ 2 ^ 64 - 3 }
{
    let mut source = MemSource::new(bytes.to_vec(alloc)?, step, fails.to_vec(alloc)?);
    Ok(read_all(alloc, &mut source, limit))
}

#[test]
fn texts_are_read_whole_within_the_limit(rt: HostRuntime) -> Result<(), Fail> {
    let alloc = rt.alloc();
    let cases: [(&[u8], usize, u64, Result<&[u8], ReadFault>); 6] = [
        (b"abc", 100, 3, Ok(b"abc")),
        (b"abc", 1, 3, Ok(b"abc")),
        (b"abc", 100, 2, Err(ReadFault::TooLong)),
        (b"abc", 1, 2, Err(ReadFault::TooLong)),
        (b"", 1, 0, Ok(b"")),
        (b"a", 1, 0, Err(ReadFault::TooLong)),
    ];
    for (bytes, step, limit, expected) in cases {
        let step = step.max(1);
        let limit = limit.min(100);
        let read = read_bytes(alloc, bytes, step, &[], limit)?;
        match (read, expected) {
            (Ok(text), Ok(expected)) => assert_eq!(rt; text.as_slice(), expected),
            (Err(fault), Err(expected)) => assert_eq!(rt; fault, expected),
            _ => return Err(Fail::from("another answer")),
        }
    }
    Ok(())
}

#[test]
fn a_failed_read_ends_the_text(rt: HostRuntime) -> Result<(), Fail> {
    let alloc = rt.alloc();
    for (call, fails) in [(1u64, true), (2, true), (4, true), (5, false)] {
        let read = read_bytes(alloc, b"abcdef", 2, &[call], 100)?;
        match read {
            Ok(text) => {
                assert_eq!(rt; fails, false);
                assert_eq!(rt; text.as_slice(), b"abcdef".as_slice());
            }
            Err(fault) => {
                assert_eq!(rt; fails, true);
                assert_eq!(rt; fault, ReadFault::Failed);
            }
        }
    }
    Ok(())
}

#[test]
fn a_counted_text_has_its_letters(rt: HostRuntime) -> Result<(), Fail> {
    let alloc = rt.alloc();
    let mut source = CountSource::new(200_000);
    let text = read_all(alloc, &mut source, 200_000).ok().ok_or("memory")?;
    assert_eq!(rt; text.len(), 200_000);
    assert_eq!(rt; text.iter().all(|byte| *byte == b'a'), true);
    Ok(())
}

#[test]
fn a_sink_keeps_a_prefix_where_a_write_fails(rt: HostRuntime) -> Result<(), Fail> {
    let alloc = rt.alloc();
    let cases: [(usize, usize, &[u64], Option<u64>, &[u8]); 5] = [
        (100, 100, &[], None, b"abcdef"),
        (6, 1, &[], None, b"abcdef"),
        (100, 4, &[2], Some(4), b"abcd"),
        (5, 2, &[], Some(5), b"abcde"),
        (0, 2, &[], Some(0), b""),
    ];
    for (room, step, fails, taken, expected) in cases {
        let step = step.max(1);
        let made = MemSink::new(alloc, room, step, fails.to_vec(alloc)?);
        let mut sink = made.ok().ok_or("memory")?;
        let written = write_all(&mut sink, b"abcdef");
        match written {
            Ok(()) => assert_eq!(rt; taken, None),
            Err(WriteFault::Failed { taken: count }) => assert_eq!(rt; taken, Some(count)),
        }
        assert_eq!(rt; sink.taken(), expected);
    }
    Ok(())
}

/// A reader that gives this many letters in turn, and fails where the count is missing.
#[derive(Drop)]
struct Letters {
    counts: [Option<usize>; 4],
    calls: usize,
}

impl Read for Letters {
    fn read(&mut self, buf: &mut [u8]) -> io::Result<usize> {
        let count = self.counts.get(self.calls).copied().flatten();
        self.calls = self.calls.saturating_add(1);
        match count {
            Some(count) => {
                let count = count.min(buf.len());
                buf[..count].fill(b'x');
                Ok(count)
            }
            None => Err(io::Error::from(ErrorKind::TimedOut)),
        }
    }
}

#[test]
fn a_failed_read_of_the_system_is_no_end(rt: HostRuntime) -> Result<(), Fail> {
    let mut source = StdSource::new(Letters {
        counts: [Some(3), None, Some(2), Some(0)],
        calls: 0,
    });
    for expected in [Got::Bytes(3), Got::Failed, Got::Bytes(2), Got::End] {
        let mut room = [0u8; 4];
        let got = source.read(&mut room);
        assert_eq!(rt; got, expected);
        match got {
            Got::Bytes(3) => assert_eq!(rt; room, *b"xxx\0"),
            Got::Bytes(_) => assert_eq!(rt; room, *b"xx\0\0"),
            _ => assert_eq!(rt; room, [0u8; 4]),
        }
    }
    Ok(())
}

#[test]
fn texts_of_the_system_are_read_whole_or_failed(rt: HostRuntime) -> Result<(), Fail> {
    let alloc = rt.alloc();
    let cases: [([Option<usize>; 4], Result<usize, ReadFault>); 4] = [
        ([Some(3), Some(2), Some(0), None], Ok(5)),
        ([Some(0), None, None, None], Ok(0)),
        ([Some(3), None, Some(2), Some(0)], Err(ReadFault::Failed)),
        ([Some(3), Some(4), Some(0), None], Err(ReadFault::TooLong)),
    ];
    for (counts, expected) in cases {
        let mut source = StdSource::new(Letters { counts, calls: 0 });
        let read = read_all(alloc, &mut source, 6);
        match (read, expected) {
            (Ok(text), Ok(count)) => assert_eq!(rt; text.len(), count),
            (Err(fault), Err(expected)) => assert_eq!(rt; fault, expected),
            _ => return Err(Fail::from("another answer")),
        }
    }
    Ok(())
}

/// A writer that takes this many bytes in turn and is flushed, and fails where the count is missing or the flush is to fail. It
/// keeps what it took.
#[derive(Drop)]
struct Takes {
    counts: [(Option<usize>, bool); 5],
    calls: usize,
    kept: Vec<u8>,
}

impl Write for Takes {
    fn write(&mut self, buf: &[u8]) -> io::Result<usize> {
        match self.counts.get(self.calls) {
            Some((Some(count), _)) => {
                let count = (*count).min(buf.len());
                self.kept.extend_from_slice(&buf[..count])?;
                Ok(count)
            }
            _ => Err(io::Error::from(ErrorKind::TimedOut)),
        }
    }

    fn flush(&mut self) -> io::Result<()> {
        let flushes = self
            .counts
            .get(self.calls)
            .is_some_and(|(_, flushes)| *flushes);
        self.calls = self.calls.saturating_add(1);
        if flushes {
            Ok(())
        } else {
            Err(io::Error::from(ErrorKind::TimedOut))
        }
    }
}

#[test]
fn a_write_that_takes_nothing_or_is_not_flushed_fails(rt: HostRuntime) -> Result<(), Fail> {
    let mut takes = Takes {
        counts: [
            (Some(3), true),
            (Some(0), true),
            (None, true),
            (Some(3), false),
            (Some(2), true),
        ],
        calls: 0,
        kept: Vec::new(rt.alloc()),
    };
    let mut sink = StdSink::new(&mut takes);
    for (piece, expected) in [
        (b"abcd", Took::Bytes(3)),
        (b"efgh", Took::Failed),
        (b"ijkl", Took::Failed),
        (b"mnop", Took::Failed),
        (b"qrst", Took::Bytes(2)),
    ] {
        assert_eq!(rt; sink.write(piece), expected);
    }
    // A piece whose flush failed may have been taken.
    assert_eq!(rt; takes.kept.as_slice(), b"abcmnoqr".as_slice());
    Ok(())
}

#[test]
fn a_text_to_the_system_tells_what_was_taken(rt: HostRuntime) -> Result<(), Fail> {
    let cases: [([(Option<usize>, bool); 5], Option<u64>, &[u8]); 3] = [
        (
            [
                (Some(3), true),
                (Some(3), true),
                (None, true),
                (None, true),
                (None, true),
            ],
            None,
            b"abcdef",
        ),
        (
            [
                (Some(4), true),
                (Some(2), false),
                (Some(2), true),
                (None, true),
                (None, true),
            ],
            Some(4),
            b"abcdef",
        ),
        (
            [
                (Some(0), true),
                (Some(6), true),
                (None, true),
                (None, true),
                (None, true),
            ],
            Some(0),
            b"",
        ),
    ];
    for (counts, taken, kept) in cases {
        let mut takes = Takes {
            counts,
            calls: 0,
            kept: Vec::new(rt.alloc()),
        };
        match write_all(&mut StdSink::new(&mut takes), b"abcdef") {
            Ok(()) => assert_eq!(rt; taken, None),
            Err(WriteFault::Failed { taken: count }) => assert_eq!(rt; taken, Some(count)),
        }
        assert_eq!(rt; takes.kept.as_slice(), kept);
    }
    Ok(())
}

/// A reader and a writer of one byte a call. A signal interrupts every other call.
#[derive(Drop)]
struct Interrupted {
    calls: u64,
    left: u64,
    kept: Vec<u8>,
}

impl Interrupted {
    fn call(&mut self) -> io::Result<()> {
        self.calls = self.calls.saturating_add(1);
        if self.calls % 2 == 1 {
            return Err(io::Error::from(ErrorKind::Interrupted));
        }
        Ok(())
    }
}

impl Read for Interrupted {
    fn read(&mut self, buf: &mut [u8]) -> io::Result<usize> {
        self.call()?;
        if self.left == 0 || buf.is_empty() {
            return Ok(0);
        }
        self.left -= 1;
        buf[0] = b'x';
        Ok(1)
    }
}

impl Write for Interrupted {
    fn write(&mut self, buf: &[u8]) -> io::Result<usize> {
        self.call()?;
        let count = buf.len().min(1);
        self.kept.extend_from_slice(&buf[..count])?;
        Ok(count)
    }

    fn flush(&mut self) -> io::Result<()> {
        self.call()
    }
}

#[test]
fn interrupted_calls_of_the_system_are_made_again(rt: HostRuntime) -> Result<(), Fail> {
    let alloc = rt.alloc();
    let mut inner = Interrupted {
        calls: 0,
        left: 3,
        kept: Vec::new(alloc),
    };
    let text = read_all(alloc, &mut StdSource::new(&mut inner), 100);
    assert_eq!(rt; text.ok().ok_or("failed")?.as_slice(), b"xxx".as_slice());
    // Three bytes and the end, each at the second call.
    assert_eq!(rt; inner.calls, 8);
    let written = write_all(&mut StdSink::new(&mut inner), b"abc");
    assert_eq!(rt; written, Ok(()));
    assert_eq!(rt; inner.kept.as_slice(), b"abc".as_slice());
    // Three bytes, each written and flushed at the second call.
    assert_eq!(rt; inner.calls, 20);
    Ok(())
}

/// A fault of reading, and its text.
static READ_TEXTS: [(ReadFault, &str); 3] = [
    (ReadFault::Failed, "read failed"),
    (ReadFault::TooLong, "input too long"),
    (ReadFault::NoMemory, "out of memory"),
];

#[test]
fn faults_have_their_texts(rt: HostRuntime) -> Result<(), Fail> {
    let alloc = rt.alloc();
    for (fault, wanted) in &READ_TEXTS {
        assert_eq!(rt;
            fault.to_string(alloc)?.as_str(),
            *wanted,
            "the text of {fault:?}"
        );
    }
    let fault = WriteFault::Failed { taken: 12 };
    assert_eq!(rt;
        fault.to_string(alloc)?.as_str(),
        "write failed after 12 bytes"
    );
    Ok(())
}
