//! Streams that fail or stop short in the middle.

use asp_io::{Failed, IoStop, Sink, Source, StdIn, StdOut, read_start, write_all, write_start};
use std::cell::Cell;
use std::fmt::Display;
use std::io;
use std::io::{ErrorKind, Read, Write};
use std::test::Fail;

/// A stream of single bytes, one call of which fails.
#[derive(Drop)]
struct Faulty {
    calls: u32,
    fails: u32,
    kind: ErrorKind,
}

impl Faulty {
    fn next_call(&mut self) -> io::Result<()> {
        self.calls = self.calls.saturating_add(1);
        if self.calls == self.fails {
            return Err(self.kind.into());
        }
        Ok(())
    }
}

impl Read for Faulty {
    fn read(&mut self, buf: &mut [u8]) -> io::Result<usize> {
        self.next_call()?;
        let Some(first) = buf.first_mut() else {
            return Ok(0);
        };
        *first = b'x';
        Ok(1)
    }
}

impl Write for Faulty {
    fn write(&mut self, buf: &[u8]) -> io::Result<usize> {
        self.next_call()?;
        Ok(buf.len().min(1))
    }

    fn flush(&mut self) -> io::Result<()> {
        Ok(())
    }
}

/// A terminal that takes two bytes at a call, until it is closed.
#[derive(Drop)]
struct Closing {
    calls: Cell<u32>,
}

impl Print for Closing {
    fn print<D: Display + Drop>(&self, _: D) -> io::Result<()> {
        Err(ErrorKind::BrokenPipe.into())
    }

    fn println<D: Display + Drop>(&self, _: D) -> io::Result<()> {
        Err(ErrorKind::BrokenPipe.into())
    }

    fn write_all(&self, _: &[u8]) -> io::Result<()> {
        Err(ErrorKind::BrokenPipe.into())
    }

    fn write_some(&self, bytes: &[u8]) -> io::Result<usize> {
        let left = self.calls.get();
        if left == 0 {
            return Err(ErrorKind::BrokenPipe.into());
        }
        self.calls.set(left - 1);
        Ok(bytes.len().min(2))
    }
}

#[test]
fn a_reader_that_fails_in_the_middle(rt: HostRuntime) -> Result<(), Fail> {
    let cases = [
        (2, ErrorKind::Other, Err(IoStop::Failed)),
        (2, ErrorKind::OutOfMemory, Err(IoStop::Memory)),
        (2, ErrorKind::Interrupted, Ok(3)),
        (9, ErrorKind::Other, Ok(3)),
    ];
    for (fails, kind, want) in cases {
        let mut reader = Faulty {
            calls: 0,
            fails,
            kind,
        };
        let read = read_start(rt.alloc(), &mut reader, 3);
        assert!(rt; read.map(|bytes| bytes.len()) == want, "{fails} {kind:?}");
    }
    Ok(())
}

/// A read that was interrupted is tried again, and one that failed puts nothing into the buffer.
#[test]
fn input_that_fails_in_the_middle(rt: HostRuntime) {
    let cases = [
        (ErrorKind::Other, Err(Failed), 0, 1),
        (ErrorKind::OutOfMemory, Err(Failed), 0, 1),
        (ErrorKind::Interrupted, Ok(1), b'x', 0),
    ];
    for (kind, want, second, faults) in cases {
        let mut source = StdIn::new(Faulty {
            calls: 0,
            fails: 2,
            kind,
        });
        let mut buffer = [0u8; 3];
        assert!(rt; source.read(&mut buffer) == Ok(1), "{kind:?}");
        assert!(rt; source.read(&mut buffer[1..]) == want, "{kind:?}");
        assert!(rt; buffer == [b'x', second, 0], "{kind:?}");
        assert!(rt; source.faults() == faults, "{kind:?}");
        assert!(rt; source.read(&mut []) == Ok(0), "{kind:?}");
    }
}

#[test]
fn input_comes_to_its_end(rt: HostRuntime) {
    let bytes = [b'a'; 5_000];
    let mut source = StdIn::new(bytes.as_slice());
    let mut buffer = [0u8; 3_000];
    let mut total = 0u32;
    for _ in 0..4u32 {
        let count = source.read(&mut buffer).unwrap_or(u32::MAX);
        total = total.saturating_add(count);
    }
    assert!(rt; total == 5_000);
    assert!(rt; buffer == [b'a'; 3_000]);
    assert!(rt; source.read(&mut buffer) == Ok(0));
    assert!(rt; source.faults() == 0);
}

#[test]
fn a_writer_that_fails_in_the_middle(rt: HostRuntime) {
    let mut writer = Faulty {
        calls: 0,
        fails: 2,
        kind: ErrorKind::Other,
    };
    assert!(rt; write_start(&mut writer, b"ab") == Ok(1));
    assert!(rt; write_start(&mut writer, b"ab") == Err(Failed));
    assert!(rt; write_start(&mut writer, b"") == Ok(0));
}

#[test]
fn output_that_is_closed_in_the_middle(rt: HostRuntime) {
    for (calls, want, faults) in [(3, Ok(()), 0), (2, Err(Failed), 1), (0, Err(Failed), 1)] {
        let mut out = StdOut::new(Closing {
            calls: Cell::new(calls),
        });
        assert!(rt; write_all(&mut out, b"abcde") == want, "{calls}");
        assert!(rt; out.faults() == faults, "{calls}");
    }
}
