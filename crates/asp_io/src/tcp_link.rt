//! A connection of the system's.
ghost use Rattle.std.specs.Prelude.{◌≡◌, ◌≤◌, ◌<◌, ◌++◌, None, IfOk, drop, length, take};

use crate::fault::Failed;
use crate::link::Link;
use crate::patience::Patience;
use crate::std_in::read_some;
use std::io::{ErrorKind, Read, Write};
use std::marker::Model;
use std::net::{OpenStream, Shutdown};
use std::time::{Clock, Duration, Instant};

/// How long a peer may send what nobody reads, once it was told that no more is written, in seconds.
const FAREWELL: u64 = 1;

/// A connection over TCP (RFC 9293), which contracts see as its count of faults. A peer that is too slow is a fault: it
/// has 3 seconds for the first byte of a connection and one for that of each later request, which begins behind what
/// was written, and 20 for the rest of a request, and for taking an answer, with one more for each 4,096 bytes that
/// came or went. A read or a write that a signal interrupts is tried again. At its end the peer is told that no more
/// comes, and what it still sends is read for at most one second, so that it sees the answer and no reset.
pub struct TcpLink<S: Read + Write + OpenStream, R: Clock> {
    stream: S,
    rt: R,
    patience: Patience,
    faults: u64,
}

impl<S: Read + Write + OpenStream, R: Clock> Model for TcpLink<S, R> {
    ghost use Rattle.std.specs.Prelude.{ℕ};

    ghost Value = { ℕ };

    ghost view = { λ link. link.faults };
}

/// Writes some first bytes of a piece, at least one where there is one.
fn write_some<W: Write>(to: &mut W, piece: &[u8]) -> Result<u32, Failed>
    ensures within { IfOk result (λ count. count ≤ length piece.now) }
    ensures some { IfOk result (λ count. 0 < length piece.now → 0 < count) }
{
    let piece = &piece[..piece.len().min(u32::MAX as usize)];
    for _ in 0..u64::MAX {
        match to.write(piece) {
            Ok(0) if !piece.is_empty() => return Err(Failed),
            Ok(count) => return Ok(count as u32),
            Err(error) if error.kind() == ErrorKind::Interrupted => {}
            Err(_) => return Err(Failed),
        }
    }
    Err(Failed)
}

/// Reads and forgets what still comes, until the peer ends or the time is over.
fn read_rest<S: Read + OpenStream, R: Clock>(stream: &mut S, rt: &R) -> std::io::Result<()> {
    let began = Instant::now(rt)?;
    let mut chunk = [0u8; 4096];
    for _ in 0..u64::MAX {
        let left = Duration::from_secs(FAREWELL).saturating_sub(began.elapsed(rt)?);
        stream.set_read_timeout(Some(left))?;
        if stream.read(&mut chunk)? == 0 {
            return Ok(());
        }
    }
    Ok(())
}

impl<S: Read + Write + OpenStream, R: Clock> TcpLink<S, R> {
    /// The connection of a stream that nothing was read from. It sends what is written at once.
    pub fn new(stream: S, rt: R) -> TcpLink<S, R>
        ensures { result ≡ 0 }
    {
        let _ = stream.set_nodelay(true);
        TcpLink {
            stream,
            rt,
            patience: Patience::First,
            faults: 0,
        }
    }

    fn read_in_time(&mut self, into: &mut [u8]) -> Result<u32, Failed>
        ensures within { IfOk result (λ count. count ≤ length into.old) }
        ensures kept { IfOk result (λ count. into.new ≡ take count into.new ++ drop count into.old) }
        ensures faults { self.new ≡ self.old }
    {
        let left = self.patience.to_read(&self.rt)?;
        self.stream.set_read_timeout(Some(left))?;
        let count = read_some(&mut self.stream, into)?;
        if count > 0 {
            self.patience = self.patience.after_read(&self.rt, count)?;
        }
        Ok(count)
    }

    fn write_in_time(&mut self, piece: &[u8]) -> Result<u32, Failed>
        ensures within { IfOk result (λ count. count ≤ length piece.now) }
        ensures some { IfOk result (λ count. 0 < length piece.now → 0 < count) }
        ensures faults { self.new ≡ self.old }
    {
        let answer = self.patience.answer(&self.rt)?;
        self.stream.set_write_timeout(Some(answer.left(&self.rt)?))?;
        let count = write_some(&mut self.stream, piece)?;
        self.patience = Patience::Answer(answer.with(count));
        Ok(count)
    }
}

impl<S: Read + Write + OpenStream, R: Clock> Link for TcpLink<S, R> {
    ghost left = { λ _. None };

    ghost held = { λ _. None };

    ghost faults = { λ link. link };

    fn read(&mut self, into: &mut [u8]) -> Result<u32, Failed> {
        let count = self.read_in_time(into);
        if count.is_err() {
            self.faults = self.faults.saturating_add(1);
        }
        count
    }

    fn write(&mut self, piece: &[u8]) -> Result<u32, Failed> {
        let count = self.write_in_time(piece);
        if count.is_err() {
            self.faults = self.faults.saturating_add(1);
        }
        count
    }
}

impl<S: Read + Write + OpenStream + Drop, R: Clock + Drop> Drop for TcpLink<S, R> {
    fn drop(mut self) {
        if self.stream.shutdown(Shutdown::Write).is_ok() {
            let _ = read_rest(&mut self.stream, &self.rt);
        }
        let TcpLink {
            stream: _,
            rt: _,
            patience: _,
            faults: _,
        } = self;
    }
}
