//! How long a peer is waited for.

use std::io;
use std::time::{Clock, Duration, Instant};

/// For the first byte of a connection, in seconds.
const FIRST_REQUEST: u64 = 3;

/// For the first byte of each later request, in seconds.
const NEXT_REQUEST: u64 = 1;

/// For a request or an answer, in seconds, before its bytes earn more.
const TRANSFER: u64 = 20;

/// How many bytes earn a second more.
const BYTES_A_SECOND: u64 = 4096;

/// Bytes that come or go since a moment.
#[derive(Clone, Copy)]
pub struct Transfer {
    began: Instant,
    moved: u64,
}

impl Transfer {
    fn begin<R: Clock>(rt: &R) -> io::Result<Transfer> {
        Ok(Transfer {
            began: Instant::now(rt)?,
            moved: 0,
        })
    }

    pub fn with(self, count: u32) -> Transfer {
        Transfer {
            began: self.began,
            moved: self.moved.saturating_add(count as u64),
        }
    }

    /// How long it may still wait: 20 seconds from its beginning, and one more for each 4,096 bytes.
    pub fn left<R: Clock>(&self, rt: &R) -> io::Result<Duration> {
        let may = Duration::from_secs(TRANSFER + self.moved / BYTES_A_SECOND);
        Ok(may.saturating_sub(self.began.elapsed(rt)?))
    }
}

/// What a connection waits for.
#[derive(Clone, Copy)]
pub enum Patience {
    /// The first byte of its first request.
    First,
    /// The rest of a request.
    Request(Transfer),
    /// Room for an answer, or the first byte of the next request.
    Answer(Transfer),
}

impl Patience {
    /// How long a read may wait; zero where the time is over.
    pub fn to_read<R: Clock>(&self, rt: &R) -> io::Result<Duration> {
        match self {
            Patience::First => Ok(Duration::from_secs(FIRST_REQUEST)),
            Patience::Request(transfer) => transfer.left(rt),
            Patience::Answer(_) => Ok(Duration::from_secs(NEXT_REQUEST)),
        }
    }

    /// After a read of so many bytes.
    pub fn after_read<R: Clock>(self, rt: &R, count: u32) -> io::Result<Patience> {
        let transfer = match self {
            Patience::Request(transfer) => transfer,
            Patience::First | Patience::Answer(_) => Transfer::begin(rt)?,
        };
        Ok(Patience::Request(transfer.with(count)))
    }

    /// The answer that is being written: that one, or one that begins now.
    pub fn answer<R: Clock>(self, rt: &R) -> io::Result<Transfer> {
        match self {
            Patience::Answer(transfer) => Ok(transfer),
            Patience::First | Patience::Request(_) => Transfer::begin(rt),
        }
    }
}
