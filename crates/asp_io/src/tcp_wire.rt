//! The connections of a port.
ghost use Rattle.std.specs.Prelude.{◌≡◌, None, false};

use crate::fault::Failed;
use crate::tcp_link::TcpLink;
use crate::wire::Wire;
use std::io::{Error, ErrorKind};
use std::marker::Model;
use std::net::{Ipv4Addr, Net, OpenListener, TcpListener};
use std::thread;
use std::time::{Clock, Duration};

/// How often an accept is tried on end.
const MOST_TRIES: u32 = 1000;

/// Between two tries, in milliseconds.
const PAUSE: u64 = 10;

/// A process has as many open files as it may.
const TOO_MANY_FILES: i32 = 24;

/// The system has as many open files as it may.
const TOO_MANY_FILES_OF_THE_SYSTEM: i32 = 23;

/// The connections that come to a port of 127.0.0.1, of which contracts see the count of faults. It listens from the
/// first accept on. An accept that its peer or a signal broke, or for which no descriptor was free, is tried again
/// after 10 milliseconds, at most 1,000 times on end.
#[derive(Drop)]
pub struct TcpWire<R: Net> {
    rt: R,
    port: u16,
    listener: Option<R::Listener>,
    faults: u64,
}

impl<R: Net> Model for TcpWire<R> {
    ghost use Rattle.std.specs.Prelude.{ℕ};

    ghost Value = { ℕ };

    ghost view = { λ wire. wire.faults };
}

/// Whether an accept that failed so may be tried again.
fn passes(error: &Error) -> bool {
    match error.raw_os_error() {
        Some(TOO_MANY_FILES | TOO_MANY_FILES_OF_THE_SYSTEM) => true,
        _ => matches!(
            error.kind(),
            ErrorKind::ConnectionAborted | ErrorKind::ConnectionReset | ErrorKind::Interrupted
        ),
    }
}

/// The next connection of a listener.
fn accept_some<L: OpenListener, R: Clock>(listener: &L, rt: &R) -> Result<L::Stream, Failed> {
    for _ in 0..MOST_TRIES {
        match listener.accept() {
            Ok((stream, _)) => return Ok(stream),
            Err(error) if passes(&error) => thread::sleep(rt, Duration::from_millis(PAUSE)),
            Err(_) => return Err(Failed),
        }
    }
    Err(Failed)
}

impl<R: Net + Clock + Clone + Drop> TcpWire<R> {
    /// The connections that come to this port.
    pub fn new(rt: R, port: u16) -> TcpWire<R>
        ensures { result ≡ 0 }
    {
        TcpWire {
            rt,
            port,
            listener: None,
            faults: 0,
        }
    }

    fn next_link(&mut self) -> Result<TcpLink<R::Stream, R>, Failed>
        ensures faults { self.new ≡ self.old }
    {
        let rt = self.rt.clone()?;
        if let Some(listener) = &self.listener {
            return Ok(TcpLink::new(accept_some(listener, &self.rt)?, rt));
        }
        let listener = TcpListener::bind(&self.rt, (Ipv4Addr::LOCALHOST, self.port))?;
        let stream = accept_some(&listener, &self.rt);
        self.listener = Some(listener);
        Ok(TcpLink::new(stream?, rt))
    }
}

impl<R: Net + Clock + Clone + Drop> Wire for TcpWire<R> {
    type L = TcpLink<R::Stream, R>;

    const ENDS: bool = false;

    ghost ENDS = { false };

    ghost coming = { λ _. None };

    ghost faults = { λ wire. wire };

    fn accept(&mut self) -> Result<Option<TcpLink<R::Stream, R>>, Failed> {
        match self.next_link() {
            Ok(link) => Ok(Some(link)),
            Err(failed) => {
                self.faults = self.faults.saturating_add(1);
                Err(failed)
            }
        }
    }
}
