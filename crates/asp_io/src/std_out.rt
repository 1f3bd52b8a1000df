//! Standard output as a sink.
ghost use Rattle.std.specs.Prelude.{◌≡◌, None};

use crate::fault::Failed;
use crate::sink::Sink;
use crate::std_stream::write_start;
use std::io;
use std::marker::Model;

/// Standard output, which contracts see as its count of faults. Each write is one write of the system.
#[derive(Drop)]
pub struct StdOut<R> {
    rt: R,
    faults: u64,
}

impl<R> Model for StdOut<R> {
    ghost use Rattle.std.specs.Prelude.{ℕ};

    ghost Value = { ℕ };

    ghost view = { λ out. out.faults };
}

impl<R> StdOut<R> {
    /// The standard output of `rt`.
    pub fn new(rt: R) -> StdOut<R>
        ensures { result ≡ 0 }
    {
        StdOut { rt, faults: 0 }
    }

    /// How many writes have failed, at most 2^64 - 1.
    pub fn faults(&self) -> u64
        ensures { result ≡ self.now }
    {
        self.faults
    }
}

impl<R: Print> Sink for StdOut<R> {
    ghost held = { λ _. None };

    ghost faults = { λ out. out };

    fn write(&mut self, piece: &[u8]) -> Result<u32, Failed> {
        let written = write_start(&mut io::writer(&self.rt), piece);
        if written.is_err() {
            self.faults = self.faults.saturating_add(1);
        }
        written
    }
}
