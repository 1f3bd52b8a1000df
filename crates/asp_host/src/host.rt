//! The host as one call.
ghost use Rattle.std.specs.Prelude.{◌≡◌, ◌⊎◌, map};
ghost use Rattle.std.specs.String.{string_bytes};
ghost use Rattle.asp_command.specs.declared.words.Command.{Command as Said};
ghost use Rattle.asp_command.specs.Words.{IsCommand, SaysNoCommand};
ghost use Rattle.asp_io.specs.Faults.{HasRisen};
ghost use Rattle.asp_host.specs.Host.{Ends, ReadsNothing};
ghost use Rattle.asp_host.specs.Status.{IsUnsaid};
ghost use Rattle.asp_serve.specs.Visits.{MayFail};

use crate::check::check;
use crate::generated::replay_generated;
use crate::get::get;
use crate::replay::replay;
use crate::serve::serve;
use crate::status::Status;
use asp_command::{Command, WordStop, read_words};
use asp_desk::OpenGate;
use asp_io::{Clock, Folder, Sink, Source, Wire};
use asp_serve::Terms;
use std::alloc::Global;
use std::sync::Wait;
use std::thread::Threads;

/// Runs the command that the words say, without the program's own name.
///
/// The site is what `folder` holds, a recording is what `source` has, and the output goes to `sink`. A host that serves
/// takes its connections from `wire`, the time of each request from `clock` and the letters of session keys from `seed`;
/// which port the words say is for the caller, who made the wire.
pub fn run_host<Rt, F, S, K, W, C>(
    rt: &Rt,
    alloc: Global,
    words: &[String],
    folder: &mut F,
    source: &mut S,
    sink: &mut K,
    wire: W,
    clock: &C,
    seed: [u8; 32],
) -> Status
where
    Rt: Threads + Wait + Sync,
    F: Folder,
    S: Source,
    K: Sink,
    W: Wire + Send + Drop,
    W::L: Send + Drop,
    C: Clock + Sync,
    // The command that the words say ends as its own statement has it: see `specs/Host.antt`.
    ensures ends { (command : Said) → IsCommand (map string_bytes words.now) command
        → Ends command (record {
          files = F.files folder.old;
          source = record { before = S.left source.old; after = S.left source.new };
          sink = record { before = K.held sink.old; after = K.held sink.new };
          seed = seed;
          wire_ends = W.ENDS;
        }) result }

    // Words that say no command are told so, unless memory ran out, and nothing is written.
    ensures usage { result ≡ Status.Usage → SaysNoCommand (map string_bytes words.now) }
    ensures no_command { SaysNoCommand (map string_bytes words.now)
        → IsUnsaid result × (source.new ≡ source.old) × (K.held sink.new ≡ K.held sink.old) }

    // A fault has a cause. Out of memory alone has none.
    ensures read_fault { result ≡ Status.ReadFault → HasRisen (F.faults folder.old) (F.faults folder.new)
        ⊎ HasRisen (S.faults source.old) (S.faults source.new) }
    ensures write_fault { result ≡ Status.WriteFault → HasRisen (K.faults sink.old) (K.faults sink.new) }
    ensures accept_fault { result ≡ Status.AcceptFault → MayFail W.faults }

    // `replay` alone reads the source.
    ensures source { (command : Said) → IsCommand (map string_bytes words.now) command → ReadsNothing command
        → source.new ≡ source.old }
{
    match read_words(alloc, words) {
        Ok(
            Command::Get {
                site: _,
                path,
                query,
            },
        ) => get(alloc, &path, &query, folder, sink),
        Ok(Command::Check { site: _ }) => check(alloc, folder, sink),
        Ok(
            Command::Replay {
                site: _,
                workers,
                journal,
                strict,
            },
        ) => replay(
            rt, alloc, workers, journal, strict, folder, source, sink, &OpenGate,
        ),
        Ok(
            Command::Serve {
                site: _,
                requests,
                workers,
                port: _,
                strict,
            },
        ) => {
            let terms = Terms {
                seed,
                requests,
                workers,
                strict,
            };
            serve(rt, alloc, &terms, folder, wire, clock)
        }
        Ok(Command::Gen { count, journal }) => replay_generated(rt, alloc, count, journal, sink),
        Err(WordStop::Usage) => Status::Usage,
        Err(WordStop::Memory) => Status::Memory,
    }
}
