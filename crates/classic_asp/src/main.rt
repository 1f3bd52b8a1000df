//! The program: it makes the real folder, input and output, port, clock and seed, and runs the host on the words of its
//! command line.
#![tactic(auto)]

mod command_line;
mod serving;
mod text;

use asp_host::{Status, run_host, status_code, status_text};
use asp_io::{StdClock, StdFolder, StdIn, StdOut, TcpWire};
use command_line::{Line, folder_word, line_words};
use serving::{random_seed, served_port};
use std::alloc::AllocError;
use std::net::{Net, TcpListener, TcpStream};
use std::process::ExitCode;
use std::random::RandomSource;
use std::rt::Runtime;
use std::sync::Wait;
use std::thread::Threads;
use text::{HELP, VERSION, print_line, tell};

/// The port of the wire that a command is given which does not serve. It never listens there.
const UNUSED_PORT: u16 = 8080;

fn main(rt: HostRuntime) -> ExitCode {
    ExitCode::from(run(&rt))
}

/// Runs the command line and gives the exit status. What there is to say of the end goes to standard error.
fn run<R>(rt: &R) -> u8
where
    R: Runtime + AllocGlobal + RandomSource + Threads + Wait + Send + Sync,
    R: Net<Listener = TcpListener, Stream = TcpStream>,
{
    let status = match line_words(rt) {
        Line::Help => print_line(rt, HELP),
        Line::Version => print_line(rt, VERSION),
        Line::Words(words) => host(rt, words.as_slice()).unwrap_or(Status::Memory),
        Line::Faulty => Status::Usage,
        Line::Memory => Status::Memory,
    };
    if let Ok(text) = status_text(rt.alloc(), &status) {
        tell(rt, &text);
    }
    status_code(&status)
}

/// Runs the host on the words, over the folder that the second of them names. Where the system has no random bytes
/// nothing is served: the letters of its session keys could be guessed. Other commands make no keys that anyone sees.
fn host<R>(rt: &R, words: &[String]) -> Result<Status, AllocError>
where
    R: Runtime + AllocGlobal + RandomSource + Threads + Wait + Send + Sync,
    R: Net<Listener = TcpListener, Stream = TcpStream>,
{
    let alloc = rt.alloc();
    let port = served_port(alloc, words)?;
    let seed = random_seed(rt);
    if port.is_some() && seed.is_none() {
        return Ok(Status::ReadFault);
    }
    let mut folder = StdFolder::new(rt.clone()?, folder_word(alloc, words)?);
    let mut sink = StdOut::new(rt.clone()?);
    let mut source = StdIn::new(rt.reader());
    Ok(run_host(
        rt,
        alloc,
        words,
        &mut folder,
        &mut source,
        &mut sink,
        TcpWire::new(rt.clone()?, port.unwrap_or(UNUSED_PORT)),
        &StdClock::new(rt.clone()?),
        seed.unwrap_or([0; 32]),
    ))
}
