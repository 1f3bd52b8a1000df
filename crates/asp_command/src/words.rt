//! The words of a command line.
ghost use Rattle.std.specs.Prelude.{◌≡◌, Err, IfOk, MatchOption, chars, map};
ghost use Rattle.std.specs.String.{string_bytes};
ghost use Rattle.asp_command.specs.declared.words.WordStop.TheVariants.{Usage};
ghost use Rattle.asp_command.specs.Words as spec;
ghost use Rattle.asp_command.specs.Saying.{AreCheckWords, AreGetWords, IsGetOf};
ghost use Rattle.asp_command.specs.Saying.{AreNoCheck, AreNoGen, AreNoGet, AreNoReplay, AreNoServe};
ghost use Rattle.vb_value.specs.Outcome.{Gives};

use crate::number::number_to;
use crate::options::{behind, said_options};
use crate::target::target_path;
use http_front::query_of;
use std::alloc::Global;
use thiserror::Error;
use vb_value::{Bytes, List, Memory, Text};

/// How many requests a recording that is made may have.
const MOST_REQUESTS: u32 = 10_000;

/// How many workers there are if no option says so.
const DEFAULT_WORKERS: u32 = 4;

/// The port if no option says one.
const DEFAULT_PORT: u16 = 8080;

/// A command.
#[derive(Debug, Drop)]
pub enum Command {
    /// Runs one request and writes the body of its answer.
    Get {
        /// The folder of the site. It may be any word.
        site: Text,
        /// The normal path that is asked for.
        path: Text,
        /// What stands behind the first `?` of the path's word, as it is written; empty without one.
        query: Bytes,
    },
    /// Reads all of a site, and writes how many pages and files it has.
    Check {
        /// The folder of the site. It may be any word.
        site: Text,
    },
    /// Replays the recording that the source has.
    Replay {
        /// The folder of the site. It may be any word.
        site: Text,
        /// How many workers there are, from 1 to 16; 4 if no option says so.
        workers: u32,
        /// Whether the journal is asked for.
        journal: bool,
        /// Whether a Lock is to keep readers out too, whatever the recording says.
        strict: bool,
    },
    /// Answers those who come to a port, until it has admitted so many requests.
    Serve {
        /// The folder of the site. It may be any word.
        site: Text,
        /// After how many requests it stops, from 1 to 100,000.
        requests: u32,
        /// How many workers there are, from 1 to 16; 4 if no option says so.
        workers: u32,
        /// The port, from 1 to 65,535; 8080 if no option says so.
        port: u16,
        /// Whether a Lock is to keep readers out too.
        strict: bool,
    },
    /// Replays a recording that is made, and not read.
    Gen {
        /// How many requests it has, from 1 to 10,000.
        count: u32,
        /// Whether the journal is asked for.
        journal: bool,
    },
}

/// Why words say no command.
#[derive(Clone, Copy, Debug, PartialEq, Eq, Error)]
pub enum WordStop {
    /// The words are those of no command.
    #[error("the words are those of no command")]
    Usage,
    /// Memory ran out.
    #[error("out of memory")]
    Memory,
}

impl From<Memory> for WordStop {
    ghost use Rattle.asp_command.specs.declared.words.WordStop.TheVariants.{Memory as OutOfMemory};

    ghost from_gives = { λ _ stop. stop ≡ OutOfMemory };

    fn from(_: Memory) -> WordStop {
        WordStop::Memory
    }
}

/// The command that the words say, without the program's own name. A path is decoded before it is judged, which takes
/// memory.
pub fn read_words(alloc: Global, words: &[String]) -> Result<Command, WordStop>
    ensures ok { IfOk result (spec.IsCommand (map string_bytes words.now)) }
    ensures usage { result ≡ Err Usage → spec.SaysNoCommand (map string_bytes words.now) }
{
    if let Some((site, target)) = get_words(words) {
        return get_command(alloc, site, target);
    }
    if let Some(site) = check_word(words) {
        return Ok(check_command(alloc, site)?);
    }
    if let Some((site, workers, journal, strict)) = replay_words(words) {
        return Ok(replay_command(alloc, site, workers, journal, strict)?);
    }
    if let Some((site, requests, workers, port, strict)) = serve_words(words) {
        return Ok(serve_command(alloc, site, requests, workers, port, strict)?);
    }
    match gen_words(words) {
        Some((count, journal)) => Ok(Command::Gen { count, journal }),
        None => Err(WordStop::Usage),
    }
}

/// The words for the site and the target, where the words are those of `get`.
fn get_words(words: &[String]) -> Option<(&str, &str)>
    ensures { MatchOption result (AreNoGet (map string_bytes words.now))
        (λ said. AreGetWords (map string_bytes words.now) said.0.now said.1.now) }
{
    match words {
        [get, site, target] if get.as_str() == "get" => Some((site.as_str(), target.as_str())),
        _ => None,
    }
}

/// The word for the site, where the words are those of `check`.
fn check_word(words: &[String]) -> Option<&str>
    ensures { MatchOption result (AreNoCheck (map string_bytes words.now))
        (λ site. AreCheckWords (map string_bytes words.now) site.now) }
{
    match words {
        [check, site] if check.as_str() == "check" => Some(site.as_str()),
        _ => None,
    }
}

/// The word for the site, how many workers, whether a journal, and whether the strict rule, where the words are those of
/// `replay`.
fn replay_words(words: &[String]) -> Option<(&str, u32, bool, bool)>
    ensures { MatchOption result (AreNoReplay (map string_bytes words.now))
        (λ said. spec.SaysReplay (map string_bytes words.now) (chars said.0.now) said.1 said.2 said.3) }
{
    let rest = behind("replay", words)?;
    let (site, rest) = rest.split_first()?;
    let said = said_options(rest)?;
    if said.are_of_replay() {
        Some((
            site.as_str(),
            said.workers.unwrap_or(DEFAULT_WORKERS),
            said.journal,
            said.strict,
        ))
    } else {
        None
    }
}

/// The word for the site, how many requests, how many workers, the port, and whether the strict rule, where the words are
/// those of `serve`.
fn serve_words(words: &[String]) -> Option<(&str, u32, u32, u16, bool)>
    ensures { MatchOption result (AreNoServe (map string_bytes words.now))
        (λ said. spec.SaysServe (map string_bytes words.now) (chars said.0.now) said.1 said.2 said.3 said.4) }
{
    let rest = behind("serve", words)?;
    let (site, rest) = rest.split_first()?;
    let said = said_options(rest)?;
    let requests = said.requests?;
    if said.journal {
        return None;
    }
    let workers = said.workers.unwrap_or(DEFAULT_WORKERS);
    Some((
        site.as_str(),
        requests,
        workers,
        said.port.unwrap_or(DEFAULT_PORT),
        said.strict,
    ))
}

/// How many requests, and whether a journal, where the words are those of `gen`.
fn gen_words(words: &[String]) -> Option<(u32, bool)>
    ensures { MatchOption result (AreNoGen (map string_bytes words.now))
        (λ said. spec.SaysGen (map string_bytes words.now) said.0 said.1) }
{
    let rest = behind("gen", words)?;
    let (number, rest) = rest.split_first()?;
    let count = number_to(MOST_REQUESTS, number.as_str())?;
    let said = said_options(rest)?;
    if said.are_of_gen() {
        Some((count, said.journal))
    } else {
        None
    }
}

/// The command `check` for this word.
fn check_command(alloc: Global, site: &str) -> Result<Command, Memory>
    ensures { Gives result (Command.Check (chars site.now)) }
{
    Ok(Command::Check {
        site: Text::from_str(alloc, site)?,
    })
}

/// The command `replay` for this word.
fn replay_command(
    alloc: Global,
    site: &str,
    workers: u32,
    journal: bool,
    strict: bool,
) -> Result<Command, Memory>
    ensures { Gives result (Command.Replay (chars site.now) workers journal strict) }
{
    Ok(Command::Replay {
        site: Text::from_str(alloc, site)?,
        workers,
        journal,
        strict,
    })
}

/// The command `serve` for this word.
fn serve_command(
    alloc: Global,
    site: &str,
    requests: u32,
    workers: u32,
    port: u16,
    strict: bool,
) -> Result<Command, Memory>
    ensures { Gives result (Command.Serve (chars site.now) requests workers port strict) }
{
    Ok(Command::Serve {
        site: Text::from_str(alloc, site)?,
        requests,
        workers,
        port,
        strict,
    })
}

/// The command `get` for this word and the path that this one names.
fn get_command(alloc: Global, site: &str, target: &str) -> Result<Command, WordStop>
    ensures ok { IfOk result (IsGetOf site.now target.now) }
    ensures usage { result ≡ Err Usage → spec.IsNoTarget target.now }
{
    let Some(path) = target_path(alloc, target.as_bytes())? else {
        return Err(WordStop::Usage);
    };
    Ok(Command::Get {
        site: Text::from_str(alloc, site)?,
        path,
        query: List::from_slice(alloc, query_of(target.as_bytes()))?,
    })
}
