//! The options of commands.
ghost use Rattle.std.specs.Prelude.{◌≡◌, ◌↔◌, ◌∷◌, IsTrue, MatchOption, None, false, map};
ghost use Rattle.std.specs.String.{string_bytes};
ghost use Rattle.asp_command.specs.Saying.{AreNoOptions, IsFirst, IsNoneFirst, IsNotFirst, SayNone, SaySome};
ghost use Rattle.asp_command.specs.Words as spec;

use crate::number::number_to;

/// How many workers there may be.
const MOST_WORKERS: u32 = 16;

/// How many requests a host may be asked to answer.
const MOST_REQUESTS: u32 = 100_000;

/// The greatest port (RFC 9293, section 3.1).
const MOST_PORT: u32 = u16::MAX as u32;

/// An option, as it is said.
#[derive(Clone, Copy)]
pub enum Said {
    /// `--journal`
    Journal,
    /// `--strict-lock`
    StrictLock,
    /// `--workers` and how many, from 1 to 16
    Workers(u32),
    /// `--requests` and how many, from 1 to 100,000
    Requests(u32),
    /// `--port` and its number, from 1 to 65,535
    Port(u16),
}

/// The options that were said.
#[derive(Clone, Copy)]
pub struct Options {
    /// Whether the journal is asked for.
    pub journal: bool,
    /// Whether a Lock is to keep readers out too.
    pub strict: bool,
    /// How many workers there are to be.
    pub workers: Option<u32>,
    /// After how many requests a host stops.
    pub requests: Option<u32>,
    /// At which port a host can be reached.
    pub port: Option<u16>,
}

impl Options {
    /// Whether `replay` may have them.
    pub fn are_of_replay(&self) -> bool
        ensures { IsTrue result ↔ ((self.now.requests ≡ None) × (self.now.port ≡ None)) }
    {
        self.requests.is_none() && self.port.is_none()
    }

    /// Whether `gen` may have them.
    pub fn are_of_gen(&self) -> bool
        ensures { IsTrue result ↔ ((self.now.strict ≡ false) × (self.now.workers ≡ None)
            × (self.now.requests ≡ None) × (self.now.port ≡ None)) }
    {
        !self.strict && self.workers.is_none() && self.are_of_replay()
    }

    /// Whether an option of this name was said.
    fn has(&self, said: Said) -> bool
        ensures { result ≡ spec.is_among self.now said }
    {
        match said {
            Said::Journal => self.journal,
            Said::StrictLock => self.strict,
            Said::Workers(_) => self.workers.is_some(),
            Said::Requests(_) => self.requests.is_some(),
            Said::Port(_) => self.port.is_some(),
        }
    }

    /// These and this one.
    fn with(self, said: Said) -> Options
        ensures { result ≡ spec.with_option self said }
    {
        match said {
            Said::Journal => Options {
                journal: true,
                ..self
            },
            Said::StrictLock => Options {
                strict: true,
                ..self
            },
            Said::Workers(number) => Options {
                workers: Some(number),
                ..self
            },
            Said::Requests(number) => Options {
                requests: Some(number),
                ..self
            },
            Said::Port(number) => Options {
                port: Some(number),
                ..self
            },
        }
    }
}

/// The words behind this one, if it stands first.
pub fn behind<'a>(word: &str, words: &'a [String]) -> Option<&'a [String]>
    ensures { MatchOption result (IsNotFirst word.now (map string_bytes words.now))
        (λ rest. map string_bytes words.now ≡ word.now ∷ map string_bytes rest.now) }
{
    let (first, rest) = words.split_first()?;
    if first.as_str() == word {
        Some(rest)
    } else {
        None
    }
}

/// The option that stands first, and the words behind it.
fn first_option(words: &[String]) -> Option<(Said, &[String])>
    ensures { MatchOption result (IsNoneFirst (map string_bytes words.now))
        (λ found. IsFirst (map string_bytes words.now) found.0 (map string_bytes found.1.now)) }
{
    let (name, rest) = words.split_first()?;
    if name.as_str() == "--journal" {
        return Some((Said::Journal, rest));
    }
    if name.as_str() == "--strict-lock" {
        return Some((Said::StrictLock, rest));
    }
    let (number, rest) = rest.split_first()?;
    match name.as_str() {
        "--workers" => Some((
            Said::Workers(number_to(MOST_WORKERS, number.as_str())?),
            rest,
        )),
        "--requests" => Some((
            Said::Requests(number_to(MOST_REQUESTS, number.as_str())?),
            rest,
        )),
        "--port" => Some((
            Said::Port(number_to(MOST_PORT, number.as_str())? as u16),
            rest,
        )),
        _ => None,
    }
}

/// All options, where behind those that were said before the words say further ones.
fn further(before: Options, words: &[String]) -> Option<Options>
    ensures { MatchOption result (SayNone before (map string_bytes words.now))
        (λ all. SaySome before (map string_bytes words.now) all) }
{
    if words.is_empty() {
        return Some(before);
    }
    let (said, rest) = first_option(words)?;
    if before.has(said) {
        return None;
    }
    further(before.with(said), rest)
}

/// The options that the words are.
pub fn said_options(words: &[String]) -> Option<Options>
    ensures { MatchOption result (AreNoOptions (map string_bytes words.now))
        (λ all. spec.AreOptions (map string_bytes words.now) all) }
{
    let none = Options {
        journal: false,
        strict: false,
        workers: None,
        requests: None,
        port: None,
    };
    further(none, words)
}
