//! The stages, timed.

use std::io;
use std::io::ErrorKind;
use std::time::{CpuClock, Duration};
use vb_lex::lex;
use vb_parse::parse;
use vb_scope::resolve;
use vb_syntax::{Program, Unit};
use vb_value::{List, Text, Token};

/// The least time that each stage took.
#[derive(Clone, Copy)]
pub struct Times {
    pub words: Duration,
    pub grammar: Duration,
    pub names: Duration,
}

impl Times {
    /// Before the first round.
    pub fn longest() -> Times {
        Times {
            words: Duration::MAX,
            grammar: Duration::MAX,
            names: Duration::MAX,
        }
    }
}

/// What a script has.
#[derive(Clone, Copy)]
pub struct Size {
    pub words: usize,
    pub variables: usize,
    pub procedures: usize,
    pub names: usize,
}

impl Size {
    /// Before the first round.
    pub fn nothing() -> Size {
        Size {
            words: 0,
            variables: 0,
            procedures: 0,
            names: 0,
        }
    }
}

/// What was made, or that the trial stops.
pub fn told<T: Drop, E: Drop>(made: Result<T, E>) -> io::Result<T> {
    match made {
        Ok(made) => Ok(made),
        Err(_) => Err(ErrorKind::Other.into()),
    }
}

/// The processor time since a start.
fn since<R: CpuClock>(rt: &R, start: Duration) -> io::Result<Duration> {
    Ok(rt.process_cpu_time()?.saturating_sub(start))
}

fn words<R: CpuClock + AllocGlobal>(
    rt: &R,
    text: &Text,
    times: &mut Times,
) -> io::Result<List<Token>> {
    if text.len() >= 1 << 31 {
        return Err(ErrorKind::InvalidInput.into());
    }
    let start = rt.process_cpu_time()?;
    let tokens = told(lex(rt.alloc(), text))?;
    times.words = times.words.min(since(rt, start)?);
    Ok(tokens)
}

fn grammar<R: CpuClock + AllocGlobal>(
    rt: &R,
    tokens: &List<Token>,
    times: &mut Times,
) -> io::Result<Unit> {
    let start = rt.process_cpu_time()?;
    let unit = told(parse(rt.alloc(), tokens.as_slice()))?;
    times.grammar = times.grammar.min(since(rt, start)?);
    Ok(unit)
}

/// The script is let go within this time.
fn names<R: CpuClock + AllocGlobal>(rt: &R, unit: Unit, times: &mut Times) -> io::Result<Program> {
    let start = rt.process_cpu_time()?;
    let program = told(resolve(rt.alloc(), unit))?;
    times.names = times.names.min(since(rt, start)?);
    Ok(program)
}

/// Runs each stage once, and keeps the times that are less than those before.
pub fn round<R: CpuClock + AllocGlobal>(
    rt: &R,
    text: &Text,
    times: &mut Times,
) -> io::Result<Size> {
    let tokens = words(rt, text, times)?;
    let unit = grammar(rt, &tokens, times)?;
    let program = names(rt, unit, times)?;
    Ok(Size {
        words: tokens.len(),
        variables: program.vars.len(),
        procedures: program.procs.len(),
        names: program.unit.names.len(),
    })
}
