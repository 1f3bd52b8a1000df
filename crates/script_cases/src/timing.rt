//! The stages of a long script, timed. What the script has goes to standard output, and the least processor time of
//! each stage to standard error.

use crate::asked::Asked;
use crate::rounds::{Size, Times, round, told};
use case_files::read_text;
use std::alloc::Global;
use std::rt::Files;
use std::time::CpuClock;
use std::{fs, io};
use vb_value::Text;

/// The file's text so many times, numbered.
fn script<R: Files + AllocGlobal>(rt: &R, asked: &Asked) -> io::Result<Text> {
    let alloc: Global = rt.alloc();
    let part = fs::read_to_string(rt, asked.file.as_str())?;
    let copies = asked.copies;
    let written = format!(in alloc; "~{copies}*{part}~")?;
    let text = told(read_text(alloc, written.as_str()))?;
    told(Text::from_str(alloc, text.as_str()))
}

/// Times the stages of the script that is asked for.
pub fn time_stages<R: Files + CpuClock + AllocGlobal + Print + Eprint>(
    rt: &R,
    asked: &Asked,
) -> io::Result<()> {
    let text = script(rt, asked)?;
    let mut times = Times::longest();
    let mut size = Size::nothing();
    for _ in 0..asked.rounds {
        size = round(rt, &text, &mut times)?;
    }
    println!(rt;
        "{} characters, {} words; {} variables, {} procedures, {} names",
        text.len(),
        size.words,
        size.variables,
        size.procedures,
        size.names
    )?;
    eprintln!(rt;
        "microseconds: words {}, grammar {}, names {}",
        times.words.as_micros(),
        times.grammar.as_micros(),
        times.names.as_micros()
    )
}
