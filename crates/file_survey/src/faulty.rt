//! Words of a script that the host refuses, in each line that has one.

use crate::scan::Scan;
use std::alloc::Global;
use std::mem;
use vb_lex::{LexFault, lex};
use vb_value::{FaultKind, List, Memory, Stop, Text, ends_line};

/// The most characters of a text that is read at once.
const MOST_CHARACTERS: usize = 0x7fff_ffff;

fn kind_of(fault: LexFault) -> FaultKind {
    match fault {
        LexFault::OpenString => FaultKind::OpenString,
        LexFault::OpenBracket => FaultKind::OpenBracket,
        LexFault::LongName => FaultKind::LongName,
        LexFault::BadNumber => FaultKind::BadNumber,
        LexFault::DateLiteral => FaultKind::DateLiteral,
        LexFault::BadOperator => FaultKind::BadOperator,
        LexFault::BadCharacter => FaultKind::BadCharacter,
    }
}

/// The first fault of a text's words and its line, if it has one.
fn first_fault(alloc: Global, text: &Text) -> Result<Option<(LexFault, u32)>, Memory> {
    if text.len() > MOST_CHARACTERS {
        return Err(Memory);
    }
    match lex(alloc, text) {
        Ok(_) => Ok(None),
        Err(Stop::Fault { kind, line }) => Ok(Some((kind, line))),
        Err(Stop::Memory) => Err(Memory),
    }
}

/// Adds the words of a script that the host refuses, which begins in the line `first`: of each line, with those that it
/// goes on in, the first.
pub fn add_faulty(alloc: Global, script: &Text, first: u32, scan: &mut Scan) -> Result<(), Memory> {
    if first_fault(alloc, script)?.is_none() {
        return Ok(());
    }
    let mut lines = Lines {
        current: Text::new(alloc),
        first,
        line: first,
        continues: false,
    };
    let text = script.as_slice();
    for at in 0..text.len() {
        lines.take(text[at])?;
        if ends_line(text, at) {
            lines.end(alloc, scan)?;
        }
    }
    lines.continues = false;
    lines.end(alloc, scan)
}

/// The lines of a script, one after another.
#[derive(Drop)]
struct Lines {
    /// The line, with those before it that it goes on.
    current: Text,
    /// The first line of these.
    first: u32,
    line: u32,
    /// Whether `_` stands last in the line.
    continues: bool,
}

impl Lines {
    fn take(&mut self, character: char) -> Result<(), Memory> {
        match character {
            '_' => self.continues = true,
            ' ' | '\t' | '\r' | '\n' => {}
            _ => self.continues = false,
        }
        self.current.push(character)
    }

    /// Ends a line. Where it goes on, the next one is read together with it.
    fn end(&mut self, alloc: Global, scan: &mut Scan) -> Result<(), Memory> {
        self.line = self.line.saturating_add(1);
        if self.continues {
            self.continues = false;
            return Ok(());
        }
        let current = mem::replace(&mut self.current, List::new(alloc));
        if let Some((fault, behind)) = first_fault(alloc, &current)? {
            let line = self.first.saturating_add(behind.saturating_sub(1));
            scan.faults.push((line, kind_of(fault)))?;
        }
        self.first = self.line;
        Ok(())
    }
}
