//! Texts as cases write them.

use crate::stop::CaseStop;
use std::alloc::Global;

/// The text that a case writes so: `|` ends a line, `~e9~` is the character of that hexadecimal number, and
/// `~200*part~` is the part so many times, in which `#` stands for how many came before it and `^` for a carriage
/// return.
pub fn read_text(alloc: Global, written: &str) -> Result<String, CaseStop> {
    let mut text = String::new(alloc);
    let mut is_open = true;
    for piece in written.split('~') {
        is_open = !is_open;
        if is_open {
            push_special(&mut text, alloc, piece)?;
        } else {
            push_part(&mut text, piece)?;
        }
    }
    if is_open {
        return Err(CaseStop::Unreadable);
    }
    Ok(text)
}

fn push_part(text: &mut String, part: &str) -> Result<(), CaseStop> {
    for c in part.chars() {
        text.push(if c == '|' { '\n' } else { c })?;
    }
    Ok(())
}

/// Adds what stands between two `~`.
fn push_special(text: &mut String, alloc: Global, special: &str) -> Result<(), CaseStop> {
    match special.split_once('*') {
        Some((count, part)) => match count.parse() {
            Ok(count) => push_times(text, alloc, count, part),
            Err(_) => Err(CaseStop::Unreadable),
        },
        None => Ok(text.push(character(special)?)?),
    }
}

fn push_times(text: &mut String, alloc: Global, count: u32, part: &str) -> Result<(), CaseStop> {
    for before in 0..count {
        push_numbered(text, alloc, before, part)?;
    }
    Ok(())
}

fn push_numbered(
    text: &mut String,
    alloc: Global,
    number: u32,
    part: &str,
) -> Result<(), CaseStop> {
    for c in part.chars() {
        match c {
            '#' => text.push_str(format!(in alloc; "{number}")?.as_str())?,
            '^' => text.push('\r')?,
            '|' => text.push('\n')?,
            _ => text.push(c)?,
        }
    }
    Ok(())
}

fn character(number: &str) -> Result<char, CaseStop> {
    let Ok(number) = u32::from_str_radix(number, 16) else {
        return Err(CaseStop::Unreadable);
    };
    char::from_u32(number).ok_or(CaseStop::Unreadable)
}
