//! Texts, their bytes, numbers, lines and cases, and the texts of errors, by the names of their calls.
ghost use Rattle.std.specs.Prelude.{◌^◌, ◌<◌, length};

use crate::notation::{write_currency, write_error, write_quoted};
use case_files::{Answer, CaseStop};
use vb_value::{
    Bytes, Memory, Text, Utf8Stop, Value, VbFault, cur_of_text, ends_line, error_text, fold,
    is_blank, is_word, line_ends, named_truth,
};

/// Writes what a call on a text, or on the number of an error, gives. Whether there is one of that name.
pub fn write_of_texts(out: &mut Answer, name: &str, values: &[Value]) -> bool {
    match values {
        [Value::Str(text)] => write_of_text(out, name, text),
        [Value::Str(word), Value::Str(text)] if name == "is_word" => {
            match word.to_utf8(out.alloc()) {
                Ok(bytes) => out.show(&is_word(bytes.as_slice(), text.as_slice())),
                Err(_) => out.stop(CaseStop::Memory),
            }
            true
        }
        [Value::Long(number)] => write_of_error(out, name, *number),
        _ => false,
    }
}

/// Writes what a call on the number of an error gives, or the error as it is printed.
fn write_of_error(out: &mut Answer, name: &str, number: i32) -> bool {
    match name {
        "error_text" => {
            let text = error_text(out.alloc(), number);
            write_made(out, text);
        }
        "print" => out.show(&VbFault::Error(number)),
        _ => return false,
    }
    true
}

fn write_of_text(out: &mut Answer, name: &str, text: &Text) -> bool {
    match name {
        "cur_of_text" => match cur_of_text(text) {
            Ok(amount) => write_currency(out, amount),
            Err(error) => write_error(out, error.number),
        },
        "fold" => {
            let folded = fold(out.alloc(), text);
            write_made(out, folded);
        }
        "named_truth" => match named_truth(text) {
            Some(truth) => out.show(&truth),
            None => out.put("none"),
        },
        "is_blank" => match text.as_slice() {
            [c] => out.show(&is_blank(*c)),
            _ => return false,
        },
        "ends_line" => write_ends(out, text.as_slice()),
        "line_ends" => write_line_count(out, text.as_slice()),
        "from_utf8" => write_decoded(out, text),
        "to_utf8" => write_bytes(out, text),
        _ => return false,
    }
    true
}

/// Writes a text that was made, in quotes.
fn write_made(out: &mut Answer, made: Result<Text, Memory>) {
    match made {
        Ok(text) => write_quoted(out, &text),
        Err(_) => out.stop(CaseStop::Memory),
    }
}

/// Writes the places at which a line ends, with blanks between them.
fn write_ends(out: &mut Answer, text: &[char]) {
    for at in 0..text.len() {
        if ends_line(text, at) {
            if !out.is_empty() {
                out.put(" ");
            }
            out.show(&at);
        }
    }
}

fn write_line_count(out: &mut Answer, text: &[char]) {
    if text.len() >= 1 << 32 {
        out.stop(CaseStop::Unreadable);
    } else {
        out.show(&line_ends(text.len(), text));
    }
}

/// Writes the text of which the bytes are given in hexadecimal.
fn write_decoded(out: &mut Answer, written: &Text) {
    let mut bytes = Bytes::new(out.alloc());
    let Ok(written) = written.to_string(out.alloc()) else {
        return out.stop(CaseStop::Memory);
    };
    for byte in written.as_str().split_whitespace() {
        match u8::from_str_radix(byte, 16) {
            Ok(byte) => {
                if bytes.push(byte).is_err() {
                    out.stop(CaseStop::Memory);
                }
            }
            Err(_) => out.stop(CaseStop::Unreadable),
        }
    }
    match Text::from_utf8(out.alloc(), bytes.as_slice()) {
        Ok(text) => write_quoted(out, &text),
        Err(Utf8Stop::NotUtf8) => out.put("not UTF-8"),
        Err(Utf8Stop::Memory) => out.stop(CaseStop::Memory),
    }
}

/// Writes the bytes of a text, in hexadecimal.
fn write_bytes(out: &mut Answer, text: &Text) {
    match text.to_utf8(out.alloc()) {
        Ok(bytes) => {
            for byte in bytes.as_slice() {
                if !out.is_empty() {
                    out.put(" ");
                }
                out.hexadecimal(*byte);
            }
        }
        Err(_) => out.stop(CaseStop::Memory),
    }
}
