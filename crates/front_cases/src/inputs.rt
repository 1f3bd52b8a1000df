//! What pages see of a request.

use crate::requests::{PIECE, read_bytes, read_parts, write_bytes, write_differing};
use asp_job::Request;
use asp_request::{InSet, Inputs};
use case_files::{Answer, CaseStop, Subject};
use std::alloc::Global;
use vb_value::{Text, Value};

/// A request and, behind ` ## `, what is asked of it, each with what it gives. The request comes at once, and byte by
/// byte.
pub struct Collections;

impl Subject for Collections {
    fn answer(&self, case: &str, out: &mut Answer) {
        let (written, asked) = case.split_once(" ## ").unwrap_or((case, ""));
        let bytes = read_bytes(out, written);
        match came(out.alloc(), bytes.as_slice(), PIECE, asked).end() {
            Ok(whole) => {
                let singly = came(out.alloc(), bytes.as_slice(), 1, asked);
                if write_differing(out, whole.as_str(), singly) {
                    out.put(" byte by byte");
                } else {
                    out.put(whole.as_str());
                }
            }
            Err(stop) => out.stop(stop),
        }
    }
}

/// What `asked` gives of the one request that comes in pieces of this size.
fn came(alloc: Global, bytes: &[u8], size: usize, asked: &str) -> Answer {
    let mut out = Answer::new(alloc);
    let given = read_parts(&mut out, bytes, b"", size);
    match given.requests.as_slice() {
        [request] => write_of_request(&mut out, request, asked),
        _ => out.stop(CaseStop::Unreadable),
    }
    out
}

fn write_of_request(out: &mut Answer, request: &Request, asked: &str) {
    match Inputs::of(out.alloc(), request) {
        Ok(inputs) => write_asked(out, &inputs, asked),
        Err(_) => out.stop(CaseStop::Memory),
    }
}

/// Writes what `asked` gives: a call, a collection and a name. A cookie's name stands where the others have a collection.
fn write_asked(out: &mut Answer, inputs: &Inputs, asked: &str) {
    let (call, rest) = asked.split_once(' ').unwrap_or((asked, ""));
    let (word, name) = rest.split_once(' ').unwrap_or((rest, ""));
    let is_cookie = call == "cookie";
    match Text::from_str(out.alloc(), if is_cookie { word } else { name }) {
        Ok(name) if is_cookie => write_raw_cookie(out, inputs, &name),
        Ok(name) => match set_of(word) {
            Some(set) => write_of_set(out, inputs, call, set, &name),
            None => out.stop(CaseStop::Unreadable),
        },
        Err(_) => out.stop(CaseStop::Memory),
    }
}

fn set_of(word: &str) -> Option<InSet> {
    match word {
        "all" => Some(InSet::All),
        "query" => Some(InSet::Query),
        "form" => Some(InSet::Form),
        "cookies" => Some(InSet::Cookies),
        "server" => Some(InSet::Server),
        _ => None,
    }
}

fn write_of_set(out: &mut Answer, inputs: &Inputs, call: &str, set: InSet, name: &Text) {
    match call {
        "joined" => write_joined(out, inputs, set, name),
        "values" => write_values(out, inputs, set, name),
        "names" => write_texts(out, inputs.names(set)),
        "raw" => out.text(inputs.raw(set).as_slice()),
        _ => out.stop(CaseStop::Unreadable),
    }
}

fn write_joined(out: &mut Answer, inputs: &Inputs, set: InSet, name: &Text) {
    match inputs.joined(out.alloc(), set, name) {
        Ok(Value::Str(text)) => out.text(text.as_slice()),
        Ok(_) => out.put("Empty"),
        Err(_) => out.stop(CaseStop::Memory),
    }
}

fn write_values(out: &mut Answer, inputs: &Inputs, set: InSet, name: &Text) {
    match inputs.values(out.alloc(), set, name) {
        Ok(values) => write_texts(out, values),
        Err(_) => out.stop(CaseStop::Memory),
    }
}

fn write_texts(out: &mut Answer, texts: &[Text]) {
    for text in texts {
        out.put("<");
        out.text(text.as_slice());
        out.put(">");
    }
}

fn write_raw_cookie(out: &mut Answer, inputs: &Inputs, name: &Text) {
    match inputs.raw_cookie(out.alloc(), name) {
        Ok(Some(value)) => write_bytes(out, value.as_slice()),
        Ok(None) => out.put("None"),
        Err(_) => out.stop(CaseStop::Memory),
    }
}
