//! Calls of the Application object.

use crate::said::{number, write_comma, write_maybe, write_word};
use asp_app::{AppStop, Application};
use asp_objects::may_call;
use case_files::{Answer, CaseStop, Subject, read_text};
use vb_value::{AppCall, AppReply, Text, Value};

/// Calls of a new Application object, with `; ` between them, each with its reply.
#[derive(Drop)]
pub struct Applications {
    /// Whether its lock keeps readers out too.
    pub strict: bool,
}

impl Subject for Applications {
    fn answer(&self, case: &str, out: &mut Answer) {
        match read_text(out.alloc(), case) {
            Ok(text) => write_calls(out, self.strict, text.as_str()),
            Err(stop) => out.stop(stop),
        }
    }
}

fn write_calls(out: &mut Answer, strict: bool, calls: &str) {
    let mut application = Application::new(out.alloc(), strict);
    for call in calls.split("; ") {
        write_call(out, &mut application, call);
    }
}

/// Writes what a call gives. It has at most four words.
fn write_call(out: &mut Answer, application: &mut Application, written: &str) {
    let mut words = written.split(' ');
    let run = words.next().unwrap_or("");
    let second = words.next();
    match run {
        "end" => application.free(number(out, second)),
        "holder" => write_maybe(out, application.holder()),
        _ => {
            let run = number(out, Some(run));
            let (first, value) = (words.next().unwrap_or(""), words.next().unwrap_or(""));
            let call = call_of(out, second.unwrap_or(""), first, value);
            write_of_run(out, application, run, &call);
        }
    }
}

/// The call of this word, as a case writes it.
fn call_of(out: &mut Answer, word: &str, first: &str, value: &str) -> AppCall {
    match word {
        "get" => AppCall::Get(text(out, first)),
        "put" => AppCall::Put(text(out, first), value_of(out, value)),
        "remove" => AppCall::Remove(text(out, first)),
        "clear" => AppCall::RemoveAll,
        "count" => AppCall::Count,
        "names" => AppCall::Names,
        "lock" => AppCall::Lock,
        "unlock" => AppCall::Unlock,
        "key" => AppCall::KeyAt(place(out, first)),
        _ => {
            out.stop(CaseStop::Unreadable);
            AppCall::Count
        }
    }
}

fn text(out: &mut Answer, written: &str) -> Text {
    match Text::from_str(out.alloc(), written) {
        Ok(text) => text,
        Err(_) => {
            out.stop(CaseStop::Memory);
            Text::new(out.alloc())
        }
    }
}

/// A text `'abc`, or an Integer `5`.
fn value_of(out: &mut Answer, written: &str) -> Value {
    if let Some(written) = written.strip_prefix('\'') {
        return Value::Str(text(out, written));
    }
    match written.parse() {
        Ok(number) => Value::Int(number),
        Err(_) => {
            out.stop(CaseStop::Unreadable);
            Value::Empty
        }
    }
}

fn place(out: &mut Answer, written: &str) -> i32 {
    match written.parse() {
        Ok(place) => place,
        Err(_) => {
            out.stop(CaseStop::Unreadable);
            0
        }
    }
}

/// Writes the reply to a call of a run.
fn write_of_run(out: &mut Answer, application: &mut Application, run: u32, call: &AppCall) {
    match may_call(out.alloc(), call) {
        Ok(true) => match application.call(run, call) {
            Ok(reply) => write_reply(out, &reply),
            Err(AppStop::Blocked { holder }) => {
                write_word(out, "blocked by ");
                out.show(&holder);
            }
            Err(AppStop::Memory) => out.stop(CaseStop::Memory),
        },
        Ok(false) => out.stop(CaseStop::Unreadable),
        Err(_) => out.stop(CaseStop::Memory),
    }
}

fn write_reply(out: &mut Answer, reply: &AppReply) {
    write_comma(out);
    match reply {
        AppReply::Value(value) => write_value(out, value),
        AppReply::Number(number) => out.show(number),
        AppReply::Name(name) => out.text(name.as_slice()),
        AppReply::NoName => out.put("no name"),
        AppReply::Names(names) => write_names(out, names.as_slice()),
        AppReply::Done => out.put("done"),
        AppReply::Full => out.put("full"),
    }
}

fn write_value(out: &mut Answer, value: &Value) {
    match value {
        Value::Empty => out.put("empty"),
        Value::Int(number) => out.show(number),
        Value::Str(text) => {
            out.put("'");
            out.text(text.as_slice());
        }
        _ => out.put("another"),
    }
}

/// Writes names, in brackets.
fn write_names(out: &mut Answer, names: &[Text]) {
    out.put("[");
    for (i, name) in names.iter().enumerate() {
        if i > 0 {
            out.put(" ");
        }
        out.text(name.as_slice());
    }
    out.put("]");
}
