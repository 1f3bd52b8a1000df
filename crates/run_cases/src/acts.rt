//! Scripts as they run.

use crate::notes::Notes;
use crate::programs::program;
use crate::stopped::write_stop;
use case_files::{Answer, CaseStop, read_text};
use vb_meaning::PlainEnd;
use vb_plain::{fresh_playing, run_act, run_act_in};
use vb_syntax::{Act, ActDone, ActEnd, Program};
use vb_value::{AppCall, AppReply, List, Memory, Text, Value};

/// Writes what a script writes, and how it ends where that is not at its end.
pub fn write_plain(out: &mut Answer, case: &str) {
    write_case(out, case, false, false, &[]);
}

/// The same in the wider environment, and how many objects it made and ended.
pub fn write_counted(out: &mut Answer, case: &str) {
    write_case(out, case, true, true, &[]);
}

/// Writes what a script writes and how it ends, given replies of the Application object: their numbers stand first, with
/// blanks between them and `: ` behind.
pub fn write_replied(out: &mut Answer, case: &str) {
    match case.split_once(": ") {
        Some((numbers, script)) => {
            let replies = replies(out, numbers);
            write_case(out, script, true, false, replies.as_slice());
        }
        None => out.stop(CaseStop::Unreadable),
    }
}

/// Writes what a script writes and how it ends, in the wider environment, and how many of its 1,000,000 ticks it spent.
pub fn write_spent(out: &mut Answer, case: &str) {
    match read_text(out.alloc(), case) {
        Ok(script) => match program(out, script.as_str()) {
            Ok(program) => spend(out, &program),
            Err(stop) => write_stop(out, &stop),
        },
        Err(stop) => out.stop(stop),
    }
}

fn spend(out: &mut Answer, program: &Program) {
    let alloc = out.alloc();
    let mut notes = Notes {
        alloc,
        is_wide: true,
        text: Text::new(alloc),
    };
    match fresh_playing(alloc, &[]) {
        Ok(mut playing) => {
            let most = playing.ticks;
            let end = run_act_in(alloc, program, Act::Body, &mut playing, &mut notes);
            out.text(notes.text.as_slice());
            write_end(out, end, false);
            write_blank(out);
            out.show(&most.saturating_sub(playing.ticks));
            out.put(" ticks");
        }
        Err(_) => out.stop(CaseStop::Memory),
    }
}

fn replies(out: &mut Answer, numbers: &str) -> List<AppReply> {
    let mut replies = List::new(out.alloc());
    for number in numbers.split(' ') {
        if !number.is_empty() {
            push_reply(out, &mut replies, number);
        }
    }
    replies
}

fn push_reply(out: &mut Answer, replies: &mut List<AppReply>, number: &str) {
    match number.parse() {
        Ok(number) => {
            let reply = AppReply::Value(Value::Long(number));
            if replies.push(reply).is_err() {
                out.stop(CaseStop::Memory);
            }
        }
        Err(_) => out.stop(CaseStop::Unreadable),
    }
}

fn write_case(
    out: &mut Answer,
    written: &str,
    is_wide: bool,
    is_counted: bool,
    replies: &[AppReply],
) {
    match read_text(out.alloc(), written) {
        Ok(script) => match program(out, script.as_str()) {
            Ok(program) => write_run(out, &program, is_wide, is_counted, replies),
            Err(stop) => write_stop(out, &stop),
        },
        Err(stop) => out.stop(stop),
    }
}

fn write_run(
    out: &mut Answer,
    program: &Program,
    is_wide: bool,
    is_counted: bool,
    replies: &[AppReply],
) {
    let alloc = out.alloc();
    let mut notes = Notes {
        alloc,
        is_wide,
        text: Text::new(alloc),
    };
    let end = run_act(alloc, program, Act::Body, &mut notes, replies);
    out.text(notes.text.as_slice());
    write_end(out, end, is_counted);
}

/// Writes how an act ended, if not at its end, or what it wants.
fn write_end(out: &mut Answer, end: Result<PlainEnd, Memory>, is_counted: bool) {
    match end {
        Ok(PlainEnd::Wants(call)) => write_call(out, &call),
        Ok(PlainEnd::Ends(done)) => write_done(out, &done, is_counted),
        Err(_) => out.stop(CaseStop::Memory),
    }
}

/// Writes what stands before a word, unless it is the first.
fn write_blank(out: &mut Answer) {
    if !out.is_empty() {
        out.put(" ");
    }
}

fn write_call(out: &mut Answer, call: &AppCall) {
    write_blank(out);
    match call {
        AppCall::Get(name) => {
            out.put("wants Get ");
            out.text(name.as_slice());
        }
        _ => out.put("wants another call"),
    }
}

/// Writes how an act ended, if not at its end, and how many objects ended of those that were made, if that is wanted.
fn write_done(out: &mut Answer, done: &ActDone, is_counted: bool) {
    match &done.end {
        ActEnd::Done => {}
        ActEnd::Stopped => {
            write_blank(out);
            out.put("stopped");
        }
        ActEnd::Error { number, line, .. } => {
            write_blank(out);
            out.put("error ");
            out.show(number);
            write_line(out, *line);
        }
        ActEnd::Limit { kind, line } => {
            write_blank(out);
            out.put("limit ");
            out.debug(kind);
            write_line(out, *line);
        }
    }
    if is_counted {
        write_blank(out);
        out.show(&done.finished);
        out.put("/");
        out.show(&done.made);
    }
}

fn write_line(out: &mut Answer, line: u32) {
    out.put(", line ");
    out.show(&line);
}
