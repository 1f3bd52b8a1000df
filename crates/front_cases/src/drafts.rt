//! Answers.

use asp_response::{CookiePart, Draft, DraftStop, answer_bytes};
use case_files::{Answer, CaseStop, Subject, read_text};
use vb_value::Text;

/// The calls of a page, with `; ` between them, each with the answer: refusals, and then its bytes at the second 784111777.
/// A `^` stands for a CR in them.
pub struct Drafts;

impl Subject for Drafts {
    fn answer(&self, case: &str, out: &mut Answer) {
        match read_text(out.alloc(), case) {
            Ok(calls) => write_page(out, calls.as_str()),
            Err(stop) => out.stop(stop),
        }
    }
}

/// How a draft is finished.
#[derive(Drop)]
struct Ending {
    letters: Option<Text>,
    failure: Option<Text>,
    head_only: bool,
    close: bool,
}

impl Ending {
    fn new() -> Ending {
        Ending {
            letters: None,
            failure: None,
            head_only: false,
            close: false,
        }
    }
}

/// Writes what the calls of a page give.
fn write_page(out: &mut Answer, calls: &str) {
    let mut draft = Draft::new(out.alloc());
    let mut ending = Ending::new();
    for call in calls.split("; ") {
        write_call(out, &mut draft, &mut ending, call);
    }
    write_answer(out, draft, &ending);
}

/// Makes one call of a page, and writes the refusal that it gets.
fn write_call(out: &mut Answer, draft: &mut Draft, ending: &mut Ending, said: &str) {
    let (word, rest) = said.split_once(' ').unwrap_or((said, ""));
    match word {
        "session" => ending.letters = Some(text(out, rest)),
        "fail" => ending.failure = Some(text(out, rest)),
        "head" => ending.head_only = true,
        "close" => ending.close = true,
        _ => {
            if let Err(stop) = call(out, draft, word, rest) {
                write_stop(out, stop);
            }
        }
    }
}

fn call(out: &mut Answer, draft: &mut Draft, word: &str, rest: &str) -> Result<(), DraftStop> {
    let text = text(out, rest);
    match word {
        "write" => draft.write(&text),
        "clear" => draft.clear(),
        "flush" => draft.flush(),
        "buffer" => draft.set_buffer(rest == "on"),
        "status" => draft.set_status(&text),
        "type" => draft.set_content_type(&text),
        "charset" => draft.set_charset(&text),
        "cache" => draft.set_cache(&text),
        "redirect" => draft.redirect(&text),
        _ => call_on_name(out, draft, word, rest),
    }
}

/// A call on the name before the first comma, and on what stands behind that.
fn call_on_name(
    out: &mut Answer,
    draft: &mut Draft,
    word: &str,
    rest: &str,
) -> Result<(), DraftStop> {
    let (name, rest) = rest.split_once(',').unwrap_or((rest, ""));
    let (name, value) = (text(out, name), text(out, rest));
    match word {
        "header" => draft.add_header(&name, &value),
        "cookie" => cookie(out, draft, &name, rest),
        "path" => draft.cookie_part(&name, CookiePart::Path, &value),
        "domain" => draft.cookie_part(&name, CookiePart::Domain, &value),
        "secure" => draft.cookie_secure(&name, rest == "true"),
        _ => {
            out.stop(CaseStop::Unreadable);
            Ok(())
        }
    }
}

fn cookie(out: &mut Answer, draft: &mut Draft, name: &Text, rest: &str) -> Result<(), DraftStop> {
    let (key, value) = rest.split_once(',').unwrap_or((rest, ""));
    let (key, value) = (text(out, key), text(out, value));
    draft.cookie(name, &key, &value)
}

/// The text of these characters.
fn text(out: &mut Answer, written: &str) -> Text {
    match Text::from_str(out.alloc(), written) {
        Ok(text) => text,
        Err(_) => {
            out.stop(CaseStop::Memory);
            Text::new(out.alloc())
        }
    }
}

fn write_stop(out: &mut Answer, stop: DraftStop) {
    match stop {
        DraftStop::Error(number) => {
            out.put("error ");
            out.show(&number);
            out.put(", ");
        }
        DraftStop::Limit(kind) => {
            out.put("limit ");
            out.debug(&kind);
            out.put(", ");
        }
        DraftStop::Memory => out.stop(CaseStop::Memory),
    }
}

/// Writes the bytes of the answer that is made so.
fn write_answer(out: &mut Answer, draft: Draft, ending: &Ending) {
    let made = draft.finish(
        ending.letters.as_ref(),
        ending.failure.as_ref(),
        ending.head_only,
        ending.close,
    );
    match made {
        Ok(made) => match answer_bytes(out.alloc(), &made, 784_111_777) {
            Ok(bytes) => write_lines(out, bytes.as_slice()),
            Err(_) => out.stop(CaseStop::Memory),
        },
        Err(_) => out.stop(CaseStop::Memory),
    }
}

/// Writes bytes as a text, with a `^` for each CR.
fn write_lines(out: &mut Answer, bytes: &[u8]) {
    match String::from_utf8_lossy(out.alloc(), bytes) {
        Ok(text) => {
            for (at, part) in text.as_str().split('\r').enumerate() {
                if at > 0 {
                    out.put("^");
                }
                out.put(part);
            }
        }
        Err(_) => out.stop(CaseStop::Memory),
    }
}
