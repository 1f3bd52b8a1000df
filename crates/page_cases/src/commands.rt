//! The commands of the host.

use asp_command::{Command, WordStop, read_words};
use case_files::{Answer, CaseStop, Subject};

/// The words of a command line, each with the command that they say.
pub struct CommandWords;

impl Subject for CommandWords {
    fn answer(&self, case: &str, out: &mut Answer) {
        let words = words_of(out, case);
        match read_words(out.alloc(), words.as_slice()) {
            Ok(command) => write_command(out, &command),
            Err(WordStop::Usage) => out.put("usage"),
            Err(WordStop::Memory) => out.stop(CaseStop::Memory),
        }
    }
}

/// The words of a command line, between blanks.
fn words_of(out: &mut Answer, written: &str) -> Vec<String> {
    let mut words = Vec::new(out.alloc());
    for word in written.split_whitespace() {
        let is_kept = match String::from_str(out.alloc(), word) {
            Ok(word) => words.push(word).is_ok(),
            Err(_) => false,
        };
        if !is_kept {
            out.stop(CaseStop::Memory);
        }
    }
    words
}

fn write_command(out: &mut Answer, command: &Command) {
    match command {
        Command::Get { site, path, query } => {
            out.put("get ");
            out.text(path.as_slice());
            out.put(" of ");
            out.text(site.as_slice());
            out.put(", query of ");
            out.show(&query.len());
            out.put(" bytes");
        }
        Command::Check { site } => {
            out.put("check ");
            out.text(site.as_slice());
        }
        Command::Replay {
            site,
            workers,
            journal,
            strict,
        } => {
            out.put("replay ");
            out.text(site.as_slice());
            out.put(" with ");
            out.show(workers);
            out.put(" workers");
            write_asked(out, *journal);
            write_rule(out, *strict);
        }
        Command::Serve {
            site,
            requests,
            workers,
            port,
            strict,
        } => {
            out.put("serve ");
            out.text(site.as_slice());
            out.put(" at ");
            out.show(port);
            out.put(" until ");
            out.show(requests);
            out.put(" requests with ");
            out.show(workers);
            out.put(" workers");
            write_rule(out, *strict);
        }
        Command::Gen { count, journal } => {
            out.put("gen of ");
            out.show(count);
            out.put(" requests");
            write_asked(out, *journal);
        }
    }
}

/// Writes that the journal is asked for, where it is.
fn write_asked(out: &mut Answer, journal: bool) {
    if journal {
        out.put(" and its journal");
    }
}

/// That a lock keeps readers out too, where it does.
fn write_rule(out: &mut Answer, strict: bool) {
    if strict {
        out.put(" under a strict lock");
    }
}
