//! Stories as cases, and the same story with connections that are cut at each place.

use crate::pages::write_of_pages;
use crate::story::write_story;
use case_files::{Answer, CaseStop, Subject, read_text};
use std::sync::Wait;
use word_runs::{AllWords, WordRunner};

/// Stories of hosts, with ` ;; ` between their steps. Behind `each cut ;; ` the connections are cut at each place in turn,
/// and what is told must be the same.
#[derive(Drop)]
pub struct Stories<'a, Rt> {
    pub rt: &'a Rt,
    pub of: Of,
}

/// What the hosts of stories serve.
#[derive(Clone, Copy)]
pub enum Of {
    Words,
    Pages,
}

/// What a story tells whose connections are cut at the place.
fn told<Rt: Wait>(rt: &Rt, out: &mut Answer, of: Of, steps: &str, first: usize) -> String {
    let alloc = out.alloc();
    let mut told = Answer::new(alloc);
    match of {
        Of::Words => write_story(rt, &mut told, WordRunner { alloc }, AllWords, steps, first),
        Of::Pages => write_of_pages(rt, &mut told, steps, first),
    }
    match told.end() {
        Ok(text) => text,
        Err(stop) => {
            out.stop(stop);
            String::new(alloc)
        }
    }
}

/// Writes what the story tells without cuts, and where it tells something else with one.
fn write_cuts<Rt: Wait>(rt: &Rt, out: &mut Answer, of: Of, steps: &str) {
    let whole = told(rt, out, of, steps, usize::MAX);
    out.put(whole.as_str());
    for place in 1..steps.len() {
        let cut = told(rt, out, of, steps, place);
        if cut.as_str() != whole.as_str() {
            out.put(" but cut at ");
            out.show(&place);
            out.put(" ");
            out.put(cut.as_str());
        }
    }
}

fn write_case<Rt: Wait>(rt: &Rt, out: &mut Answer, of: Of, case: &str) {
    match case.strip_prefix("each cut ;; ") {
        Some(steps) => write_cuts(rt, out, of, steps),
        None => {
            let text = told(rt, out, of, case, usize::MAX);
            out.put(text.as_str());
        }
    }
}

impl<'a, Rt: Wait> Subject for Stories<'a, Rt> {
    fn answer(&self, case: &str, out: &mut Answer) {
        match read_text(out.alloc(), case) {
            Ok(text) => write_case(self.rt, out, self.of, text.as_str()),
            Err(stop) => out.stop(stop),
        }
    }
}
