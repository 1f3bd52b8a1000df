//! The trial of a whole file.

use crate::answer::Answer;
use crate::trial::Trial;
use std::rt::Files;
use std::{fs, io};

/// What the cases of a file are tried on.
pub trait Subject {
    /// Writes what a case gives, in the words of its file.
    fn answer(&self, case: &str, out: &mut Answer);
}

/// Tries each case of a file, prints of each topic how many cases it has and how many passed, and before it each
/// case that failed. Whether all passed.
pub fn try_file<R: Files + AllocGlobal + Print, S: Subject>(
    rt: &R,
    name: &str,
    subject: &S,
) -> io::Result<bool> {
    let text = fs::read_to_string(rt, name)?;
    let mut trial = Trial::new(rt.alloc(), name)?;
    for line in text.as_str().lines() {
        if let Some((case, wanted)) = trial.case(rt, line)? {
            let mut answer = Answer::new(rt.alloc());
            subject.answer(case, &mut answer);
            trial.answer(rt, line, wanted, answer)?;
        }
    }
    trial.end(rt)
}
