//! The trial of a file's cases, line by line.

use crate::answer::Answer;
use crate::stop::CaseStop;
use crate::text::read_text;
use std::alloc::{AllocError, Global};
use std::io;
use std::io::ErrorKind;

/// How far the trial of a file is.
///
/// A line is a case, `topic` and a name, a remark behind `#`, or empty. A case is what is tried, ` => ` and what it
/// gives, written as [`read_text`] has it. A line in another form is a case that fails.
#[derive(Drop)]
pub struct Trial {
    file: String,
    /// The number of the last line.
    line: u32,
    topic: String,
    /// How many cases the topic has so far, and how many of them passed.
    cases: u32,
    passed: u32,
    all_passed: bool,
}

impl Trial {
    /// The trial of a file, before its first line.
    pub fn new(alloc: Global, file: &str) -> Result<Trial, AllocError> {
        Ok(Trial {
            file: String::from_str(alloc, file)?,
            line: 0,
            topic: String::from_str(alloc, file)?,
            cases: 0,
            passed: 0,
            all_passed: true,
        })
    }

    /// Takes the next line: what is tried and what it is to give, if the line is a case.
    pub fn case<'a, R: AllocGlobal + Print>(
        &mut self,
        rt: &R,
        line: &'a str,
    ) -> io::Result<Option<(&'a str, &'a str)>> {
        self.line = self.line.saturating_add(1);
        if line.is_empty() || line.starts_with('#') {
            return Ok(None);
        }
        if let Some(next) = line.strip_prefix("topic ") {
            self.tell(rt)?;
            self.topic = String::from_str(rt.alloc(), next)?;
            self.cases = 0;
            self.passed = 0;
            return Ok(None);
        }
        let parts = parts(line);
        if parts.is_none() {
            self.fail(rt, line, "it has no =>")?;
        }
        Ok(parts)
    }

    /// Counts a case that gave this answer, and prints it where that is not what it is to give.
    pub fn answer<R: AllocGlobal + Print>(
        &mut self,
        rt: &R,
        line: &str,
        wanted: &str,
        answer: Answer,
    ) -> io::Result<()> {
        match compared(rt.alloc(), wanted, answer.end()) {
            Ok(None) => {
                self.cases = self.cases.saturating_add(1);
                self.passed = self.passed.saturating_add(1);
                Ok(())
            }
            Ok(Some(fault)) => self.fail(rt, line, fault.as_str()),
            Err(CaseStop::Unreadable) => self.fail(rt, line, "it can't be read"),
            Err(CaseStop::Memory) => Err(ErrorKind::OutOfMemory.into()),
        }
    }

    /// Ends the trial: whether all cases passed.
    pub fn end<R: Print>(self, rt: &R) -> io::Result<bool> {
        self.tell(rt)?;
        Ok(self.all_passed)
    }

    fn fail<R: Print>(&mut self, rt: &R, line: &str, fault: &str) -> io::Result<()> {
        self.cases = self.cases.saturating_add(1);
        self.all_passed = false;
        let (file, number) = (self.file.as_str(), self.line);
        let (line, fault) = (start(line), start(fault));
        println!(rt; "{file}:{number}: {line}\n  {fault}")
    }

    /// Prints how many cases of the topic passed, if it has any.
    fn tell<R: Print>(&self, rt: &R) -> io::Result<()> {
        if self.cases == 0 {
            return Ok(());
        }
        let (topic, passed, cases) = (self.topic.as_str(), self.passed, self.cases);
        println!(rt; "{topic}: {passed} of {cases}")
    }
}

/// What is tried, and what it is to give.
fn parts(line: &str) -> Option<(&str, &str)> {
    match line.strip_suffix(" =>") {
        Some(case) => Some((case, "")),
        None => line.rsplit_once(" => "),
    }
}

/// What came, where that is not what is wanted.
fn compared(
    alloc: Global,
    wanted: &str,
    answer: Result<String, CaseStop>,
) -> Result<Option<String>, CaseStop> {
    let wanted = read_text(alloc, wanted)?;
    let came = answer?;
    if came.as_str() == wanted.as_str() {
        return Ok(None);
    }
    Ok(Some(format!(in alloc; "came {came}")?))
}

/// The first characters of a text, at most 300 bytes.
fn start(text: &str) -> &str {
    let mut end = 0;
    for (at, _) in text.char_indices() {
        if at <= 300 {
            end = at;
        }
    }
    match text.get(..end) {
        Some(start) if text.len() > 300 => start,
        _ => text,
    }
}
