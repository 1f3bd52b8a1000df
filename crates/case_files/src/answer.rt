//! What a case gives, as it is written.

use crate::stop::CaseStop;
use std::alloc::Global;
use std::fmt::{Debug, Display};

/// What a case gives, so far.
///
/// Once there is a reason that it gives nothing, that stays, and what is written behind it counts for nothing: so
/// whoever writes need not ask after each word whether it was kept.
#[derive(Drop)]
pub struct Answer {
    alloc: Global,
    text: String,
    stop: Option<CaseStop>,
}

impl Answer {
    /// The empty answer.
    pub fn new(alloc: Global) -> Answer {
        Answer {
            alloc,
            text: String::new(alloc),
            stop: None,
        }
    }

    /// Where texts are kept.
    pub fn alloc(&self) -> Global {
        self.alloc
    }

    /// Whether nothing is written yet.
    pub fn is_empty(&self) -> bool {
        self.text.is_empty()
    }

    /// Adds a word as it stands.
    pub fn put(&mut self, word: &str) {
        if self.text.push_str(word).is_err() {
            self.stop(CaseStop::Memory);
        }
    }

    /// Adds a text as it stands.
    pub fn text(&mut self, text: &[char]) {
        for c in text {
            if self.text.push(*c).is_err() {
                self.stop(CaseStop::Memory);
                return;
            }
        }
    }

    /// Adds what is printed of a value.
    pub fn show<T: Display>(&mut self, value: &T) {
        match format!(in self.alloc; "{value}") {
            Ok(text) => self.put(text.as_str()),
            Err(_) => self.stop(CaseStop::Memory),
        }
    }

    /// Adds a value as its type has it for whoever reads the source.
    pub fn debug<T: Debug>(&mut self, value: &T) {
        match format!(in self.alloc; "{value:?}") {
            Ok(text) => self.put(text.as_str()),
            Err(_) => self.stop(CaseStop::Memory),
        }
    }

    /// Adds a byte as two hexadecimal digits.
    pub fn hexadecimal(&mut self, byte: u8) {
        match format!(in self.alloc; "{byte:02x}") {
            Ok(text) => self.put(text.as_str()),
            Err(_) => self.stop(CaseStop::Memory),
        }
    }

    /// Notes why the case gives nothing, unless that is noted already.
    pub fn stop(&mut self, stop: CaseStop) {
        if self.stop.is_none() {
            self.stop = Some(stop);
        }
    }

    /// What was written, or why the case gives nothing.
    pub fn end(self) -> Result<String, CaseStop> {
        match self.stop {
            Some(stop) => Err(stop),
            None => Ok(self.text),
        }
    }
}
