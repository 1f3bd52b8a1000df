//! Calls as cases write them.

use crate::notation::value_named;
use case_files::{CaseStop, read_text};
use std::alloc::Global;
use vb_value::{Array, List, Text, Value};

/// A call: the one word that is no value, and the values.
#[derive(Drop)]
pub struct Call {
    pub name: String,
    pub values: List<Value>,
}

/// What is read of a call so far.
#[derive(Drop)]
struct Reader {
    alloc: Global,
    call: Call,
    /// The word that is being read.
    word: String,
    /// The array that is being read, and those around it.
    array: Option<Array>,
    outer: List<Array>,
    /// Why the call can't be had. What is read behind that counts for nothing.
    stop: Option<CaseStop>,
}

/// The call that is written so. Blanks, commas and parentheses stand between words. Texts stand in quotes, the items
/// of an array in brackets; a colon stands behind the bounds of an array that was declared with them.
pub fn read_call(alloc: Global, written: &str) -> Result<Call, CaseStop> {
    let mut reader = Reader::new(alloc);
    let mut is_text = true;
    for piece in written.split('"') {
        is_text = !is_text;
        if is_text {
            reader.text(piece);
        } else {
            reader.words(piece);
        }
    }
    if is_text || reader.array.is_some() || reader.call.name.is_empty() {
        reader.unreadable();
    }
    match reader.stop {
        Some(stop) => Err(stop),
        None => Ok(reader.call),
    }
}

impl Reader {
    fn new(alloc: Global) -> Reader {
        Reader {
            alloc,
            call: Call {
                name: String::new(alloc),
                values: List::new(alloc),
            },
            word: String::new(alloc),
            array: None,
            outer: List::new(alloc),
            stop: None,
        }
    }

    fn unreadable(&mut self) {
        self.stop = Some(CaseStop::Unreadable);
    }

    /// Notes that memory ran out, if it did.
    fn kept<E: Drop>(&mut self, kept: Result<(), E>) {
        if kept.is_err() {
            self.stop = Some(CaseStop::Memory);
        }
    }

    fn text(&mut self, written: &str) {
        match read_text(self.alloc, written) {
            Ok(text) => match Text::from_str(self.alloc, text.as_str()) {
                Ok(text) => self.push(Value::Str(text)),
                Err(_) => self.stop = Some(CaseStop::Memory),
            },
            Err(stop) => self.stop = Some(stop),
        }
    }

    fn words(&mut self, piece: &str) {
        for c in piece.chars() {
            self.take(c);
        }
        self.end_word();
    }

    fn take(&mut self, c: char) {
        match c {
            ' ' | ',' | '(' | ')' => self.end_word(),
            '[' => self.begin_array(),
            ':' => self.bounds(),
            ']' => self.end_array(),
            _ => {
                let kept = self.word.push(c);
                self.kept(kept);
            }
        }
    }

    /// The word, if there is one, is at its end.
    fn end_word(&mut self) {
        if self.word.is_empty() {
            return;
        }
        match value_named(self.alloc, self.word.as_str()) {
            Ok(Some(value)) => self.push(value),
            Ok(None) => self.name(),
            Err(_) => self.stop = Some(CaseStop::Memory),
        }
        self.word.clear();
    }

    /// The word names what is called.
    fn name(&mut self) {
        if !self.call.name.is_empty() {
            self.unreadable();
        }
        let kept = self.call.name.push_str(self.word.as_str());
        self.kept(kept);
    }

    fn push(&mut self, value: Value) {
        let kept = match &mut self.array {
            Some(array) => array.items.push(value),
            None => self.call.values.push(value),
        };
        self.kept(kept);
    }

    fn begin_array(&mut self) {
        self.end_word();
        let array = Array {
            bounds: List::new(self.alloc),
            fixed: false,
            items: List::new(self.alloc),
        };
        if let Some(outer) = self.array.replace(array) {
            let kept = self.outer.push(outer);
            self.kept(kept);
        }
    }

    /// The word has the bounds of the array, with `x` between them.
    fn bounds(&mut self) {
        let Some(array) = &mut self.array else {
            return self.unreadable();
        };
        for bound in self.word.as_str().split('x') {
            let is_kept = match bound.parse() {
                Ok(bound) => array.bounds.push(bound).is_ok(),
                Err(_) => false,
            };
            if !is_kept {
                self.stop = Some(CaseStop::Unreadable);
            }
        }
        array.fixed = true;
        self.word.clear();
    }

    fn end_array(&mut self) {
        self.end_word();
        match self.array.take() {
            Some(array) => {
                self.array = self.outer.pop();
                self.push_array(array);
            }
            None => self.unreadable(),
        }
    }

    /// An array is at its end. Where no bounds were read, they are those of its items.
    fn push_array(&mut self, mut array: Array) {
        if !array.fixed {
            match i32::try_from(array.items.len()) {
                Ok(count) => {
                    let kept = array.bounds.push(count.saturating_sub(1));
                    self.kept(kept);
                }
                Err(_) => self.unreadable(),
            }
        }
        self.push(Value::Arr(array));
    }
}
