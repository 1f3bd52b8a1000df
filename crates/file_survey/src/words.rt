//! The words of a script, as far as a survey wants them. It reads on where the host's own reader would refuse a word.

use std::alloc::Global;
use std::mem;
use vb_value::{Memory, ends_line};

/// What a word of a script is.
#[derive(Clone, Copy, PartialEq, Eq)]
pub enum WordKind {
    /// A name or a keyword.
    Name,
    /// A text.
    Text,
    /// `.`
    Point,
    /// `(`
    Open,
    /// `)`
    Close,
    /// The end of a statement.
    End,
    /// Any other.
    Other,
}

/// A word of a script.
#[derive(Drop)]
pub struct Word {
    /// What it is.
    pub kind: WordKind,
    /// A name in small letters, or what a text holds; else no characters.
    pub text: String,
    /// Its line.
    pub line: u32,
}

/// What the scanner is in.
#[derive(Clone, Copy, PartialEq, Eq)]
enum State {
    Between,
    Name,
    Text,
    Number,
    Bracket,
    Comment,
}

/// Reads words, character by character.
#[derive(Drop)]
struct Scanner {
    alloc: Global,
    words: Vec<Word>,
    state: State,
    /// What was read of the word that is on its way.
    current: String,
    line: u32,
    /// Whether `_` was the last thing in the line.
    continues: bool,
}

/// The words of a script that begins in this line.
pub fn words_of(alloc: Global, script: &[char], line: u32) -> Result<Vec<Word>, Memory> {
    let mut scanner = Scanner {
        alloc,
        words: Vec::new(alloc),
        state: State::Between,
        current: String::new(alloc),
        line,
        continues: false,
    };
    for at in 0..script.len() {
        scanner.take(script[at])?;
        if ends_line(script, at) {
            scanner.end_line()?;
        }
    }
    scanner.end_line()?;
    Ok(scanner.words)
}

fn is_of_name(character: char) -> bool {
    character.is_ascii_alphanumeric() || character == '_'
}

impl Scanner {
    fn push(&mut self, kind: WordKind) -> Result<(), Memory> {
        let text = mem::replace(&mut self.current, String::new(self.alloc));
        let line = self.line;
        self.words.push(Word { kind, text, line })?;
        Ok(())
    }

    fn last_kind(&self) -> WordKind {
        match self.words.last() {
            Some(word) => word.kind,
            None => WordKind::End,
        }
    }

    /// Ends a statement, if one is there.
    fn end_statement(&mut self) -> Result<(), Memory> {
        if self.last_kind() == WordKind::End {
            return Ok(());
        }
        self.push(WordKind::End)
    }

    fn take(&mut self, character: char) -> Result<(), Memory> {
        match self.state {
            State::Between => self.begin(character),
            State::Name => self.in_name(character),
            State::Number => self.in_number(character),
            State::Text => self.in_text(character),
            State::Bracket => {
                if character == ']' {
                    self.state = State::Between;
                }
                Ok(())
            }
            State::Comment => Ok(()),
        }
    }

    fn begin(&mut self, character: char) -> Result<(), Memory> {
        match character {
            ' ' | '\t' | '\r' | '\n' => return Ok(()),
            '_' => {
                self.continues = true;
                return Ok(());
            }
            _ => self.continues = false,
        }
        match character {
            '"' => self.state = State::Text,
            '\'' => self.state = State::Comment,
            '[' => self.state = State::Bracket,
            '.' => return self.push(WordKind::Point),
            '(' => return self.push(WordKind::Open),
            ')' => return self.push(WordKind::Close),
            ':' => return self.end_statement(),
            _ => return self.begin_word(character),
        }
        Ok(())
    }

    fn begin_word(&mut self, character: char) -> Result<(), Memory> {
        if character.is_ascii_digit() {
            self.state = State::Number;
            return Ok(());
        }
        if character.is_ascii_alphabetic() {
            self.state = State::Name;
            self.current.push(character.to_ascii_lowercase())?;
            return Ok(());
        }
        self.push(WordKind::Other)
    }

    fn in_name(&mut self, character: char) -> Result<(), Memory> {
        if is_of_name(character) {
            self.current.push(character.to_ascii_lowercase())?;
            return Ok(());
        }
        self.end_name()?;
        if self.state == State::Comment {
            return Ok(());
        }
        self.begin(character)
    }

    /// Ends a name. The word `Rem` begins a comment.
    fn end_name(&mut self) -> Result<(), Memory> {
        self.state = State::Between;
        if self.current.as_str() == "rem" && self.last_kind() != WordKind::Point {
            self.state = State::Comment;
            self.current.clear();
            return Ok(());
        }
        self.push(WordKind::Name)
    }

    fn in_number(&mut self, character: char) -> Result<(), Memory> {
        if is_of_name(character) || character == '.' {
            return Ok(());
        }
        self.state = State::Between;
        self.push(WordKind::Other)?;
        self.begin(character)
    }

    fn in_text(&mut self, character: char) -> Result<(), Memory> {
        if character == '"' {
            self.state = State::Between;
            return self.push(WordKind::Text);
        }
        self.current.push(character)?;
        Ok(())
    }

    /// Ends a line, and what goes over no line's end.
    fn end_line(&mut self) -> Result<(), Memory> {
        match self.state {
            State::Name => self.end_name()?,
            State::Text => self.push(WordKind::Text)?,
            _ => {}
        }
        self.state = State::Between;
        if !self.continues {
            self.current.clear();
            self.end_statement()?;
        }
        self.continues = false;
        self.line = self.line.saturating_add(1);
        Ok(())
    }
}
