//! The words of scripts and pages as cases write them. Where a case has none, the answer has why.
ghost use Rattle.std.specs.Prelude.{◌^◌, ◌<◌, IfSome, length};

use crate::stopped::write_stop;
use case_files::{Answer, CaseStop, read_text};
use std::alloc::Global;
use vb_lex::lex;
use vb_value::{List, Text, Token, TokenKind, line_ends};

/// What stands around the pieces of a page.
#[derive(Clone, Copy, PartialEq, Eq)]
enum Edges {
    /// Nothing.
    Bare,
    /// A line end on each side of a script, and of a text that is not empty, as pages have them.
    Lines,
}

/// The words that are read so far.
#[derive(Drop)]
struct Words {
    edges: Edges,
    tokens: List<Token>,
    /// How many lines end before what comes next.
    line_ends: u32,
    /// Whether no fault was found. What stands behind one is not read.
    is_whole: bool,
}

/// What a case writes, with its parts and characters in full.
fn full(out: &mut Answer, written: &str) -> Option<String> {
    match read_text(out.alloc(), written) {
        Ok(text) => Some(text),
        Err(stop) => {
            out.stop(stop);
            None
        }
    }
}

/// A text that can be read.
fn short_text(out: &mut Answer, text: &str) -> Option<Text>
    ensures { IfSome result (λ text. length text < 2 ^ 31) }
{
    match Text::from_str(out.alloc(), text) {
        Ok(text) if text.len() < 1 << 31 => Some(text),
        Ok(_) => {
            out.stop(CaseStop::Unreadable);
            None
        }
        Err(_) => {
            out.stop(CaseStop::Memory);
            None
        }
    }
}

/// A case's text.
pub fn case_text(out: &mut Answer, written: &str) -> Option<Text>
    ensures { IfSome result (λ text. length text < 2 ^ 31) }
{
    let text = full(out, written)?;
    short_text(out, text.as_str())
}

/// The words of a text.
fn lexed(out: &mut Answer, text: &Text) -> Option<List<Token>>
    requires { length text.now < 2 ^ 31 }
{
    match lex(out.alloc(), text) {
        Ok(words) => Some(words),
        Err(stop) => {
            write_stop(out, &stop);
            None
        }
    }
}

/// The words of a script's text.
pub fn text_words(out: &mut Answer, written: &str) -> Option<List<Token>> {
    let text = case_text(out, written)?;
    lexed(out, &text)
}

/// The words of a page, with a line end on each side of each piece.
pub fn page_words(out: &mut Answer, written: &str) -> Option<List<Token>> {
    let page = full(out, written)?;
    let mut words = Words::new(out.alloc(), Edges::Lines);
    for (i, piece) in page.as_str().split("<%").enumerate() {
        match piece.split_once("%>") {
            Some((code, text)) if i > 0 => {
                words.script(out, code);
                words.text(out, text);
            }
            None if i == 0 => words.text(out, piece),
            _ => out.stop(CaseStop::Unreadable),
        }
    }
    words.end()
}

/// The words of a script with text of the page and values to be written among them, as they stand. The text stands
/// between `%>` and `<%`; `<%=` is the mark of a value.
pub fn bare_words(out: &mut Answer, written: &str) -> Option<List<Token>> {
    let script = full(out, written)?;
    let mut words = Words::new(out.alloc(), Edges::Bare);
    words.among_text(out, script.as_str());
    words.end()
}

/// The same words between two line ends, in the script's first line and its last.
pub fn script_words(out: &mut Answer, written: &str) -> Option<List<Token>> {
    let script = full(out, written)?;
    let mut words = Words::new(out.alloc(), Edges::Bare);
    words.push(out, TokenKind::LineEnd);
    words.among_text(out, script.as_str());
    words.push(out, TokenKind::LineEnd);
    words.end()
}

impl Words {
    fn new(alloc: Global, edges: Edges) -> Words {
        Words {
            edges,
            tokens: List::new(alloc),
            line_ends: 0,
            is_whole: true,
        }
    }

    fn end(self) -> Option<List<Token>> {
        if self.is_whole {
            Some(self.tokens)
        } else {
            None
        }
    }

    /// Adds a word in the line that is reached.
    fn push(&mut self, out: &mut Answer, kind: TokenKind) {
        let line = self.line_ends.saturating_add(1);
        let token = Token {
            kind,
            line,
            start: 0,
            end: 0,
        };
        self.push_token(out, token);
    }

    fn push_token(&mut self, out: &mut Answer, token: Token) {
        if self.tokens.push(token).is_err() {
            out.stop(CaseStop::Memory);
        }
    }

    fn among_text(&mut self, out: &mut Answer, script: &str) {
        for (i, piece) in script.split("<%").enumerate() {
            let (code, text) = match piece.split_once("%>") {
                Some((code, text)) => (code, Some(text)),
                None => (piece, None),
            };
            if i == 0 {
                self.code(out, code, false);
            } else {
                self.script(out, code);
            }
            if let Some(text) = text {
                self.text(out, text);
            }
        }
    }

    fn script(&mut self, out: &mut Answer, code: &str) {
        match code.strip_prefix('=') {
            Some(value) => self.code(out, value, true),
            None => self.code(out, code, false),
        }
    }

    /// Adds the words of a script, or of a value that the page writes.
    fn code(&mut self, out: &mut Answer, code: &str, is_value: bool) {
        if !self.is_whole {
            return;
        }
        if is_value && self.edges == Edges::Bare {
            self.push(out, TokenKind::PageWrite);
        }
        let Some(text) = short_text(out, code) else {
            return;
        };
        match lexed(out, &text) {
            Some(tokens) => self.add(out, tokens, is_value),
            None => self.is_whole = false,
        }
        self.pass(&text);
    }

    /// Adds words that were read, without those at the edges where nothing stands around the piece.
    fn add(&mut self, out: &mut Answer, tokens: List<Token>, is_value: bool) {
        let last = tokens.len().saturating_sub(1);
        for (i, token) in tokens.into_vec().into_iter().enumerate() {
            if self.edges == Edges::Bare && (i == 0 || i == last) {
                continue;
            }
            let line = token.line.saturating_add(self.line_ends);
            self.push_token(out, Token { line, ..token });
            if is_value && i == 0 {
                self.push(out, TokenKind::PageWrite);
            }
        }
    }

    fn text(&mut self, out: &mut Answer, written: &str) {
        if written.is_empty() && self.edges == Edges::Lines {
            return;
        }
        if self.edges == Edges::Lines {
            self.push(out, TokenKind::LineEnd);
        }
        if let Some(text) = short_text(out, written) {
            let line = self.line_ends.saturating_add(1);
            self.pass(&text);
            let token = Token {
                kind: TokenKind::PageText(text),
                line,
                start: 0,
                end: 0,
            };
            self.push_token(out, token);
        }
        if self.edges == Edges::Lines {
            self.push(out, TokenKind::LineEnd);
        }
    }

    /// Goes past the lines of a piece.
    fn pass(&mut self, text: &Text)
        requires { length text.now < 2 ^ 31 }
    {
        let ends = line_ends(text.len(), text.as_slice());
        self.line_ends = self.line_ends.saturating_add(ends);
    }
}
