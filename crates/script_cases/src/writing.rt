//! Words as cases write them: a keyword and a symbol as they stand, a name `n:a`, one in brackets `[a]`, an Integer `i:1`,
//! a Long `l:1`, a string `s:a`, the end of a line `end`, text of the page `t:a`, the mark of a value `<%=`. A point that
//! no path goes on with is `..`.

use case_files::Answer;
use vb_value::{Symbol, Text, Token, TokenKind};

fn symbol_text(symbol: Symbol) -> &'static str {
    match symbol {
        Symbol::Ampersand => "&",
        Symbol::AtMost => "<=",
        Symbol::AtLeast => ">=",
        Symbol::Backslash => "\\",
        Symbol::Close => ")",
        Symbol::Colon => ":",
        Symbol::Comma => ",",
        Symbol::Equal => "=",
        Symbol::Greater => ">",
        Symbol::Less => "<",
        Symbol::Minus => "-",
        Symbol::NotEqual => "<>",
        Symbol::Open => "(",
        Symbol::Plus => "+",
        Symbol::Star => "*",
        Symbol::PathPoint => ".",
        Symbol::WithPoint => "..",
    }
}

fn write_word(out: &mut Answer, kind: &TokenKind) {
    match kind {
        TokenKind::Keyword(word) => out.debug(word),
        TokenKind::Symbol(symbol) => out.put(symbol_text(*symbol)),
        TokenKind::Name {
            text,
            bracketed: true,
        } => {
            write_marked(out, "[", text);
            out.put("]");
        }
        TokenKind::Name {
            text,
            bracketed: false,
        } => write_marked(out, "n:", text),
        TokenKind::Integer(value) => {
            out.put("i:");
            out.show(value);
        }
        TokenKind::Long(value) => {
            out.put("l:");
            out.show(value);
        }
        TokenKind::String(text) => write_marked(out, "s:", text),
        TokenKind::LineEnd => out.put("end"),
        TokenKind::PageText(text) => write_marked(out, "t:", text),
        TokenKind::PageWrite => out.put("<%="),
    }
}

fn write_marked(out: &mut Answer, mark: &str, text: &Text) {
    out.put(mark);
    out.text(text.as_slice());
}

/// Adds the words, with blanks between them.
pub fn write_words(out: &mut Answer, words: &[Token]) {
    for (i, token) in words.iter().enumerate() {
        if i > 0 {
            out.put(" ");
        }
        write_word(out, &token.kind);
    }
}

/// Adds the words, and `@` with the line before each that stands in another line than the one before it.
pub fn write_lined(out: &mut Answer, words: &[Token]) {
    let mut line = 0;
    for token in words {
        if !out.is_empty() {
            out.put(" ");
        }
        if token.line != line {
            line = token.line;
            out.put("@");
            out.show(&line);
            out.put(" ");
        }
        write_word(out, &token.kind);
    }
}

/// Adds of each word its line, and where it begins and ends.
pub fn write_places(out: &mut Answer, words: &[Token]) {
    for (i, token) in words.iter().enumerate() {
        if i > 0 {
            out.put(" ");
        }
        out.show(&token.line);
        out.put(":");
        out.show(&token.start);
        out.put("-");
        out.show(&token.end);
    }
}

/// Adds how many words there are, and the line of the last.
pub fn write_counts(out: &mut Answer, words: &[Token]) {
    match words {
        [] => out.put("none"),
        [.., last] => {
            out.show(&words.len());
            out.put(", to line ");
            out.show(&last.line);
        }
    }
}
