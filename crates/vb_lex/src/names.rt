//! Names and keywords.
ghost use Rattle.std.specs.Prelude.{◌≡◌, ◌<◌, ◌≤◌, length, map};
ghost use Rattle.vb_value.specs.Outcome.{Gives};
ghost use Rattle.vb_lex.specs.Names as spec;

use crate::characters::{Class, character, run};
use crate::fault::LexFault;
use crate::piece::Piece;
use crate::place::Behind;
use std::alloc::Global;
use vb_value::{Keyword, Memory, Text, TokenKind, among, is_word};

/// The keywords of the language, in small letters.
pub const KEYWORDS: [(&[u8], Keyword); 54] = [
    (b"and", Keyword::And),
    (b"byref", Keyword::ByRef),
    (b"byval", Keyword::ByVal),
    (b"call", Keyword::Call),
    (b"case", Keyword::Case),
    (b"class", Keyword::Class),
    (b"const", Keyword::Const),
    (b"dim", Keyword::Dim),
    (b"do", Keyword::Do),
    (b"each", Keyword::Each),
    (b"else", Keyword::Else),
    (b"elseif", Keyword::ElseIf),
    (b"empty", Keyword::Empty),
    (b"end", Keyword::End),
    (b"eqv", Keyword::Eqv),
    (b"erase", Keyword::Erase),
    (b"exit", Keyword::Exit),
    (b"false", Keyword::False),
    (b"for", Keyword::For),
    (b"function", Keyword::Function),
    (b"get", Keyword::Get),
    (b"goto", Keyword::GoTo),
    (b"if", Keyword::If),
    (b"imp", Keyword::Imp),
    (b"in", Keyword::In),
    (b"is", Keyword::Is),
    (b"let", Keyword::Let),
    (b"loop", Keyword::Loop),
    (b"me", Keyword::Me),
    (b"mod", Keyword::Mod),
    (b"new", Keyword::New),
    (b"next", Keyword::Next),
    (b"not", Keyword::Not),
    (b"nothing", Keyword::Nothing),
    (b"null", Keyword::Null),
    (b"on", Keyword::On),
    (b"option", Keyword::Option),
    (b"or", Keyword::Or),
    (b"preserve", Keyword::Preserve),
    (b"private", Keyword::Private),
    (b"public", Keyword::Public),
    (b"redim", Keyword::ReDim),
    (b"resume", Keyword::Resume),
    (b"select", Keyword::Select),
    (b"set", Keyword::Set),
    (b"sub", Keyword::Sub),
    (b"then", Keyword::Then),
    (b"to", Keyword::To),
    (b"true", Keyword::True),
    (b"until", Keyword::Until),
    (b"wend", Keyword::Wend),
    (b"while", Keyword::While),
    (b"with", Keyword::With),
    (b"xor", Keyword::Xor),
];

/// The keyword that a word is, in any ASCII case.
fn keyword(name: &[char]) -> Option<Keyword>
    ensures { result ≡ spec.keyword name.now }
{
    among(&KEYWORDS, name)
}

fn name(alloc: Global, text: &[char], bracketed: bool) -> Result<TokenKind, Memory>
    ensures { Gives result (TokenKind.Name text.now bracketed) }
{
    let text = Text::from_slice(alloc, text)?;
    Ok(TokenKind::Name { text, bracketed })
}

/// The piece at the front of a text that begins with a letter.
pub fn named(alloc: Global, behind: Behind, text: &[char]) -> Result<Piece, Memory>
    ensures { Gives result (spec.named behind text.now) }
{
    let length = run(Class::NamePart, text);
    let letters = &text[..length];
    if length > 255 {
        return Ok(Piece::Fault {
            kind: LexFault::LongName,
        });
    }
    if behind == Behind::Point {
        let kind = name(alloc, letters, false)?;
        return Ok(Piece::Word { kind, length });
    }
    if is_word(b"rem", letters) {
        let length = run(Class::OnLine, text);
        return Ok(Piece::Gap { length });
    }
    let kind = match keyword(letters) {
        Some(keyword) => TokenKind::Keyword(keyword),
        None => name(alloc, letters, false)?,
    };
    Ok(Piece::Word { kind, length })
}

/// The piece at the front of a text that begins with `[`.
pub fn bracketed(alloc: Global, text: &[char]) -> Result<Piece, Memory>
    requires { 0 < length text.now }
    ensures { Gives result (spec.bracketed text.now) }
{
    let length = run(Class::Bracketed, &text[1..]);
    if character(text, 1 + length) != ']' {
        return Ok(Piece::Fault {
            kind: LexFault::OpenBracket,
        });
    }
    let kind = name(alloc, &text[1..1 + length], true)?;
    Ok(Piece::Word {
        kind,
        length: length + 2,
    })
}
