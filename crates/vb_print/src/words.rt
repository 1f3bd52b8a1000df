//! Single words.
ghost use Rattle.std.specs.Prelude.{◌≡◌, ◌∷◌, [], codes};
ghost use Rattle.std.specs.Str.{chars};
ghost use Rattle.vb_value.specs.Outcome.{Adds, Gives};
ghost use Rattle.vb_print.specs.Words as spec;

use vb_syntax::Literal;
use vb_value::{Copied, Keyword, List, Memory, Op2, Symbol, Text, Token, TokenKind};

/// Adds a word in a line.
pub fn print_word(words: &mut List<Token>, line: u32, kind: TokenKind) -> Result<(), Memory>
    ensures { Adds result words.old words.new (spec.printed line kind ∷ []) }
{
    words.push(Token {
        kind,
        line,
        start: 0,
        end: 0,
    })
}

/// Adds a keyword in a line.
pub fn print_keyword(words: &mut List<Token>, line: u32, word: Keyword) -> Result<(), Memory>
    ensures { Adds result words.old words.new (spec.keyword line word ∷ []) }
{
    print_word(words, line, TokenKind::Keyword(word))
}

/// Adds an operator or a mark of punctuation in a line.
pub fn print_symbol(words: &mut List<Token>, line: u32, word: Symbol) -> Result<(), Memory>
    ensures { Adds result words.old words.new (spec.symbol line word ∷ []) }
{
    print_word(words, line, TokenKind::Symbol(word))
}

/// Adds a name in a line, in brackets.
pub fn print_name(words: &mut List<Token>, line: u32, name: &Text) -> Result<(), Memory>
    ensures { Adds result words.old words.new (spec.name line name.now ∷ []) }
{
    let kind = TokenKind::Name {
        text: name.copy()?,
        bracketed: true,
    };
    print_word(words, line, kind)
}

/// Adds a word in a line that is a name elsewhere.
fn print_quoted(words: &mut List<Token>, line: u32, word: &str) -> Result<(), Memory>
    ensures { Adds result words.old words.new (spec.quoted line (chars word.now) ∷ []) }
{
    let kind = TokenKind::Name {
        text: Text::from_str(*words.allocator(), word)?,
        bracketed: false,
    };
    print_word(words, line, kind)
}

/// Adds `Error`.
pub fn print_error_word(words: &mut List<Token>, line: u32) -> Result<(), Memory>
    ensures { Adds result words.old words.new (spec.quoted line (codes "Error") ∷ []) }
{
    print_quoted(words, line, "Error")
}

/// Adds `Explicit`.
pub fn print_explicit_word(words: &mut List<Token>, line: u32) -> Result<(), Memory>
    ensures { Adds result words.old words.new (spec.quoted line (codes "Explicit") ∷ []) }
{
    print_quoted(words, line, "Explicit")
}

/// Adds `Property`.
pub fn print_property_word(words: &mut List<Token>, line: u32) -> Result<(), Memory>
    ensures { Adds result words.old words.new (spec.quoted line (codes "Property") ∷ []) }
{
    print_quoted(words, line, "Property")
}

/// Adds `Step`.
pub fn print_step_word(words: &mut List<Token>, line: u32) -> Result<(), Memory>
    ensures { Adds result words.old words.new (spec.quoted line (codes "Step") ∷ []) }
{
    print_quoted(words, line, "Step")
}

/// The word of a value that is written down.
pub fn literal_word(found: &Literal) -> Result<TokenKind, Memory>
    ensures { Gives result (spec.literal_word found.now) }
{
    Ok(match found {
        Literal::Empty => TokenKind::Keyword(Keyword::Empty),
        Literal::Null => TokenKind::Keyword(Keyword::Null),
        Literal::Boolean(true) => TokenKind::Keyword(Keyword::True),
        Literal::Boolean(false) => TokenKind::Keyword(Keyword::False),
        Literal::Integer(number) => TokenKind::Integer(*number),
        Literal::Long(number) => TokenKind::Long(*number),
        Literal::Text(text) => TokenKind::String(text.copy()?),
    })
}

/// The word of an operator on two values.
pub fn operator_word(operator: Op2) -> TokenKind
    ensures { result ≡ spec.operator_word operator }
{
    match operator {
        Op2::Multiply => TokenKind::Symbol(Symbol::Star),
        Op2::Divide => TokenKind::Symbol(Symbol::Backslash),
        Op2::Modulo => TokenKind::Keyword(Keyword::Mod),
        Op2::Add => TokenKind::Symbol(Symbol::Plus),
        Op2::Subtract => TokenKind::Symbol(Symbol::Minus),
        Op2::Join => TokenKind::Symbol(Symbol::Ampersand),
        Op2::Equal => TokenKind::Symbol(Symbol::Equal),
        Op2::Unequal => TokenKind::Symbol(Symbol::NotEqual),
        Op2::Less => TokenKind::Symbol(Symbol::Less),
        Op2::Greater => TokenKind::Symbol(Symbol::Greater),
        Op2::AtMost => TokenKind::Symbol(Symbol::AtMost),
        Op2::AtLeast => TokenKind::Symbol(Symbol::AtLeast),
        Op2::Is => TokenKind::Keyword(Keyword::Is),
        Op2::And => TokenKind::Keyword(Keyword::And),
        Op2::Or => TokenKind::Keyword(Keyword::Or),
        Op2::Xor => TokenKind::Keyword(Keyword::Xor),
        Op2::Eqv => TokenKind::Keyword(Keyword::Eqv),
        Op2::Imp => TokenKind::Keyword(Keyword::Imp),
    }
}
