//! Parts of statements that hold others, as words.
ghost use Rattle.std.specs.Prelude.{◌≡◌, ◌∷◌, ◌++◌, [], map};
ghost use Rattle.vb_print.specs.Words.{keyword, symbol, name, listed};
ghost use Rattle.vb_print.specs.Expressions.{expression_words};
ghost use Rattle.vb_print.specs.Statements as spec;
ghost use Rattle.vb_value.specs.Outcome.{Adds};
ghost use Rattle.vb_value.specs.declared.token.Keyword.TheVariants as k;
ghost use Rattle.vb_value.specs.declared.token.Symbol.TheVariants as s;

use crate::expressions::{print_expression, print_expressions};
use crate::words::{print_keyword, print_name, print_step_word, print_symbol, print_word};
use vb_syntax::{Condition, Expression, Repetition};
use vb_value::{Keyword, List, Memory, Symbol, Text, Token, TokenKind};

/// Adds the end of a line.
pub fn print_line_end(words: &mut List<Token>, line: u32) -> Result<(), Memory>
    ensures { Adds result words.old words.new (spec.line_end line ∷ []) }
{
    print_word(words, line, TokenKind::LineEnd)
}

/// Adds a keyword and an expression behind it.
pub fn print_tested(
    words: &mut List<Token>,
    line: u32,
    word: Keyword,
    test: &Expression,
) -> Result<(), Memory>
    ensures { Adds result words.old words.new (keyword line word ∷ expression_words line test.now) }
{
    print_keyword(words, line, word)?;
    print_expression(words, line, test)
}

/// Adds the condition of a `Do`.
fn print_condition(words: &mut List<Token>, line: u32, condition: &Condition) -> Result<(), Memory>
    ensures { Adds result words.old words.new (spec.condition_words line condition.now) }
{
    let word = if condition.is_until {
        Keyword::Until
    } else {
        Keyword::While
    };
    print_tested(words, line, word, &condition.test)
}

/// Adds the condition behind `Do`, where it stands there.
pub fn print_before(
    words: &mut List<Token>,
    line: u32,
    repetition: &Repetition,
) -> Result<(), Memory>
    ensures { Adds result words.old words.new (spec.before_words line repetition.now) }
{
    match repetition {
        Repetition::Before(condition) => print_condition(words, line, condition),
        _ => Ok(()),
    }
}

/// Adds the condition behind `Loop`, where it stands there, in its line.
pub fn print_after(words: &mut List<Token>, repetition: &Repetition) -> Result<(), Memory>
    ensures { Adds result words.old words.new (spec.after_words repetition.now) }
{
    match repetition {
        Repetition::After { line, condition } => print_condition(words, *line, condition),
        _ => Ok(()),
    }
}

/// Adds `Step` and by how much, where it is said.
pub fn print_by(words: &mut List<Token>, line: u32, by: &Option<Expression>) -> Result<(), Memory>
    ensures { Adds result words.old words.new (spec.step_words line by.now) }
{
    match by {
        None => Ok(()),
        Some(by) => {
            print_step_word(words, line)?;
            print_expression(words, line, by)
        }
    }
}

/// Adds `End` and what ends.
pub fn print_end(words: &mut List<Token>, line: u32, word: Keyword) -> Result<(), Memory>
    ensures { Adds result words.old words.new (keyword line k.End ∷ keyword line word ∷ []) }
{
    print_keyword(words, line, Keyword::End)?;
    print_keyword(words, line, word)
}

/// Adds an `If` or `ElseIf` as far as `Then`.
pub fn print_if_head(
    words: &mut List<Token>,
    line: u32,
    word: Keyword,
    test: &Expression,
) -> Result<(), Memory>
    ensures { Adds result words.old words.new
        (keyword line word ∷ expression_words line test.now ++ keyword line k.Then ∷ []) }
{
    print_tested(words, line, word, test)?;
    print_keyword(words, line, Keyword::Then)
}

/// Adds a `Case` as far as the end of its line.
pub fn print_case_head(
    words: &mut List<Token>,
    line: u32,
    values: &[Expression],
) -> Result<(), Memory>
    ensures { Adds result words.old words.new (keyword line k.Case
        ∷ listed line (map (expression_words line) values.now) ++ spec.line_end line ∷ []) }
{
    print_keyword(words, line, Keyword::Case)?;
    print_expressions(words, line, values)?;
    print_line_end(words, line)
}

/// Adds a `Select` as far as the end of its line.
pub fn print_select_head(
    words: &mut List<Token>,
    line: u32,
    subject: &Expression,
) -> Result<(), Memory>
    ensures { Adds result words.old words.new (keyword line k.Select ∷ keyword line k.Case
        ∷ expression_words line subject.now ++ spec.line_end line ∷ []) }
{
    print_keyword(words, line, Keyword::Select)?;
    print_tested(words, line, Keyword::Case, subject)?;
    print_line_end(words, line)
}

/// Adds a `For` as far as the end of its line.
pub fn print_for_head(
    words: &mut List<Token>,
    line: u32,
    variable: &Text,
    from: &Expression,
    to: &Expression,
    by: &Option<Expression>,
) -> Result<(), Memory>
    ensures { Adds result words.old words.new (keyword line k.For ∷ name line variable.now
        ∷ symbol line s.Equal ∷ expression_words line from.now ++ keyword line k.To ∷ expression_words line to.now
        ++ spec.step_words line by.now ++ spec.line_end line ∷ []) }
{
    print_keyword(words, line, Keyword::For)?;
    print_name(words, line, variable)?;
    print_symbol(words, line, Symbol::Equal)?;
    print_expression(words, line, from)?;
    print_tested(words, line, Keyword::To, to)?;
    print_by(words, line, by)?;
    print_line_end(words, line)
}

/// Adds a `For Each` as far as the end of its line.
pub fn print_for_each_head(
    words: &mut List<Token>,
    line: u32,
    variable: &Text,
    group: &Expression,
) -> Result<(), Memory>
    ensures { Adds result words.old words.new (keyword line k.For ∷ keyword line k.Each ∷ name line variable.now
        ∷ keyword line k.In ∷ expression_words line group.now ++ spec.line_end line ∷ []) }
{
    print_keyword(words, line, Keyword::For)?;
    print_keyword(words, line, Keyword::Each)?;
    print_name(words, line, variable)?;
    print_tested(words, line, Keyword::In, group)?;
    print_line_end(words, line)
}
