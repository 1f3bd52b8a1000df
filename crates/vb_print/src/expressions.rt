//! Expressions as words.
ghost use Rattle.std.specs.Prelude.{◌≡◌, ◌∷◌, ◌++◌, [], map};
ghost use Rattle.std.specs.List.{flat_map};
ghost use Rattle.vb_syntax.specs.grammar.Rules.{Tokens};
ghost use Rattle.vb_print.specs.Words.{listed};
ghost use Rattle.vb_print.specs.Expressions as spec;
ghost use Rattle.vb_value.specs.Outcome.{Adds};

use crate::words::{
    literal_word, operator_word, print_keyword, print_name, print_symbol, print_word,
};
use vb_syntax::{Expression, Operation, Path, PathHead, Step};
use vb_value::{Keyword, List, Memory, Symbol, Token};

/// Adds the head of a path in a line.
fn print_head(words: &mut List<Token>, line: u32, head: &PathHead) -> Result<(), Memory>
    ensures { Adds result words.old words.new (spec.head_words line head.now) }
{
    match head {
        PathHead::Name(text) => print_name(words, line, text),
        PathHead::Me => print_keyword(words, line, Keyword::Me),
        PathHead::With(text) => {
            print_symbol(words, line, Symbol::WithPoint)?;
            print_name(words, line, text)
        }
    }
}

/// Adds an expression in a line. It recurses once for each expression inside another.
#[cycle(expressions)]
pub fn print_expression(
    words: &mut List<Token>,
    line: u32,
    expression: &Expression,
) -> Result<(), Memory>
    ensures { Adds result words.old words.new (spec.expression_words line expression.now) }
{
    match expression {
        Expression::Literal(found) => print_word(words, line, literal_word(found)?),
        Expression::Nothing => print_keyword(words, line, Keyword::Nothing),
        Expression::New { class } => {
            print_keyword(words, line, Keyword::New)?;
            print_name(words, line, class)
        }
        Expression::Path(path) => print_path(words, line, path),
        Expression::Parenthesis(inner) => {
            print_symbol(words, line, Symbol::Open)?;
            print_expression(words, line, inner.get())?;
            print_symbol(words, line, Symbol::Close)
        }
        Expression::Negative(operand) => {
            print_symbol(words, line, Symbol::Minus)?;
            print_expression(words, line, operand.get())
        }
        Expression::Not(operand) => {
            print_keyword(words, line, Keyword::Not)?;
            print_expression(words, line, operand.get())
        }
        Expression::Chain { first, rest } => {
            print_expression(words, line, first.get())?;
            print_operations(words, line, rest.as_slice())
        }
    }
}

/// Adds operators with their right operands in a line.
#[cycle(expressions)]
fn print_operations(
    words: &mut List<Token>,
    line: u32,
    operations: &[Operation],
) -> Result<(), Memory>
    ensures { Adds result words.old words.new
        (flat_map (λ (x : Tokens). x) (map (spec.operation_words line) operations.now)) }
{
    for operation in operations {
        print_word(words, line, operator_word(operation.operator))?;
        print_expression(words, line, &operation.operand)?;
    }
    Ok(())
}

/// Adds a path in a line.
#[cycle(expressions)]
pub fn print_path(words: &mut List<Token>, line: u32, path: &Path) -> Result<(), Memory>
    ensures { Adds result words.old words.new (spec.path_words line path.now) }
{
    print_head(words, line, &path.head)?;
    for step in path.steps.as_slice() {
        print_step(words, line, step)?;
    }
    Ok(())
}

/// Adds what stands behind a path's head in a line.
#[cycle(expressions)]
fn print_step(words: &mut List<Token>, line: u32, step: &Step) -> Result<(), Memory>
    ensures { Adds result words.old words.new (spec.path_step_words line step.now) }
{
    match step {
        Step::Member(text) => {
            print_symbol(words, line, Symbol::PathPoint)?;
            print_name(words, line, text)
        }
        Step::Group(arguments) => {
            print_symbol(words, line, Symbol::Open)?;
            print_expressions(words, line, arguments.as_slice())?;
            print_symbol(words, line, Symbol::Close)
        }
    }
}

/// Adds expressions in a line, with commas between.
#[cycle(expressions)]
pub fn print_expressions(
    words: &mut List<Token>,
    line: u32,
    expressions: &[Expression],
) -> Result<(), Memory>
    ensures { Adds result words.old words.new (listed line (map (spec.expression_words line) expressions.now)) }
{
    let [first, more @ ..] = expressions else {
        return Ok(());
    };
    print_expression(words, line, first)?;
    for expression in more {
        print_symbol(words, line, Symbol::Comma)?;
        print_expression(words, line, expression)?;
    }
    Ok(())
}
