//! Statements that hold no other as words.
ghost use Rattle.std.specs.Prelude.{◌≡◌, ◌∷◌, ◌++◌, [], map};
ghost use Rattle.vb_print.specs.Words.{listed, keyword};
ghost use Rattle.vb_print.specs.Expressions.{expression_words, path_words};
ghost use Rattle.vb_print.specs.Statements as spec;
ghost use Rattle.vb_syntax.specs.grammar.SimpleStatements as grammar;
ghost use Rattle.vb_syntax.specs.declared.statement.StatementKind.TheOpen as layer;
ghost use Rattle.vb_value.specs.Outcome.{Adds};

use crate::declarations::{print_access, print_constants, print_variables};
use crate::expressions::{print_expression, print_expressions, print_path};
use crate::words::{
    print_error_word, print_keyword, print_name, print_property_word, print_symbol, print_word,
};
use vb_syntax::{Access, Constant, Declared, ExitKind, Expression, Path, Resized, Step};
use vb_value::{Copied, Keyword, List, Memory, Symbol, Text, Token, TokenKind};

/// Adds a declaration of constants.
pub fn print_const(
    words: &mut List<Token>,
    line: u32,
    access: Option<Access>,
    constants: &List<Constant>,
) -> Result<(), Memory>
    ensures { Adds result words.old words.new (spec.kind_layer (layer.Const access constants.now) line) }
{
    print_access(words, line, access)?;
    print_keyword(words, line, Keyword::Const)?;
    print_constants(words, line, constants.as_slice())
}

/// Adds a declaration of variables.
pub fn print_dim(
    words: &mut List<Token>,
    line: u32,
    variables: &List<Declared>,
) -> Result<(), Memory>
    ensures { Adds result words.old words.new (spec.kind_layer (layer.Dim variables.now) line) }
{
    print_keyword(words, line, Keyword::Dim)?;
    print_variables(words, line, variables.as_slice())
}

/// Adds an array and its new bounds.
fn print_resized(words: &mut List<Token>, line: u32, array: &Resized) -> Result<(), Memory>
    ensures { Adds result words.old words.new (spec.resized_words line array.now) }
{
    print_name(words, line, &array.name)?;
    print_symbol(words, line, Symbol::Open)?;
    print_expressions(words, line, array.bounds.as_slice())?;
    print_symbol(words, line, Symbol::Close)
}

/// Adds arrays and their new bounds, with commas between.
fn print_arrays(words: &mut List<Token>, line: u32, arrays: &[Resized]) -> Result<(), Memory>
    ensures { Adds result words.old words.new (listed line (map (spec.resized_words line) arrays.now)) }
{
    let [first, more @ ..] = arrays else {
        return Ok(());
    };
    print_resized(words, line, first)?;
    for array in more {
        print_symbol(words, line, Symbol::Comma)?;
        print_resized(words, line, array)?;
    }
    Ok(())
}

/// Adds a change of the bounds of arrays.
pub fn print_redim(
    words: &mut List<Token>,
    line: u32,
    preserve: bool,
    arrays: &List<Resized>,
) -> Result<(), Memory>
    ensures { Adds result words.old words.new (spec.kind_layer (layer.ReDim preserve arrays.now) line) }
{
    print_keyword(words, line, Keyword::ReDim)?;
    if preserve {
        print_keyword(words, line, Keyword::Preserve)?;
    }
    print_arrays(words, line, arrays.as_slice())
}

/// Adds an assignment of a value.
pub fn print_assignment(
    words: &mut List<Token>,
    line: u32,
    target: &Path,
    value: &Expression,
) -> Result<(), Memory>
    ensures { Adds result words.old words.new (spec.kind_layer (layer.Assign target.now value.now) line) }
{
    print_path(words, line, target)?;
    print_symbol(words, line, Symbol::Equal)?;
    print_expression(words, line, value)
}

/// Adds an assignment of an object.
pub fn print_set(
    words: &mut List<Token>,
    line: u32,
    target: &Path,
    value: &Expression,
) -> Result<(), Memory>
    ensures { Adds result words.old words.new (spec.kind_layer (layer.Set target.now value.now) line) }
{
    print_keyword(words, line, Keyword::Set)?;
    print_assignment(words, line, target, value)
}

/// Whether a step is a parenthesis.
fn is_group(step: &Step) -> bool
    ensures { result ≡ grammar.is_group step.now }
{
    matches!(step, Step::Group(_))
}

/// Whether the last of a path's steps is a parenthesis.
#[tactic(auto, using(crate::proofs::Adding::ends_at_last))]
fn ends_in_group(steps: &[Step]) -> bool
    ensures { result ≡ grammar.ends_in_group steps.now }
{
    match steps.split_last() {
        Some((last, _)) => is_group(last),
        None => false,
    }
}

/// Adds the arguments of a call. Where there are none behind a path that ends in a parenthesis, an empty one
/// follows.
fn print_arguments(
    words: &mut List<Token>,
    line: u32,
    callee: &Path,
    arguments: &[Expression],
) -> Result<(), Memory>
    ensures { Adds result words.old words.new (spec.argument_words line callee.now arguments.now) }
{
    if arguments.is_empty() && ends_in_group(callee.steps.as_slice()) {
        print_symbol(words, line, Symbol::Open)?;
        print_symbol(words, line, Symbol::Close)?;
    }
    print_expressions(words, line, arguments)
}

/// Adds a call.
pub fn print_call(
    words: &mut List<Token>,
    line: u32,
    callee: &Path,
    arguments: &List<Expression>,
) -> Result<(), Memory>
    ensures { Adds result words.old words.new (spec.kind_layer (layer.Call callee.now arguments.now) line) }
{
    print_path(words, line, callee)?;
    print_arguments(words, line, callee, arguments.as_slice())
}

/// Adds a call with `Call`.
pub fn print_call_path(words: &mut List<Token>, line: u32, callee: &Path) -> Result<(), Memory>
    ensures { Adds result words.old words.new (spec.kind_layer (layer.CallPath callee.now) line) }
{
    print_keyword(words, line, Keyword::Call)?;
    print_path(words, line, callee)
}

/// Adds an `Exit`.
pub fn print_exit(words: &mut List<Token>, line: u32, kind: ExitKind) -> Result<(), Memory>
    ensures { Adds result words.old words.new (spec.kind_layer (layer.Exit kind) line) }
{
    print_keyword(words, line, Keyword::Exit)?;
    match kind {
        ExitKind::Do => print_keyword(words, line, Keyword::Do),
        ExitKind::For => print_keyword(words, line, Keyword::For),
        ExitKind::Sub => print_keyword(words, line, Keyword::Sub),
        ExitKind::Function => print_keyword(words, line, Keyword::Function),
        ExitKind::Property => print_property_word(words, line),
    }
}

/// Adds `On Error Resume Next`.
pub fn print_resume_next(words: &mut List<Token>, line: u32) -> Result<(), Memory>
    ensures { Adds result words.old words.new (spec.kind_layer layer.OnErrorResumeNext line) }
{
    print_keyword(words, line, Keyword::On)?;
    print_error_word(words, line)?;
    print_keyword(words, line, Keyword::Resume)?;
    print_keyword(words, line, Keyword::Next)
}

/// Adds `On Error GoTo 0`.
pub fn print_go_to_zero(words: &mut List<Token>, line: u32) -> Result<(), Memory>
    ensures { Adds result words.old words.new (spec.kind_layer layer.OnErrorGoToZero line) }
{
    print_keyword(words, line, Keyword::On)?;
    print_error_word(words, line)?;
    print_keyword(words, line, Keyword::GoTo)?;
    print_word(words, line, TokenKind::Integer(0))
}

/// Adds names, with commas between.
fn print_names(words: &mut List<Token>, line: u32, names: &[Text]) -> Result<(), Memory>
    ensures { Adds result words.old words.new (listed line (map (spec.name_words line) names.now)) }
{
    let [first, more @ ..] = names else {
        return Ok(());
    };
    print_name(words, line, first)?;
    for name in more {
        print_symbol(words, line, Symbol::Comma)?;
        print_name(words, line, name)?;
    }
    Ok(())
}

/// Adds an `Erase`.
pub fn print_erase(words: &mut List<Token>, line: u32, names: &List<Text>) -> Result<(), Memory>
    ensures { Adds result words.old words.new (spec.kind_layer (layer.Erase names.now) line) }
{
    print_keyword(words, line, Keyword::Erase)?;
    print_names(words, line, names.as_slice())
}

/// Adds a text of the page.
pub fn print_page_text(words: &mut List<Token>, line: u32, text: &Text) -> Result<(), Memory>
    ensures { Adds result words.old words.new (spec.kind_layer (layer.PageText text.now) line) }
{
    print_word(words, line, TokenKind::PageText(text.copy()?))
}

/// Adds a write of the page.
pub fn print_page_write(
    words: &mut List<Token>,
    line: u32,
    value: &Expression,
) -> Result<(), Memory>
    ensures { Adds result words.old words.new (spec.kind_layer (layer.PageWrite value.now) line) }
{
    print_word(words, line, TokenKind::PageWrite)?;
    print_expression(words, line, value)
}
