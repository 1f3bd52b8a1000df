//! Declarations as words.
ghost use Rattle.std.specs.Prelude.{◌≡◌, ◌∷◌, ◌++◌, [], map};
ghost use Rattle.vb_print.specs.Words.{listed, keyword, symbol};
ghost use Rattle.vb_print.specs.Statements as spec;
ghost use Rattle.vb_print.specs.Units as units;
ghost use Rattle.vb_value.specs.Outcome.{Adds};

use crate::words::{literal_word, print_keyword, print_name, print_symbol, print_word};
use vb_syntax::{Access, Constant, ConstantValue, Declared, Parameter};
use vb_value::{Keyword, List, Memory, Symbol, Token, TokenKind};

/// Adds the word before a declaration, where there is one.
pub fn print_access(
    words: &mut List<Token>,
    line: u32,
    access: Option<Access>,
) -> Result<(), Memory>
    ensures { Adds result words.old words.new (spec.access_words line access) }
{
    match access {
        None => Ok(()),
        Some(Access::Public) => print_keyword(words, line, Keyword::Public),
        Some(Access::Private) => print_keyword(words, line, Keyword::Private),
    }
}

/// Adds the bounds of an array, with commas between.
fn print_numbers(words: &mut List<Token>, line: u32, numbers: &[i32]) -> Result<(), Memory>
    ensures { Adds result words.old words.new (listed line (map (spec.bound_words line) numbers.now)) }
{
    let [first, more @ ..] = numbers else {
        return Ok(());
    };
    print_word(words, line, TokenKind::Long(*first))?;
    for number in more {
        print_symbol(words, line, Symbol::Comma)?;
        print_word(words, line, TokenKind::Long(*number))?;
    }
    Ok(())
}

/// Adds a declared variable.
fn print_declared(words: &mut List<Token>, line: u32, found: &Declared) -> Result<(), Memory>
    ensures { Adds result words.old words.new (spec.declared_words line found.now) }
{
    print_name(words, line, &found.name)?;
    if let Some(bounds) = &found.bounds {
        print_symbol(words, line, Symbol::Open)?;
        print_numbers(words, line, bounds.as_slice())?;
        print_symbol(words, line, Symbol::Close)?;
    }
    Ok(())
}

/// Adds declared variables, with commas between.
pub fn print_variables(
    words: &mut List<Token>,
    line: u32,
    variables: &[Declared],
) -> Result<(), Memory>
    ensures { Adds result words.old words.new (listed line (map (spec.declared_words line) variables.now)) }
{
    let [first, more @ ..] = variables else {
        return Ok(());
    };
    print_declared(words, line, first)?;
    for variable in more {
        print_symbol(words, line, Symbol::Comma)?;
        print_declared(words, line, variable)?;
    }
    Ok(())
}

/// Adds what a constant stands for.
fn print_constant_value(
    words: &mut List<Token>,
    line: u32,
    value: &ConstantValue,
) -> Result<(), Memory>
    ensures { Adds result words.old words.new (spec.constant_value_words line value.now) }
{
    match value {
        ConstantValue::Literal(found) => print_word(words, line, literal_word(found)?),
        ConstantValue::NegativeInteger(number) => {
            print_symbol(words, line, Symbol::Minus)?;
            print_word(words, line, TokenKind::Integer(*number))
        }
        ConstantValue::NegativeLong(number) => {
            print_symbol(words, line, Symbol::Minus)?;
            print_word(words, line, TokenKind::Long(*number))
        }
    }
}

/// Adds a declared constant.
fn print_constant(words: &mut List<Token>, line: u32, found: &Constant) -> Result<(), Memory>
    ensures { Adds result words.old words.new (spec.constant_words line found.now) }
{
    print_name(words, line, &found.name)?;
    print_symbol(words, line, Symbol::Equal)?;
    print_constant_value(words, line, &found.value)
}

/// Adds declared constants, with commas between.
pub fn print_constants(
    words: &mut List<Token>,
    line: u32,
    constants: &[Constant],
) -> Result<(), Memory>
    ensures { Adds result words.old words.new (listed line (map (spec.constant_words line) constants.now)) }
{
    let [first, more @ ..] = constants else {
        return Ok(());
    };
    print_constant(words, line, first)?;
    for constant in more {
        print_symbol(words, line, Symbol::Comma)?;
        print_constant(words, line, constant)?;
    }
    Ok(())
}

/// Adds a parameter.
fn print_parameter(words: &mut List<Token>, line: u32, found: &Parameter) -> Result<(), Memory>
    ensures { Adds result words.old words.new (units.parameter_words line found.now) }
{
    if found.by_value {
        print_keyword(words, line, Keyword::ByVal)?;
    }
    print_name(words, line, &found.name)
}

/// Adds the parameters of a procedure, with their parentheses where there are any.
pub fn print_parameters(
    words: &mut List<Token>,
    line: u32,
    parameters: &[Parameter],
) -> Result<(), Memory>
    ensures { Adds result words.old words.new (units.parameters_words line parameters.now) }
{
    let [first, more @ ..] = parameters else {
        return Ok(());
    };
    print_symbol(words, line, Symbol::Open)?;
    print_parameter(words, line, first)?;
    for parameter in more {
        print_symbol(words, line, Symbol::Comma)?;
        print_parameter(words, line, parameter)?;
    }
    print_symbol(words, line, Symbol::Close)
}
