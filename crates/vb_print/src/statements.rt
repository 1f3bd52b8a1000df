//! Statements and blocks as words.
ghost use Rattle.std.specs.Prelude.{◌≡◌, ◌∷◌, ◌++◌, [], map, Some};
ghost use Rattle.std.specs.List.{flat_map};
ghost use Rattle.std.specs.Option.{option_map};
ghost use Rattle.vb_value.specs.declared.token.Keyword.TheVariants as k;
ghost use Rattle.vb_syntax.specs.grammar.Rules.{Tokens};
ghost use Rattle.vb_print.specs.Words.{keyword};
ghost use Rattle.vb_print.specs.Expressions.{expression_words};
ghost use Rattle.vb_print.specs.Statements as spec;
ghost use Rattle.vb_print.specs.Statements.{statement_words};
ghost use Rattle.vb_syntax.specs.declared.statement.StatementKind.TheOpen as layer;
ghost use Rattle.vb_value.specs.Outcome.{Adds};

use crate::parts::{
    print_after, print_before, print_case_head, print_end, print_for_each_head, print_for_head,
    print_if_head, print_line_end, print_select_head, print_tested,
};
use crate::simple::{
    print_assignment, print_call, print_call_path, print_const, print_dim, print_erase, print_exit,
    print_go_to_zero, print_page_text, print_page_write, print_redim, print_resume_next, print_set,
};
use crate::words::{print_keyword, print_symbol};
use vb_syntax::{Case, ElseIf, Expression, Repetition, Statement, StatementKind as Kind};
use vb_value::{Keyword, List, Memory, Symbol, Text, Token};

/// Adds a statement. It recurses once for each statement and each expression inside another.
#[cycle(statements)]
pub fn print_statement(words: &mut List<Token>, statement: &Statement) -> Result<(), Memory>
    ensures { Adds result words.old words.new (statement_words statement.now) }
{
    print_kind(words, statement.line, &statement.kind)
}

/// Adds what a statement says.
#[cycle(statements)]
fn print_kind(words: &mut List<Token>, line: u32, kind: &Kind) -> Result<(), Memory>
    ensures { Adds result words.old words.new (spec.kind_words kind.now line) }
{
    match kind {
        Kind::Const { access, constants } => print_const(words, line, *access, constants),
        Kind::Dim { variables } => print_dim(words, line, variables),
        Kind::ReDim { preserve, arrays } => print_redim(words, line, *preserve, arrays),
        Kind::Set { target, value } => print_set(words, line, target, value),
        Kind::Assign { target, value } => print_assignment(words, line, target, value),
        Kind::Call { callee, arguments } => print_call(words, line, callee, arguments),
        Kind::CallPath { callee } => print_call_path(words, line, callee),
        Kind::If {
            condition,
            then,
            others,
            otherwise,
        } => { print_if(words, line, then, others, otherwise, condition) }
        Kind::LineIf {
            condition,
            then,
            otherwise,
        } => { print_line_if(words, line, then, otherwise, condition) }
        Kind::Select {
            subject,
            cases,
            otherwise,
        } => { print_select(words, line, cases, otherwise, subject) }
        Kind::For {
            variable,
            from,
            to,
            step,
            body,
        } => { print_for(words, line, body, variable, from, to, step) }
        Kind::ForEach {
            variable,
            group,
            body,
        } => print_for_each(words, line, body, variable, group),
        Kind::Do { repetition, body } => print_do(words, line, body, repetition),
        Kind::While { condition, body } => print_while(words, line, body, condition),
        Kind::With { subject, body } => print_with(words, line, body, subject),
        Kind::Exit { kind } => print_exit(words, line, *kind),
        Kind::OnErrorResumeNext => print_resume_next(words, line),
        Kind::OnErrorGoToZero => print_go_to_zero(words, line),
        Kind::Erase { names } => print_erase(words, line, names),
        Kind::PageText { text } => print_page_text(words, line, text),
        Kind::PageWrite { value } => print_page_write(words, line, value),
    }
}

/// Adds statements, each with the end of a line behind it.
#[cycle(statements)]
pub fn print_body(
    words: &mut List<Token>,
    line: u32,
    statements: &List<Statement>,
) -> Result<(), Memory>
    ensures { Adds result words.old words.new (spec.body_words line statements.now) }
{
    for statement in statements.as_slice() {
        print_statement(words, statement)?;
        print_line_end(words, line)?;
    }
    Ok(())
}

/// Adds the statements of one line, with ":" between.
#[cycle(statements)]
fn print_line(
    words: &mut List<Token>,
    line: u32,
    statements: &List<Statement>,
) -> Result<(), Memory>
    ensures { Adds result words.old words.new (spec.line_words line (map statement_words statements.now)) }
{
    let [first, more @ ..] = statements.as_slice() else {
        return Ok(());
    };
    print_statement(words, first)?;
    for statement in more {
        print_symbol(words, line, Symbol::Colon)?;
        print_statement(words, statement)?;
    }
    Ok(())
}

/// Adds an `If` on several lines.
#[cycle(statements)]
fn print_if(
    words: &mut List<Token>,
    line: u32,
    then: &List<Statement>,
    others: &List<ElseIf>,
    otherwise: &Option<List<Statement>>,
    condition: &Expression,
) -> Result<(), Memory>
    ensures { Adds result words.old words.new (spec.kind_layer (layer.If condition.now (map statement_words then.now)
        (map spec.else_if_words others.now) (option_map (map statement_words) otherwise.now)) line) }
{
    print_then(words, line, then, condition)?;
    print_else_ifs(words, others)?;
    if let Some(body) = otherwise {
        print_else(words, line, body)?;
    }
    print_end(words, line, Keyword::If)
}

/// Adds an `If` on several lines as far as its first block.
#[cycle(statements)]
fn print_then(
    words: &mut List<Token>,
    line: u32,
    then: &List<Statement>,
    condition: &Expression,
) -> Result<(), Memory>
    ensures { Adds result words.old words.new (keyword line k.If ∷ expression_words line condition.now
        ++ keyword line k.Then ∷ spec.line_end line ∷ spec.body_words line then.now) }
{
    print_if_head(words, line, Keyword::If, condition)?;
    print_line_end(words, line)?;
    print_body(words, line, then)
}

/// Adds the `ElseIf` parts of an `If`.
#[cycle(statements)]
fn print_else_ifs(words: &mut List<Token>, others: &List<ElseIf>) -> Result<(), Memory>
    ensures { Adds result words.old words.new (flat_map (λ (x : Tokens). x) (map spec.else_if_words others.now)) }
{
    for other in others.as_slice() {
        print_else_if(words, other)?;
    }
    Ok(())
}

/// Adds an `ElseIf` part.
#[cycle(statements)]
fn print_else_if(words: &mut List<Token>, other: &ElseIf) -> Result<(), Memory>
    ensures { Adds result words.old words.new (spec.else_if_words other.now) }
{
    print_if_head(words, other.line, Keyword::ElseIf, &other.condition)?;
    print_line_end(words, other.line)?;
    print_body(words, other.line, &other.then)
}

/// Adds an `Else` part.
#[cycle(statements)]
fn print_else(words: &mut List<Token>, line: u32, body: &List<Statement>) -> Result<(), Memory>
    ensures { Adds result words.old words.new (spec.else_words line (Some (map statement_words body.now))) }
{
    print_keyword(words, line, Keyword::Else)?;
    print_line_end(words, line)?;
    print_body(words, line, body)
}

/// Adds an `If` on one line.
#[cycle(statements)]
fn print_line_if(
    words: &mut List<Token>,
    line: u32,
    then: &List<Statement>,
    otherwise: &Option<List<Statement>>,
    condition: &Expression,
) -> Result<(), Memory>
    ensures { Adds result words.old words.new (spec.kind_layer (layer.LineIf condition.now
        (map statement_words then.now) (option_map (map statement_words) otherwise.now)) line) }
{
    print_line_then(words, line, then, condition)?;
    match otherwise {
        Some(body) => print_line_else(words, line, body),
        None => Ok(()),
    }
}

/// Adds an `If` on one line as far as its `Else`.
#[cycle(statements)]
fn print_line_then(
    words: &mut List<Token>,
    line: u32,
    then: &List<Statement>,
    condition: &Expression,
) -> Result<(), Memory>
    ensures { Adds result words.old words.new (keyword line k.If ∷ expression_words line condition.now
        ++ keyword line k.Then ∷ spec.line_words line (map statement_words then.now)) }
{
    print_if_head(words, line, Keyword::If, condition)?;
    print_line(words, line, then)
}

/// Adds an `Else` on one line.
#[cycle(statements)]
fn print_line_else(words: &mut List<Token>, line: u32, body: &List<Statement>) -> Result<(), Memory>
    ensures { Adds result words.old words.new (spec.line_else_words line (Some (map statement_words body.now))) }
{
    print_keyword(words, line, Keyword::Else)?;
    print_line(words, line, body)
}

/// Adds a `Select`.
#[cycle(statements)]
fn print_select(
    words: &mut List<Token>,
    line: u32,
    cases: &List<Case>,
    otherwise: &Option<List<Statement>>,
    subject: &Expression,
) -> Result<(), Memory>
    ensures { Adds result words.old words.new (spec.kind_layer (layer.Select subject.now
        (map spec.case_words cases.now) (option_map (map statement_words) otherwise.now)) line) }
{
    print_cases(words, line, cases, subject)?;
    if let Some(body) = otherwise {
        print_case_else(words, line, body)?;
    }
    print_end(words, line, Keyword::Select)
}

/// Adds a `Select` as far as its last `Case` with values.
#[cycle(statements)]
fn print_cases(
    words: &mut List<Token>,
    line: u32,
    cases: &List<Case>,
    subject: &Expression,
) -> Result<(), Memory>
    ensures { Adds result words.old words.new (keyword line k.Select ∷ keyword line k.Case
        ∷ expression_words line subject.now ++ spec.line_end line
        ∷ flat_map (λ (x : Tokens). x) (map spec.case_words cases.now)) }
{
    print_select_head(words, line, subject)?;
    for case in cases.as_slice() {
        print_case(words, case)?;
    }
    Ok(())
}

/// Adds a `Case` part.
#[cycle(statements)]
fn print_case(words: &mut List<Token>, case: &Case) -> Result<(), Memory>
    ensures { Adds result words.old words.new (spec.case_words case.now) }
{
    print_case_head(words, case.line, case.values.as_slice())?;
    print_body(words, case.line, &case.body)
}

/// Adds a `Case Else` part.
#[cycle(statements)]
fn print_case_else(words: &mut List<Token>, line: u32, body: &List<Statement>) -> Result<(), Memory>
    ensures { Adds result words.old words.new (spec.case_else_words line (Some (map statement_words body.now))) }
{
    print_keyword(words, line, Keyword::Case)?;
    print_else(words, line, body)
}

/// Adds a `For` that counts.
#[cycle(statements)]
fn print_for(
    words: &mut List<Token>,
    line: u32,
    body: &List<Statement>,
    variable: &Text,
    from: &Expression,
    to: &Expression,
    by: &Option<Expression>,
) -> Result<(), Memory>
    ensures { Adds result words.old words.new (spec.kind_layer (layer.For variable.now from.now to.now by.now
        (map statement_words body.now)) line) }
{
    print_for_head(words, line, variable, from, to, by)?;
    print_body(words, line, body)?;
    print_keyword(words, line, Keyword::Next)
}

/// Adds a `For Each`.
#[cycle(statements)]
fn print_for_each(
    words: &mut List<Token>,
    line: u32,
    body: &List<Statement>,
    variable: &Text,
    group: &Expression,
) -> Result<(), Memory>
    ensures { Adds result words.old words.new (spec.kind_layer (layer.ForEach variable.now group.now
        (map statement_words body.now)) line) }
{
    print_for_each_head(words, line, variable, group)?;
    print_body(words, line, body)?;
    print_keyword(words, line, Keyword::Next)
}

/// Adds a `Do`.
#[cycle(statements)]
fn print_do(
    words: &mut List<Token>,
    line: u32,
    body: &List<Statement>,
    repetition: &Repetition,
) -> Result<(), Memory>
    ensures { Adds result words.old words.new (spec.kind_layer (layer.Do repetition.now
        (map statement_words body.now)) line) }
{
    print_keyword(words, line, Keyword::Do)?;
    print_before(words, line, repetition)?;
    print_line_end(words, line)?;
    print_body(words, line, body)?;
    print_keyword(words, line, Keyword::Loop)?;
    print_after(words, repetition)
}

/// Adds a `While`.
#[cycle(statements)]
fn print_while(
    words: &mut List<Token>,
    line: u32,
    body: &List<Statement>,
    condition: &Expression,
) -> Result<(), Memory>
    ensures { Adds result words.old words.new (spec.kind_layer (layer.While condition.now
        (map statement_words body.now)) line) }
{
    print_tested(words, line, Keyword::While, condition)?;
    print_line_end(words, line)?;
    print_body(words, line, body)?;
    print_keyword(words, line, Keyword::Wend)
}

/// Adds a `With`.
#[cycle(statements)]
fn print_with(
    words: &mut List<Token>,
    line: u32,
    body: &List<Statement>,
    subject: &Expression,
) -> Result<(), Memory>
    ensures { Adds result words.old words.new (spec.kind_layer (layer.With subject.now
        (map statement_words body.now)) line) }
{
    print_tested(words, line, Keyword::With, subject)?;
    print_line_end(words, line)?;
    print_body(words, line, body)?;
    print_end(words, line, Keyword::With)
}
