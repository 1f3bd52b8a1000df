//! Statements and blocks.
ghost use Rattle.std.specs.Prelude.{◌≡◌, map};
ghost use Rattle.std.specs.Option.{option_map};
ghost use Rattle.vb_value.specs.Outcome.{Gives};
ghost use Rattle.vb_syntax.specs.scope.Trees as spec;
ghost use Rattle.vb_syntax.specs.declared.statement.StatementKind.TheOpen as layer;
ghost use Rattle.vb_names.specs.Declarations.{scopes_seen};

use crate::trees::expressions::{expression, expressions, path};
use crate::trees::heads::Place;
use crate::trees::holding::{
    do_loop, for_each_loop, for_loop, if_block, select, while_loop, with_block,
};
use crate::trees::simple::{assignment, call, erase, redim, set};
use vb_syntax::program::{
    Case as ResolvedCase, ElseIf as ResolvedElseIf, Statement as ResolvedStatement,
    StatementKind as Resolved,
};
use vb_syntax::{Case, ElseIf, Expression, PathUse, Statement, StatementKind as Kind};
use vb_value::{Copied, List, Memory};

/// A statement. It recurses once for each statement and each expression inside another.
#[cycle(blocks)]
pub fn statement(place: Place<'_>, found: &Statement) -> Result<ResolvedStatement, Memory>
    ensures { Gives result
        (spec.statement_of place.entry.names.now (scopes_seen place.entry.scopes) found.now) }
{
    Ok(ResolvedStatement {
        line: found.line,
        kind: kind(place, &found.kind)?,
    })
}

/// What a statement says.
#[cycle(blocks)]
fn kind(place: Place<'_>, found: &Kind) -> Result<Resolved, Memory>
    ensures { Gives result (spec.kind_of place.entry.names.now (scopes_seen place.entry.scopes) found.now) }
{
    match found {
        Kind::Const {
            access: _,
            constants: _,
        } => Ok(Resolved::Declaration),
        Kind::Dim { variables: _ } => Ok(Resolved::Dim),
        Kind::ReDim { preserve, arrays } => redim(place, *preserve, arrays),
        Kind::Set { target, value } => set(place, target, value),
        Kind::Assign { target, value } => assignment(place, target, value),
        Kind::Call { callee, arguments } => call(place, callee, arguments),
        Kind::CallPath { callee } => Ok(Resolved::Call {
            callee: path(place, callee, PathUse::Callee)?,
        }),
        Kind::If {
            condition,
            then,
            others,
            otherwise,
        } => if_on_lines(place, then, others, otherwise, condition),
        Kind::LineIf {
            condition,
            then,
            otherwise,
        } => if_on_line(place, then, otherwise, condition),
        Kind::Select {
            subject,
            cases,
            otherwise,
        } => select_block(place, cases, otherwise, subject),
        Kind::For {
            variable,
            from,
            to,
            step,
            body,
        } => for_loop(place, variable, from, to, step, block(place, body)?),
        Kind::ForEach {
            variable,
            group,
            body,
        } => for_each_loop(place, variable, group, block(place, body)?),
        Kind::Do { repetition, body } => do_loop(place, repetition, block(place, body)?),
        Kind::While { condition, body } => while_loop(place, condition, block(place, body)?),
        Kind::With { subject, body } => with_block(place, subject, block(place, body)?),
        Kind::Exit { kind } => Ok(Resolved::Exit { kind: *kind }),
        Kind::OnErrorResumeNext => Ok(Resolved::OnErrorResumeNext),
        Kind::OnErrorGoToZero => Ok(Resolved::OnErrorGoToZero),
        Kind::Erase { names } => erase(place, names),
        Kind::PageText { text } => Ok(Resolved::PageText { text: text.copy()? }),
        Kind::PageWrite { value } => Ok(Resolved::PageWrite {
            value: expression(place, value)?,
        }),
    }
}

/// An `If` on several lines.
#[cycle(blocks)]
fn if_on_lines(
    place: Place<'_>,
    then: &List<Statement>,
    others: &List<ElseIf>,
    last: &Option<List<Statement>>,
    condition: &Expression,
) -> Result<Resolved, Memory>
    ensures { let names = place.entry.names.now in let scopes = scopes_seen place.entry.scopes in
        Gives result (spec.kind_layer names scopes (layer.If condition.now
        (map (spec.statement_of names scopes) then.now) (map (spec.else_if_of names scopes) others.now)
        (option_map (map (spec.statement_of names scopes)) last.now))) }
{
    match (
        block(place, then),
        else_ifs(place, others),
        otherwise(place, last),
    ) {
        (Ok(then), Ok(others), Ok(otherwise)) => if_block(
            place, condition, then, others, otherwise,
        ),
        (then, others, otherwise) => {
            drop(then);
            drop(others);
            drop(otherwise);
            Err(Memory)
        }
    }
}

/// An `If` on one line.
#[cycle(blocks)]
fn if_on_line(
    place: Place<'_>,
    then: &List<Statement>,
    last: &Option<List<Statement>>,
    condition: &Expression,
) -> Result<Resolved, Memory>
    ensures { let names = place.entry.names.now in let scopes = scopes_seen place.entry.scopes in
        Gives result (spec.kind_layer names scopes (layer.LineIf condition.now
        (map (spec.statement_of names scopes) then.now)
        (option_map (map (spec.statement_of names scopes)) last.now))) }
{
    match (block(place, then), otherwise(place, last)) {
        (Ok(then), Ok(otherwise)) => {
            if_block(place, condition, then, List::new(place.alloc), otherwise)
        }
        (then, otherwise) => {
            drop(then);
            drop(otherwise);
            Err(Memory)
        }
    }
}

/// A `Select`.
#[cycle(blocks)]
fn select_block(
    place: Place<'_>,
    found: &List<Case>,
    last: &Option<List<Statement>>,
    subject: &Expression,
) -> Result<Resolved, Memory>
    ensures { let names = place.entry.names.now in let scopes = scopes_seen place.entry.scopes in
        Gives result (spec.kind_layer names scopes (layer.Select subject.now
        (map (spec.case_of names scopes) found.now)
        (option_map (map (spec.statement_of names scopes)) last.now))) }
{
    match (cases(place, found), otherwise(place, last)) {
        (Ok(cases), Ok(otherwise)) => select(place, subject, cases, otherwise),
        (cases, otherwise) => {
            drop(cases);
            drop(otherwise);
            Err(Memory)
        }
    }
}

/// The statements behind an `Else`, where there is one.
#[cycle(blocks)]
fn otherwise(
    place: Place<'_>,
    found: &Option<List<Statement>>,
) -> Result<Option<List<ResolvedStatement>>, Memory>
    ensures { Gives result
        (option_map (map (spec.statement_of place.entry.names.now (scopes_seen place.entry.scopes))) found.now) }
{
    match found {
        None => Ok(None),
        Some(body) => Ok(Some(block(place, body)?)),
    }
}

/// Statements.
#[cycle(blocks)]
pub fn block(place: Place<'_>, found: &List<Statement>) -> Result<List<ResolvedStatement>, Memory>
    ensures { Gives result
        (map (spec.statement_of place.entry.names.now (scopes_seen place.entry.scopes)) found.now) }
{
    let mut all = List::with_capacity(place.alloc, found.len())?;
    for one in found.as_slice() {
        all.push(statement(place, one)?)?;
    }
    Ok(all)
}

/// The `ElseIf` parts of an `If`.
#[cycle(blocks)]
fn else_ifs(place: Place<'_>, found: &List<ElseIf>) -> Result<List<ResolvedElseIf>, Memory>
    ensures { Gives result
        (map (spec.else_if_of place.entry.names.now (scopes_seen place.entry.scopes)) found.now) }
{
    let mut all = List::with_capacity(place.alloc, found.len())?;
    for one in found.as_slice() {
        let condition = expression(place, &one.condition)?;
        let then = block(place, &one.then)?;
        all.push(ResolvedElseIf {
            line: one.line,
            condition,
            then,
        })?;
    }
    Ok(all)
}

/// The `Case` parts of a `Select`.
#[cycle(blocks)]
fn cases(place: Place<'_>, found: &List<Case>) -> Result<List<ResolvedCase>, Memory>
    ensures { Gives result
        (map (spec.case_of place.entry.names.now (scopes_seen place.entry.scopes)) found.now) }
{
    let mut all = List::with_capacity(place.alloc, found.len())?;
    for one in found.as_slice() {
        let values = expressions(place, one.values.as_slice())?;
        let body = block(place, &one.body)?;
        all.push(ResolvedCase {
            line: one.line,
            values,
            body,
        })?;
    }
    Ok(all)
}
