//! What statements and blocks say of names.
ghost use Rattle.std.specs.Prelude.{◌≡◌, ◌++◌, map};
ghost use Rattle.std.specs.Option.{option_map};
ghost use Rattle.vb_syntax.specs.scope.Notes as spec;
ghost use Rattle.vb_syntax.specs.scope.Notes.{expression_notes, statement_notes};
ghost use Rattle.vb_syntax.specs.declared.statement.StatementKind.TheOpen as layer;
ghost use Rattle.vb_value.specs.Outcome.{Adds};

use crate::notes::expressions::{note_expression, note_expressions, note_path};
use crate::notes::simple::{
    note_after, note_arrays, note_assignment, note_before, note_call, note_constants, note_exit,
    note_group, note_optional, note_variables, note_writes,
};
use crate::notes::words::{Notes, note_write};
use vb_syntax::{
    Around, Case, ElseIf, Expression, PathUse, Repetition, Statement, StatementKind as Kind,
};
use vb_value::{List, Memory, Text};

/// Adds a statement. It recurses once for each statement and each expression inside another.
#[cycle(statements)]
pub fn note_statement(
    notes: &mut Notes,
    around: Around,
    statement: &Statement,
) -> Result<(), Memory>
    ensures { Adds result notes.old notes.new (statement_notes statement.now around) }
{
    note_kind(notes, statement.line, around, &statement.kind)
}

/// Adds what a statement says.
#[cycle(statements)]
fn note_kind(notes: &mut Notes, line: u32, around: Around, kind: &Kind) -> Result<(), Memory>
    ensures { Adds result notes.old notes.new (spec.kind_notes kind.now line around) }
{
    match kind {
        Kind::Const {
            access: _,
            constants,
        } => note_constants(notes, line, constants.as_slice()),
        Kind::Dim { variables } => note_variables(notes, line, variables.as_slice()),
        Kind::ReDim {
            preserve: _,
            arrays,
        } => note_arrays(notes, line, around, arrays.as_slice()),
        Kind::Set { target, value } => note_assignment(notes, line, around, target, value),
        Kind::Assign { target, value } => note_assignment(notes, line, around, target, value),
        Kind::Call { callee, arguments } => note_call(notes, line, around, callee, arguments),
        Kind::CallPath { callee } => note_path(notes, line, around, callee, PathUse::Callee),
        Kind::If {
            condition,
            then,
            others,
            otherwise,
        } => note_if(notes, line, around, then, others, otherwise, condition),
        Kind::LineIf {
            condition,
            then,
            otherwise,
        } => note_line_if(notes, line, around, then, otherwise, condition),
        Kind::Select {
            subject,
            cases,
            otherwise,
        } => note_select(notes, line, around, cases, otherwise, subject),
        Kind::For {
            variable,
            from,
            to,
            step,
            body,
        } => { note_for(notes, line, around, body, variable, from, to, step) }
        Kind::ForEach {
            variable,
            group,
            body,
        } => { note_for_each(notes, line, around, body, variable, group) }
        Kind::Do { repetition, body } => note_do(notes, line, around, body, repetition),
        Kind::While { condition, body } => note_tested(notes, line, around, body, condition),
        Kind::With { subject, body } => note_with(notes, line, around, body, subject),
        Kind::Exit { kind } => note_exit(notes, line, around, *kind),
        Kind::OnErrorResumeNext => Ok(()),
        Kind::OnErrorGoToZero => Ok(()),
        Kind::Erase { names } => note_writes(notes, line, names.as_slice()),
        Kind::PageText { text: _ } => Ok(()),
        Kind::PageWrite { value } => note_expression(notes, line, around, value),
    }
}

/// Adds statements.
#[cycle(statements)]
pub fn note_block(notes: &mut Notes, around: Around, body: &List<Statement>) -> Result<(), Memory>
    ensures { Adds result notes.old notes.new (spec.body_notes around body.now) }
{
    for statement in body.as_slice() {
        note_statement(notes, around, statement)?;
    }
    Ok(())
}

/// Adds an `If` on several lines.
#[cycle(statements)]
fn note_if(
    notes: &mut Notes,
    line: u32,
    around: Around,
    then: &List<Statement>,
    others: &List<ElseIf>,
    otherwise: &Option<List<Statement>>,
    condition: &Expression,
) -> Result<(), Memory>
    ensures { Adds result notes.old notes.new (spec.kind_layer (layer.If condition.now (map statement_notes then.now)
        (map spec.else_if_notes others.now) (option_map (map statement_notes) otherwise.now)) line around) }
{
    note_tested(notes, line, around, then, condition)?;
    note_else_ifs(notes, around, others)?;
    note_otherwise(notes, around, otherwise)
}

/// Adds an `If` on one line.
#[cycle(statements)]
fn note_line_if(
    notes: &mut Notes,
    line: u32,
    around: Around,
    then: &List<Statement>,
    otherwise: &Option<List<Statement>>,
    condition: &Expression,
) -> Result<(), Memory>
    ensures { Adds result notes.old notes.new (spec.kind_layer (layer.LineIf condition.now
        (map statement_notes then.now) (option_map (map statement_notes) otherwise.now)) line around) }
{
    note_tested(notes, line, around, then, condition)?;
    note_otherwise(notes, around, otherwise)
}

/// Adds a `Select`.
#[cycle(statements)]
fn note_select(
    notes: &mut Notes,
    line: u32,
    around: Around,
    cases: &List<Case>,
    otherwise: &Option<List<Statement>>,
    subject: &Expression,
) -> Result<(), Memory>
    ensures { Adds result notes.old notes.new (spec.kind_layer (layer.Select subject.now
        (map spec.case_notes cases.now) (option_map (map statement_notes) otherwise.now)) line around) }
{
    note_cases(notes, line, around, cases, subject)?;
    note_otherwise(notes, around, otherwise)
}

/// Adds the statements behind an `Else`, where there is one.
#[cycle(statements)]
fn note_otherwise(
    notes: &mut Notes,
    around: Around,
    otherwise: &Option<List<Statement>>,
) -> Result<(), Memory>
    ensures { Adds result notes.old notes.new
        (spec.optional_block around (option_map (map statement_notes) otherwise.now)) }
{
    match otherwise {
        Some(body) => note_block(notes, around, body),
        None => Ok(()),
    }
}

/// Adds a condition and the statements behind it.
#[cycle(statements)]
fn note_tested(
    notes: &mut Notes,
    line: u32,
    around: Around,
    body: &List<Statement>,
    condition: &Expression,
) -> Result<(), Memory>
    ensures { Adds result notes.old notes.new
        (expression_notes line around condition.now ++ spec.body_notes around body.now) }
{
    note_expression(notes, line, around, condition)?;
    note_block(notes, around, body)
}

/// Adds the `ElseIf` parts of an `If`.
#[cycle(statements)]
fn note_else_ifs(notes: &mut Notes, around: Around, others: &List<ElseIf>) -> Result<(), Memory>
    ensures { Adds result notes.old notes.new
        (spec.block_notes around (map spec.else_if_notes others.now)) }
{
    for other in others.as_slice() {
        note_else_if(notes, around, other)?;
    }
    Ok(())
}

/// Adds an `ElseIf` part.
#[cycle(statements)]
fn note_else_if(notes: &mut Notes, around: Around, other: &ElseIf) -> Result<(), Memory>
    ensures { Adds result notes.old notes.new (spec.else_if_notes other.now around) }
{
    note_expression(notes, other.line, around, &other.condition)?;
    note_block(notes, around, &other.then)
}

/// Adds a `Select` as far as its last `Case` with values.
#[cycle(statements)]
fn note_cases(
    notes: &mut Notes,
    line: u32,
    around: Around,
    cases: &List<Case>,
    subject: &Expression,
) -> Result<(), Memory>
    ensures { Adds result notes.old notes.new
        (expression_notes line around subject.now ++ spec.block_notes around (map spec.case_notes cases.now)) }
{
    note_expression(notes, line, around, subject)?;
    for case in cases.as_slice() {
        note_case(notes, around, case)?;
    }
    Ok(())
}

/// Adds a `Case` part.
#[cycle(statements)]
fn note_case(notes: &mut Notes, around: Around, case: &Case) -> Result<(), Memory>
    ensures { Adds result notes.old notes.new (spec.case_notes case.now around) }
{
    note_expressions(notes, case.line, around, case.values.as_slice())?;
    note_block(notes, around, &case.body)
}

/// Adds a `For` that counts.
#[cycle(statements)]
fn note_for(
    notes: &mut Notes,
    line: u32,
    around: Around,
    body: &List<Statement>,
    variable: &Text,
    from: &Expression,
    to: &Expression,
    by: &Option<Expression>,
) -> Result<(), Memory>
    ensures { Adds result notes.old notes.new (spec.kind_layer (layer.For variable.now from.now to.now by.now
        (map statement_notes body.now)) line around) }
{
    note_write(notes, line, variable)?;
    note_expression(notes, line, around, from)?;
    note_expression(notes, line, around, to)?;
    note_optional(notes, line, around, by)?;
    let mut inside = around;
    inside.in_for = true;
    note_block(notes, inside, body)
}

/// Adds a `For Each`.
#[cycle(statements)]
fn note_for_each(
    notes: &mut Notes,
    line: u32,
    around: Around,
    body: &List<Statement>,
    variable: &Text,
    group: &Expression,
) -> Result<(), Memory>
    ensures { Adds result notes.old notes.new (spec.kind_layer (layer.ForEach variable.now group.now
        (map statement_notes body.now)) line around) }
{
    note_write(notes, line, variable)?;
    note_group(notes, line, around, group)?;
    let mut inside = around;
    inside.in_for = true;
    note_block(notes, inside, body)
}

/// Adds a `Do`.
#[cycle(statements)]
fn note_do(
    notes: &mut Notes,
    line: u32,
    around: Around,
    body: &List<Statement>,
    repetition: &Repetition,
) -> Result<(), Memory>
    ensures { Adds result notes.old notes.new (spec.kind_layer (layer.Do repetition.now
        (map statement_notes body.now)) line around) }
{
    note_before(notes, line, around, repetition)?;
    let mut inside = around;
    inside.in_do = true;
    note_block(notes, inside, body)?;
    note_after(notes, around, repetition)
}

/// Adds a `With`.
#[cycle(statements)]
fn note_with(
    notes: &mut Notes,
    line: u32,
    around: Around,
    body: &List<Statement>,
    subject: &Expression,
) -> Result<(), Memory>
    ensures { Adds result notes.old notes.new (spec.kind_layer (layer.With subject.now
        (map statement_notes body.now)) line around) }
{
    note_expression(notes, line, around, subject)?;
    let mut inside = around;
    inside.in_with = true;
    note_block(notes, inside, body)
}
