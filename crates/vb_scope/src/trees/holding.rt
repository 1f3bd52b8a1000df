//! The statements that hold others, by those that they hold.
ghost use Rattle.std.specs.Prelude.{◌≡◌};
ghost use Rattle.vb_value.specs.Outcome.{Gives};
ghost use Rattle.vb_syntax.specs.scope.Trees as spec;
ghost use Rattle.vb_syntax.specs.declared.statement.StatementKind.TheOpen as layer;
ghost use Rattle.vb_names.specs.Declarations.{scopes_seen};

use crate::trees::expressions::expression;
use crate::trees::heads::Place;
use crate::trees::simple::{group, optional, repetition, target};
use vb_syntax::program::{
    Case, ElseIf, Expression as Value, Named, Statement, StatementKind as Resolved,
};
use vb_syntax::{Expression, Repetition};
use vb_value::{List, Memory, Text};

/// An `If`.
pub fn if_block(
    place: Place<'_>,
    condition: &Expression,
    then: List<Statement>,
    others: List<ElseIf>,
    otherwise: Option<List<Statement>>,
) -> Result<Resolved, Memory>
    ensures { Gives result (spec.kind_layer place.entry.names.now (scopes_seen place.entry.scopes)
        (layer.If condition.now then others otherwise)) }
{
    match expression(place, condition) {
        Ok(condition) => Ok(Resolved::If {
            condition,
            then,
            others,
            otherwise,
        }),
        Err(memory) => {
            drop(then);
            drop(others);
            drop(otherwise);
            Err(memory)
        }
    }
}

/// A `Select`.
pub fn select(
    place: Place<'_>,
    subject: &Expression,
    cases: List<Case>,
    otherwise: Option<List<Statement>>,
) -> Result<Resolved, Memory>
    ensures { Gives result (spec.kind_layer place.entry.names.now (scopes_seen place.entry.scopes)
        (layer.Select subject.now cases otherwise)) }
{
    match expression(place, subject) {
        Ok(subject) => Ok(Resolved::Select {
            subject,
            cases,
            otherwise,
        }),
        Err(memory) => {
            drop(cases);
            drop(otherwise);
            Err(memory)
        }
    }
}

/// What a `For` counts, and by how much.
fn counter(
    place: Place<'_>,
    variable: &Text,
    step: &Option<Expression>,
) -> Result<(Named, Option<Value>), Memory>
    ensures { let names = place.entry.names.now in let scopes = scopes_seen place.entry.scopes in
        Gives result (spec.target_of names scopes variable.now, spec.optional_of names scopes step.now) }
{
    match (target(place, variable), optional(place, step)) {
        (Ok(variable), Ok(step)) => Ok((variable, step)),
        (variable, step) => {
            drop(variable);
            drop(step);
            Err(Memory)
        }
    }
}

/// From where to where a `For` counts.
fn bounds(place: Place<'_>, from: &Expression, to: &Expression) -> Result<(Value, Value), Memory>
    ensures { let names = place.entry.names.now in let scopes = scopes_seen place.entry.scopes in
        Gives result (spec.expression_of names scopes from.now, spec.expression_of names scopes to.now) }
{
    match (expression(place, from), expression(place, to)) {
        (Ok(from), Ok(to)) => Ok((from, to)),
        (from, to) => {
            drop(from);
            drop(to);
            Err(Memory)
        }
    }
}

/// A `For` that counts.
pub fn for_loop(
    place: Place<'_>,
    variable: &Text,
    from: &Expression,
    to: &Expression,
    step: &Option<Expression>,
    body: List<Statement>,
) -> Result<Resolved, Memory>
    ensures { Gives result (spec.kind_layer place.entry.names.now (scopes_seen place.entry.scopes)
        (layer.For variable.now from.now to.now step.now body)) }
{
    match (counter(place, variable, step), bounds(place, from, to)) {
        (Ok((variable, step)), Ok((from, to))) => Ok(Resolved::For {
            variable,
            from,
            to,
            step,
            body,
        }),
        (counter, bounds) => {
            drop(counter);
            drop(bounds);
            drop(body);
            Err(Memory)
        }
    }
}

/// A `For Each`.
pub fn for_each_loop(
    place: Place<'_>,
    variable: &Text,
    found: &Expression,
    body: List<Statement>,
) -> Result<Resolved, Memory>
    ensures { Gives result (spec.kind_layer place.entry.names.now (scopes_seen place.entry.scopes)
        (layer.ForEach variable.now found.now body)) }
{
    match (target(place, variable), group(place, found)) {
        (Ok(variable), Ok(group)) => Ok(Resolved::ForEach {
            variable,
            group,
            body,
        }),
        (variable, group) => {
            drop(variable);
            drop(group);
            drop(body);
            Err(Memory)
        }
    }
}

/// A `Do`.
pub fn do_loop(
    place: Place<'_>,
    found: &Repetition,
    body: List<Statement>,
) -> Result<Resolved, Memory>
    ensures { Gives result (spec.kind_layer place.entry.names.now (scopes_seen place.entry.scopes)
        (layer.Do found.now body)) }
{
    match repetition(place, found) {
        Ok(repetition) => Ok(Resolved::Do { repetition, body }),
        Err(memory) => {
            drop(body);
            Err(memory)
        }
    }
}

/// A `While`.
pub fn while_loop(
    place: Place<'_>,
    condition: &Expression,
    body: List<Statement>,
) -> Result<Resolved, Memory>
    ensures { Gives result (spec.kind_layer place.entry.names.now (scopes_seen place.entry.scopes)
        (layer.While condition.now body)) }
{
    match expression(place, condition) {
        Ok(condition) => Ok(Resolved::While { condition, body }),
        Err(memory) => {
            drop(body);
            Err(memory)
        }
    }
}

/// A `With`.
pub fn with_block(
    place: Place<'_>,
    subject: &Expression,
    body: List<Statement>,
) -> Result<Resolved, Memory>
    ensures { Gives result (spec.kind_layer place.entry.names.now (scopes_seen place.entry.scopes)
        (layer.With subject.now body)) }
{
    match expression(place, subject) {
        Ok(subject) => Ok(Resolved::With { subject, body }),
        Err(memory) => {
            drop(body);
            Err(memory)
        }
    }
}
