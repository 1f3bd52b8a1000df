//! The nodes of a program that places name.
ghost use Rattle.std.specs.Prelude.{◌≡◌, ◌≢◌, ◌↔◌, ◌<◌, ◌+◌, ◌^◌, IsTrue, None, slice_get, length};
ghost use Rattle.std.specs.Option.{option_map};
ghost use Rattle.vb_frames.specs.Places as spec;
ghost use Rattle.vb_frames.specs.Places.{seen, part};

use crate::place::Place;
use vb_meaning::bare;
use vb_syntax::program::{
    Expression, Operation, Procedure, Program, Repetition, Statement, StatementKind, Step,
};
use vb_value::{List, Op2};

/// A node of a program.
#[derive(Clone, Copy)]
pub enum Node<'a> {
    /// The program.
    Root,
    /// A procedure.
    Procedure(&'a Procedure),
    /// Statements one after the other.
    Block(&'a List<Statement>),
    /// A statement.
    Statement(&'a Statement),
    /// An expression.
    Expression(&'a Expression),
    /// Expressions of a list.
    Items(&'a List<Expression>),
    /// There is no such part.
    Nowhere,
}

// The statements of a loop; none of another statement.
fn loop_body<'a>(p: &'a Program, statement: &'a Statement) -> Node<'a>
    ensures { seen result ≡ spec.body_at p.now (spec.OfStatement statement.now) }
{
    match &statement.kind {
        StatementKind::Do { body, .. } | StatementKind::While { body, .. } => Node::Block(body),
        _ => Node::Nowhere,
    }
}

// The page's statements, or those of a node.
fn body<'a>(p: &'a Program, node: Node<'a>) -> Node<'a>
    ensures { seen result ≡ spec.body_at p.now (seen node.entry) }
{
    match node {
        Node::Root => Node::Block(&p.unit.body),
        Node::Procedure(procedure) => Node::Block(&procedure.body),
        Node::Statement(statement) => loop_body(p, statement),
        _ => Node::Nowhere,
    }
}

fn procedure<'a>(p: &'a Program, number: u32) -> Node<'a>
    ensures { seen result ≡ spec.a_procedure (slice_get p.now.unit.procedures number) }
{
    match p.unit.procedures.get(number as usize) {
        Some(found) => Node::Procedure(found),
        None => Node::Nowhere,
    }
}

fn statement<'a>(node: Node<'a>, number: usize) -> Node<'a>
    ensures { seen result ≡ spec.a_statement (slice_get (spec.block_of (seen node.entry)) number) }
{
    match node {
        Node::Block(block) => match block.get(number) {
            Some(found) => Node::Statement(found),
            None => Node::Nowhere,
        },
        _ => Node::Nowhere,
    }
}

fn test<'a>(repetition: &'a Repetition) -> Node<'a>
    ensures { seen result ≡ spec.test_in repetition.now }
{
    match repetition {
        Repetition::Endless => Node::Nowhere,
        Repetition::Before(asked) => Node::Expression(&asked.test),
        Repetition::After { condition, .. } => Node::Expression(&condition.test),
    }
}

fn value<'a>(node: Node<'a>) -> Node<'a>
    ensures { seen result ≡ spec.value_of (seen node.entry) }
{
    match node {
        Node::Statement(statement) => match &statement.kind {
            StatementKind::Set { value, .. } => Node::Expression(value),
            StatementKind::Assign { value, .. } => Node::Expression(value),
            StatementKind::Do { repetition, .. } => test(repetition),
            StatementKind::While { condition, .. } => Node::Expression(condition),
            _ => Node::Nowhere,
        },
        _ => Node::Nowhere,
    }
}

fn operand<'a>(node: Node<'a>) -> Node<'a>
    ensures { seen result ≡ spec.operand_of (seen node.entry) }
{
    match node {
        Node::Expression(expression) => match bare(expression) {
            Expression::Parenthesis(inside) => Node::Expression(inside.get()),
            Expression::Negative(operand) => Node::Expression(operand.get()),
            Expression::Not(operand) => Node::Expression(operand.get()),
            Expression::Chain { first, .. } => Node::Expression(first.get()),
            _ => Node::Nowhere,
        },
        _ => Node::Nowhere,
    }
}

// The operations of a chain.
fn operations<'a>(node: Node<'a>) -> &'a [Operation]
    ensures { result.now ≡ spec.operations_of (seen node.entry) }
{
    match node {
        Node::Expression(expression) => match bare(expression) {
            Expression::Chain { rest, .. } => rest.as_slice(),
            _ => &[],
        },
        _ => &[],
    }
}

fn right<'a>(node: Node<'a>, number: usize) -> Node<'a>
    ensures { seen result ≡ spec.an_operand (slice_get (spec.operations_of (seen node.entry)) number) }
{
    match operations(node).get(number) {
        Some(operation) => Node::Expression(&operation.operand),
        None => Node::Nowhere,
    }
}

// The steps of a path.
fn steps<'a>(node: Node<'a>) -> &'a [Step]
    ensures { result.now ≡ spec.steps_of (seen node.entry) }
{
    match node {
        Node::Expression(expression) => match bare(expression) {
            Expression::Path(path) => path.steps.as_slice(),
            _ => &[],
        },
        _ => &[],
    }
}

fn group<'a>(node: Node<'a>, number: usize) -> Node<'a>
    ensures { seen result ≡ spec.a_group (slice_get (spec.steps_of (seen node.entry)) number) }
{
    match steps(node).get(number) {
        Some(Step::Group(arguments)) => Node::Items(arguments),
        _ => Node::Nowhere,
    }
}

fn item<'a>(node: Node<'a>, number: usize) -> Node<'a>
    ensures { seen result ≡ spec.an_expression (slice_get (spec.items_of (seen node.entry)) number) }
{
    match node {
        Node::Items(items) => match items.get(number) {
            Some(found) => Node::Expression(found),
            None => Node::Nowhere,
        },
        _ => Node::Nowhere,
    }
}

/// The part of a node that a place names.
pub fn part_of<'a>(p: &'a Program, place: Place, node: Node<'a>) -> Node<'a>
    ensures { seen result ≡ part p.now place (seen node.entry) }
{
    match place {
        Place::Here => node,
        Place::Body => body(p, node),
        Place::Procedure(number) => procedure(p, number),
        Place::Statement(number) => statement(node, number),
        Place::Value => value(node),
        Place::Operand => operand(node),
        Place::Right(number) => right(node, number),
        Place::Group(number) => group(node, number),
        Place::Item(number) => item(node, number),
    }
}

/// Whether a block has a statement with this number.
pub fn has_statement(node: Node<'_>, number: usize) -> bool
    ensures within { IsTrue result ↔ number < length (spec.block_of (seen node.entry)) }
    ensures room { IsTrue result → number + 1 < 2 ^ 64 }
{
    match node {
        Node::Block(block) => number < block.len(),
        _ => false,
    }
}

/// Whether a list has an expression with this number.
pub fn has_item(node: Node<'_>, number: usize) -> bool
    ensures within { IsTrue result ↔ number < length (spec.items_of (seen node.entry)) }
    ensures room { IsTrue result → number + 1 < 2 ^ 64 }
{
    match node {
        Node::Items(items) => number < items.len(),
        _ => false,
    }
}

/// The operator of the operation with this number in a chain.
pub fn operator_at(node: Node<'_>, number: usize) -> Option<Op2>
    ensures operator { result ≡ option_map spec.operator (slice_get (spec.operations_of (seen node.entry)) number) }
    ensures room { result ≢ None → number + 1 < 2 ^ 64 }
{
    match operations(node).get(number) {
        Some(operation) => Some(operation.operator),
        None => None,
    }
}
