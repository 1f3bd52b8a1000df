//! Expressions as text. A chain is `(first operator operand ..)`, a parenthesis of its own `[x]`, and `f(a b)` is
//! a path with a group. Words that stand for values have a `#` before them, and a Long has an `&` behind it.

use case_files::Answer;
use vb_syntax::{Expression, Literal, Operation, Path, PathHead, Step};
use vb_value::Op2;

/// Adds a line, unless it is the first.
pub fn write_line(out: &mut Answer, line: u32) {
    if line != 1 {
        out.put("@");
        out.show(&line);
    }
}

/// Adds the beginning of what stands in a line.
pub fn write_open(out: &mut Answer, word: &str, line: u32) {
    out.put("(");
    out.put(word);
    write_line(out, line);
}

fn operator_word(operator: Op2) -> &'static str {
    match operator {
        Op2::Multiply => " * ",
        Op2::Divide => " \\ ",
        Op2::Modulo => " Mod ",
        Op2::Add => " + ",
        Op2::Subtract => " - ",
        Op2::Join => " & ",
        Op2::Equal => " = ",
        Op2::Unequal => " <> ",
        Op2::Less => " < ",
        Op2::Greater => " > ",
        Op2::AtMost => " <= ",
        Op2::AtLeast => " >= ",
        Op2::Is => " Is ",
        Op2::And => " And ",
        Op2::Or => " Or ",
        Op2::Xor => " Xor ",
        Op2::Eqv => " Eqv ",
        Op2::Imp => " Imp ",
    }
}

/// Adds a literal.
pub fn write_literal(out: &mut Answer, value: &Literal) {
    match value {
        Literal::Empty => out.put("#Empty"),
        Literal::Null => out.put("#Null"),
        Literal::Boolean(true) => out.put("#True"),
        Literal::Boolean(false) => out.put("#False"),
        Literal::Integer(number) => out.show(number),
        Literal::Long(number) => {
            out.show(number);
            out.put("&")
        }
        Literal::Text(text) => {
            out.put("\"");
            out.text(text.as_slice());
            out.put("\"")
        }
    }
}

/// Adds the tree of an expression.
#[cycle(expressions)]
pub fn write_expression(out: &mut Answer, tree: &Expression) {
    match tree {
        Expression::Literal(value) => write_literal(out, value),
        Expression::Nothing => out.put("#Nothing"),
        Expression::New { class } => {
            out.put("(New ");
            out.text(class.as_slice());
            out.put(")")
        }
        Expression::Path(path) => write_path(out, path),
        Expression::Parenthesis(inner) => {
            out.put("[");
            write_expression(out, inner.get());
            out.put("]")
        }
        Expression::Negative(operand) => {
            out.put("(- ");
            write_expression(out, operand.get());
            out.put(")")
        }
        Expression::Not(operand) => {
            out.put("(Not ");
            write_expression(out, operand.get());
            out.put(")")
        }
        Expression::Chain { first, rest } => {
            out.put("(");
            write_expression(out, first.get());
            write_operations(out, rest.as_slice());
            out.put(")")
        }
    }
}

#[cycle(expressions)]
fn write_operations(out: &mut Answer, operations: &[Operation]) {
    for operation in operations {
        out.put(operator_word(operation.operator));
        write_expression(out, &operation.operand);
    }
}

/// Adds a path.
#[cycle(expressions)]
pub fn write_path(out: &mut Answer, path: &Path) {
    match &path.head {
        PathHead::Name(text) => out.text(text.as_slice()),
        PathHead::Me => out.put("#Me"),
        PathHead::With(text) => {
            out.put(".");
            out.text(text.as_slice());
        }
    }
    for step in path.steps.as_slice() {
        write_step(out, step);
    }
}

#[cycle(expressions)]
fn write_step(out: &mut Answer, step: &Step) {
    match step {
        Step::Member(text) => {
            out.put(".");
            out.text(text.as_slice())
        }
        Step::Group(arguments) => {
            out.put("(");
            write_expressions(out, arguments.as_slice());
            out.put(")")
        }
    }
}

/// Adds the trees of expressions, with blanks between them.
#[cycle(expressions)]
pub fn write_expressions(out: &mut Answer, trees: &[Expression]) {
    let [first, more @ ..] = trees else {
        return;
    };
    write_expression(out, first);
    for tree in more {
        out.put(" ");
        write_expression(out, tree);
    }
}
