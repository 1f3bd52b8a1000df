//! Statements as text: `(form parts)`, with `@` and the line behind the form where it is not the first, and a
//! block as `{ statements }`.

use crate::expressions::{
    write_expression, write_expressions, write_line, write_literal, write_open, write_path,
};
use case_files::Answer;
use vb_syntax::{
    Access, Case, Condition, Constant, ConstantValue, Declared, ElseIf, ExitKind, Expression, Path,
    Repetition, Resized, Statement, StatementKind,
};

/// The word before a declaration, with a blank before it.
pub fn write_access(out: &mut Answer, access: Option<Access>) {
    match access {
        None => (),
        Some(Access::Public) => out.put(" Public"),
        Some(Access::Private) => out.put(" Private"),
    }
}

/// `name`, `name()` or `name(2 3)` for each variable, with a blank before it.
pub fn write_variables(out: &mut Answer, variables: &[Declared]) {
    for variable in variables {
        out.put(" ");
        out.text(variable.name.as_slice());
        if let Some(bounds) = &variable.bounds {
            out.put("(");
            for (i, bound) in bounds.as_slice().iter().enumerate() {
                if 0 < i {
                    out.put(" ");
                }
                out.show(bound);
            }
            out.put(")");
        }
    }
}

fn write_constant(out: &mut Answer, constant: &Constant) {
    out.put(" (");
    out.text(constant.name.as_slice());
    out.put(" ");
    match &constant.value {
        ConstantValue::Literal(value) => write_literal(out, value),
        ConstantValue::NegativeInteger(number) => {
            out.put("(- ");
            out.show(number);
            out.put(")");
        }
        ConstantValue::NegativeLong(number) => {
            out.put("(- ");
            out.show(number);
            out.put("&)");
        }
    }
    out.put(")")
}

fn write_arrays(out: &mut Answer, arrays: &[Resized]) {
    for array in arrays {
        out.put(" ");
        out.text(array.name.as_slice());
        out.put("(");
        write_expressions(out, array.bounds.as_slice());
        out.put(")");
    }
}

/// An expression, with a blank before it.
fn write_part(out: &mut Answer, tree: &Expression) {
    out.put(" ");
    write_expression(out, tree)
}

fn write_target(out: &mut Answer, target: &Path, value: &Expression) {
    out.put(" ");
    write_path(out, target);
    write_part(out, value)
}

/// What stands in a statement that declares something.
fn write_declaration(out: &mut Answer, line: u32, kind: &StatementKind) {
    match kind {
        StatementKind::Const { access, constants } => {
            write_open(out, "const", line);
            write_access(out, *access);
            for constant in constants.as_slice() {
                write_constant(out, constant);
            }
        }
        StatementKind::Dim { variables } => {
            write_open(out, "dim", line);
            write_variables(out, variables.as_slice())
        }
        StatementKind::ReDim { preserve, arrays } => {
            let word = if *preserve { "redim-preserve" } else { "redim" };
            write_open(out, word, line);
            write_arrays(out, arrays.as_slice())
        }
        StatementKind::Erase { names } => {
            write_open(out, "erase", line);
            for name in names.as_slice() {
                out.put(" ");
                out.text(name.as_slice());
            }
        }
        _ => write_open(out, "?", line),
    }
}

fn exit_word(kind: ExitKind) -> &'static str {
    match kind {
        ExitKind::Do => "exit-do",
        ExitKind::For => "exit-for",
        ExitKind::Sub => "exit-sub",
        ExitKind::Function => "exit-function",
        ExitKind::Property => "exit-property",
    }
}

/// What stands in a text or a write of the page.
fn write_page(out: &mut Answer, line: u32, kind: &StatementKind) {
    match kind {
        StatementKind::PageText { text } => {
            write_open(out, "text", line);
            out.put(" \"");
            out.text(text.as_slice());
            out.put("\"")
        }
        StatementKind::PageWrite { value } => {
            write_open(out, "write", line);
            write_part(out, value)
        }
        _ => write_declaration(out, line, kind),
    }
}

/// What stands in another statement that holds no other.
fn write_simple(out: &mut Answer, line: u32, kind: &StatementKind) {
    match kind {
        StatementKind::Set { target, value } => {
            write_open(out, "set", line);
            write_target(out, target, value)
        }
        StatementKind::Assign { target, value } => {
            write_open(out, "assign", line);
            write_target(out, target, value)
        }
        StatementKind::Call { callee, arguments } => {
            write_open(out, "call", line);
            out.put(" ");
            write_path(out, callee);
            if !arguments.is_empty() {
                out.put(" ");
            }
            write_expressions(out, arguments.as_slice())
        }
        StatementKind::CallPath { callee } => {
            write_open(out, "call-path", line);
            out.put(" ");
            write_path(out, callee)
        }
        StatementKind::Exit { kind } => write_open(out, exit_word(*kind), line),
        StatementKind::OnErrorResumeNext => write_open(out, "resume-next", line),
        StatementKind::OnErrorGoToZero => write_open(out, "goto-0", line),
        _ => write_page(out, line, kind),
    }
}

/// `While x` or `Until x`, with a blank before it.
fn write_condition(out: &mut Answer, condition: &Condition) {
    out.put(if condition.is_until {
        " Until"
    } else {
        " While"
    });
    write_part(out, &condition.test)
}

/// Adds a block in braces, with a blank before it.
#[cycle(statements)]
pub fn write_block(out: &mut Answer, block: &[Statement]) {
    out.put(" {");
    for statement in block {
        out.put(" ");
        write_statement(out, statement);
    }
    out.put(" }")
}

#[cycle(statements)]
fn write_other_ifs(out: &mut Answer, others: &[ElseIf]) {
    for other in others {
        out.put(" ElseIf");
        write_line(out, other.line);
        write_part(out, &other.condition);
        write_block(out, other.then.as_slice());
    }
}

#[cycle(statements)]
fn write_cases(out: &mut Answer, cases: &[Case]) {
    for case in cases {
        out.put(" Case");
        write_line(out, case.line);
        out.put(" ");
        write_expressions(out, case.values.as_slice());
        write_block(out, case.body.as_slice());
    }
}

#[cycle(statements)]
fn write_do(out: &mut Answer, repetition: &Repetition, body: &[Statement]) {
    match repetition {
        Repetition::Endless => write_block(out, body),
        Repetition::Before(condition) => {
            write_condition(out, condition);
            write_block(out, body)
        }
        Repetition::After { line, condition } => {
            write_block(out, body);
            out.put(" Loop");
            write_line(out, *line);
            write_condition(out, condition)
        }
    }
}

/// What stands in an If.
#[cycle(statements)]
fn write_if(out: &mut Answer, line: u32, kind: &StatementKind) {
    let last = match kind {
        StatementKind::If {
            condition,
            then,
            others,
            otherwise,
        } => {
            write_open(out, "if", line);
            write_part(out, condition);
            write_block(out, then.as_slice());
            write_other_ifs(out, others.as_slice());
            otherwise
        }
        StatementKind::LineIf {
            condition,
            then,
            otherwise,
        } => {
            write_open(out, "if-line", line);
            write_part(out, condition);
            write_block(out, then.as_slice());
            otherwise
        }
        _ => return write_simple(out, line, kind),
    };
    if let Some(block) = last {
        out.put(" Else");
        write_block(out, block.as_slice());
    }
}

/// What stands in a For.
#[cycle(statements)]
fn write_for(out: &mut Answer, line: u32, kind: &StatementKind) {
    match kind {
        StatementKind::For {
            variable,
            from,
            to,
            step,
            body,
        } => {
            write_open(out, "for", line);
            out.put(" ");
            out.text(variable.as_slice());
            write_part(out, from);
            write_part(out, to);
            if let Some(step) = step {
                out.put(" Step");
                write_part(out, step);
            }
            write_block(out, body.as_slice())
        }
        StatementKind::ForEach {
            variable,
            group,
            body,
        } => {
            write_open(out, "for-each", line);
            out.put(" ");
            out.text(variable.as_slice());
            write_part(out, group);
            write_block(out, body.as_slice())
        }
        _ => write_if(out, line, kind),
    }
}

/// What stands in another statement that holds others.
#[cycle(statements)]
fn write_compound(out: &mut Answer, line: u32, kind: &StatementKind) {
    match kind {
        StatementKind::Select {
            subject,
            cases,
            otherwise,
        } => {
            write_open(out, "select", line);
            write_part(out, subject);
            write_cases(out, cases.as_slice());
            if let Some(block) = otherwise {
                out.put(" Else");
                write_block(out, block.as_slice());
            }
        }
        StatementKind::Do { repetition, body } => {
            write_open(out, "do", line);
            write_do(out, repetition, body.as_slice())
        }
        StatementKind::While { condition, body } => {
            write_open(out, "while", line);
            write_part(out, condition);
            write_block(out, body.as_slice())
        }
        StatementKind::With { subject, body } => {
            write_open(out, "with", line);
            write_part(out, subject);
            write_block(out, body.as_slice())
        }
        _ => write_for(out, line, kind),
    }
}

/// Adds the tree of a statement.
#[cycle(statements)]
pub fn write_statement(out: &mut Answer, tree: &Statement) {
    write_compound(out, tree.line, &tree.kind);
    out.put(")")
}
