//! What names stand for.

use crate::programs::program;
use case_files::{Answer, CaseStop};
use vb_syntax::Program;
use vb_syntax::program::{Expression, Head, Named, Path, Procedure, Statement, StatementKind};

/// Writes what the names stand for in a statement of a script. The case names it: `page:` and the script for the last
/// of the page, `procedure:` for the last of the last procedure and `start:` for its first, `method:` for the last of
/// the last procedure of the last class.
pub fn write_names(out: &mut Answer, case: &str) {
    let Some((place, script)) = case.split_once(": ") else {
        return out.stop(CaseStop::Unreadable);
    };
    if let Some(program) = program(out, script) {
        match statement(place, &program) {
            Some(statement) => write_statement(out, statement),
            None => out.stop(CaseStop::Unreadable),
        }
    }
}

/// The statement that is meant.
fn statement<'a>(place: &str, program: &'a Program) -> Option<&'a Statement> {
    let unit = &program.unit;
    match place {
        "page" => last(unit.body.as_slice()),
        "procedure" => last(last_body(unit.procedures.as_slice())?),
        "start" => last_body(unit.procedures.as_slice())?.get(0),
        "method" => match unit.classes.as_slice() {
            [.., class] => last(last_body(class.procedures.as_slice())?),
            [] => None,
        },
        _ => None,
    }
}

fn last_body(procedures: &[Procedure]) -> Option<&[Statement]> {
    match procedures {
        [.., last] => Some(last.body.as_slice()),
        [] => None,
    }
}

fn last(body: &[Statement]) -> Option<&Statement> {
    match body {
        [.., last] => Some(last),
        [] => None,
    }
}

fn write_named(out: &mut Answer, name: &Named) {
    match name {
        Named::Place(slot) => out.debug(slot),
        _ => out.debug(name),
    }
}

fn write_head(out: &mut Answer, head: &Head) {
    match head {
        Head::Named(name) => write_named(out, name),
        Head::Member { member, .. } => out.debug(member),
        _ => out.debug(head),
    }
}

fn write_path(out: &mut Answer, path: &Path) {
    write_head(out, &path.head);
    out.put(" ");
    out.show(&path.steps.len());
}

fn write_value(out: &mut Answer, value: &Expression) {
    match value {
        Expression::Path(path) => write_path(out, path),
        _ => out.put("value"),
    }
}

/// What the names in a statement stand for, each with how many steps stay behind it.
fn write_statement(out: &mut Answer, statement: &Statement) {
    match &statement.kind {
        StatementKind::Assign { target, value } | StatementKind::Set { target, value } => {
            write_path(out, target);
            out.put(" = ");
            write_value(out, value);
        }
        StatementKind::Call { callee } => write_path(out, callee),
        StatementKind::ForEach {
            variable,
            group,
            ..
        } => {
            write_named(out, variable);
            out.put(" in ");
            write_value(out, group);
        }
        _ => out.put("other"),
    }
}
