//! Scripts as text: the items with a blank between, and before them `explicit` where they begin with that. A
//! procedure is `(form Access name(parameters) { body })`, a class `(class name members)`.

use crate::expressions::write_open;
use crate::statements::{write_access, write_block, write_statement, write_variables};
use case_files::Answer;
use vb_syntax::{
    Access, Class, ClassMember, FieldAccess, Item, Parameter, Procedure, ProcedureKind, Property,
    PropertyKind, Statement, Unit,
};
use vb_value::Text;

fn write_parameters(out: &mut Answer, parameters: &[Parameter]) {
    out.put("(");
    for (i, parameter) in parameters.iter().enumerate() {
        if 0 < i {
            out.put(" ");
        }
        if parameter.by_value {
            out.put("ByVal:");
        }
        out.text(parameter.name.as_slice());
    }
    out.put(")")
}

/// What procedures and properties have behind their first word.
fn write_body(
    out: &mut Answer,
    access: Option<Access>,
    name: &Text,
    parameters: &[Parameter],
    body: &[Statement],
) {
    write_access(out, access);
    out.put(" ");
    out.text(name.as_slice());
    write_parameters(out, parameters);
    write_block(out, body);
    out.put(")")
}

fn write_procedure(out: &mut Answer, found: &Procedure) {
    let word = match found.kind {
        ProcedureKind::Sub => "sub",
        ProcedureKind::Function => "function",
    };
    write_open(out, word, found.line);
    write_body(
        out,
        found.access,
        &found.name,
        found.parameters.as_slice(),
        found.body.as_slice(),
    )
}

fn write_property(out: &mut Answer, found: &Property) {
    let word = match found.kind {
        PropertyKind::Get => "get",
        PropertyKind::Let => "let",
        PropertyKind::Set => "set",
    };
    write_open(out, word, found.line);
    write_body(
        out,
        found.access,
        &found.name,
        found.parameters.as_slice(),
        found.body.as_slice(),
    )
}

fn write_member(out: &mut Answer, member: &ClassMember) {
    match member {
        ClassMember::Fields {
            line,
            access,
            fields,
        } => {
            let word = match access {
                FieldAccess::Dim => "dim",
                FieldAccess::Public => "public",
                FieldAccess::Private => "private",
            };
            write_open(out, word, *line);
            write_variables(out, fields.as_slice());
            out.put(")")
        }
        ClassMember::Method(found) => write_procedure(out, found),
        ClassMember::Property(found) => write_property(out, found),
    }
}

fn write_class(out: &mut Answer, found: &Class) {
    write_open(out, "class", found.line);
    out.put(" ");
    out.text(found.name.as_slice());
    for member in found.members.as_slice() {
        out.put(" ");
        write_member(out, member);
    }
    out.put(")")
}

fn write_item(out: &mut Answer, item: &Item) {
    match item {
        Item::Statement(found) => write_statement(out, found),
        Item::Variables {
            line,
            access,
            variables,
        } => {
            let word = match access {
                Access::Public => "public",
                Access::Private => "private",
            };
            write_open(out, word, *line);
            write_variables(out, variables.as_slice());
            out.put(")")
        }
        Item::Procedure(found) => write_procedure(out, found),
        Item::Class(found) => write_class(out, found),
    }
}

/// Adds a script's tree.
pub fn write_unit(out: &mut Answer, unit: &Unit) {
    if unit.option_explicit {
        out.put("explicit");
    }
    for (i, item) in unit.items.as_slice().iter().enumerate() {
        if 0 < i || unit.option_explicit {
            out.put(" ");
        }
        write_item(out, item);
    }
}
