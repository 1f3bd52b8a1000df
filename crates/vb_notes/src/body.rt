//! The bodies of procedures.
ghost use Rattle.std.specs.Prelude.{◌≡◌, true};
ghost use Rattle.vb_syntax.specs.scope.Units as spec;
ghost use Rattle.vb_notes.specs.Bodies.{body_seen};

use vb_syntax::{
    Around, ExitKind, Parameter, Procedure, ProcedureKind, Property, PropertyKind, Statement,
};
use vb_value::{List, Text};

/// What a procedure, a method or an accessor of a property has for its scope.
#[derive(Clone, Copy)]
pub struct Body<'a> {
    /// The line of the first word.
    pub line: u32,
    /// It stands in a class.
    pub in_class: bool,
    /// The Exit that leaves it.
    pub exit: ExitKind,
    /// The name of its result, where it gives a value.
    pub result: Option<&'a Text>,
    /// Its parameters.
    pub parameters: &'a List<Parameter>,
    /// What it does.
    pub statements: &'a List<Statement>,
}

/// The body of a procedure of the page or of a class.
pub fn body_of(in_class: bool, procedure: &Procedure) -> Body<'_>
    ensures { body_seen result ≡ spec.body_of in_class procedure.now }
{
    let (exit, result) = match procedure.kind {
        ProcedureKind::Sub => (ExitKind::Sub, None),
        ProcedureKind::Function => (ExitKind::Function, Some(&procedure.name)),
    };
    Body {
        line: procedure.line,
        in_class,
        exit,
        result,
        parameters: &procedure.parameters,
        statements: &procedure.body,
    }
}

/// The body of an accessor of a property.
pub fn body_of_property(property: &Property) -> Body<'_>
    ensures { body_seen result ≡ spec.body_of_property property.now }
{
    let result = match property.kind {
        PropertyKind::Get => Some(&property.name),
        PropertyKind::Let | PropertyKind::Set => None,
    };
    Body {
        line: property.line,
        in_class: true,
        exit: ExitKind::Property,
        result,
        parameters: &property.parameters,
        statements: &property.body,
    }
}

/// What stands around the statements of a procedure.
pub fn around_in(body: Body<'_>) -> Around
    ensures { result ≡ spec.around_in (body_seen body.entry) }
{
    Around {
        in_class: body.in_class,
        procedure: Some(body.exit),
        in_do: false,
        in_for: false,
        in_with: false,
    }
}
