//! Procedures and classes.
ghost use Rattle.std.specs.Prelude.{◌≡◌, ◌++◌, ◌∷◌, [], codes, map, false, true, IfOk};
ghost use Rattle.std.specs.List.{flat_map};
ghost use Rattle.vb_value.specs.Outcome.{Adds, Gives};
ghost use Rattle.vb_syntax.specs.declared.declaration.Parameter.{Parameter};
ghost use Rattle.vb_syntax.specs.scope.Programs as spec;
ghost use Rattle.vb_syntax.specs.scope.Trees.{statement_of};
ghost use Rattle.vb_syntax.specs.scope.Units as units;
ghost use Rattle.vb_syntax.specs.scope.Scopes.{on_page_in, nothing_declared, class_scope, body_scope};
ghost use Rattle.vb_notes.specs.Bodies.{body_seen};
ghost use Rattle.vb_names.specs.Declarations.{declarations_seen};
ghost use Rattle.vb_scope.specs.Inside.{member_scope, scopes_inside};

use crate::listing::declared_in;
use crate::trees::heads::{Place, name_number};
use crate::trees::members::{fields, sub_number};
use crate::trees::statements::{block, statement};
use std::alloc::Global;
use vb_names::{Declarations, Names, Scopes};
use vb_notes::{Body, body_of, body_of_property};
use vb_syntax::program::{
    Class as ResolvedClass, Procedure as ResolvedProcedure, ProcedureKind as ResolvedKind,
    Statement as ResolvedStatement, StatementKind as ResolvedStatementKind,
};
use vb_syntax::{
    Access, Class, ClassMember, Item, Parameter, Procedure, ProcedureKind, Property, PropertyKind,
    Statement,
};
use vb_value::{List, Memory, Text};

/// What all of a script's trees share: its names, the page's scope, and whether variables have to be declared.
#[derive(Clone, Copy)]
pub struct Script<'a> {
    pub alloc: Global,
    pub explicit: bool,
    pub page: &'a Declarations,
    pub names: &'a Names,
}

/// How a procedure stands in its script.
#[derive(Clone, Copy)]
struct Heading<'a> {
    access: Option<Access>,
    kind: ResolvedKind,
    name: &'a Text,
}

fn is_private(access: Option<Access>) -> bool
    ensures { result ≡ spec.is_private access }
{
    match access {
        Some(Access::Private) => true,
        Some(Access::Public) | None => false,
    }
}

fn kind_of(kind: ProcedureKind) -> ResolvedKind
    ensures { result ≡ spec.kind_of kind }
{
    match kind {
        ProcedureKind::Sub => ResolvedKind::Sub,
        ProcedureKind::Function => ResolvedKind::Function,
    }
}

fn kind_of_property(kind: PropertyKind) -> ResolvedKind
    ensures { result ≡ spec.kind_of_property kind }
{
    match kind {
        PropertyKind::Get => ResolvedKind::Get,
        PropertyKind::Let => ResolvedKind::Let,
        PropertyKind::Set => ResolvedKind::Set,
    }
}

/// Of each parameter, whether it has a place of its own.
fn by_value(alloc: Global, parameters: &[Parameter]) -> Result<List<bool>, Memory>
    ensures { Gives result (map (λ (found : Parameter). found.by_value) parameters.now) }
{
    let mut all = List::with_capacity(alloc, parameters.len())?;
    for parameter in parameters {
        all.push(parameter.by_value)?;
    }
    Ok(all)
}

/// A procedure that stands in a class or in none, by the scope of its body.
fn procedure(
    script: Script<'_>,
    class: &Declarations,
    heading: Heading<'_>,
    body: Body<'_>,
    found: Declarations,
) -> Result<ResolvedProcedure, Memory>
    requires { declarations_seen found ≡ body_scope script.explicit (declarations_seen script.page.now)
        (declarations_seen class.now) (body_seen body) }
    ensures { Gives result (spec.procedure_in script.entry.explicit (declarations_seen script.entry.page.now)
        script.entry.names.now (declarations_seen class.now) heading.entry.access heading.entry.kind
        heading.entry.name.now (body_seen body.entry)) }
{
    let place = Place {
        alloc: script.alloc,
        names: script.names,
        scopes: Scopes {
            page: script.page,
            class,
            body: &found,
        },
    };
    let name = name_number(script.names, heading.name);
    let by_value = by_value(script.alloc, body.parameters.as_slice());
    match (by_value, block(place, body.statements)) {
        (Ok(by_value), Ok(statements)) => {
            let (variables, constants) = declared_in(found);
            Ok(ResolvedProcedure {
                line: body.line,
                is_private: is_private(heading.access),
                kind: heading.kind,
                name,
                by_value,
                variables,
                constants,
                body: statements,
            })
        }
        (by_value, statements) => {
            drop(by_value);
            drop(statements);
            drop(found);
            Err(Memory)
        }
    }
}

/// How a procedure of the page or of a class stands in its script.
fn heading_of(found: &Procedure) -> Heading<'_>
    ensures access { result.access ≡ found.now.access }
    ensures kind { result.kind ≡ spec.kind_of found.now.kind }
    ensures name { result.name.now ≡ found.now.name }
{
    Heading {
        access: found.access,
        kind: kind_of(found.kind),
        name: &found.name,
    }
}

/// How an accessor of a property stands in its script.
fn heading_of_property(found: &Property) -> Heading<'_>
    ensures access { result.access ≡ found.now.access }
    ensures kind { result.kind ≡ spec.kind_of_property found.now.kind }
    ensures name { result.name.now ≡ found.now.name }
{
    Heading {
        access: found.access,
        kind: kind_of_property(found.kind),
        name: &found.name,
    }
}

/// Adds the method or property that a member is.
fn push_procedure(
    all: &mut List<ResolvedProcedure>,
    script: Script<'_>,
    class: &Declarations,
    member: &ClassMember,
    scope: Declarations,
) -> Result<(), Memory>
    requires { declarations_seen scope ≡ member_scope script.explicit (declarations_seen script.page.now)
        (declarations_seen class.now) member.now }
    ensures { Adds result all.old all.new (spec.procedure_member script.entry.explicit
        (declarations_seen script.entry.page.now) script.entry.names.now (declarations_seen class.now) member.now) }
{
    match member {
        ClassMember::Fields { .. } => Ok(()),
        ClassMember::Method(found) => {
            let (heading, body) = (heading_of(found), body_of(true, found));
            all.push(procedure(script, class, heading, body, scope)?)
        }
        ClassMember::Property(found) => {
            let (heading, body) = (heading_of_property(found), body_of_property(found));
            all.push(procedure(script, class, heading, body, scope)?)
        }
    }
}

/// The methods and properties of members, by the scope of each.
fn procedures(
    script: Script<'_>,
    class: &Declarations,
    mut members: &[ClassMember],
    scopes: List<Declarations>,
) -> Result<List<ResolvedProcedure>, Memory>
    requires { map declarations_seen scopes ≡ map (member_scope script.explicit (declarations_seen script.page.now)
        (declarations_seen class.now)) members.now }
    ensures { Gives result (flat_map (spec.procedure_member script.entry.explicit
        (declarations_seen script.entry.page.now) script.entry.names.now (declarations_seen class.now))
        members.entry.now) }
{
    let mut all = List::new(script.alloc);
    let mut scopes = scopes.into_vec().into_iter();
    while let [member, rest @ ..] = members {
        let Some(scope) = scopes.next() else {
            unreachable!();
        };
        push_procedure(&mut all, script, class, member, scope)?;
        members = rest;
    }
    Ok(all)
}

/// The numbers of the Subs of a class that begin and end an object.
fn event_numbers(members: &[ClassMember]) -> Result<(Option<u32>, Option<u32>), Memory>
    ensures { Gives result (
      spec.sub_number (codes "class_initialize") members.now,
      spec.sub_number (codes "class_terminate") members.now,
    ) }
{
    let initialize = sub_number(b"class_initialize", members)?;
    let terminate = sub_number(b"class_terminate", members)?;
    Ok((initialize, terminate))
}

/// A class, by its methods and properties.
fn class_with(
    script: Script<'_>,
    found: &Class,
    procedures: List<ResolvedProcedure>,
) -> Result<ResolvedClass, Memory>
    requires { procedures ≡ flat_map (spec.procedure_member script.explicit (declarations_seen script.page.now)
        script.names.now (class_scope found.now)) found.now.members }
    ensures { Gives result (spec.class_of script.entry.explicit (declarations_seen script.entry.page.now)
        script.entry.names.now found.now) }
{
    let members = found.members.as_slice();
    match (fields(script, members), event_numbers(members)) {
        (Ok(fields), Ok((initialize, terminate))) => Ok(ResolvedClass {
            line: found.line,
            fields,
            procedures,
            initialize,
            terminate,
        }),
        (fields, _) => {
            drop(fields);
            drop(procedures);
            Err(Memory)
        }
    }
}

/// A class, by the scopes of its members and its own.
fn class_of(
    script: Script<'_>,
    found: &Class,
    mut scopes: List<Declarations>,
) -> Result<ResolvedClass, Memory>
    requires { map declarations_seen scopes ≡ map (member_scope script.explicit (declarations_seen script.page.now)
        (class_scope found.now)) found.now.members ++ class_scope found.now ∷ [] }
    ensures { Gives result (spec.class_of script.entry.explicit (declarations_seen script.entry.page.now)
        script.entry.names.now found.now) }
{
    let Some(scope) = scopes.pop() else {
        unreachable!();
    };
    let procedures = procedures(script, &scope, found.members.as_slice(), scopes);
    drop(scope);
    class_with(script, found, procedures?)
}

/// A procedure of the page, by its scope, which is the only one.
fn page_procedure(
    script: Script<'_>,
    found: &Procedure,
    mut scopes: List<Declarations>,
) -> Result<ResolvedProcedure, Memory>
    requires { map declarations_seen scopes ≡ body_scope script.explicit (declarations_seen script.page.now)
        nothing_declared (units.body_of false found.now) ∷ [] }
    ensures { Gives result (spec.procedure_of script.entry.explicit (declarations_seen script.entry.page.now)
        script.entry.names.now found.now) }
{
    let Some(scope) = scopes.pop() else {
        unreachable!();
    };
    drop(scopes);
    let nothing = Declarations::new(script.alloc);
    let made = procedure(
        script,
        &nothing,
        heading_of(found),
        body_of(false, found),
        scope,
    );
    drop(nothing);
    made
}

/// A statement of the page's own body.
fn own_statement(script: Script<'_>, found: &Statement) -> Result<ResolvedStatement, Memory>
    ensures { Gives result (statement_of script.entry.names.now
        (on_page_in (declarations_seen script.entry.page.now)) found.now) }
{
    let (alloc, names, page) = (script.alloc, script.names, script.page);
    let nothing = Declarations::new(alloc);
    let (class, body) = (&nothing, &nothing);
    let scopes = Scopes { page, class, body };
    let place = Place {
        alloc,
        names,
        scopes,
    };
    let made = statement(place, found);
    drop(nothing);
    made
}

/// The trees of a page.
#[derive(Drop)]
pub struct Trees {
    /// The statements of its own body.
    pub body: List<ResolvedStatement>,
    /// Its procedures.
    pub procedures: List<ResolvedProcedure>,
    /// Its classes.
    pub classes: List<ResolvedClass>,
}

/// Adds what an item is, by the scopes inside it.
fn push_item(
    all: &mut Trees,
    script: Script<'_>,
    item: &Item,
    scopes: List<Declarations>,
) -> Result<(), Memory>
    requires { map declarations_seen scopes
        ≡ scopes_inside script.explicit (declarations_seen script.page.now) item.now }
    ensures body { Adds result all.old.body all.new.body (spec.own_statement
        (declarations_seen script.entry.page.now) script.entry.names.now item.now) }
    ensures procedures { Adds result all.old.procedures all.new.procedures (map (spec.procedure_of
        script.entry.explicit (declarations_seen script.entry.page.now) script.entry.names.now)
        (units.procedure_in_item item.now)) }
    ensures classes { Adds result all.old.classes all.new.classes (map (spec.class_of
        script.entry.explicit (declarations_seen script.entry.page.now) script.entry.names.now)
        (units.class_in_item item.now)) }
{
    match item {
        Item::Statement(found) => {
            drop(scopes);
            all.body.push(own_statement(script, found)?)
        }
        Item::Variables { line, .. } => {
            drop(scopes);
            all.body.push(ResolvedStatement {
                line: *line,
                kind: ResolvedStatementKind::Declaration,
            })
        }
        Item::Procedure(found) => { all.procedures.push(page_procedure(script, found, scopes)?) }
        Item::Class(found) => all.classes.push(class_of(script, found, scopes)?),
    }
}

/// Adds what an item is, by the scopes inside it, and lets the item go.
fn take_item(
    all: &mut Trees,
    script: Script<'_>,
    item: Item,
    scopes: List<Declarations>,
) -> Result<(), Memory>
    requires { map declarations_seen scopes
        ≡ scopes_inside script.explicit (declarations_seen script.page.now) item }
    ensures body { Adds result all.old.body all.new.body (spec.own_statement
        (declarations_seen script.entry.page.now) script.entry.names.now item) }
    ensures procedures { Adds result all.old.procedures all.new.procedures (map (spec.procedure_of
        script.entry.explicit (declarations_seen script.entry.page.now) script.entry.names.now)
        (units.procedure_in_item item)) }
    ensures classes { Adds result all.old.classes all.new.classes (map (spec.class_of
        script.entry.explicit (declarations_seen script.entry.page.now) script.entry.names.now)
        (units.class_in_item item)) }
{
    let added = push_item(all, script, &item, scopes);
    drop(item);
    added
}

/// The trees of a page, by the scopes inside each of its items. Each item is let go once it is made one of them, so that
/// no more than one item stands twice.
pub fn page_trees(
    script: Script<'_>,
    items: List<Item>,
    inside: List<List<Declarations>>,
) -> Result<Trees, Memory>
    requires { map (map declarations_seen) inside
        ≡ map (scopes_inside script.explicit (declarations_seen script.page.now)) items }
    ensures body { IfOk result (λ trees. trees.body ≡ flat_map (spec.own_statement
        (declarations_seen script.entry.page.now) script.entry.names.now) items) }
    ensures procedures { IfOk result (λ trees. trees.procedures ≡ map (spec.procedure_of script.entry.explicit
        (declarations_seen script.entry.page.now) script.entry.names.now) (units.procedures_of items)) }
    ensures classes { IfOk result (λ trees. trees.classes ≡ map (spec.class_of script.entry.explicit
        (declarations_seen script.entry.page.now) script.entry.names.now) (units.classes_of items)) }
{
    let mut all = Trees {
        body: List::new(script.alloc),
        procedures: List::new(script.alloc),
        classes: List::new(script.alloc),
    };
    let mut inside = inside.into_vec().into_iter();
    let mut items = items.into_vec().into_iter();
    while let Some(item) = items.next() {
        let Some(scopes) = inside.next() else {
            unreachable!();
        };
        take_item(&mut all, script, item, scopes)?;
    }
    Ok(all)
}
