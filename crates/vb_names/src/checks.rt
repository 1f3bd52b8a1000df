//! The faults of what is said in a scope.
ghost use Rattle.std.specs.Prelude.{◌≡◌, ◌∷◌, ◌++◌, [], false, IfOk, OnOk};
ghost use Rattle.vb_value.specs.Folding.{folded};
ghost use Rattle.vb_value.specs.Outcome.{Gives};
ghost use Rattle.vb_syntax.specs.scope.Faults as spec;
ghost use Rattle.vb_syntax.specs.scope.Names.{add_name, has_name};
ghost use Rattle.vb_names.specs.Checking.{Finds, declared_seen, is_declared_apart, names_of_kind, so_far};
ghost use Rattle.vb_names.specs.Declarations.{scopes_seen};

use crate::key::Key;
use crate::members::member_meant;
use crate::names::{Names, has};
use crate::scopes::Scopes;
use std::alloc::Global;
use vb_syntax::program::Named;
use vb_syntax::{Note, NoteKind, PropertyKind, ScopeFault, ScopeStop, Shape};
use vb_value::{Memory, Text};

/// How many names a script may have.
const MOST_NAMES: usize = 65_535;

/// The names that a scope declares so far.
#[derive(Debug, Drop)]
pub struct DeclaredNames {
    /// All names but those of properties.
    pub others: Names,
    /// The names of properties that can be read.
    pub gets: Names,
    /// The names of properties that values can be assigned to.
    pub lets: Names,
    /// The names of properties that objects can be assigned to.
    pub sets: Names,
}

impl DeclaredNames {
    /// No names.
    pub fn new(alloc: Global) -> DeclaredNames
        ensures { declared_seen result ≡ (spec.fresh []).declared }
    {
        DeclaredNames {
            others: Names::new(alloc),
            gets: Names::new(alloc),
            lets: Names::new(alloc),
            sets: Names::new(alloc),
        }
    }

    /// No names, with room for `count` of them that are no properties'.
    pub fn with_capacity(alloc: Global, count: usize) -> Result<DeclaredNames, Memory>
        ensures { IfOk result (λ declared. declared_seen declared ≡ (spec.fresh []).declared) }
    {
        Ok(DeclaredNames {
            others: Names::with_capacity(alloc, count)?,
            gets: Names::new(alloc),
            lets: Names::new(alloc),
            sets: Names::new(alloc),
        })
    }
}

/// A fault in a line.
fn refuse(kind: ScopeFault, line: u32) -> Result<(), ScopeStop>
    ensures { Finds result (spec.in_line line (kind ∷ [])) }
{
    Err(ScopeStop::Fault { kind, line })
}

/// Whether a name is declared already as something that it can't stand together with, but for its own kind.
fn is_declared_apart(
    declared: &DeclaredNames,
    name: &Text,
    key: &Key<'_>,
    accessor: Option<PropertyKind>,
) -> bool
    requires { key.now ≡ folded name.now }
    ensures { result ≡ is_declared_apart (declared_seen declared.now) name.now accessor }
{
    match accessor {
        None => has(&declared.gets, key) || has(&declared.lets, key) || has(&declared.sets, key),
        Some(_) => has(&declared.others, key),
    }
}

/// Adds a name to those that are declared as it is. It answers whether it was there.
fn add_to_kind(
    declared: &mut DeclaredNames,
    name: &Text,
    key: &Key<'_>,
    accessor: Option<PropertyKind>,
) -> Result<bool, Memory>
    requires { key.now ≡ folded name.now }
    ensures was { IfOk result (λ was. was ≡ has_name (names_of_kind (declared_seen declared.old) accessor) name.now) }
    ensures added { IfOk result (λ was. was ≡ false → declared_seen declared.new
        ≡ spec.declare (declared_seen declared.old) name.now accessor) }
{
    match accessor {
        None => declared.others.add(name, key),
        Some(PropertyKind::Get) => declared.gets.add(name, key),
        Some(PropertyKind::Let) => declared.lets.add(name, key),
        Some(PropertyKind::Set) => declared.sets.add(name, key),
    }
}

/// Adds a declaration. It answers whether the name is declared already.
fn declare(
    declared: &mut DeclaredNames,
    name: &Text,
    key: &Key<'_>,
    accessor: Option<PropertyKind>,
) -> Result<bool, Memory>
    requires { key.now ≡ folded name.now }
    ensures was { IfOk result (λ was. was ≡ spec.is_declared (declared_seen declared.old) name.now accessor) }
    ensures added { IfOk result (λ was. was ≡ false → declared_seen declared.new
        ≡ spec.declare (declared_seen declared.old) name.now accessor) }
{
    if is_declared_apart(declared, name, key, accessor) {
        return Ok(true);
    }
    add_to_kind(declared, name, key, accessor)
}

/// Checks a name of the script, and adds it to the names so far.
fn check_name(names: &mut Names, line: u32, name: &Text, key: &Key<'_>) -> Result<(), ScopeStop>
    requires { key.now ≡ folded name.now }
    ensures faults { Finds result (spec.in_line line (spec.name_faults names.old name.now)) }
    ensures after { OnOk result (names.new ≡ add_name names.old name.now) }
{
    if names.len() >= MOST_NAMES && !has(names, key) {
        return refuse(ScopeFault::TooMany, line);
    }
    let _ = names.add(name, key)?;
    Ok(())
}

/// Checks a declaration.
fn check_declaration(
    names: &mut Names,
    declared: &mut DeclaredNames,
    line: u32,
    name: &Text,
    accessor: Option<PropertyKind>,
) -> Result<(), ScopeStop>
    ensures faults { Finds result
        (spec.in_line line (spec.declaration_faults (so_far names.old declared.old) name.now accessor)) }
    ensures after { OnOk result (so_far names.new declared.new
        ≡ spec.behind_declaration (so_far names.old declared.old) name.now accessor) }
{
    let key = Key::of(name);
    if declare(declared, name, &key, accessor)? {
        return refuse(ScopeFault::Redefined, line);
    }
    check_name(names, line, name, &key)
}

/// Whether a name stands for a constant.
fn is_constant(named: &Named) -> bool
    ensures { result ≡ spec.is_constant named.now }
{
    match named {
        Named::PageConstant(_) | Named::LocalConstant(_) | Named::Value(_) => true,
        _ => false,
    }
}

/// Checks a name that is written alone.
fn check_write(
    names: &mut Names,
    scopes: Scopes<'_>,
    line: u32,
    name: &Text,
) -> Result<(), ScopeStop>
    ensures faults { Finds result (spec.in_line line
        (spec.write_faults (scopes_seen scopes.entry) names.old name.now)) }
    ensures after { OnOk result (names.new ≡ add_name names.old name.now) }
{
    let key = Key::of(name);
    let (found, object) = scopes.meant_by(false, name, &key)?;
    if is_constant(&found) {
        return refuse(ScopeFault::ConstTarget, line);
    }
    if object.is_some() {
        return refuse(ScopeFault::BadMember, line);
    }
    check_name(names, line, name, &key)
}

/// Whether a name is an object of the page, and stands without a member that it has.
fn is_bare(
    scopes: Scopes<'_>,
    name: &Text,
    key: &Key<'_>,
    steps: &[Shape],
    is_group: bool,
) -> Result<bool, Memory>
    requires { key.now ≡ folded name.now }
    ensures { Gives result (spec.is_bare (scopes_seen scopes.entry) name.now steps.now is_group) }
{
    match scopes.meant_by(false, name, key)?.1 {
        None => Ok(false),
        Some(object) => Ok(member_meant(object, is_group, steps).is_none()),
    }
}

/// Checks a name at the head of a path.
fn check_use(
    names: &mut Names,
    scopes: Scopes<'_>,
    line: u32,
    name: &Text,
    steps: &[Shape],
    is_group: bool,
) -> Result<(), ScopeStop>
    ensures faults { Finds result (spec.in_line line
        (spec.use_faults (scopes_seen scopes.entry) names.old name.now steps.now is_group)) }
    ensures after { OnOk result (names.new ≡ add_name names.old name.now) }
{
    let key = Key::of(name);
    if is_bare(scopes, name, &key, steps, is_group)? {
        return refuse(ScopeFault::BadMember, line);
    }
    check_name(names, line, name, &key)
}

/// Checks what is said at one place.
fn check_kind(
    names: &mut Names,
    declared: &mut DeclaredNames,
    scopes: Scopes<'_>,
    line: u32,
    kind: &NoteKind,
) -> Result<(), ScopeStop>
    ensures faults { Finds result (spec.in_line line
        (spec.kind_faults (scopes_seen scopes.entry) (so_far names.old declared.old) kind.now)) }
    ensures after { OnOk result (so_far names.new declared.new
        ≡ spec.after_kind (so_far names.old declared.old) kind.now) }
{
    match kind {
        NoteKind::Fault(found) => refuse(*found, line),
        NoteKind::Variable(found) => check_declaration(names, declared, line, &found.name, None),
        NoteKind::Constant(found) => check_declaration(names, declared, line, &found.name, None),
        NoteKind::Procedure(name) | NoteKind::Class(name) | NoteKind::Result(name) => {
            check_declaration(names, declared, line, name, None)
        }
        NoteKind::Member { name, accessor } => {
            check_declaration(names, declared, line, name, *accessor)
        }
        NoteKind::Use {
            name,
            steps,
            is_group,
        } => { check_use(names, scopes, line, name, steps.as_slice(), *is_group) }
        NoteKind::Write(name) => check_write(names, scopes, line, name),
        NoteKind::Resize(name) => check_write(names, scopes, line, name),
        NoteKind::Part(name) => check_name(names, line, name, &Key::of(name)),
    }
}

/// Checks what is said in a scope.
pub fn check_notes(
    names: &mut Names,
    declared: &mut DeclaredNames,
    scopes: Scopes<'_>,
    mut notes: &[Note],
) -> Result<(), ScopeStop>
    ensures faults { Finds result
        (spec.notes_faults (scopes_seen scopes.entry) (so_far names.old declared.old) notes.entry.now) }
    ensures after { OnOk result (so_far names.new declared.new
        ≡ spec.after_notes (so_far names.old declared.old) notes.entry.now) }
{
    while let [note, rest @ ..] = notes {
        check_kind(names, declared, scopes, note.line, &note.kind)?;
        notes = rest;
    }
    Ok(())
}
