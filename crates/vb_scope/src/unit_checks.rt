//! The faults of a whole script, in the order of their places, and the scopes that stand inside its items.
ghost use Rattle.std.specs.Prelude.{◌≡◌, ◌≤◌, ◌++◌, ◌∷◌, [], OnOk, IfOk, fold, length, map, sum, false, true};
ghost use Rattle.vb_value.specs.Outcome.{Gives};
ghost use Rattle.vb_syntax.specs.scope.Faults as spec;
ghost use Rattle.vb_syntax.specs.scope.Scopes as scopes_spec;
ghost use Rattle.vb_syntax.specs.scope.Units as units;
ghost use Rattle.vb_notes.specs.Bodies.{body_seen};
ghost use Rattle.vb_names.specs.Checking.{Finds, so_far};
ghost use Rattle.vb_names.specs.Declarations.{declarations_seen, scopes_seen};
ghost use Rattle.vb_scope.specs.Inside.{member_scope, scopes_inside};
ghost use Rattle.vb_scope.specs.Parts.{parts_by};

use crate::noting::{ItemNotes, notes_of_body, notes_of_member, notes_of_members};
use std::alloc::Global;
use vb_names::{Declarations, DeclaredNames, Names, Scopes, body_scope, check_notes, declared};
use vb_notes::{Body, body_of, body_of_property};
use vb_syntax::{Class, ClassMember, Item, Level, Note, Procedure, ScopeStop};
use vb_value::{List, Memory};

/// A class's scope.
pub fn class_scope(alloc: Global, class: &Class) -> Result<Declarations, Memory>
    ensures { IfOk result (λ found. declarations_seen found ≡ scopes_spec.class_scope class.now) }
{
    let notes = notes_of_members(alloc, class.members.as_slice())?;
    let found = declared(alloc, Level::Class, notes.as_slice());
    drop(notes);
    found
}

/// Checks what is said in a scope that has declared nothing yet.
fn check_anew(
    names: &mut Names,
    alloc: Global,
    scopes: Scopes<'_>,
    notes: &[Note],
) -> Result<(), ScopeStop>
    ensures faults { Finds result (spec.notes_faults (scopes_seen scopes.entry) (spec.fresh names.old) notes.entry.now) }
    ensures after { OnOk result (names.new ≡ (spec.after_notes (spec.fresh names.old) notes.entry.now).names) }
{
    let mut declared = DeclaredNames::new(alloc);
    let checked = check_notes(names, &mut declared, scopes, notes);
    drop(declared);
    checked
}

/// Checks what the body of a procedure says, and gives its scope.
fn check_said(
    names: &mut Names,
    alloc: Global,
    explicit: bool,
    page: &Declarations,
    class: &Declarations,
    notes: &[Note],
) -> Result<Declarations, ScopeStop>
    ensures faults { Finds result (spec.notes_faults (scopes_spec.scopes_of (declarations_seen page.now)
        (declarations_seen class.now) (scopes_spec.body_scope_of explicit (declarations_seen page.now)
        (declarations_seen class.now) notes.entry.now)) (spec.fresh names.old) notes.entry.now) }
    ensures after { OnOk result (names.new ≡ (spec.after_notes (spec.fresh names.old) notes.entry.now).names) }
    ensures scope { IfOk result (λ found. declarations_seen found ≡ scopes_spec.body_scope_of explicit
        (declarations_seen page.now) (declarations_seen class.now) notes.entry.now) }
{
    let found = body_scope(alloc, explicit, page, class, notes)?;
    let body = &found;
    match check_anew(names, alloc, Scopes { page, class, body }, notes) {
        Ok(()) => Ok(found),
        Err(stop) => {
            drop(found);
            Err(stop)
        }
    }
}

/// Checks the body of a procedure, and gives its scope.
fn check_body(
    names: &mut Names,
    alloc: Global,
    explicit: bool,
    page: &Declarations,
    class: &Declarations,
    body: Body<'_>,
) -> Result<Declarations, ScopeStop>
    ensures faults { Finds result (spec.body_faults explicit (declarations_seen page.now) (declarations_seen class.now)
        names.old (body_seen body.entry)) }
    ensures after { OnOk result (names.new ≡ spec.after_body names.old (body_seen body.entry)) }
    ensures scope { IfOk result (λ found. declarations_seen found ≡ scopes_spec.body_scope explicit
        (declarations_seen page.now) (declarations_seen class.now) (body_seen body.entry)) }
{
    let notes = notes_of_body(alloc, body)?;
    let found = check_said(names, alloc, explicit, page, class, notes.as_slice());
    drop(notes);
    found
}

/// Checks the body of a member, if it has one, and gives its scope.
fn check_bodies(
    names: &mut Names,
    alloc: Global,
    explicit: bool,
    page: &Declarations,
    class: &Declarations,
    member: &ClassMember,
) -> Result<Declarations, ScopeStop>
    ensures faults { Finds result (spec.bodies_faults explicit (declarations_seen page.now) (declarations_seen class.now)
        names.old (units.member_body member.now)) }
    ensures after { OnOk result (names.new ≡ fold spec.after_body names.old (units.member_body member.now)) }
    ensures scope { IfOk result (λ found. declarations_seen found ≡ member_scope explicit (declarations_seen page.now)
        (declarations_seen class.now) member.now) }
{
    match member {
        ClassMember::Fields { .. } => Ok(Declarations::new(alloc)),
        ClassMember::Method(found) => {
            check_body(names, alloc, explicit, page, class, body_of(true, found))
        }
        ClassMember::Property(found) => {
            check_body(names, alloc, explicit, page, class, body_of_property(found))
        }
    }
}

/// Checks what a member says as a part of its class.
fn check_said_in_class(
    names: &mut Names,
    declared: &mut DeclaredNames,
    alloc: Global,
    page: &Declarations,
    class: &Declarations,
    member: &ClassMember,
) -> Result<(), ScopeStop>
    ensures faults { Finds result (spec.notes_faults (scopes_spec.scopes_of (declarations_seen page.now)
        (declarations_seen class.now) scopes_spec.nothing_declared) (so_far names.old declared.old)
        (units.member_notes member.now)) }
    ensures after { OnOk result (so_far names.new declared.new
        ≡ spec.after_notes (so_far names.old declared.old) (units.member_notes member.now)) }
{
    let notes = notes_of_member(alloc, member)?;
    let nothing = Declarations::new(alloc);
    let body = &nothing;
    let scopes = Scopes { page, class, body };
    let checked = check_notes(names, declared, scopes, notes.as_slice());
    drop(nothing);
    drop(notes);
    checked
}

/// Checks a member of a class, and then its body, of which it gives the scope.
fn check_member(
    names: &mut Names,
    declared: &mut DeclaredNames,
    alloc: Global,
    explicit: bool,
    page: &Declarations,
    class: &Declarations,
    member: &ClassMember,
) -> Result<Declarations, ScopeStop>
    ensures faults { Finds result (spec.member_faults explicit (declarations_seen page.now) (declarations_seen class.now)
        (so_far names.old declared.old) member.now) }
    ensures after { OnOk result (so_far names.new declared.new
        ≡ spec.after_member (so_far names.old declared.old) member.now) }
    ensures scope { IfOk result (λ found. declarations_seen found ≡ member_scope explicit (declarations_seen page.now)
        (declarations_seen class.now) member.now) }
{
    check_said_in_class(names, declared, alloc, page, class, member)?;
    check_bodies(names, alloc, explicit, page, class, member)
}

/// Checks the members of a class, and gives the scopes of their bodies.
fn check_members(
    names: &mut Names,
    declared: &mut DeclaredNames,
    alloc: Global,
    explicit: bool,
    page: &Declarations,
    class: &Declarations,
    mut members: &[ClassMember],
) -> Result<List<Declarations>, ScopeStop>
    ensures faults { Finds result (spec.members_faults explicit (declarations_seen page.now) (declarations_seen class.now)
        (so_far names.old declared.old) members.entry.now) }
    ensures after { OnOk result (so_far names.new declared.new
        ≡ spec.after_members (so_far names.old declared.old) members.entry.now) }
    ensures scopes { IfOk result (λ all. map declarations_seen all ≡ map (member_scope explicit
        (declarations_seen page.now) (declarations_seen class.now)) members.entry.now) }
{
    let mut all = List::new(alloc);
    while let [member, rest @ ..] = members {
        let found = check_member(names, declared, alloc, explicit, page, class, member)?;
        all.push(found)?;
        members = rest;
    }
    Ok(all)
}

/// Checks the members of a class that has declared nothing yet, and gives the scopes of their bodies.
fn check_members_anew(
    names: &mut Names,
    alloc: Global,
    explicit: bool,
    page: &Declarations,
    class: &Declarations,
    members: &[ClassMember],
) -> Result<List<Declarations>, ScopeStop>
    ensures faults { Finds result (spec.members_faults explicit (declarations_seen page.now) (declarations_seen class.now)
        (spec.fresh names.old) members.entry.now) }
    ensures after { OnOk result (names.new ≡ (spec.after_members (spec.fresh names.old) members.entry.now).names) }
    ensures scopes { IfOk result (λ all. map declarations_seen all ≡ map (member_scope explicit
        (declarations_seen page.now) (declarations_seen class.now)) members.entry.now) }
{
    let mut declared = DeclaredNames::new(alloc);
    let all = check_members(names, &mut declared, alloc, explicit, page, class, members);
    drop(declared);
    all
}

/// Scopes with one more at the end.
fn with_last(mut all: List<Declarations>, last: Declarations) -> Result<List<Declarations>, Memory>
    ensures { Gives result (all ++ last ∷ []) }
{
    match all.push(last) {
        Ok(()) => Ok(all),
        Err(memory) => {
            drop(all);
            Err(memory)
        }
    }
}

#[tactic(auto, using(crate::proofs::Last::map_push))]
/// Checks a class, and gives the scopes of its members' bodies and then its own.
fn check_class(
    names: &mut Names,
    alloc: Global,
    explicit: bool,
    page: &Declarations,
    class: &Class,
) -> Result<List<Declarations>, ScopeStop>
    ensures faults { Finds result
        (spec.class_faults explicit (declarations_seen page.now) names.old class.now) }
    ensures after { OnOk result (names.new ≡ spec.after_class names.old class.now) }
    ensures scopes { IfOk result (λ all. map declarations_seen all ≡ map (member_scope explicit
        (declarations_seen page.now) (scopes_spec.class_scope class.now)) class.now.members
        ++ scopes_spec.class_scope class.now ∷ []) }
{
    let found = class_scope(alloc, class)?;
    let members = class.members.as_slice();
    match check_members_anew(names, alloc, explicit, page, &found, members) {
        Ok(all) => Ok(with_last(all, found)?),
        Err(stop) => {
            drop(found);
            Err(stop)
        }
    }
}

/// Checks a procedure of the page, and gives its scope as the only one.
fn check_procedure(
    names: &mut Names,
    alloc: Global,
    explicit: bool,
    page: &Declarations,
    found: &Procedure,
) -> Result<List<Declarations>, ScopeStop>
    ensures faults { Finds result (spec.body_faults explicit (declarations_seen page.now) scopes_spec.nothing_declared
        names.old (units.body_of false found.now)) }
    ensures after { OnOk result (names.new ≡ spec.after_body names.old (units.body_of false found.now)) }
    ensures scopes { IfOk result (λ all. map declarations_seen all ≡ scopes_spec.body_scope explicit
        (declarations_seen page.now) scopes_spec.nothing_declared (units.body_of false found.now) ∷ []) }
{
    let nothing = Declarations::new(alloc);
    let body = body_of(false, found);
    let checked = check_body(names, alloc, explicit, page, &nothing, body);
    drop(nothing);
    Ok(with_last(List::new(alloc), checked?)?)
}

/// Checks what stands inside an item, and gives its scopes.
fn check_inside(
    names: &mut Names,
    alloc: Global,
    explicit: bool,
    page: &Declarations,
    item: &Item,
) -> Result<List<Declarations>, ScopeStop>
    ensures faults { Finds result (spec.inside_faults explicit (declarations_seen page.now) names.old item.now) }
    ensures after { OnOk result (names.new ≡ spec.after_inside names.old item.now) }
    ensures scopes { IfOk result (λ all. map declarations_seen all
        ≡ scopes_inside explicit (declarations_seen page.now) item.now) }
{
    match item {
        Item::Procedure(found) => check_procedure(names, alloc, explicit, page, found),
        Item::Class(found) => check_class(names, alloc, explicit, page, found),
        Item::Statement(_) | Item::Variables { .. } => Ok(List::new(alloc)),
    }
}

/// Checks what an item says on the page.
fn check_said_on_page(
    names: &mut Names,
    declared: &mut DeclaredNames,
    alloc: Global,
    page: &Declarations,
    notes: &[Note],
) -> Result<(), ScopeStop>
    ensures faults { Finds result (spec.notes_faults (scopes_spec.on_page_in (declarations_seen page.now))
        (so_far names.old declared.old) notes.entry.now) }
    ensures after { OnOk result (so_far names.new declared.new
        ≡ spec.after_notes (so_far names.old declared.old) notes.entry.now) }
{
    let nothing = Declarations::new(alloc);
    let (class, body) = (&nothing, &nothing);
    let scopes = Scopes { page, class, body };
    let checked = check_notes(names, declared, scopes, notes);
    drop(nothing);
    checked
}

/// Checks an item: what it says on the page, and then what stands inside, of which it gives the scopes.
fn check_item(
    names: &mut Names,
    declared: &mut DeclaredNames,
    alloc: Global,
    explicit: bool,
    page: &Declarations,
    item: &Item,
    notes: &[Note],
) -> Result<List<Declarations>, ScopeStop>
    requires { notes.now ≡ units.item_notes item.now }
    ensures faults { Finds result (spec.item_faults explicit (declarations_seen page.now)
        (so_far names.old declared.old) item.now) }
    ensures after { OnOk result (so_far names.new declared.new
        ≡ spec.after_item (so_far names.old declared.old) item.now) }
    ensures scopes { IfOk result (λ all. map declarations_seen all
        ≡ scopes_inside explicit (declarations_seen page.now) item.now) }
{
    check_said_on_page(names, declared, alloc, page, notes)?;
    check_inside(names, alloc, explicit, page, item)
}

/// Checks items, each with what stands inside it, up to the first fault, and gives the scopes inside each. `noted` is
/// what they say. After a fault, or out of memory, `names` and `declared` have some of the names.
pub fn check_items(
    names: &mut Names,
    declared: &mut DeclaredNames,
    alloc: Global,
    explicit: bool,
    page: &Declarations,
    mut items: &[Item],
    noted: &ItemNotes,
) -> Result<List<List<Declarations>>, ScopeStop>
    requires parts { parts_by noted.now.counts noted.now.notes ≡ map units.item_notes items.now }
    requires within { sum noted.now.counts ≤ length noted.now.notes }
    ensures faults { Finds result (spec.items_faults explicit (declarations_seen page.now)
        (so_far names.old declared.old) items.entry.now) }
    ensures after { OnOk result (so_far names.new declared.new
        ≡ spec.after_items (so_far names.old declared.old) items.entry.now) }
    ensures scopes { IfOk result (λ all. map (map declarations_seen) all
        ≡ map (scopes_inside explicit (declarations_seen page.now)) items.entry.now) }
{
    let mut all = List::with_capacity(alloc, items.len())?;
    let mut notes = noted.notes.as_slice();
    let mut counts = noted.counts.as_slice();
    while let [item, rest @ ..] = items {
        let [count, later @ ..] = counts else {
            unreachable!();
        };
        let (own, behind) = notes.split_at(*count);
        let scopes = check_item(names, declared, alloc, explicit, page, item, own)?;
        all.push(scopes)?;
        items = rest;
        notes = behind;
        counts = later;
    }
    Ok(all)
}
