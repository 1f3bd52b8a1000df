//! Scopes with the variables that undeclared names make.
ghost use Rattle.std.specs.Prelude.{◌≡◌, false, IfOk};
ghost use Rattle.std.specs.Option.{option_copied};
ghost use Rattle.vb_value.specs.Outcome.{Gives};
ghost use Rattle.vb_syntax.specs.scope.Scopes as spec;
ghost use Rattle.vb_names.specs.Declarations.{declarations_seen, scopes_seen};

use crate::declarations::{Declarations, declared, push_variable};
use crate::key::Key;
use crate::scopes::{Scopes, is_unknown};
use std::alloc::Global;
use vb_syntax::program::Variable;
use vb_syntax::{Level, Note, NoteKind};
use vb_value::{Memory, Text};

#[tactic(auto, using(crate::proofs::Objects::objects))]
/// A name that is mentioned, where that makes it a variable.
fn mentioned<'a>(
    explicit: bool,
    scopes: Scopes<'_>,
    name: &'a Text,
) -> Result<Option<&'a Text>, Memory>
    ensures { IfOk result (λ made. option_copied made ≡ spec.mentioned explicit (scopes_seen scopes.entry) name.now) }
{
    if explicit {
        return Ok(None);
    }
    let (named, object) = scopes.meant(false, name)?;
    if is_unknown(&named) && object.is_none() {
        return Ok(Some(name));
    }
    Ok(None)
}

/// A name that ReDim gives bounds, where that makes it a variable.
fn resized<'a>(scopes: Scopes<'_>, name: &'a Text) -> Result<Option<&'a Text>, Memory>
    ensures { IfOk result (λ made. option_copied made ≡ spec.resized (scopes_seen scopes.entry) name.now) }
{
    if scopes.declared(false, &Key::of(name)).is_some() {
        return Ok(None);
    }
    Ok(Some(name))
}

/// The name that one place makes a variable.
fn made_by<'a>(
    explicit: bool,
    scopes: Scopes<'_>,
    kind: &'a NoteKind,
) -> Result<Option<&'a Text>, Memory>
    ensures { IfOk result (λ made. option_copied made ≡ spec.made_by explicit (scopes_seen scopes.entry) kind.now) }
{
    match kind {
        NoteKind::Use { name, .. } => mentioned(explicit, scopes, name),
        NoteKind::Write(name) => mentioned(explicit, scopes, name),
        NoteKind::Resize(name) => resized(scopes, name),
        _ => Ok(None),
    }
}

/// Adds the variable that is made in a line.
fn push_made(
    found: &mut Declarations,
    level: Level,
    line: u32,
    made: Option<&Text>,
) -> Result<(), Memory>
    ensures { IfOk result (λ _. declarations_seen found.new
        ≡ spec.with_made level line (declarations_seen found.old) (option_copied made.entry)) }
{
    match made {
        None => Ok(()),
        Some(name) => push_variable(found, level, name, Variable { line, bounds: None }),
    }
}

/// Adds the variable that one place of the page makes.
fn make_on_page(
    page: &mut Declarations,
    explicit: bool,
    nothing: &Declarations,
    note: &Note,
) -> Result<(), Memory>
    requires { declarations_seen nothing.now ≡ spec.nothing_declared }
    ensures { IfOk result (λ _. declarations_seen page.new
        ≡ spec.make_on_page explicit (declarations_seen page.old) note.now) }
{
    let made = made_by(
        explicit,
        Scopes {
            page: &*page,
            class: nothing,
            body: nothing,
        },
        &note.kind,
    )?;
    push_made(page, Level::Page, note.line, made)
}

#[tactic(auto, unfolding(vb_syntax::specs::scope::Scopes::page_scope_of))]
/// A page's scope, by its notes.
pub fn page_scope(alloc: Global, explicit: bool, notes: &[Note]) -> Result<Declarations, Memory>
    ensures { IfOk result (λ page. declarations_seen page ≡ spec.page_scope_of explicit notes.now) }
{
    let nothing = Declarations::new(alloc);
    let mut page = declared(alloc, Level::Page, notes)?;
    for note in notes {
        make_on_page(&mut page, explicit, &nothing, note)?;
    }
    Ok(page)
}

/// Adds the variable that one place of a procedure makes.
fn make_in_body(
    body: &mut Declarations,
    explicit: bool,
    page: &Declarations,
    class: &Declarations,
    note: &Note,
) -> Result<(), Memory>
    ensures { IfOk result (λ _. declarations_seen body.new
        ≡ spec.make_in_body explicit (declarations_seen page.now) (declarations_seen class.now)
        (declarations_seen body.old) note.now) }
{
    let made = made_by(
        explicit,
        Scopes {
            page,
            class,
            body: &*body,
        },
        &note.kind,
    )?;
    push_made(body, Level::Body, note.line, made)
}

#[tactic(auto, unfolding(vb_syntax::specs::scope::Scopes::body_scope_of))]
/// A procedure's scope, by its notes.
pub fn body_scope(
    alloc: Global,
    explicit: bool,
    page: &Declarations,
    class: &Declarations,
    notes: &[Note],
) -> Result<Declarations, Memory>
    ensures { IfOk result (λ body. declarations_seen body ≡ spec.body_scope_of explicit
        (declarations_seen page.now) (declarations_seen class.now) notes.now) }
{
    let mut body = declared(alloc, Level::Body, notes)?;
    for note in notes {
        make_in_body(&mut body, explicit, page, class, note)?;
    }
    Ok(body)
}
