//! What the parts of a script say of names.
ghost use Rattle.std.specs.Prelude.{◌≡◌, ◌≤◌, IfOk, length, map, sum};
ghost use Rattle.std.specs.List.{flat_map};
ghost use Rattle.vb_value.specs.Outcome.{Adds, Gives};
ghost use Rattle.vb_syntax.specs.scope.Units as spec;
ghost use Rattle.vb_notes.specs.Bodies.{body_seen};
ghost use Rattle.vb_scope.specs.Parts.{parts_by};

use std::alloc::Global;
use vb_notes::{Body, note_body, note_item, note_member, note_members};
use vb_syntax::{ClassMember, Item, Note};
use vb_value::{List, Memory};

/// What the body of a procedure says.
pub fn notes_of_body(alloc: Global, body: Body<'_>) -> Result<List<Note>, Memory>
    ensures { Gives result (spec.in_body (body_seen body.entry)) }
{
    let mut notes = List::new(alloc);
    note_body(&mut notes, body)?;
    Ok(notes)
}

/// What a member says as a part of its class.
pub fn notes_of_member(alloc: Global, member: &ClassMember) -> Result<List<Note>, Memory>
    ensures { Gives result (spec.member_notes member.now) }
{
    let mut notes = List::new(alloc);
    note_member(&mut notes, member)?;
    Ok(notes)
}

/// What members say as parts of their class.
pub fn notes_of_members(alloc: Global, members: &[ClassMember]) -> Result<List<Note>, Memory>
    ensures { Gives result (flat_map spec.member_notes members.now) }
{
    let mut notes = List::new(alloc);
    note_members(&mut notes, members)?;
    Ok(notes)
}

/// What the items of a page say.
#[derive(Drop)]
pub struct ItemNotes {
    /// What they say, item by item.
    pub notes: List<Note>,
    /// Of each item, how many of the notes are its own.
    pub counts: List<usize>,
}

/// Adds what an item says as a part of the page, and answers how many notes that is.
fn note_and_count(notes: &mut List<Note>, item: &Item) -> Result<usize, Memory>
    ensures notes { Adds result notes.old notes.new (spec.item_notes item.now) }
    ensures count { Gives result (length (spec.item_notes item.now)) }
{
    let before = notes.len();
    note_item(notes, item)?;
    Ok(notes.len() - before)
}

#[tactic(auto, using(crate::proofs::Parts::parts_are, crate::proofs::Parts::parts_within))]
/// What items say as parts of the page.
pub fn notes_of_items(alloc: Global, items: &[Item]) -> Result<ItemNotes, Memory>
    ensures notes { IfOk result (λ noted. noted.notes ≡ flat_map spec.item_notes items.now) }
    ensures parts { IfOk result (λ noted. parts_by noted.counts noted.notes ≡ map spec.item_notes items.now) }
    ensures within { IfOk result (λ noted. sum noted.counts ≤ length noted.notes) }
{
    let mut notes = List::new(alloc);
    let mut counts = List::with_capacity(alloc, items.len())?;
    for item in items {
        let count = note_and_count(&mut notes, item)?;
        counts.push(count)?;
    }
    Ok(ItemNotes { notes, counts })
}
