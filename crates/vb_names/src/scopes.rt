//! What names stand for in the scopes around a place.
ghost use Rattle.std.specs.Prelude.{◌≡◌, false, true};
ghost use Rattle.std.specs.Option.{option_copied};
ghost use Rattle.vb_value.specs.Folding.{folded};
ghost use Rattle.vb_value.specs.Outcome.{Gives};
ghost use Rattle.vb_syntax.specs.scope.Scopes as spec;
ghost use Rattle.vb_syntax.specs.scope.Trees as trees;
ghost use Rattle.vb_names.specs.Declarations.{declarations_seen, scopes_seen};

use crate::declarations::Declarations;
use crate::key::Key;
use crate::language::{object_named, of_language};
use vb_syntax::PageObject;
use vb_syntax::program::{Named, Slot};
use vb_value::{Copied, Memory, Text};

/// The scopes around a place.
#[derive(Clone, Copy)]
pub struct Scopes<'a> {
    /// The page.
    pub page: &'a Declarations,
    /// The class around the place; outside of one nothing is declared.
    pub class: &'a Declarations,
    /// The procedure around the place; outside of one nothing is declared.
    pub body: &'a Declarations,
}

/// What a key stands for in one scope.
fn standing_in<'a>(found: &'a Declarations, key: &Key<'_>) -> Option<&'a Named>
    ensures { option_copied result ≡ spec.standing_in (declarations_seen found.now) key.now }
{
    match found.names.number(key) {
        None => None,
        Some(number) => found.meanings.get(number as usize),
    }
}

/// The same in a procedure, whose name stands for the procedure where it is called.
fn where_called(is_called: bool, found: Option<&Named>) -> Option<&Named>
    ensures { option_copied result ≡ spec.where_called is_called (option_copied found.entry) }
{
    match found {
        Some(Named::Place(Slot::Result)) if is_called => None,
        found => found,
    }
}

/// Whether a name stands for nothing.
pub fn is_unknown(named: &Named) -> bool
    ensures { result ≡ spec.is_unknown named.now }
{
    matches!(named, Named::Unknown)
}

/// The number of a class of the page.
pub fn class_number(page: &Declarations, class: &Text) -> Result<Option<u32>, Memory>
    ensures { Gives result
        (trees.class_number (spec.standing_in (declarations_seen page.now) (folded class.now))) }
{
    match standing_in(page, &Key::of(class)) {
        Some(Named::Class(number)) => Ok(Some(*number)),
        _ => Ok(None),
    }
}

impl<'a> Scopes<'a> {
    #[tactic(auto, unfolding(vb_syntax::specs::scope::Scopes::declared_in))]
    /// What a key stands for, where a scope declares it.
    pub fn declared(self, is_called: bool, key: &Key<'_>) -> Option<&'a Named>
        ensures { option_copied result ≡ spec.declared_in (scopes_seen self.entry) is_called key.now }
    {
        if let Some(found) = where_called(is_called, standing_in(self.body, key)) {
            return Some(found);
        }
        if let Some(found) = standing_in(self.class, key) {
            return Some(found);
        }
        standing_in(self.page, key)
    }

    #[tactic(auto, unfolding(vb_syntax::specs::scope::Scopes::named_in))]
    /// What a name stands for, which has the key.
    fn named_by(self, is_called: bool, name: &Text, key: &Key<'_>) -> Result<Named, Memory>
        requires { key.now ≡ folded name.now }
        ensures { Gives result (spec.named_in (scopes_seen self.entry) is_called name.now) }
    {
        if let Some(found) = self.declared(is_called, key) {
            return found.copy();
        }
        match of_language(*name.allocator(), name.as_slice())? {
            Some(found) => Ok(found),
            None => Ok(Named::Unknown),
        }
    }

    /// What a name stands for. It is called where `is_called` is true.
    pub fn named(self, is_called: bool, name: &Text) -> Result<Named, Memory>
        ensures { Gives result (spec.named_in (scopes_seen self.entry) is_called name.now) }
    {
        self.named_by(is_called, name, &Key::of(name))
    }

    #[tactic(auto, using(crate::proofs::Objects::objects))]
    /// The object of the page that a name stands for, which has the key and stands for nothing else.
    fn object_by(self, is_called: bool, name: &Text, key: &Key<'_>) -> Option<PageObject>
        requires key { key.now ≡ folded name.now }
        requires unknown { spec.is_unknown (spec.named_in (scopes_seen self) is_called name.now) ≡ true }
        ensures { result ≡ spec.object_in (scopes_seen self.entry) name.now }
    {
        if !is_called {
            return object_named(name.as_slice());
        }
        match self.declared(false, key) {
            None => object_named(name.as_slice()),
            Some(found) => {
                if is_unknown(found) {
                    object_named(name.as_slice())
                } else {
                    None
                }
            }
        }
    }

    #[tactic(auto, using(crate::proofs::Objects::objects))]
    /// What a name stands for, which has the key, and the object of the page that it stands for.
    pub fn meant_by(
        self,
        is_called: bool,
        name: &Text,
        key: &Key<'_>,
    ) -> Result<(Named, Option<PageObject>), Memory>
        requires { key.now ≡ folded name.now }
        ensures { let scopes = scopes_seen self.entry in
            Gives result (spec.named_in scopes is_called name.now, spec.object_in scopes name.now) }
    {
        let named = self.named_by(is_called, name, key)?;
        if !is_unknown(&named) {
            return Ok((named, None));
        }
        let object = self.object_by(is_called, name, key);
        Ok((named, object))
    }

    /// What a name stands for, and the object of the page that it stands for. It is called where `is_called` is true.
    pub fn meant(self, is_called: bool, name: &Text) -> Result<(Named, Option<PageObject>), Memory>
        ensures { let scopes = scopes_seen self.entry in
            Gives result (spec.named_in scopes is_called name.now, spec.object_in scopes name.now) }
    {
        self.meant_by(is_called, name, &Key::of(name))
    }
}
