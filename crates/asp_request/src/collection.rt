//! Names with their values.
ghost use Rattle.std.specs.Prelude.{◌≡◌, ◌++◌, ◌∷◌, [], ℕ, List as Items, None, Some, IfOk, OnOk, cond, unwrap_or};
ghost use Rattle.std.specs.BTreeMap.{get, is_at};
ghost use Rattle.std.specs.Cmp.Lexicographic.{slice_cmp};
ghost use Rattle.std.specs.Ordering.{nat_cmp};
ghost use Rattle.asp_request.specs.Collection.{Collects, new_name, values_at};
ghost use Rattle.asp_request.specs.Pairs.{Pair, names_in, values_in};

use std::alloc::Global;
use std::collections::BTreeMap;
use vb_value::{List, Memory, Text, fold};

/// The values of each name, which is folded.
type Groups = BTreeMap<Text, List<Text>>;

/// Names in the order in which they first came, each with its values in the order in which they came. They compare without
/// ASCII case, and each is told as it was first written. A name is found in time that grows with the logarithm of their
/// number.
#[derive(Debug, Drop)]
pub struct Collection {
    names: List<Text>,
    groups: Groups,
}

/// Takes the values of a name out.
fn take_values(groups: &mut Groups, name: &Text, alloc: Global) -> List<Text>
    ensures values { result ≡ values_at groups.old name.now }
    ensures others { (other : Items ℕ) → get (slice_cmp nat_cmp) groups.new other
        ≡ cond (is_at (slice_cmp nat_cmp name.now) other) None (get (slice_cmp nat_cmp) groups.old other) }
{
    match groups.remove(name) {
        Some(values) => values,
        None => List::new(alloc),
    }
}

/// Puts the values of a name in.
fn put_values(groups: &mut Groups, name: Text, values: List<Text>) -> Result<(), Memory>
    ensures { OnOk result ((other : Items ℕ) → get (slice_cmp nat_cmp) groups.new other
        ≡ cond (is_at (slice_cmp nat_cmp name) other) (Some values) (get (slice_cmp nat_cmp) groups.old other)) }
{
    let _ = groups.insert(name, values)?;
    Ok(())
}

/// Adds a name at the end of the names, where it has no values yet.
fn note_name(names: &mut List<Text>, name: Text, values: &[Text]) -> Result<(), Memory>
    ensures { OnOk result (names.new ≡ names.old ++ new_name values.now name) }
{
    if values.is_empty() {
        names.push(name)?;
    }
    Ok(())
}

impl Collection {
    /// No names.
    pub fn new(alloc: Global) -> Collection
        ensures { Collects result [] }
    {
        Collection {
            names: List::new(alloc),
            groups: BTreeMap::new(alloc),
        }
    }

    /// The names, in the order in which they first came.
    pub fn names(&self) -> &[Text]
        ensures { result.now ≡ self.now.names }
    {
        self.names.as_slice()
    }

    /// The values of a folded name, in their order; none where the name never came.
    pub fn values(&self, name: &Text) -> &[Text]
        ensures { result.now ≡ values_at self.now.groups name.now }
    {
        match self.groups.get(name) {
            Some(values) => values.as_slice(),
            None => &[],
        }
    }

    /// Adds a name with a value.
    pub fn add(&mut self, name: Text, value: Text) -> Result<(), Memory>
        ensures { OnOk result ((pairs : Items Pair) →
            Collects self.old pairs → Collects self.new (pairs ++ (name, value) ∷ [])) }
    {
        let alloc = *self.names.allocator();
        let key = fold(alloc, &name)?;
        let mut values = take_values(&mut self.groups, &key, alloc);
        note_name(&mut self.names, name, values.as_slice())?;
        values.push(value)?;
        put_values(&mut self.groups, key, values)?;
        Ok(())
    }
}
