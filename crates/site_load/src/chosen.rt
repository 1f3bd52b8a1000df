//! The paths of a folder that are those of its site.
ghost use Rattle.std.specs.Prelude.{◌≡◌, ◌↔◌, ◌∷◌, ◌++◌, [], ℕ, List as Items, IfOk, IsTrue, OnOk};
ghost use Rattle.std.specs.BTreeMap.{IsOrdered, values};
ghost use Rattle.site_load.specs.Chosen as spec;
ghost use Rattle.site_load.specs.Picking.{ComesFirst, HasPicked};

use std::alloc::Global;
use std::cmp::Ordering;
use std::collections::BTreeMap;
use vb_value::{Copied, List, Memory, Text, fold};

/// Of the names, the paths of the files that make up the site.
pub fn chosen_paths(alloc: Global, names: &[Text]) -> Result<List<Text>, Memory>
    ensures { IfOk result (spec.AreChosen names.now) }
{
    let mut picked = BTreeMap::new(alloc);
    for name in names {
        pick(alloc, &mut picked, name)?;
    }
    picked_paths(alloc, picked)
}

fn picked_paths(alloc: Global, picked: BTreeMap<Text, Text>) -> Result<List<Text>, Memory>
    ensures paths { IfOk result (λ paths. paths ≡ values picked) }
    ensures ordered { IsOrdered spec.compared picked }
{
    let mut paths = List::with_capacity(alloc, picked.len())?;
    for (_, path) in picked {
        paths.push(path)?;
    }
    Ok(paths)
}

/// Keeps the name, where it is the first with its folded path.
fn pick(alloc: Global, picked: &mut BTreeMap<Text, Text>, name: &Text) -> Result<(), Memory>
    ensures { OnOk result ((names : Items (Items ℕ)) → HasPicked names picked.old
        → HasPicked (names ++ name.now ∷ []) picked.new) }
{
    let folded = fold(alloc, name)?;
    if !is_first(picked, &folded, name) {
        return Ok(());
    }
    picked.insert(folded, name.copy()?)?;
    Ok(())
}

/// Whether nothing is picked under this folded path, or something that comes after the name.
fn is_first(picked: &BTreeMap<Text, Text>, folded: &Text, name: &Text) -> bool
    ensures { IsTrue result ↔ ComesFirst picked.now folded.now name.now }
{
    match picked.get(folded) {
        Some(path) => matches!(name.cmp(path), Ordering::Less),
        None => true,
    }
}
