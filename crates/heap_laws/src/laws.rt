//! Laws of the data of a page. The functions do nothing: their contracts are the laws.
ghost use Rattle.heap_laws.specs.Laws.{OthersStay, ReferencesAddUp, StoredIsRead};
ghost use Rattle.heap_laws.specs.Moves.{DroppedCellRefers, HeldRefers, LetGoRefers, NewCellRefers, NewObjectRefers};
ghost use Rattle.heap_laws.specs.Moves.{AddedItemRefers, DroppedItemRefers, DroppedItemsRefer, EndedObjectRefers};
ghost use Rattle.heap_laws.specs.Moves.{EndedTableRefers, NewTableRefers, SetItemRefers, StoredRefers};
ghost use Rattle.heap_laws.specs.Objects.{ArrayRefersByItems, CellsAreNew, EndedIsLoose, LastIsOldest, NoneIsLive};
ghost use Rattle.heap_laws.specs.Objects.{NoneIsLoose, NumbersAreNew, ObjectRefersToItself, OlderAreHeld};
ghost use Rattle.heap_laws.specs.Objects.{OthersReferToNone};

/// What is stored at a place is read there.
pub fn stored_is_read()
    ensures { StoredIsRead }
{}

/// What is stored at a place changes nothing that is read at a place apart from it: in another cell, or past indices
/// that differ.
pub fn others_stay()
    ensures { OthersStay }
{}

/// The references to an object are those in each cell, in each dictionary, and held.
pub fn references_add_up()
    ensures { ReferencesAddUp }
{}

/// An object that a release point ends has no reference, and each live object of a smaller number has one. Where it
/// ends none, each live object has one.
pub fn loose_objects_end()
    ensures ended { EndedIsLoose }
    ensures older { OlderAreHeld }
    ensures none { NoneIsLoose }
{}

/// The page's end ends the oldest live object, until none is live.
pub fn oldest_ends_first()
    ensures older { LastIsOldest }
    ensures none { NoneIsLive }
{}

/// An object refers to itself, an array to what its items refer to, in their order, and every other value to nothing.
pub fn references_of_values()
    ensures object { ObjectRefersToItself }
    ensures array { ArrayRefersByItems }
    ensures others { OthersReferToNone }
{}

/// The number of a new object is one that no object had.
pub fn numbers_are_new()
    ensures { NumbersAreNew }
{}

/// After a call the references to an object are those before, less what went and with what came.
pub fn references_move()
    ensures new_cell { NewCellRefers }
    ensures dropped_cell { DroppedCellRefers }
    ensures stored { StoredRefers }
    ensures held { HeldRefers }
    ensures let_go { LetGoRefers }
    ensures new_object { NewObjectRefers }
    ensures new_table { NewTableRefers }
{}

/// The same of the entries of a dictionary: an item that comes brings its references, and one that goes takes them.
pub fn item_references_move()
    ensures added { AddedItemRefers }
    ensures set { SetItemRefers }
    ensures dropped { DroppedItemRefers }
    ensures emptied { DroppedItemsRefer }
{}

/// The same of an object that ends: a dictionary takes the references of its items with it, an object of a class those
/// of its fields.
pub fn ended_references_go()
    ensures table { EndedTableRefers }
    ensures object { EndedObjectRefers }
{}

/// A new variable, and each field of a new object, has a cell of its own, which was none before it.
pub fn cells_are_new()
    ensures { CellsAreNew }
{}
