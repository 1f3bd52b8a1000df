//! Laws of dictionaries. The functions do nothing: their contracts are the laws.
ghost use Rattle.heap_laws.specs.Dictionaries.{AddedIsLast, CaseIsFiner, CountsAgree, KeysStayInOrder, OthersStayAbsent};
ghost use Rattle.heap_laws.specs.Dictionaries.{OthersStayAdded, RemovedIsAbsent, SameIsEquivalence};

/// Being equal as keys is an equivalence, and keys that are equal with case are equal without it.
pub fn keys_are_alike()
    ensures equivalence { SameIsEquivalence }
    ensures finer { CaseIsFiner }
{}

/// What is added is found and read, and every other key stays as it was.
pub fn added_is_found()
    ensures added { AddedIsLast }
    ensures found { OthersStayAdded }
    ensures absent { OthersStayAbsent }
{}

/// What is taken away is not found.
pub fn removed_is_absent()
    ensures { RemovedIsAbsent }
{}

/// Keys stand in the order of their adding.
pub fn keys_stay_in_order()
    ensures { KeysStayInOrder }
{}

/// Keys, Items and Count tell of as many.
pub fn counts_agree()
    ensures { CountsAgree }
{}
