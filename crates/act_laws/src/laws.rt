//! Laws of an act, of the replies that it is given, and of the objects that it makes. The functions do nothing: their
//! contracts are the laws.
ghost use Rattle.act_laws.specs.Laws.{CallsInOrder, CallsStay, EntriesChangeNothing, NewNumbersAreFree};
ghost use Rattle.act_laws.specs.Laws.{NoneEnteredTwice, NotesChangeNothing, ObjectsEnd, TerminatorsAreEntered};
ghost use Rattle.act_laws.specs.Laws.{OneTextIsWritten, OnlyAskingChanges, OnlyObjectsLack, OnlyObjectsWant};
ghost use Rattle.act_laws.specs.Laws.{ReleasePointsSettle, RepliesBeyond, TerminatorsRunOnce};
ghost use Rattle.act_laws.specs.Laws.{TicksNeverComeBack, WhatIsHeldStays};

/// An act that has ended takes no account of more replies.
pub fn replies_beyond<E>()
    ensures { RepliesBeyond E }
{}

/// With the first of its replies an act wants the call that it makes next with all of them.
pub fn calls_in_order<E>()
    ensures { CallsInOrder E }
{}

/// The calls that an act has made stay as they are where more replies come.
pub fn calls_stay<E>()
    ensures { CallsStay E }
{}

/// That its calls are noted changes nothing of an act.
pub fn notes_change_nothing<E>()
    ensures { NotesChangeNothing E }
{}

/// An act wants only calls that the objects of the page want.
pub fn only_objects_want<E>()
    ensures { OnlyObjectsWant E }
{}

/// What each question to the objects of the page keeps true of them, an act keeps.
pub fn only_asking_changes<E>()
    ensures { OnlyAskingChanges E }
{}

/// Memory runs out in an act only where it runs out for the objects of the page.
pub fn only_objects_lack<E>()
    ensures { OnlyObjectsLack E }
{}

/// When an act has ended, all objects that it made have ended, unless a limit ended it.
pub fn objects_end<E>()
    ensures { ObjectsEnd E }
{}

/// Each object ends once: its terminator begins only while it is live, and it is not live again.
pub fn terminators_run_once<E>()
    ensures { TerminatorsRunOnce E }
{}

/// A release point where each live object has a reference does nothing, and neither does a second one right behind the
/// first. Where a live object has none, the oldest such ends, and behind its terminator stands a release point again.
/// A release point leaves Err, the place in the script, and before the page's end what is held.
pub fn release_points_settle<E>()
    ensures { ReleasePointsSettle E }
{}

/// No step of an act gives a tick back: behind each expression, argument, assignment, call, statement, procedure,
/// terminator and release point, and behind the act and the page's end, no more ticks are left than before it.
pub fn ticks_never_come_back<E>()
    ensures { TicksNeverComeBack E }
{}

/// Nothing that is done lets go what was held before it. Before the page's end a statement, a procedure, a terminator and
/// a release point that come to their end, or to an error, leave what is held as it was.
pub fn what_is_held_stays<E>()
    ensures { WhatIsHeldStays E }
{}

/// A page that is one text asks Response.Write once, with that text, and ends. Where that gives a value, no object was
/// made, and the objects of the page are as Response.Write left them.
pub fn one_text_is_written<E>()
    ensures { OneTextIsWritten E }
{}

/// That the terminators which are entered are noted changes nothing of an act.
pub fn entries_change_nothing<E>()
    ensures { EntriesChangeNothing E }
{}

/// A terminator is entered once for each object whose class has one, when the object begins to end, and so in that
/// order: whatever is done, a live object that has begun to end behind it has had the terminator of its class entered,
/// and no other object has.
pub fn terminators_are_entered<E>()
    ensures { TerminatorsAreEntered E }
{}

/// Of each object, what an act enters as its terminator is that of a class, once, or nothing.
pub fn none_entered_twice<E>()
    ensures { NoneEnteredTwice E }
{}

/// What New and CreateObject give is an object with a number that no object had before it.
pub fn new_numbers_are_free<E>()
    ensures { NewNumbersAreFree E }
{}
