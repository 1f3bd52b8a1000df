//! Laws of an act, of the replies that it is given, and of the objects that it makes, in the subject's own words.
#![tactic(auto)]

mod laws;

pub use laws::{
    calls_in_order, calls_stay, entries_change_nothing, new_numbers_are_free, none_entered_twice,
    notes_change_nothing, objects_end, one_text_is_written, only_asking_changes, only_objects_lack,
    only_objects_want, release_points_settle, replies_beyond, terminators_are_entered,
    terminators_run_once, ticks_never_come_back, what_is_held_stays,
};
