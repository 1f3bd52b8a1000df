//! Recordings of requests, and journals as text, line by line.
#![tactic(auto)]

mod array_reading;
mod call;
mod call_reading;
mod entry;
mod fields;
mod generated;
mod journal;
mod laws;
mod line;
mod line_reading;
mod one_request;
mod reading;
mod recording;
mod scanning;
mod stop;
mod value;
mod value_reading;
mod writing;

pub use entry::entry_line;
pub use generated::generate;
pub use journal::{Line, LineWhat, read_lines};
pub use laws::{
    entries_have_lines, generated_sound, journal_not_refused, one_journal, one_recording,
    recording_not_refused, refusals_stay, text_stands,
};
pub use reading::read_recording;
pub use recording::{Item, Recording};
pub use stop::RecordStop;
pub use writing::write_recording;
