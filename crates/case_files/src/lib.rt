//! Files of cases: texts of which each line is a case with what it gives, and the trial of them all.
#![tactic(auto)]

mod answer;
mod file;
mod stop;
mod text;
mod trial;

pub use answer::Answer;
pub use file::{Subject, try_file};
pub use stop::CaseStop;
pub use text::read_text;
pub use trial::Trial;
