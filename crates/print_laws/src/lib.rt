//! Laws of the words that a script's tree is printed as, in the subject's own words.
#![tactic(auto)]

mod laws;

pub use laws::{print_and_parse, printed_again};
