//! Laws of scope, in the subject's own words.
#![tactic(auto)]

mod laws;

pub use laws::{
    constants_written, few_names, first_fault_in_the_least_line, redefined_later,
    undeclared_in_procedure, undeclared_on_page,
};
