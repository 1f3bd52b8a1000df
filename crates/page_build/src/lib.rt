//! The script of a page as a program, and the page of its parts.
#![tactic(auto)]

mod declaring;
mod fault;
mod joining;
mod laws;
mod page;
mod part;
mod script;
mod unit;

pub use fault::{ScriptFault, ScriptStop};
pub use laws::{one_fault, one_page_fault, one_program, page_or_fault, program_or_fault};
pub use page::build;
pub use script::script_program;
