//! The words of a script: the text of a VBScript page cut into tokens, or the first fault in it.
#![tactic(auto)]

mod characters;
mod fault;
mod gaps;
mod laws;
mod lexer;
mod names;
mod numbers;
mod piece;
mod place;
mod strings;
mod symbols;

pub use fault::{LexFault, LexStop};
pub use laws::{one_fault, one_token_list, tokens_or_fault};
pub use lexer::lex;
