//! The functions of the language on numbers, kinds of values and arrays.
#![tactic(auto)]

mod arithmetic;
mod arrays;
mod bases;
mod converting;
mod functions;
mod testing;
mod type_names;

pub use functions::call_func;
pub use type_names::type_name;
