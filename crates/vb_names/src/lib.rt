//! Names: what the names of a script stand for, and the faults of scope.
#![tactic(auto)]

mod checks;
mod declarations;
mod key;
mod language;
mod members;
mod names;
mod scopes;
mod undeclared;

pub use checks::{DeclaredNames, check_notes};
pub use declarations::{Declarations, declared, variable_of};
pub use key::Key;
pub use language::dictionary_member;
pub use members::{err_meant, groups_behind, length_of, member_meant};
pub use names::Names;
pub use scopes::{Scopes, class_number};
pub use undeclared::{body_scope, page_scope};
