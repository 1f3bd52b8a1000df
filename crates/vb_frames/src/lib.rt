//! What a machine that can stop holds of an act: frames, their places in the program, and what comes next.
#![tactic(auto)]

mod frame;
mod got;
mod next;
mod node;
mod place;
mod stack;
mod stage;

pub use frame::{ExpressionFrame, Frame, StatementFrame};
pub use got::Got;
pub use next::{Go, Next};
pub use node::{Node, has_item, has_statement, operator_at, part_of};
pub use place::Place;
pub use stack::{Placed, Stack};
pub use stage::Stage;
