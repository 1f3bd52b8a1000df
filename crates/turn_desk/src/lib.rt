//! A lock that is given by tickets, round one state: threads change it in turns, each with a lane of its own. The state
//! has a history of entries, which grows by the turns alone, and each lane knows what it has seen of it and which
//! entries are its own.
#![tactic(auto)]

mod closing;
mod desk;
mod lane;
mod rule;
mod stands;
mod taking;
mod turn;
mod view;

pub use desk::Desk;
pub use lane::Lane;
pub use stands::Stands;
pub use turn::Turn;
