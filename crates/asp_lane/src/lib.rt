//! One lane of a host, where no other lane has a run: it begins a run, takes it from call to call, and ends it.
#![tactic(auto)]

mod course;
mod first;
mod rest;
mod stop;
mod turn;

pub use course::go_through;
pub use first::begin_host;
pub use rest::take_turns;
pub use stop::RunStop;
pub use turn::{Load, TurnEnd, let_go, take_turn};
