//! One request that is answered over a core of its own.
#![tactic(auto)]

mod answer;
mod asking;
mod stop;

pub use answer::answer_one;
pub use stop::GetStop;
