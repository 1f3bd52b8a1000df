//! A host: the core on a desk. Threads work at it, each with a hand of its own, and each call of a hand is one turn of
//! its lane.
#![tactic(auto)]

mod bell;
mod beside;
mod calls;
mod closing;
mod crew;
mod crossing;
mod events;
mod gate;
mod hand;
mod host;
mod looking;
mod loops;
mod opening;
mod resting;
mod slices;
mod stands;
mod steps;
mod task;
mod turns;
mod waking;
mod worker;

pub use bell::{Bell, Rung};
pub use beside::{Crew, Looping, Worker};
pub use crew::CrewOf;
pub use crossing::{hand_crosses, host_is_shared};
pub use gate::{Gate, OpenGate, Verdict};
pub use hand::{Hand, HandOf, Load};
pub use host::{Host, HostOf};
pub use looking::Looked;
pub use slices::Slice;
pub use stands::Placed;
pub use steps::Stepped;
pub use task::{Lead, Task};
pub use worker::WorkerOf;
