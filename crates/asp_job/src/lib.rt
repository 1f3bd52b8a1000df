//! What a host is asked for, what it answers, and what runs its pages: the data that the crates on requests share.
#![tactic(auto)]

mod answer;
mod copying;
mod entry;
mod job;
mod request;
mod runner;
mod session;

pub use answer::{Answer, Fail, Finished};
pub use copying::{copy_call, copy_reply, copy_session};
pub use entry::{
    EndKind, Entry, MOST_ENTRIES, MOST_LIVE, MOST_UNFINISHED, MOST_WAITING, MOST_WEIGHT, QUANTUM,
    Stage, What,
};
pub use job::{Asked, Job, Work};
pub use request::{Header, Request, Verb};
pub use runner::{Runner, Step};
pub use session::{Named, SessionState};
