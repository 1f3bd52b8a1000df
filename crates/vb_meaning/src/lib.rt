//! What a script means: definitions, and the types that they speak of.
#![tactic(auto)]

mod answer;
mod bared;
mod cause;
mod constant_fault;
mod conversions;
mod plain_end;
mod raising;
mod range;
mod reached;
mod stop;
mod world;

pub use answer::Answer;
pub use bared::bare;
pub use cause::{Cause, Raised};
pub use constant_fault::ConstantFault;
pub use conversions::{long_of, text_of};
pub use plain_end::PlainEnd;
pub use raising::{raise, stop_in};
pub use range::Range;
pub use reached::{Argument, Assigned, Kind, Reached};
pub use stop::Stop;
pub use world::{Exit, Frame, World};
