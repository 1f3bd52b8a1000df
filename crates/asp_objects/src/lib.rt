//! The objects that a page is given: Request, Response, Server, Session and Application of ASP 3.0, member by member.
#![tactic(auto)]

mod application_members;
mod asking;
mod body;
mod choosing;
mod collections;
mod cookie;
mod entries;
mod given;
mod head;
mod laws;
mod map_path;
mod objects;
mod request;
mod server;
mod session;
mod session_members;
mod text;

pub use application_members::may_call;
pub use choosing::Chosen;
pub use collections::Collections;
pub use head::HeadPart;
pub use laws::{drafts_are_said, objects_remember};
pub use objects::PageObjects;
pub use server::ServerText;
pub use session::HeldSession;
