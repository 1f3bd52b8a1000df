//! Requests from the bytes of a connection, however the bytes are cut (RFC 9112).
#![tactic(auto)]

mod connection;
mod fields;
mod found;
mod laws;
mod open_target;
mod opening;
mod reader;
mod request;
mod status;
mod stream;
mod target;

pub use crate::laws::{front_by_shortest, front_stays, one_front, one_stream, stream_of_join};
pub use crate::reader::{Next, Reader};
pub use crate::stream::{End, read_pieces, take_requests};
pub use crate::target::{path_of, query_of};
