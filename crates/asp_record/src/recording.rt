//! What a recording holds.

use vb_value::{Bytes, List};

/// What comes to a site next.
#[derive(Debug, Drop)]
pub enum Item {
    /// A client sends the bytes of one request.
    Request {
        /// The number of the client. Client 0 asks by its Cookie header, another by the key that it was given.
        client: u32,
        /// Seconds since 1970.
        moment: u64,
        bytes: Bytes,
    },
    /// Time goes on.
    Tick {
        /// Seconds since 1970.
        moment: u64,
    },
}

/// The requests of a site, with what else its answers depend on.
#[derive(Debug, Drop)]
pub struct Recording {
    /// What session keys are made from.
    pub seed: [u8; 32],
    /// Whether a Lock of one page keeps the readers of others out too.
    pub strict: bool,
    /// In the order in which they come.
    pub items: List<Item>,
}
