//! How a connection ends.

use asp_journal::Full;

/// How a connection ended.
#[derive(Clone, Copy, Debug, PartialEq, Eq)]
pub enum LinkEnd {
    /// After an answer that ends the connection, or at the end of what comes.
    Closed {
        /// How many bytes came behind the last request.
        rest: u32,
    },
    /// The host stops or is halted.
    Drained,
    /// What came is no request that is taken: the fixed answer of this status was written.
    Refused(u16),
    /// A read failed.
    ReadFault,
    /// A write failed.
    WriteFault,
    /// An entry did not fit into the journal.
    JournalFull(Full),
    /// Memory ran out.
    Memory,
}
