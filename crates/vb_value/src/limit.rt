//! The limits that stop a page.

/// A limit of the host. No page can catch that it was passed.
#[derive(Clone, Copy, Debug, PartialEq, Eq)]
pub enum LimitKind {
    /// The statements begun, loop turns and procedure entries of one act.
    Ticks,
    /// Calls within calls, in a terminator.
    Depth,
    /// The weight of all that a page holds.
    Data,
    /// The bytes of the response.
    Body,
    /// The weight of a session.
    Session,
    /// The weight of the application.
    Application,
    /// Arrays within arrays.
    Nest,
}
