//! What can stand on a desk.
ghost use Rattle.std.specs.Prelude.{◌≡◌, ℕ, ◌<◌, List, length};

/// A state with a history, which is a list of entries each with the number of a lane, and with a fixed part, which no
/// turn changes.
///
/// The history and the fixed part are meanings: the state need not hold them as they are.
pub trait Stands {
    /// An entry of the history, as contracts see it.
    type Entry;

    /// The fixed part, as contracts see it. No value of it is made.
    type Fixed;

    ghost lane_of: { Self.Entry → ℕ };

    ghost entries: { Self → List Self.Entry };

    ghost fixed: { Self → Self.Fixed };

    /// How long the history is.
    fn length(&self) -> u64
        requires { length (entries self.now) < 4294967296 }
        ensures { result ≡ length (entries self.now) };
}
