//! Lines of one file that stand one behind the other.
ghost use Rattle.std.specs.Prelude.{◌+◌, ◌^◌, ◌<◌};

use vb_value::Text;

/// Lines of one file that stand one behind the other.
#[derive(Debug, Drop)]
pub struct Stretch {
    /// The path of the file.
    pub path: Text,
    /// The first line.
    pub first: u32,
    /// How many lines there are.
    pub count: u32,
    ghost fits: { first + count < 2 ^ 32 },
}
