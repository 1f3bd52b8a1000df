//! Bytes.

use crate::list::List;

/// A list of bytes.
pub type Bytes = List<u8>;
