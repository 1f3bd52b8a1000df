//! The path of a request with its query, as a word.
ghost use Rattle.std.specs.Prelude.{◌↔◌, ◌+◌, ◌^◌, ◌<◌, IfOk, IsTrue, length};
ghost use Rattle.asp_command.specs.Saying.{IsTargetPath};

use http_front::{path_of, query_of};
use std::alloc::Global;
use vb_value::{Memory, Text};

/// A path and its query have fewer characters and bytes than this, together.
const TARGET_LIMIT: usize = 1 << 24;

/// The normal path that the word names, if it is the target of a request from its path on.
pub fn target_path(alloc: Global, target: &[u8]) -> Result<Option<Text>, Memory>
    ensures { IfOk result (IsTargetPath target.now) }
{
    if target.first() != Some(&b'/') {
        return Ok(None);
    }
    match path_of(alloc, target)? {
        Some(path) if is_short(&path, query_of(target)) => Ok(Some(path)),
        _ => Ok(None),
    }
}

/// Whether a request may have this path and this query.
fn is_short(path: &Text, query: &[u8]) -> bool
    ensures { IsTrue result ↔ (length path.now + length query.now < 2 ^ 24) }
{
    path.len().saturating_add(query.len()) < TARGET_LIMIT
}
