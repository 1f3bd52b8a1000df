//! The borders of a pattern, by which a search goes on after a partial match (Knuth, Morris and Pratt).
ghost use Rattle.std.specs.Prelude.{IfOk};
ghost use Rattle.vb_strings.specs.Borders as spec;

use crate::comparing::{Comparison, same};
use std::alloc::Global;
use vb_value::{List, Memory};

/// The longest border of each beginning of the pattern, the shortest beginning first. The work is linear in the
/// pattern's length: each step moves the place that is looked at, or the place from which characters agree, on.
pub fn borders(
    alloc: Global,
    comparison: Comparison,
    pattern: &[char],
) -> Result<List<usize>, Memory>
    ensures { IfOk result (λ borders. spec.AreBorders comparison pattern.now borders) }
{
    let mut borders = List::with_capacity(alloc, pattern.len())?;
    if pattern.is_empty() {
        return Ok(borders);
    }
    borders.push(0)?;
    let mut start = 1;
    let mut matched = 0;
    while start + matched < pattern.len() {
        if same(comparison, pattern[start + matched], pattern[matched]) {
            matched += 1;
            borders.push(matched)?;
        } else if matched == 0 {
            borders.push(0)?;
            start += 1;
        } else {
            let border = borders.as_slice()[matched - 1];
            start += matched - border;
            matched = border;
        }
    }
    Ok(borders)
}
