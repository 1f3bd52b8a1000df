//! What the program says of a recording that was not replayed.
ghost use Rattle.std.specs.Prelude.{◌≡◌, ◌++◌, IfOk, codes, decimal};
ghost use Rattle.std.specs.String.{string_bytes};
ghost use Rattle.vb_value.specs.Outcome.{Gives};
ghost use Rattle.asp_host.specs.Status as spec;

use crate::fail_text::ascii;
use asp_journal::Full;
use std::alloc::Global;
use vb_value::{Memory, Text};

fn refused_string(alloc: Global, offset: u64) -> Result<String, Memory>
    ensures { IfOk result (λ text. string_bytes text ≡ spec.refused_text_of offset) }
{
    Ok(format!(in alloc; "recording refused at byte {offset}")?)
}

/// What is said of a recording that was refused.
pub fn refused_text(alloc: Global, offset: u64) -> Result<Text, Memory>
    ensures { Gives result (spec.refused_text_of offset) }
{
    let text = refused_string(alloc, offset)?;
    ascii(alloc, text.as_bytes())
}

fn full_string(alloc: Global, full: Full) -> Result<String, Memory>
    ensures { IfOk result (λ text. string_bytes text ≡ spec.full_text_of full) }
{
    let Full { entries, weight } = full;
    Ok(format!(in alloc; "journal full: {entries} entries, {weight} bytes")?)
}

/// What is said of a journal that was full.
pub fn full_text(alloc: Global, full: Full) -> Result<Text, Memory>
    ensures { Gives result (spec.full_text_of full) }
{
    let text = full_string(alloc, full)?;
    ascii(alloc, text.as_bytes())
}
