//! The lines of a summary.
ghost use Rattle.std.specs.Prelude.{◌≡◌, IfOk};
ghost use Rattle.std.specs.String.{string_bytes};
ghost use Rattle.asp_summary.specs.Lines as spec;

use crate::summary::Summary;
use std::alloc::Global;
use vb_value::Memory;

/// The lines of these numbers.
fn lines_of(
    alloc: Global,
    requests: u32,
    answers: u32,
    sessions: u32,
    total: i32,
) -> Result<String, Memory>
    ensures { IfOk result (λ text. string_bytes text ≡ spec.lines_of requests answers sessions total) }
{
    Ok(format!(in alloc;
        "requests {requests}\nanswers {answers}\nsessions {sessions}\ntotal {total}\n"
    )?)
}

/// The four lines of a summary.
pub fn summary_text(alloc: Global, summary: &Summary) -> Result<String, Memory>
    ensures { IfOk result (λ text. string_bytes text ≡ spec.summary_lines summary.now) }
{
    lines_of(
        alloc,
        summary.requests,
        summary.answers,
        summary.sessions,
        summary.total,
    )
}
