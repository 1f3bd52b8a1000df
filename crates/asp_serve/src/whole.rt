//! Whether a host has left nothing undone.
#![tactic(auto)]

ghost use Rattle.std.specs.Prelude.{◌≡◌, ◌↔◌, All, IsTrue, false};
ghost use Rattle.asp_core.specs.Kernel.{past_of};
ghost use Rattle.asp_serve.specs.Hosts as spec;

use asp_core::Core;
use asp_job::{EndKind, Entry, Runner, What};

/// Whether the entry ends a run for which the journal was full.
fn is_full_end(entry: &Entry) -> bool
    ensures { result ≡ spec.is_full_end entry.now.what }
{
    matches!(
        entry.what,
        What::End {
            kind: EndKind::JournalFull,
            ..
        }
    )
}

/// Whether none does.
fn none_is_full(entries: &[Entry]) -> bool
    ensures { IsTrue result ↔ All (λ entry. spec.is_full_end entry.what ≡ false) entries.now }
{
    entries.iter().all(|entry| !is_full_end(entry))
}

/// Whether no run waits, none is unfinished, and none ended because the journal was full.
pub fn is_whole<R: Runner>(core: &Core<R>) -> bool
    ensures { IsTrue result → spec.IsWhole (past_of core.now) }
{
    if core.waiting() > 0 {
        return false;
    }
    if core.unfinished() > 0 {
        return false;
    }
    none_is_full(core.journal())
}
