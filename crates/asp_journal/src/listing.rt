//! The list of the runs that wait or are unfinished.
#![tactic(auto)]

ghost use Rattle.std.specs.Prelude.{◌≡◌, ◌<◌, ◌≤◌, ◌+◌, ◌==◌, not, filter, vec_len, vec_capacity};
ghost use Rattle.asp_journal.specs.Tables as spec;

use asp_job::What;

fn without(listed: &mut Vec<u32>, run: u32)
    ensures items { listed.new.items ≡ filter (λ r. not (r == run)) listed.old.items }
    ensures capacity { vec_capacity listed.new ≡ vec_capacity listed.old }
    ensures few { vec_len listed.new ≤ vec_len listed.old }
{
    listed.retain(|other| *other != run);
}

/// The list after an entry.
pub fn list(listed: &mut Vec<u32>, what: &What)
    requires room { vec_len listed.old < vec_capacity listed.old }
    ensures items { listed.new.items ≡ spec.open_after what.now listed.old.items }
    ensures capacity { vec_capacity listed.new ≡ vec_capacity listed.old }
    ensures few { vec_len listed.new ≤ vec_len listed.old + 1 }
{
    match what {
        What::Queue { run, .. } | What::Admit { run, .. } => listed.push_reserved(*run),
        What::End { run, .. } => without(listed, *run),
        _ => {}
    }
}
