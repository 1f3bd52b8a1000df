//! How many different sessions had runs that began.
ghost use Rattle.std.specs.Prelude.{◌≡◌, [], OnOk, reverse};
ghost use Rattle.vb_value.specs.Outcome.{Gives};
ghost use Rattle.indexmap.specs.IndexSet.{index_set_len};
ghost use Rattle.asp_summary.specs.Counted as spec;
ghost use Rattle.asp_summary.specs.Gathered as gathered;

use asp_job::{Entry, What};
use indexmap::IndexSet;
use std::alloc::Global;
use vb_value::Memory;

/// The session number that the entry tells; 0 for none.
fn serial_in(what: &What) -> u32
    ensures { result ≡ spec.serial_in what.now }
{
    match what {
        What::Begin { serial, .. } => *serial,
        _ => 0,
    }
}

/// Adds a session number above 0.
#[tactic(auto, using(crate::proofs::Serials::none_more, crate::proofs::Serials::one_more))]
fn add(serials: &mut IndexSet<u32>, serial: u32) -> Result<(), Memory>
    ensures { OnOk result (gathered.IsWith serial serials.old serials.new) }
{
    if serial == 0 {
        return Ok(());
    }
    serials.insert(serial)?;
    Ok(())
}

/// Adds the session numbers of the Begin entries.
fn add_all(serials: &mut IndexSet<u32>, journal: &[Entry]) -> Result<(), Memory>
    requires { gathered.Holds [] serials.old }
    ensures { OnOk result (gathered.Holds (spec.serials_in (reverse journal.now)) serials.new) }
{
    for entry in journal {
        add(serials, serial_in(&entry.what))?;
    }
    Ok(())
}

/// How many there are.
fn count_of(serials: &IndexSet<u32>) -> Result<u32, Memory>
    ensures { Gives result (index_set_len serials.now) }
{
    let count = serials.len();
    if count <= u32::MAX as usize {
        Ok(count as u32)
    } else {
        Err(Memory)
    }
}

/// How many different session numbers above 0 stand in the Begin entries.
#[tactic(auto, using(crate::proofs::Serials::none_held, crate::proofs::Serials::counted))]
pub fn count_sessions(alloc: Global, journal: &[Entry]) -> Result<u32, Memory>
    ensures { Gives result (spec.sessions_in (reverse journal.now)) }
{
    let mut serials = IndexSet::new(alloc);
    add_all(&mut serials, journal)?;
    count_of(&serials)
}
