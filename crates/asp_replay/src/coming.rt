//! What comes to a host from outside: the items of a recording, and the Stop.
#![tactic(auto)]

ghost use Rattle.std.specs.Prelude.{◌≡◌, is_some, ◌<◌, Err, true, false, OnOk, OnErr};
ghost use Rattle.indexmap.specs.IndexMap.{spare};
ghost use Rattle.asp_job.specs.declared.answer.Fail.{Fail};
ghost use Rattle.asp_job.specs.declared.entry.What.{What};
ghost use Rattle.asp_job.specs.Journal.{stop_entries, past_after};
ghost use Rattle.asp_job.specs.Runs.{is_stopping};
ghost use Rattle.asp_journal.specs.declared.full.Full.{Full};
ghost use Rattle.asp_core.specs.Drawing as drawing;
ghost use Rattle.asp_journal.specs.Telling.{end_kind};
ghost use Rattle.asp_core.specs.Kernel.{IsHostOf, IsTooMuch, grown, past_of, rules_of};
ghost use Rattle.asp_record.specs.Recorded as recorded;
ghost use Rattle.asp_feed.specs.Feeding as feeding;
ghost use Rattle.asp_replay.specs.Sequential as spec;
ghost use Rattle.asp_replay.specs.Underway as way;

use crate::stop::FeedStop;
use asp_core::{Admitted, Core};
use asp_feed::{Clients, job_of, reserve_one};
use asp_job::{MOST_WAITING, Runner};
use asp_record::Item;
use std::alloc::Global;

/// Whether no run waits and none is unfinished.
pub fn is_calm<R: Runner>(core: &Core<R>) -> bool
    ensures { result ≡ feeding.is_calm (past_of core.now) }
{
    core.waiting() == 0 && core.unfinished() == 0
}

/// The moment of an item, in seconds since 1970.
pub fn moment_of(item: &Item) -> u64
    ensures { result ≡ recorded.moment_of item.now }
{
    match item {
        Item::Request { moment, .. } => *moment,
        Item::Tick { moment } => *moment,
    }
}

/// Whether an item of this moment may come, once the first run has ended.
pub fn may_come<R: Runner>(core: &Core<R>, moment: u64) -> bool
    requires { is_some (end_kind (past_of core.now) 1) ≡ true }
    ensures { result ≡ spec.may_come (past_of core.now) moment }
{
    (moment <= core.moment() || is_calm(core)) && core.waiting_pages() < MOST_WAITING as u32
}

/// A client goes by the key that its job was admitted with.
pub(crate) fn note(clients: &mut Clients, client: u32, told: Admitted)
    requires room { 0 < spare clients.old }
    ensures { (what : What) → told ≡ drawing.told_of what →
        clients.new.entries ≡ feeding.clients_after clients.old.entries client what }
{
    if !told.refused && told.key != 0 {
        match clients.insert(client, told.key) {
            Ok(_) => {}
            Err(_) => unreachable!(),
        }
    }
}

/// A client's request comes. A refusal leaves the core.
fn come_request<R: Runner>(
    alloc: Global,
    core: &mut Core<R>,
    runner: &R,
    site: &R::Site,
    clients: &mut Clients,
    client: u32,
    moment: u64,
    bytes: &[u8],
) -> Result<(), FeedStop>
    requires host { IsHostOf core.old runner.now site.now }
    requires one { recorded.IsOneRequest bytes.now }
    ensures ok { OnOk result (way.HasGrown R.meaning core.old clients.old.entries
        (Item.Request client moment bytes.now) core.new clients.new.entries) }
    ensures full { (full : Full) → result ≡ Err (FeedStop.JournalFull full) →
        way.IsItemTooMuch (rules_of R.meaning core.old) (past_of core.old) clients.old.entries
        (Item.Request client moment bytes.now) full }
    ensures err { OnErr result (core.new ≡ core.old) }
    ensures no_fault { result ≡ Err FeedStop.WriteFault → ⊥ }
    ensures no_start { (fail : Fail) → result ≡ Err (FeedStop.StartFailed fail) → ⊥ }
{
    let job = job_of(alloc, clients, client, moment, bytes)?;
    reserve_one(clients)?;
    let told = core.admit(0, runner, site, &job)?;
    note(clients, client, told);
    Ok(())
}

/// An item comes. A refusal leaves the core.
pub fn come<R: Runner>(
    alloc: Global,
    core: &mut Core<R>,
    runner: &R,
    site: &R::Site,
    clients: &mut Clients,
    item: &Item,
) -> Result<(), FeedStop>
    requires host { IsHostOf core.old runner.now site.now }
    requires may { spec.may_come (past_of core.old) (recorded.moment_of item.now) ≡ true }
    requires going { is_stopping (past_of core.old) ≡ false }
    requires held { recorded.IsHeld item.now }
    ensures ok { OnOk result (way.HasGrown R.meaning core.old clients.old.entries item.now
        core.new clients.new.entries) }
    ensures full { (full : Full) → result ≡ Err (FeedStop.JournalFull full) →
        way.IsItemTooMuch (rules_of R.meaning core.old) (past_of core.old) clients.old.entries item.now full }
    ensures err { OnErr result (core.new ≡ core.old) }
    ensures no_fault { result ≡ Err FeedStop.WriteFault → ⊥ }
    ensures no_start { (fail : Fail) → result ≡ Err (FeedStop.StartFailed fail) → ⊥ }
{
    match item {
        Item::Request {
            client,
            moment,
            bytes,
        } => come_request(
            alloc,
            core,
            runner,
            site,
            clients,
            *client,
            *moment,
            bytes.as_slice(),
        ),
        Item::Tick { moment } => match core.tick(0, *moment) {
            Ok(_) => Ok(()),
            Err(stop) => Err(FeedStop::from(stop)),
        },
    }
}

/// The host stops. A refusal leaves the core.
pub fn stop<R: Runner>(core: &mut Core<R>) -> Result<(), FeedStop>
    requires once { is_stopping (past_of core.old) ≡ false }
    ensures ok { OnOk result (core.new ≡ grown core.old
        (stop_entries (rules_of R.meaning core.old) (past_of core.old) 0)) }
    ensures full { (full : Full) → result ≡ Err (FeedStop.JournalFull full) →
        IsTooMuch (past_after (past_of core.old) (stop_entries (rules_of R.meaning core.old) (past_of core.old) 0))
        full }
    ensures err { OnErr result (core.new ≡ core.old) }
    ensures no_fault { result ≡ Err FeedStop.WriteFault → ⊥ }
    ensures no_start { (fail : Fail) → result ≡ Err (FeedStop.StartFailed fail) → ⊥ }
{
    core.stop(0)?;
    Ok(())
}
