//! What lane 0 brings to a host while other lanes work there: the items of a recording, and the Stop.
#![tactic(auto)]

ghost use Rattle.std.specs.Prelude.{◌≡◌, ◌∷◌, [], List, Option, ℕ, Err, true};
ghost use Rattle.asp_desk.specs.Hands.{rules_at};
ghost use Rattle.asp_record.specs.declared.recording.Item.{Item as ItemView};
ghost use Rattle.asp_record.specs.Recorded as recorded;
ghost use Rattle.asp_feed.specs.Feeding.{Clients as ClientsView, is_calm};
ghost use Rattle.asp_replay.specs.Near as spec;

use crate::coming::note;
use crate::stop::FeedStop;
use asp_desk::{Hand, Host};
use asp_feed::{Clients, job_of, reserve_one};
use asp_job::Runner;
use asp_record::Item;
use std::alloc::Global;
use std::sync::Wait;

/// A client's request comes.
fn bring_request<Rt: Wait, R: Runner>(
    rt: &Rt,
    alloc: Global,
    host: &Host<R>,
    hand: &mut Hand<R>,
    clients: &mut Clients,
    client: u32,
    moment: u64,
    bytes: &[u8],
) -> Result<(), FeedStop>
    requires lead { spec.IsLead R.meaning R.stands host.now hand.old }
    requires one { recorded.IsOneRequest bytes.now }
    requires due { spec.IsBorneOut (rules_at R.meaning host.now) (spec.past_in hand.old)
        → spec.IsDue (rules_at R.meaning host.now) (spec.past_in hand.old) moment }
    ensures lead { spec.IsLead R.meaning R.stands host.now hand.new }
    ensures run { hand.new.run ≡ hand.old.run }
    ensures near { spec.BringsNear result (rules_at R.meaning host.now) (spec.past_in hand.old) (spec.past_in hand.new)
        clients.old.entries clients.new.entries (Item.Request client moment bytes.now) }
    ensures borne { spec.IsBorneOut (rules_at R.meaning host.now) (spec.past_in hand.new)
        → spec.IsBorneOut (rules_at R.meaning host.now) (spec.past_in hand.old) }
    ensures no_fault { result ≡ Err FeedStop.WriteFault → ⊥ }
{
    let job = job_of(alloc, clients, client, moment, bytes)?;
    reserve_one(clients)?;
    let told = host.admit(rt, hand, &job)?;
    note(clients, client, told);
    Ok(())
}

/// Time goes on.
fn bring_tick<Rt: Wait, R: Runner>(
    rt: &Rt,
    host: &Host<R>,
    hand: &mut Hand<R>,
    moment: u64,
) -> Result<(), FeedStop>
    requires lead { spec.IsLead R.meaning R.stands host.now hand.old }
    requires due { spec.IsBorneOut (rules_at R.meaning host.now) (spec.past_in hand.old)
        → spec.IsDue (rules_at R.meaning host.now) (spec.past_in hand.old) moment }
    ensures lead { spec.IsLead R.meaning R.stands host.now hand.new }
    ensures run { hand.new.run ≡ hand.old.run }
    ensures near { (clients : ClientsView) → spec.BringsNear result (rules_at R.meaning host.now)
        (spec.past_in hand.old) (spec.past_in hand.new) clients clients (Item.Tick moment) }
    ensures borne { spec.IsBorneOut (rules_at R.meaning host.now) (spec.past_in hand.new)
        → spec.IsBorneOut (rules_at R.meaning host.now) (spec.past_in hand.old) }
    ensures no_fault { result ≡ Err FeedStop.WriteFault → ⊥ }
{
    host.tick(rt, hand, moment)?;
    Ok(())
}

/// An item comes.
pub fn bring<Rt: Wait, R: Runner>(
    rt: &Rt,
    alloc: Global,
    host: &Host<R>,
    hand: &mut Hand<R>,
    clients: &mut Clients,
    item: &Item,
) -> Result<(), FeedStop>
    requires lead { spec.IsLead R.meaning R.stands host.now hand.old }
    requires held { recorded.IsHeld item.now }
    requires due { spec.IsBorneOut (rules_at R.meaning host.now) (spec.past_in hand.old)
        → spec.IsDue (rules_at R.meaning host.now) (spec.past_in hand.old) (recorded.moment_of item.now) }
    ensures lead { spec.IsLead R.meaning R.stands host.now hand.new }
    ensures run { hand.new.run ≡ hand.old.run }
    ensures near { spec.BringsNear result (rules_at R.meaning host.now) (spec.past_in hand.old) (spec.past_in hand.new)
        clients.old.entries clients.new.entries item.now }
    ensures borne { spec.IsBorneOut (rules_at R.meaning host.now) (spec.past_in hand.new)
        → spec.IsBorneOut (rules_at R.meaning host.now) (spec.past_in hand.old) }
    ensures no_fault { result ≡ Err FeedStop.WriteFault → ⊥ }
{
    match item {
        Item::Request {
            client,
            moment,
            bytes,
        } => bring_request(
            rt,
            alloc,
            host,
            hand,
            clients,
            *client,
            *moment,
            bytes.as_slice(),
        ),
        Item::Tick { moment } => bring_tick(rt, host, hand, *moment),
    }
}

/// The host stops, where no run waits and none is unfinished. After a Stop it changes nothing.
pub fn bring_stop<Rt: Wait, R: Runner>(
    rt: &Rt,
    host: &Host<R>,
    hand: &mut Hand<R>,
) -> Result<(), FeedStop>
    requires lead { spec.IsLead R.meaning R.stands host.now hand.old }
    requires calm { spec.IsBorneOut (rules_at R.meaning host.now) (spec.past_in hand.old)
        → is_calm (spec.past_in hand.old) ≡ true }
    ensures lead { spec.IsLead R.meaning R.stands host.now hand.new }
    ensures run { hand.new.run ≡ hand.old.run }
    ensures near { (items : List ItemView) (clients : ClientsView) (before held : Option (List ℕ))
        → spec.IsBorneOut (rules_at R.meaning host.now) (spec.past_in hand.new)
        → spec.IsNear (rules_at R.meaning host.now) items (spec.past_in hand.old) clients [] before held
        → spec.NearAfter result (rules_at R.meaning host.now) items (spec.past_in hand.new) clients [] before held }
    ensures borne { spec.IsBorneOut (rules_at R.meaning host.now) (spec.past_in hand.new)
        → spec.IsBorneOut (rules_at R.meaning host.now) (spec.past_in hand.old) }
    ensures no_fault { result ≡ Err FeedStop.WriteFault → ⊥ }
{
    host.stop(rt, hand)?;
    Ok(())
}
