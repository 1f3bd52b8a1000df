//! What entries make of the session keys. None of it takes memory.
#![tactic(auto)]

ghost use Rattle.std.specs.Prelude.{◌≡◌, ◌+◌, ◌<◌, ◌≤◌, length, false, true};
ghost use Rattle.asp_job.specs.Keys.{makes_key};
ghost use Rattle.asp_session.specs.Steps.{after_begin, most_live, queued};
ghost use Rattle.asp_core.specs.Kernel.{IsSessionIn};
ghost use Rattle.asp_core.specs.Sessions as spec;

use asp_job::{EndKind, Entry, SessionState, What, Work};
use asp_session::{After, Sessions};

/// A run of the key waits from now on; one of no key is none of theirs.
fn queue_key(sessions: &mut Sessions, key: u32, run: u32, last: bool)
    requires room { 0 < sessions.old.run_room }
    ensures account { sessions.new.account
        ≡ spec.if_keyed key sessions.old.account (queued key run last sessions.old.account) }
    ensures room { sessions.old.run_room ≤ sessions.new.run_room + 1 }
    ensures key_room { sessions.old.key_room ≤ sessions.new.key_room }
{
    if key != 0 {
        match sessions.queue(key, run, last) {
            Ok(()) => {}
            Err(_) => unreachable!(),
        }
    }
}

/// The entry queues a run, or is none of theirs.
fn queue_run(sessions: &mut Sessions, what: &What)
    requires room { 0 < sessions.old.run_room }
    ensures account { sessions.new.account ≡ spec.account_queued what.now sessions.old.account }
    ensures room { sessions.old.run_room ≤ sessions.new.run_room + 1 }
    ensures key_room { sessions.old.key_room ≤ sessions.new.key_room }
{
    if let What::Queue { run, work, key } = what {
        queue_key(sessions, *key, *run, matches!(work, Work::SessionEnd));
    }
}

/// The entries queue runs, or are none of theirs.
#[tactic(auto, using(crate::proofs::Growing::closed_first))]
pub fn queue_runs(sessions: &mut Sessions, entries: &[Entry])
    requires room { length entries.now ≤ sessions.old.run_room }
    ensures account { sessions.new.account ≡ spec.account_closed entries.now sessions.old.account }
    ensures room { sessions.old.run_room ≤ sessions.new.run_room + length entries.now }
    ensures key_room { sessions.old.key_room ≤ sessions.new.key_room }
{
    for entry in entries {
        queue_run(sessions, &entry.what);
    }
}

/// A job comes with a key that is made for it, or with the one that it asked for.
fn ask_key(sessions: &mut Sessions, key: u32, fresh: bool, moment: u64)
    requires made { sessions.old.account.made < 2147483647 }
    requires free { fresh ≡ true → length sessions.old.account.keys < most_live }
    requires room { 0 < sessions.old.key_room }
    ensures account { sessions.new.account ≡ spec.asked_for key fresh moment sessions.old.account }
    ensures run_room { sessions.new.run_room ≡ sessions.old.run_room }
{
    if fresh {
        match sessions.add_key(moment) {
            Ok(_) => {}
            Err(_) => unreachable!(),
        }
    } else {
        sessions.touch(key, moment);
    }
}

/// A job of the key comes under the number of its run; one of no key is none of theirs.
fn ask_keyed(sessions: &mut Sessions, run: u32, key: u32, fresh: bool, moment: u64)
    requires made { sessions.old.account.made < 2147483647 }
    requires free { fresh ≡ true → length sessions.old.account.keys < most_live }
    requires key_room { 0 < sessions.old.key_room }
    requires run_room { 0 < sessions.old.run_room }
    ensures { sessions.new.account ≡ spec.if_keyed key sessions.old.account
        (queued key run false (spec.asked_for key fresh moment sessions.old.account)) }
{
    if key != 0 {
        ask_key(sessions, key, fresh, moment);
        match sessions.queue(key, run, false) {
            Ok(()) => {}
            Err(_) => unreachable!(),
        }
    }
}

/// A job comes; one that is refused is none of theirs.
pub fn ask(sessions: &mut Sessions, what: &What)
    requires made { sessions.old.account.made < 2147483647 }
    requires free { makes_key what.now ≡ true → length sessions.old.account.keys < most_live }
    requires key_room { 0 < sessions.old.key_room }
    requires run_room { 0 < sessions.old.run_room }
    ensures { sessions.new.account ≡ spec.account_admitted what.now sessions.old.account }
{
    if let What::Admit {
        run,
        key,
        fresh,
        job,
    } = what
    {
        ask_keyed(sessions, *run, *key, *fresh, job.moment);
    }
}

/// A run of the key begins; one of no key is none of theirs.
pub fn start_key(sessions: &mut Sessions, key: u32)
    requires { sessions.old.account.opened < 2147483647 }
    ensures { sessions.new.account ≡ spec.if_keyed key sessions.old.account (after_begin key sessions.old.account) }
{
    if key != 0 {
        sessions.start(key);
    }
}

/// What a run leaves of its session that ends so.
fn after_of(kind: EndKind, session: Option<SessionState>) -> After
    ensures { result ≡ spec.after_of kind session }
{
    match kind {
        EndKind::Done => After::Now(session),
        EndKind::Memory | EndKind::JournalFull => After::Kept,
    }
}

/// A run of the key ends and leaves the session; one of no key is none of theirs.
pub fn end_key(sessions: &mut Sessions, key: u32, kind: EndKind, session: Option<SessionState>)
    requires { IsSessionIn session }
    ensures { sessions.new.account ≡ spec.account_ended key (spec.after_of kind session) sessions.old.account }
{
    let after = after_of(kind, session);
    if key != 0 {
        sessions.end(key, after);
    }
}
