//! The session keys of a site.
ghost use Rattle.std.specs.Prelude.{◌≡◌, ◌≢◌, ◌<◌, ◌≤◌, ◌+◌, IfOk, IfSome, IsOk, OnOk, Err, length, nat_lt, not};
ghost use Rattle.std.specs.Option.{option_copied};
ghost use Rattle.vb_value.specs.Outcome.{Answers, Changes, Gives};
ghost use Rattle.asp_job.specs.Session.{IsSession};
ghost use Rattle.asp_session.specs.declared.after.After.TheVariants as left;
ghost use Rattle.asp_session.specs.Account as account;
ghost use Rattle.asp_session.specs.Steps as step;

use crate::after::After;
use crate::cookie::key_of_letters;
use crate::key::{KeyState, Waiter};
use crate::keys::{self, Keys};
use crate::stop::KeyStop;
use crate::waiting;
use asp_job::{MOST_LIVE, SessionState, copy_session};
use indexmap::IndexMap;
use std::alloc::Global;
use std::marker::Model;
use vb_value::{List, Memory};

/// The session keys of a site: those that are live, each with its session, and the runs that wait for them (ASP 3.0,
/// "Session Object").
#[derive(Drop)]
pub struct Sessions {
    seed: [u8; 32],
    keys: Keys,
    waiting: Vec<Waiter>,
    made: u32,
    opened: u32,
}

impl Model for Sessions {
    ghost use Rattle.std.specs.Coded.{codes};
    ghost use Rattle.asp_job.specs.contracts.session.SessionState as session;
    ghost use Rattle.asp_session.specs.Account.{WithRoom};

    ghost Value = { WithRoom };

    ghost coded = { Prim.hlevel (codes, session.the_row.coded) };

    ghost use Rattle.asp_session.specs.Kept.{view_of, AreKeys};

    ghost view = { view_of };

    ghost invariant = { AreKeys };
}

impl Sessions {
    /// Without keys. Their letters come from the seed.
    pub fn new(alloc: Global, seed: [u8; 32]) -> Sessions
        ensures { result.account ≡ account.first_account seed }
    {
        Sessions {
            seed,
            keys: IndexMap::new(alloc),
            waiting: Vec::new(alloc),
            made: 0,
            opened: 0,
        }
    }

    /// The key that may be asked for and whose letters are these.
    pub fn find(&self, cookie: &[u8]) -> Option<u32>
        ensures { result ≡ account.found cookie.now self.now.account }
    {
        let key = key_of_letters(&self.seed, cookie)?;
        if self.askable(key) { Some(key) } else { None }
    }

    /// Whether a key may be asked for: it is live, and no run for the end of its session was ever queued.
    pub fn askable(&self, key: u32) -> bool
        ensures { result ≡ account.is_askable key self.now.account }
    {
        match self.keys.get(&key) {
            Some(state) => !state.closing,
            None => false,
        }
    }

    /// Whether as many keys are live as may be.
    pub fn is_full(&self) -> bool
        ensures { result ≡ not (nat_lt (length self.now.account.keys) step.most_live) }
    {
        self.keys.len() >= MOST_LIVE as usize
    }

    /// The session of the key, if it has one.
    pub fn session(&self, key: u32) -> Option<&SessionState>
        ensures session { option_copied result ≡ step.session_of key self.now.account }
        ensures may { IfSome (option_copied result) IsSession }
    {
        keys::session_of(&self.keys, key)
    }

    /// The live keys, in order.
    pub fn live(&self, alloc: Global) -> Result<List<u32>, Memory>
        ensures { Gives result (account.live self.now.account) }
    {
        keys::live(alloc, &self.keys)
    }

    /// How many keys were made.
    pub fn made(&self) -> u32
        ensures { result ≡ self.now.account.made }
    {
        self.made
    }

    /// How many sessions were opened.
    pub fn opened(&self) -> u32
        ensures { result ≡ self.now.account.opened }
    {
        self.opened
    }

    /// Makes a key for a job that is admitted at the moment, in seconds since 1970.
    pub fn add_key(&mut self, moment: u64) -> Result<u32, KeyStop>
        requires few { self.old.account.made < 2147483647 }
        ensures key { Answers result KeyStop.Memory (step.added_key self.old.account) }
        ensures account { Changes result self.old.account self.new.account (step.with_key moment self.old.account) }
        ensures memory { 0 < self.old.key_room → result ≢ Err KeyStop.Memory }
        ensures key_room { self.old.key_room ≤ self.new.key_room + 1 }
        ensures run_room { self.new.run_room ≡ self.old.run_room }
    {
        if self.keys.len() >= MOST_LIVE as usize {
            return Err(KeyStop::Full);
        }
        let state = KeyState {
            session: None,
            asked: moment,
            running: false,
            closing: false,
        };
        match self.keys.insert(self.made + 1, state) {
            Ok(_) => {
                self.made += 1;
                Ok(self.made)
            }
            Err(_) => Err(KeyStop::Memory),
        }
    }

    /// A job was admitted for the key at the moment, in seconds since 1970.
    pub fn touch(&mut self, key: u32, moment: u64)
        ensures account { self.new.account ≡ step.touched key moment self.old.account }
        ensures key_room { self.old.key_room ≤ self.new.key_room }
        ensures run_room { self.new.run_room ≡ self.old.run_room }
    {
        keys::touch(&mut self.keys, key, moment);
    }

    /// A run of the key waits from now on. One for the end of the session is the `last`: the key can't be asked for any
    /// more.
    pub fn queue(&mut self, key: u32, run: u32, last: bool) -> Result<(), Memory>
        ensures account { Changes result self.old.account self.new.account (step.queued key run last self.old.account) }
        ensures memory { 0 < self.old.run_room → IsOk result }
        ensures run_room { self.old.run_room ≤ self.new.run_room + 1 }
        ensures key_room { self.old.key_room ≤ self.new.key_room }
    {
        self.waiting.push(Waiter { key, run, last })?;
        keys::bar(&mut self.keys, key, last);
        Ok(())
    }

    /// The number of the session that the next run of the key begins with, 0 for none, and a copy of it where the key has
    /// one. Without one a page opens a session of that number.
    pub fn peek(&self, alloc: Global, key: u32) -> Result<(u32, Option<SessionState>), Memory>
        requires few { self.now.account.opened < 2147483647 }
        ensures given { Gives result (step.begins_with key self.now.account) }
        ensures session { IfOk result (λ given. IfSome given.1 IsSession) }
    {
        match keys::session_of(&self.keys, key) {
            Some(session) => Ok((session.serial, Some(copy_session(alloc, session)?))),
            None => {
                if waiting::ends_next(&self.waiting, key) {
                    Ok((0, None))
                } else {
                    Ok((self.opened + 1, None))
                }
            }
        }
    }

    /// The first run that waits for the key begins. It gives what `peek` gives.
    pub fn begin(&mut self, alloc: Global, key: u32) -> Result<(u32, Option<SessionState>), Memory>
        requires few { self.old.account.opened < 2147483647 }
        ensures given { Gives result (step.begins_with key self.old.account) }
        ensures session { IfOk result (λ given. IfSome given.1 IsSession) }
        ensures account { Changes result self.old.account self.new.account (step.after_begin key self.old.account) }
    {
        let given = self.peek(alloc, key)?;
        self.start(key);
        Ok(given)
    }

    /// The first run that waits for the key begins, and is given nothing. It takes no memory.
    pub fn start(&mut self, key: u32)
        requires few { self.old.account.opened < 2147483647 }
        ensures { self.new.account ≡ step.after_begin key self.old.account }
    {
        let opens = self.session(key).is_none() && !waiting::ends_next(&self.waiting, key);
        let opened = if opens { self.opened + 1 } else { self.opened };
        self.opened = opened;
        keys::begin(&mut self.keys, key);
        waiting::take_first(&mut self.waiting, key);
    }

    /// The unfinished run of the key ends. A key without a session that no run waits for is forgotten.
    pub fn end(&mut self, key: u32, after: After)
        requires { (session : SessionState) → after ≡ left.Now (Some session) → IsSession session }
        ensures { self.new.account ≡ step.after_end key after self.old.account }
    {
        keys::finish(&mut self.keys, key, after);
        keys::forget(&mut self.keys, key, &self.waiting);
    }

    /// The keys whose sessions are over at the moment, in seconds since 1970: no run of theirs waits or is unfinished, and
    /// their last job was admitted as many minutes before as their timeout says.
    pub fn due(&self, alloc: Global, moment: u64) -> Result<List<u32>, Memory>
        ensures { Gives result (account.due moment self.now.account) }
    {
        keys::due(alloc, &self.keys, &self.waiting, moment)
    }

    /// Makes room, so that the next so many calls of `add_key` and of `queue` take no memory.
    pub fn room(&mut self, keys: u32, runs: u32) -> Result<(), Memory>
        ensures account { self.new.account ≡ self.old.account }
        ensures keys { OnOk result (keys ≤ self.new.key_room) }
        ensures runs { OnOk result (runs ≤ self.new.run_room) }
    {
        self.keys.reserve(keys as usize)?;
        self.waiting.reserve(runs as usize)?;
        Ok(())
    }
}
