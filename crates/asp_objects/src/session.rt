//! The session of a page, as its acts change it.
ghost use Rattle.std.specs.Prelude.{◌≡◌, ◌≤◌, [], pos, length, IfOk};
ghost use Rattle.vb_value.specs.Outcome.{Answers, Gives, Runs};
ghost use Rattle.vb_syntax.specs.Asking.{stops};
ghost use Rattle.asp_job.specs.Calls.{IsName, IsShared};
ghost use Rattle.asp_job.specs.Session.{IsSession as MaySession};
ghost use Rattle.asp_objects.specs.Choosing.{IsChosen};
ghost use Rattle.asp_objects.specs.Entries as entries_spec;
ghost use Rattle.asp_objects.specs.SessionMembers as spec;

use crate::choosing::Chosen;
use crate::entries::{
    entry_weight, held_weight, names_of, place_of, put_at, remove_at, total_weight, value_under,
};
use crate::given::{before_place, failed};
use asp_job::{Named, SessionState, copy_session};
use std::alloc::Global;
use std::marker::Model;
use vb_syntax::{AskStop, Given};
use vb_value::{Copied, LimitKind, List, Memory, Text, Value, VbError};

/// The most that the entries of a session may weigh: 256 KiB.
const MOST_WEIGHT: u64 = 262_144;

/// A session that may be, as acts change it. Contracts see it as the session.
#[derive(Debug, Drop)]
pub struct HeldSession {
    state: SessionState,
}

impl Model for HeldSession {
    ghost use Rattle.asp_job.specs.declared.session.SessionState.{SessionState};
    ghost use Rattle.asp_job.specs.Session.{IsSession};
    ghost use Rattle.std.specs.Coded.{codes};
    ghost use Rattle.asp_job.specs.contracts.session.SessionState as session;

    ghost Value = { SessionState };

    ghost coded = { Prim.hlevel (codes, session.the_row.coded) };

    ghost view = { λ held. held.state };

    ghost invariant = { λ held. IsSession held.state };
}

impl HeldSession {
    /// The session, to be changed.
    pub fn of(state: SessionState) -> HeldSession
        requires { MaySession state }
        ensures { result ≡ state }
    {
        HeldSession { state }
    }

    /// The session as it is now.
    pub fn into_state(self) -> SessionState
        ensures same { result ≡ self }
        ensures session { MaySession result }
    {
        let HeldSession { state } = self;
        state
    }

    /// The same session once more.
    pub fn copy(&self, alloc: Global) -> Result<HeldSession, Memory>
        ensures { Gives result self.now }
    {
        Ok(HeldSession {
            state: copy_session(alloc, &self.state)?,
        })
    }

    /// Its number.
    pub(crate) fn serial(&self) -> i32
        ensures { result ≡ pos self.now.serial }
    {
        self.state.serial as i32
    }

    /// After how many minutes without a request it ends.
    pub(crate) fn timeout(&self) -> i32
        ensures { result ≡ pos self.now.timeout }
    {
        self.state.timeout as i32
    }

    /// It ends after so many minutes without a request.
    pub(crate) fn set_timeout(&mut self, minutes: u32)
        requires least { 1 ≤ minutes }
        requires most { minutes ≤ 1440 }
        ensures { self.new ≡ record self.old { timeout = minutes } }
    {
        self.state.timeout = minutes;
    }

    /// How many entries it has.
    pub(crate) fn len(&self) -> usize
        ensures { result ≡ length self.now.values }
    {
        self.state.values.len()
    }

    /// The value of a name: Empty where it is absent.
    pub(crate) fn value(&self, alloc: Global, name: &Text) -> Result<Value, Memory>
        ensures { Gives result (entries_spec.value_under name.now self.now.values) }
    {
        value_under(alloc, self.state.values.as_slice(), name)
    }

    /// The names of its entries.
    pub(crate) fn names(&self, alloc: Global) -> Result<List<Text>, Memory>
        ensures { Gives result (entries_spec.names_of self.now.values) }
    {
        names_of(alloc, self.state.values.as_slice())
    }

    /// The name of the entry that is meant.
    pub(crate) fn name_in(&self, which: Chosen) -> Result<Text, AskStop>
        requires { IsChosen which }
        ensures name { Answers result AskStop.Memory (spec.name_in self.now.values which) }
        ensures folded { IfOk result IsName }
    {
        match which {
            Chosen::Name(name) => Ok(name),
            Chosen::Place(place) => {
                let before = before_place(place)?;
                match self.state.values.get(before) {
                    Some(entry) => Ok(entry.name.copy()?),
                    None => Err(failed(VbError::OUT_OF_RANGE)),
                }
            }
        }
    }

    /// Gives a name a value, unless the session would weigh too much.
    pub(crate) fn store(&mut self, name: Text, value: Value) -> Result<Given, AskStop>
        requires name { IsName name }
        requires value { IsShared value }
        ensures { Runs result stops self.new (spec.stored name value self.old) }
    {
        let entries = self.state.values.as_slice();
        let at = place_of(entries, name.as_slice());
        let rest = total_weight(entries) - held_weight(entries, at);
        let weight = rest.saturating_add(entry_weight(&name, &value));
        if weight > MOST_WEIGHT {
            return Err(AskStop::Limit(LimitKind::Session));
        }
        match put_at(&mut self.state.values, at, Named { name, value }) {
            Ok(()) => Ok(Given::Value(Value::Empty)),
            Err(Memory) => Err(AskStop::Memory),
        }
    }

    /// Takes a name away.
    pub(crate) fn remove(&mut self, name: &Text)
        ensures { self.new ≡ spec.with_values (entries_spec.without name.now self.old.values) self.old }
    {
        let at = place_of(self.state.values.as_slice(), name.as_slice());
        remove_at(&mut self.state.values, at);
    }

    /// Takes all names away.
    pub(crate) fn clear(&mut self)
        ensures { self.new ≡ spec.with_values [] self.old }
    {
        self.state.values.truncate(0);
    }
}
