//! The members of Session.
ghost use Rattle.std.specs.Prelude.{◌≡◌, ◌≤◌, [], IfOk};
ghost use Rattle.vb_value.specs.Outcome.{Answers, Runs};
ghost use Rattle.vb_syntax.specs.Asking.{stops};
ghost use Rattle.asp_job.specs.Calls.{IsShared};
ghost use Rattle.asp_objects.specs.Choosing as choosing;
ghost use Rattle.asp_objects.specs.Given as given;
ghost use Rattle.asp_objects.specs.Said.{told, using_it, became};
ghost use Rattle.asp_objects.specs.SessionMembers as spec;

use crate::choosing::{Chosen, choose, shared};
use crate::given::{copy_texts, count, failed, item_at, long_in};
use crate::objects::PageObjects;
use crate::session::HeldSession;
use std::alloc::Global;
use vb_syntax::{AskStop, ContentsPart, Given};
use vb_value::{Text, Value, VbError};

/// A number of minutes that a session may last.
fn minutes(number: i32) -> Result<u32, AskStop>
    ensures minutes { result ≡ spec.minutes number }
    ensures least { IfOk result (λ minutes. 1 ≤ minutes) }
    ensures most { IfOk result (λ minutes. minutes ≤ 1440) }
{
    if 1 <= number && number <= 1440 {
        Ok(number as u32)
    } else {
        Err(failed(VbError::INVALID_CALL))
    }
}

fn minutes_in(value: &Value) -> Result<u32, AskStop>
    ensures minutes { result ≡ given.and_then (given.long_in value.now) spec.minutes }
    ensures least { IfOk result (λ minutes. 1 ≤ minutes) }
    ensures most { IfOk result (λ minutes. minutes ≤ 1440) }
{
    let number = long_in(value)?;
    minutes(number)
}

impl HeldSession {
    /// The name of the entry that a value means.
    fn name_of(&self, alloc: Global, key: &Value) -> Result<Text, AskStop>
        ensures { Answers result AskStop.Memory (spec.name_of self.now.values key.now) }
    {
        let which = choose(alloc, key)?;
        self.name_in(which)
    }

    fn read(&self, alloc: Global, key: &Value) -> Result<Given, AskStop>
        ensures { Answers result AskStop.Memory (spec.item_read key.now self.now) }
    {
        let name = self.name_of(alloc, key)?;
        Ok(Given::Value(self.value(alloc, &name)?))
    }

    fn key(&self, alloc: Global, index: &Value) -> Result<Given, AskStop>
        ensures { Answers result AskStop.Memory
            (given.and_then (given.long_in index.now) (given.item_at (spec.names_in self.now))) }
    {
        let place = long_in(index)?;
        let names = self.names(alloc)?;
        item_at(names.as_slice(), place)
    }

    /// What Contents answers that changes nothing.
    #[tactic(auto, unfolding(crate::specs::SessionMembers::contents_read))]
    fn contents_read(
        &self,
        alloc: Global,
        part: ContentsPart,
        arguments: &[Value],
    ) -> Result<Given, AskStop>
        ensures { Answers result AskStop.Memory (spec.contents_read part arguments.now self.now) }
    {
        match (part, arguments) {
            (ContentsPart::Item, [key]) => self.read(alloc, key),
            (ContentsPart::Count, []) => count(self.len()),
            (ContentsPart::Key, [index]) => self.key(alloc, index),
            (ContentsPart::Names, []) => Ok(Given::Names(self.names(alloc)?)),
            _ => Err(failed(VbError::OBJECT_REQUIRED)),
        }
    }

    fn write_chosen(&mut self, which: Chosen, value: Value) -> Result<Given, AskStop>
        requires chosen { choosing.IsChosen which }
        requires value { IsShared value }
        ensures { Runs result stops self.new
            (using_it (spec.name_in self.old.values which) (λ name. spec.stored name value) self.old) }
    {
        match self.name_in(which) {
            Ok(name) => self.store(name, value),
            Err(AskStop::Error(number)) => Err(AskStop::Error(number)),
            Err(AskStop::PageStop) => Err(AskStop::PageStop),
            Err(AskStop::Limit(kind)) => Err(AskStop::Limit(kind)),
            Err(AskStop::Memory) => Err(AskStop::Memory),
        }
    }

    fn write_value(&mut self, alloc: Global, which: Chosen, what: &Value) -> Result<Given, AskStop>
        requires { choosing.IsChosen which }
        ensures { Runs result stops self.new (using_it (choosing.shared what.now) (λ kept.
            using_it (spec.name_in self.old.values which) (λ name. spec.stored name kept)) self.old) }
    {
        match shared(alloc, what) {
            Ok(value) => self.write_chosen(which, value),
            Err(AskStop::Error(number)) => Err(AskStop::Error(number)),
            Err(AskStop::PageStop) => Err(AskStop::PageStop),
            Err(AskStop::Limit(kind)) => Err(AskStop::Limit(kind)),
            Err(AskStop::Memory) => Err(AskStop::Memory),
        }
    }

    fn write(&mut self, alloc: Global, key: &Value, what: &Value) -> Result<Given, AskStop>
        ensures { Runs result stops self.new (spec.item_written key.now what.now self.old) }
    {
        match choose(alloc, key) {
            Ok(which) => self.write_value(alloc, which, what),
            Err(AskStop::Error(number)) => Err(AskStop::Error(number)),
            Err(AskStop::PageStop) => Err(AskStop::PageStop),
            Err(AskStop::Limit(kind)) => Err(AskStop::Limit(kind)),
            Err(AskStop::Memory) => Err(AskStop::Memory),
        }
    }

    fn take_away(&mut self, alloc: Global, key: &Value) -> Result<Given, AskStop>
        ensures { Runs result stops self.new (spec.removed key.now self.old) }
    {
        match self.name_of(alloc, key) {
            Ok(name) => {
                self.remove(&name);
                Ok(Given::Value(Value::Empty))
            }
            Err(AskStop::Error(number)) => Err(AskStop::Error(number)),
            Err(AskStop::PageStop) => Err(AskStop::PageStop),
            Err(AskStop::Limit(kind)) => Err(AskStop::Limit(kind)),
            Err(AskStop::Memory) => Err(AskStop::Memory),
        }
    }

    fn clear_all(&mut self) -> Result<Given, AskStop>
        ensures { Runs result stops self.new (became (spec.with_values [] self.old)) }
    {
        self.clear();
        Ok(Given::Value(Value::Empty))
    }

    fn ask_read(
        &mut self,
        alloc: Global,
        part: ContentsPart,
        arguments: &[Value],
    ) -> Result<Given, AskStop>
        ensures { Runs result stops self.new (told (spec.contents_read part arguments.now self.old) self.old) }
    {
        match self.contents_read(alloc, part, arguments) {
            Ok(given) => Ok(given),
            Err(AskStop::Error(number)) => Err(AskStop::Error(number)),
            Err(AskStop::PageStop) => Err(AskStop::PageStop),
            Err(AskStop::Limit(kind)) => Err(AskStop::Limit(kind)),
            Err(AskStop::Memory) => Err(AskStop::Memory),
        }
    }

    /// What Contents answers.
    #[tactic(auto, unfolding(crate::specs::SessionMembers::contents))]
    pub(crate) fn contents(
        &mut self,
        alloc: Global,
        part: ContentsPart,
        arguments: &[Value],
    ) -> Result<Given, AskStop>
        ensures { Runs result stops self.new (spec.contents part arguments.now self.old) }
    {
        match (part, arguments) {
            (ContentsPart::Item, [key, what]) => self.write(alloc, key, what),
            (ContentsPart::Remove, [key]) => self.take_away(alloc, key),
            (ContentsPart::RemoveAll, []) => self.clear_all(),
            _ => self.ask_read(alloc, part, arguments),
        }
    }

    fn write_timeout(&mut self, value: &Value) -> Result<Given, AskStop>
        ensures { Runs result stops self.new
            (using_it (given.and_then (given.long_in value.now) spec.minutes) spec.lasting self.old) }
    {
        match minutes_in(value) {
            Ok(minutes) => {
                self.set_timeout(minutes);
                Ok(Given::Value(Value::Empty))
            }
            Err(AskStop::Error(number)) => Err(AskStop::Error(number)),
            Err(AskStop::PageStop) => Err(AskStop::PageStop),
            Err(AskStop::Limit(kind)) => Err(AskStop::Limit(kind)),
            Err(AskStop::Memory) => Err(AskStop::Memory),
        }
    }

    /// Timeout is read, or set.
    fn ask_timeout(&mut self, arguments: &[Value]) -> Result<Given, AskStop>
        ensures { Runs result stops self.new (spec.timeout arguments.now self.old) }
    {
        match arguments {
            [] => Ok(Given::Value(Value::Long(self.timeout()))),
            [minutes] => self.write_timeout(minutes),
            _ => Err(failed(VbError::OBJECT_REQUIRED)),
        }
    }
}

impl PageObjects {
    /// What Contents of the session answers.
    pub(crate) fn ask_contents(
        &mut self,
        part: ContentsPart,
        arguments: &[Value],
    ) -> Result<Given, AskStop>
        ensures { Runs result stops self.new (spec.session_asked (spec.contents part arguments.now) self.old) }
    {
        let alloc = self.alloc();
        match &mut self.session {
            Some(session) => match session.contents(alloc, part, arguments) {
                Ok(given) => Ok(given),
                Err(AskStop::Error(number)) => Err(AskStop::Error(number)),
                Err(AskStop::PageStop) => Err(AskStop::PageStop),
                Err(AskStop::Limit(kind)) => Err(AskStop::Limit(kind)),
                Err(AskStop::Memory) => Err(AskStop::Memory),
            },
            None => Err(failed(VbError::OBJECT_REQUIRED)),
        }
    }

    /// SessionID.
    pub(crate) fn ask_serial(&mut self) -> Result<Given, AskStop>
        ensures { Runs result stops self.new (spec.session_asked spec.serial self.old) }
    {
        match &self.session {
            Some(session) => Ok(Given::Value(Value::Long(session.serial()))),
            None => Err(failed(VbError::OBJECT_REQUIRED)),
        }
    }

    /// Timeout of the session is read, or set.
    pub(crate) fn ask_lasting(&mut self, arguments: &[Value]) -> Result<Given, AskStop>
        ensures { Runs result stops self.new (spec.session_asked (spec.timeout arguments.now) self.old) }
    {
        match &mut self.session {
            Some(session) => match session.ask_timeout(arguments) {
                Ok(given) => Ok(given),
                Err(AskStop::Error(number)) => Err(AskStop::Error(number)),
                Err(AskStop::PageStop) => Err(AskStop::PageStop),
                Err(AskStop::Limit(kind)) => Err(AskStop::Limit(kind)),
                Err(AskStop::Memory) => Err(AskStop::Memory),
            },
            None => Err(failed(VbError::OBJECT_REQUIRED)),
        }
    }

    /// Abandon.
    pub(crate) fn abandon(&mut self) -> Result<Given, AskStop>
        ensures { Runs result stops self.new (spec.abandoned self.old) }
    {
        match &self.session {
            Some(_) => {
                self.is_abandoned = true;
                Ok(Given::Value(Value::Empty))
            }
            None => Err(failed(VbError::OBJECT_REQUIRED)),
        }
    }
}
