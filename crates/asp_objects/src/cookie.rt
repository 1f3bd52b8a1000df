//! The members of Response.Cookies.
ghost use Rattle.std.specs.Prelude.{◌≡◌, []};
ghost use Rattle.vb_value.specs.Outcome.{Runs};
ghost use Rattle.vb_syntax.specs.Asking.{stops};
ghost use Rattle.asp_objects.specs.Given as given;
ghost use Rattle.asp_objects.specs.ResponseMembers as spec;
ghost use Rattle.asp_objects.specs.Said.{using_it};

use crate::given::failed;
use crate::objects::PageObjects;
use asp_response::{CookiePart, DraftStop};
use vb_syntax::{AskStop, Given};
use vb_value::{Text, Value, VbError, VbFault, to_bool, to_str};

impl PageObjects {
    fn set_cookie(&mut self, name: &Text, key: &Text, text: &Text) -> Result<Given, AskStop>
        ensures { Runs result stops self.new (spec.with_cookie name.now key.now text.now self.old) }
    {
        match self.draft.cookie(name, key, text) {
            Ok(()) => Ok(Given::Value(Value::Empty)),
            Err(DraftStop::Error(number)) => Err(AskStop::Error(number)),
            Err(DraftStop::Limit(kind)) => Err(AskStop::Limit(kind)),
            Err(DraftStop::Memory) => Err(AskStop::Memory),
        }
    }

    fn set_whole(&mut self, name: &Text, text: &Text) -> Result<Given, AskStop>
        ensures { Runs result stops self.new (spec.with_cookie name.now [] text.now self.old) }
    {
        let key = Text::new(self.alloc());
        self.set_cookie(name, &key, text)
    }

    fn set_part(&mut self, name: &Text, part: CookiePart, text: &Text) -> Result<Given, AskStop>
        ensures { Runs result stops self.new (spec.with_part part name.now text.now self.old) }
    {
        match self.draft.cookie_part(name, part, text) {
            Ok(()) => Ok(Given::Value(Value::Empty)),
            Err(DraftStop::Error(number)) => Err(AskStop::Error(number)),
            Err(DraftStop::Limit(kind)) => Err(AskStop::Limit(kind)),
            Err(DraftStop::Memory) => Err(AskStop::Memory),
        }
    }

    fn set_secure(&mut self, name: &Text, on: bool) -> Result<Given, AskStop>
        ensures { Runs result stops self.new (spec.with_secure name.now on self.old) }
    {
        match self.draft.cookie_secure(name, on) {
            Ok(()) => Ok(Given::Value(Value::Empty)),
            Err(DraftStop::Error(number)) => Err(AskStop::Error(number)),
            Err(DraftStop::Limit(kind)) => Err(AskStop::Limit(kind)),
            Err(DraftStop::Memory) => Err(AskStop::Memory),
        }
    }

    fn write_named(&mut self, name: &Text, value: &Value) -> Result<Given, AskStop>
        ensures { Runs result stops self.new
            (using_it (given.text_in value.now) (spec.with_cookie name.now []) self.old) }
    {
        match to_str(self.alloc(), value) {
            Ok(text) => self.set_whole(name, &text),
            Err(VbFault::Error(number)) => Err(AskStop::Error(number)),
            Err(VbFault::Memory) => Err(AskStop::Memory),
        }
    }

    fn write_cookie(&mut self, name: &Value, value: &Value) -> Result<Given, AskStop>
        ensures { Runs result stops self.new (using_it (given.text_in name.now)
            (λ named. using_it (given.text_in value.now) (spec.with_cookie named [])) self.old) }
    {
        match to_str(self.alloc(), name) {
            Ok(name) => self.write_named(&name, value),
            Err(VbFault::Error(number)) => Err(AskStop::Error(number)),
            Err(VbFault::Memory) => Err(AskStop::Memory),
        }
    }

    fn write_part_of(
        &mut self,
        name: &Text,
        part: CookiePart,
        value: &Value,
    ) -> Result<Given, AskStop>
        ensures { Runs result stops self.new
            (using_it (given.text_in value.now) (spec.with_part part name.now) self.old) }
    {
        match to_str(self.alloc(), value) {
            Ok(text) => self.set_part(name, part, &text),
            Err(VbFault::Error(number)) => Err(AskStop::Error(number)),
            Err(VbFault::Memory) => Err(AskStop::Memory),
        }
    }

    fn write_part(
        &mut self,
        name: &Value,
        part: CookiePart,
        value: &Value,
    ) -> Result<Given, AskStop>
        ensures { Runs result stops self.new (using_it (given.text_in name.now)
            (λ named. using_it (given.text_in value.now) (spec.with_part part named)) self.old) }
    {
        match to_str(self.alloc(), name) {
            Ok(name) => self.write_part_of(&name, part, value),
            Err(VbFault::Error(number)) => Err(AskStop::Error(number)),
            Err(VbFault::Memory) => Err(AskStop::Memory),
        }
    }

    fn write_secure_of(&mut self, name: &Text, value: &Value) -> Result<Given, AskStop>
        ensures { Runs result stops self.new
            (using_it (given.truth_in value.now) (spec.with_secure name.now) self.old) }
    {
        match to_bool(value) {
            Ok(on) => self.set_secure(name, on),
            Err(error) => Err(failed(error)),
        }
    }

    fn write_secure(&mut self, name: &Value, value: &Value) -> Result<Given, AskStop>
        ensures { Runs result stops self.new (using_it (given.text_in name.now)
            (λ named. using_it (given.truth_in value.now) (spec.with_secure named)) self.old) }
    {
        match to_str(self.alloc(), name) {
            Ok(name) => self.write_secure_of(&name, value),
            Err(VbFault::Error(number)) => Err(AskStop::Error(number)),
            Err(VbFault::Memory) => Err(AskStop::Memory),
        }
    }

    fn write_keyed(&mut self, name: &Text, key: &Text, value: &Value) -> Result<Given, AskStop>
        ensures { Runs result stops self.new
            (using_it (given.text_in value.now) (spec.with_cookie name.now key.now) self.old) }
    {
        match to_str(self.alloc(), value) {
            Ok(text) => self.set_cookie(name, key, &text),
            Err(VbFault::Error(number)) => Err(AskStop::Error(number)),
            Err(VbFault::Memory) => Err(AskStop::Memory),
        }
    }

    fn write_key(&mut self, name: &Text, key: &Value, value: &Value) -> Result<Given, AskStop>
        ensures { Runs result stops self.new (using_it (given.text_in key.now)
            (λ keyed. using_it (given.text_in value.now) (spec.with_cookie name.now keyed)) self.old) }
    {
        match to_str(self.alloc(), key) {
            Ok(key) => self.write_keyed(name, &key, value),
            Err(VbFault::Error(number)) => Err(AskStop::Error(number)),
            Err(VbFault::Memory) => Err(AskStop::Memory),
        }
    }

    fn write_pair(&mut self, name: &Value, key: &Value, value: &Value) -> Result<Given, AskStop>
        ensures { Runs result stops self.new (using_it (given.text_in name.now) (λ named.
            using_it (given.text_in key.now) (λ keyed.
            using_it (given.text_in value.now) (spec.with_cookie named keyed))) self.old) }
    {
        match to_str(self.alloc(), name) {
            Ok(name) => self.write_key(&name, key, value),
            Err(VbFault::Error(number)) => Err(AskStop::Error(number)),
            Err(VbFault::Memory) => Err(AskStop::Memory),
        }
    }

    /// The text of a cookie is set.
    pub(crate) fn ask_cookie(&mut self, arguments: &[Value]) -> Result<Given, AskStop>
        ensures { Runs result stops self.new (spec.cookie_asked arguments.now self.old) }
    {
        match arguments {
            [name, value] => self.write_cookie(name, value),
            _ => Err(failed(VbError::UNSUPPORTED)),
        }
    }

    /// The text beside a key of a cookie is set.
    pub(crate) fn ask_pair(&mut self, arguments: &[Value]) -> Result<Given, AskStop>
        ensures { Runs result stops self.new (spec.pair_asked arguments.now self.old) }
    {
        match arguments {
            [name, key, value] => self.write_pair(name, key, value),
            _ => Err(failed(VbError::UNSUPPORTED)),
        }
    }

    /// A part of a cookie is set.
    pub(crate) fn ask_part(
        &mut self,
        part: CookiePart,
        arguments: &[Value],
    ) -> Result<Given, AskStop>
        ensures { Runs result stops self.new (spec.part_asked part arguments.now self.old) }
    {
        match arguments {
            [name, value] => self.write_part(name, part, value),
            _ => Err(failed(VbError::UNSUPPORTED)),
        }
    }
    /// Whether a cookie is sent over secure connections alone is set.
    pub(crate) fn ask_secure(&mut self, arguments: &[Value]) -> Result<Given, AskStop>
        ensures { Runs result stops self.new (spec.secure_asked arguments.now self.old) }
    {
        match arguments {
            [name, on] => self.write_secure(name, on),
            _ => Err(failed(VbError::UNSUPPORTED)),
        }
    }
}
