//! The members of Response that speak of the body.
ghost use Rattle.std.specs.Prelude.{◌≡◌};
ghost use Rattle.vb_value.specs.Outcome.{Runs};
ghost use Rattle.vb_syntax.specs.Asking.{stops};
ghost use Rattle.asp_objects.specs.Given as given;
ghost use Rattle.asp_objects.specs.ResponseMembers as spec;
ghost use Rattle.asp_objects.specs.Said.{using_it};

use crate::given::failed;
use crate::objects::PageObjects;
use crate::text::ascii;
use asp_response::DraftStop;
use vb_syntax::{AskStop, Given};
use vb_value::{Text, Value, VbError, VbFault, to_bool, to_str};

impl PageObjects {
    fn write_text(&mut self, text: &Text) -> Result<Given, AskStop>
        ensures { Runs result stops self.new (spec.wrote text.now self.old) }
    {
        match self.draft.write(text) {
            Ok(()) => Ok(Given::Value(Value::Empty)),
            Err(DraftStop::Error(number)) => Err(AskStop::Error(number)),
            Err(DraftStop::Limit(kind)) => Err(AskStop::Limit(kind)),
            Err(DraftStop::Memory) => Err(AskStop::Memory),
        }
    }

    fn write(&mut self, value: &Value) -> Result<Given, AskStop>
        ensures { Runs result stops self.new (using_it (spec.written_text value.now) spec.wrote self.old) }
    {
        if let Value::Null = value {
            return self.write_text(&Text::new(self.alloc()));
        }
        match to_str(self.alloc(), value) {
            Ok(text) => self.write_text(&text),
            Err(VbFault::Error(number)) => Err(AskStop::Error(number)),
            Err(VbFault::Memory) => Err(AskStop::Memory),
        }
    }

    /// Clear.
    pub(crate) fn clear(&mut self) -> Result<Given, AskStop>
        ensures { Runs result stops self.new (spec.cleared self.old) }
    {
        let _ = self.draft.clear();
        Ok(Given::Value(Value::Empty))
    }

    /// Flush.
    pub(crate) fn flush(&mut self) -> Result<Given, AskStop>
        ensures { Runs result stops self.new (spec.flushed self.old) }
    {
        let _ = self.draft.flush();
        Ok(Given::Value(Value::Empty))
    }

    fn redirect_to(&mut self, url: &Text) -> Result<Given, AskStop>
        ensures { Runs result stops self.new (spec.redirected url.now self.old) }
    {
        let status = ascii(self.alloc(), b"302 Object moved")?;
        match self.draft.redirect(url) {
            Ok(()) => {
                self.status = status;
                Err(AskStop::PageStop)
            }
            Err(DraftStop::Error(number)) => Err(AskStop::Error(number)),
            Err(DraftStop::Limit(kind)) => Err(AskStop::Limit(kind)),
            Err(DraftStop::Memory) => Err(AskStop::Memory),
        }
    }

    fn redirect(&mut self, value: &Value) -> Result<Given, AskStop>
        ensures { Runs result stops self.new (using_it (given.text_in value.now) spec.redirected self.old) }
    {
        match to_str(self.alloc(), value) {
            Ok(url) => self.redirect_to(&url),
            Err(VbFault::Error(number)) => Err(AskStop::Error(number)),
            Err(VbFault::Memory) => Err(AskStop::Memory),
        }
    }

    fn set_buffer(&mut self, value: &Value) -> Result<Given, AskStop>
        ensures { Runs result stops self.new (using_it (given.truth_in value.now) spec.buffered self.old) }
    {
        match to_bool(value) {
            Ok(on) => {
                let _ = self.draft.set_buffer(on);
                self.buffer = on;
                Ok(Given::Value(Value::Empty))
            }
            Err(error) => Err(failed(error)),
        }
    }

    /// Write.
    pub(crate) fn ask_write(&mut self, arguments: &[Value]) -> Result<Given, AskStop>
        ensures { Runs result stops self.new (spec.write_asked arguments.now self.old) }
    {
        match arguments {
            [value] => self.write(value),
            _ => Err(failed(VbError::OBJECT_REQUIRED)),
        }
    }

    /// Buffer is read, or set.
    pub(crate) fn ask_buffer(&mut self, arguments: &[Value]) -> Result<Given, AskStop>
        ensures { Runs result stops self.new (spec.buffer_asked arguments.now self.old) }
    {
        match arguments {
            [] => Ok(Given::Value(Value::Bool(self.buffer))),
            [on] => self.set_buffer(on),
            _ => Err(failed(VbError::OBJECT_REQUIRED)),
        }
    }

    /// Redirect.
    pub(crate) fn ask_redirect(&mut self, arguments: &[Value]) -> Result<Given, AskStop>
        ensures { Runs result stops self.new (spec.redirect_asked arguments.now self.old) }
    {
        match arguments {
            [url] => self.redirect(url),
            _ => Err(failed(VbError::OBJECT_REQUIRED)),
        }
    }
}
