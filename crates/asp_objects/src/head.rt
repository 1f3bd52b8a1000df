//! The members of Response that speak of the head.
ghost use Rattle.std.specs.Prelude.{◌≡◌};
ghost use Rattle.vb_value.specs.Outcome.{Answers, Runs};
ghost use Rattle.vb_syntax.specs.Asking.{stops};
ghost use Rattle.asp_objects.specs.Given as given;
ghost use Rattle.asp_objects.specs.ResponseMembers as spec;
ghost use Rattle.asp_objects.specs.Said.{told, using_it};

use crate::given::failed;
use crate::objects::PageObjects;
use asp_response::DraftStop;
use vb_syntax::{AskStop, Given};
use vb_value::{Copied, Text, Value, VbError, VbFault, to_str};

/// A property of the head.
#[derive(Clone, Copy, Debug, PartialEq, Eq)]
pub enum HeadPart {
    /// `Response.ContentType`
    ContentType,
    /// `Response.Charset`
    Charset,
    /// `Response.Status`
    Status,
    /// `Response.CacheControl`
    CacheControl,
}

impl PageObjects {
    fn set_content_type(&mut self, text: Text) -> Result<Given, AskStop>
        ensures { Runs result stops self.new (spec.with_content_type text self.old) }
    {
        match self.draft.set_content_type(&text) {
            Ok(()) => {
                self.content_type = text;
                Ok(Given::Value(Value::Empty))
            }
            Err(DraftStop::Error(number)) => Err(AskStop::Error(number)),
            Err(DraftStop::Limit(kind)) => Err(AskStop::Limit(kind)),
            Err(DraftStop::Memory) => Err(AskStop::Memory),
        }
    }

    fn set_charset(&mut self, text: Text) -> Result<Given, AskStop>
        ensures { Runs result stops self.new (spec.with_charset text self.old) }
    {
        match self.draft.set_charset(&text) {
            Ok(()) => {
                self.charset = text;
                Ok(Given::Value(Value::Empty))
            }
            Err(DraftStop::Error(number)) => Err(AskStop::Error(number)),
            Err(DraftStop::Limit(kind)) => Err(AskStop::Limit(kind)),
            Err(DraftStop::Memory) => Err(AskStop::Memory),
        }
    }

    fn set_status(&mut self, text: Text) -> Result<Given, AskStop>
        ensures { Runs result stops self.new (spec.with_status text self.old) }
    {
        match self.draft.set_status(&text) {
            Ok(()) => {
                self.status = text;
                Ok(Given::Value(Value::Empty))
            }
            Err(DraftStop::Error(number)) => Err(AskStop::Error(number)),
            Err(DraftStop::Limit(kind)) => Err(AskStop::Limit(kind)),
            Err(DraftStop::Memory) => Err(AskStop::Memory),
        }
    }

    fn set_cache(&mut self, text: Text) -> Result<Given, AskStop>
        ensures { Runs result stops self.new (spec.with_cache text self.old) }
    {
        match self.draft.set_cache(&text) {
            Ok(()) => {
                self.cache = text;
                Ok(Given::Value(Value::Empty))
            }
            Err(DraftStop::Error(number)) => Err(AskStop::Error(number)),
            Err(DraftStop::Limit(kind)) => Err(AskStop::Limit(kind)),
            Err(DraftStop::Memory) => Err(AskStop::Memory),
        }
    }

    fn set_head(&mut self, part: HeadPart, text: Text) -> Result<Given, AskStop>
        ensures { Runs result stops self.new (spec.head_set part text self.old) }
    {
        match part {
            HeadPart::ContentType => self.set_content_type(text),
            HeadPart::Charset => self.set_charset(text),
            HeadPart::Status => self.set_status(text),
            HeadPart::CacheControl => self.set_cache(text),
        }
    }

    fn write_head(&mut self, part: HeadPart, value: &Value) -> Result<Given, AskStop>
        ensures { Runs result stops self.new (using_it (given.text_in value.now) (spec.head_set part) self.old) }
    {
        match to_str(self.alloc(), value) {
            Ok(text) => self.set_head(part, text),
            Err(VbFault::Error(number)) => Err(AskStop::Error(number)),
            Err(VbFault::Memory) => Err(AskStop::Memory),
        }
    }

    fn head_text(&self, part: HeadPart) -> &Text
        ensures { result.now ≡ spec.head_read part self.now }
    {
        match part {
            HeadPart::ContentType => &self.content_type,
            HeadPart::Charset => &self.charset,
            HeadPart::Status => &self.status,
            HeadPart::CacheControl => &self.cache,
        }
    }

    fn read_head(&self, part: HeadPart) -> Result<Given, AskStop>
        ensures { Runs result stops self.now (told (given.value (Value.Str (spec.head_read part self.now))) self.now) }
    {
        Ok(Given::Value(Value::Str(self.head_text(part).copy()?)))
    }

    fn add_text(&mut self, name: &Text, text: &Text) -> Result<Given, AskStop>
        ensures { Runs result stops self.new (spec.with_header name.now text.now self.old) }
    {
        match self.draft.add_header(name, text) {
            Ok(()) => Ok(Given::Value(Value::Empty)),
            Err(DraftStop::Error(number)) => Err(AskStop::Error(number)),
            Err(DraftStop::Limit(kind)) => Err(AskStop::Limit(kind)),
            Err(DraftStop::Memory) => Err(AskStop::Memory),
        }
    }

    fn add_value(&mut self, name: &Text, value: &Value) -> Result<Given, AskStop>
        ensures { Runs result stops self.new (using_it (given.text_in value.now) (spec.with_header name.now) self.old) }
    {
        match to_str(self.alloc(), value) {
            Ok(text) => self.add_text(name, &text),
            Err(VbFault::Error(number)) => Err(AskStop::Error(number)),
            Err(VbFault::Memory) => Err(AskStop::Memory),
        }
    }

    fn add_header(&mut self, name: &Value, value: &Value) -> Result<Given, AskStop>
        ensures { Runs result stops self.new (using_it (given.text_in name.now)
            (λ named. using_it (given.text_in value.now) (spec.with_header named)) self.old) }
    {
        match to_str(self.alloc(), name) {
            Ok(name) => self.add_value(&name, value),
            Err(VbFault::Error(number)) => Err(AskStop::Error(number)),
            Err(VbFault::Memory) => Err(AskStop::Memory),
        }
    }

    /// A property of the head is read, or set.
    pub(crate) fn ask_head(&mut self, part: HeadPart, arguments: &[Value]) -> Result<Given, AskStop>
        ensures { Runs result stops self.new (spec.head_asked part arguments.now self.old) }
    {
        match arguments {
            [] => self.read_head(part),
            [value] => self.write_head(part, value),
            _ => Err(failed(VbError::OBJECT_REQUIRED)),
        }
    }

    /// AddHeader.
    pub(crate) fn ask_header(&mut self, arguments: &[Value]) -> Result<Given, AskStop>
        ensures { Runs result stops self.new (spec.header_asked arguments.now self.old) }
    {
        match arguments {
            [name, value] => self.add_header(name, value),
            _ => Err(failed(VbError::OBJECT_REQUIRED)),
        }
    }
}
