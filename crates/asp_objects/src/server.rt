//! The members of Server.
ghost use Rattle.std.specs.Prelude.{◌≡◌};
ghost use Rattle.vb_value.specs.Outcome.{Answers, Runs};
ghost use Rattle.vb_syntax.specs.Asking.{stops};
ghost use Rattle.asp_objects.specs.Given as given;
ghost use Rattle.asp_objects.specs.MapPath.{mapped as mapped_path};
ghost use Rattle.asp_objects.specs.Said.{using_it};
ghost use Rattle.asp_objects.specs.ServerMembers as spec;

use crate::given::{failed, text_in};
use crate::map_path::mapped;
use crate::objects::PageObjects;
use asp_text::{PathStop, html_encode, url_encode};
use vb_syntax::{AskStop, Given};
use vb_value::{Text, Value, VbError, limited, to_long};

/// A text as what a member gives.
fn limited_text(text: Text) -> Result<Given, AskStop>
    ensures { result ≡ spec.limited_text text }
{
    match limited(text) {
        Ok(value) => Ok(Given::Value(value)),
        Err(error) => Err(failed(error)),
    }
}

/// A member that makes a text of a text.
#[derive(Clone, Copy, Debug, PartialEq, Eq)]
pub enum ServerText {
    /// `Server.HTMLEncode`
    Html,
    /// `Server.URLEncode`
    Url,
    /// `Server.MapPath`
    Path,
}

impl PageObjects {
    /// The file in whose folder a path begins.
    fn file(&self) -> &[char]
        ensures { result.now ≡ spec.file_of self.now }
    {
        if self.is_page {
            return self.page.as_slice();
        }
        &['/', 'g', 'l', 'o', 'b', 'a', 'l', '.', 'a', 's', 'a']
    }

    fn map_path(&self, text: &Text) -> Result<Given, AskStop>
        ensures { Answers result AskStop.Memory (spec.found (mapped_path (spec.file_of self.now) text.now)) }
    {
        match mapped(self.alloc(), self.file(), text.as_slice()) {
            Ok(path) => limited_text(path),
            Err(PathStop::Memory) => Err(AskStop::Memory),
            Err(PathStop::Escapes | PathStop::BadEscape) => Err(failed(VbError::INVALID_CALL)),
        }
    }

    fn made(&self, which: ServerText, text: &Text) -> Result<Given, AskStop>
        ensures { Answers result AskStop.Memory (spec.made which (spec.file_of self.now) text.now) }
    {
        match which {
            ServerText::Html => limited_text(html_encode(self.alloc(), text)?),
            ServerText::Url => limited_text(url_encode(self.alloc(), text)?),
            ServerText::Path => self.map_path(text),
        }
    }

    fn make(&self, which: ServerText, value: &Value) -> Result<Given, AskStop>
        ensures { Answers result AskStop.Memory
            (given.and_then (given.text_in value.now) (spec.made which (spec.file_of self.now))) }
    {
        let text = text_in(self.alloc(), value)?;
        self.made(which, &text)
    }

    /// HTMLEncode, URLEncode or MapPath.
    pub(crate) fn ask_text(
        &mut self,
        which: ServerText,
        arguments: &[Value],
    ) -> Result<Given, AskStop>
        ensures { Runs result stops self.new (spec.text_asked which arguments.now self.old) }
    {
        match arguments {
            [text] => match self.make(which, text) {
                Ok(given) => Ok(given),
                Err(AskStop::Error(number)) => Err(AskStop::Error(number)),
                Err(AskStop::PageStop) => Err(AskStop::PageStop),
                Err(AskStop::Limit(kind)) => Err(AskStop::Limit(kind)),
                Err(AskStop::Memory) => Err(AskStop::Memory),
            },
            _ => Err(failed(VbError::OBJECT_REQUIRED)),
        }
    }

    fn set_timeout(&mut self, value: &Value) -> Result<Given, AskStop>
        ensures { Runs result stops self.new (using_it (given.long_in value.now) spec.with_timeout self.old) }
    {
        match to_long(value) {
            Ok(seconds) => {
                self.timeout = seconds;
                Ok(Given::Value(Value::Empty))
            }
            Err(error) => Err(failed(error)),
        }
    }

    /// ScriptTimeout is read, or set.
    pub(crate) fn ask_timeout(&mut self, arguments: &[Value]) -> Result<Given, AskStop>
        ensures { Runs result stops self.new (spec.timeout_asked arguments.now self.old) }
    {
        match arguments {
            [] => Ok(Given::Value(Value::Long(self.timeout))),
            [seconds] => self.set_timeout(seconds),
            _ => Err(failed(VbError::OBJECT_REQUIRED)),
        }
    }
}
