//! The environment of a script.
ghost use Rattle.std.specs.Prelude.{◌≡◌, Ok};
ghost use Rattle.vb_value.specs.Outcome.{Runs};
ghost use Rattle.vb_value.specs.Errors.{object_required};
ghost use Rattle.vb_syntax.specs.Asking.{stops};
ghost use Rattle.run_cases.specs.Notes as spec;

use std::alloc::Global;
use vb_syntax::{AskStop, ContentsPart, Given, Intrinsics, Member};
use vb_value::{AppCall, AppReply, Text, Value, VbError, VbFault, fold, to_str};

/// What a script has written.
#[derive(Drop)]
pub struct Notes {
    /// What memory is taken from.
    pub alloc: Global,
    /// It also knows Response.End and the items of the Application object.
    pub is_wide: bool,
    /// The text so far.
    pub text: Text,
}

impl Notes {
    fn failed(&self, error: VbError) -> Result<Given, AskStop>
        ensures { Runs result stops self.now (spec.failed error self.now) }
    {
        Err(AskStop::Error(error.number))
    }

    fn add(&mut self, text: Text) -> Result<Given, AskStop>
        ensures { Runs result stops self.new (spec.noted (Ok text) self.old) }
    {
        self.text.append(text)?;
        Ok(Given::Value(Value::Empty))
    }

    fn write(&mut self, value: &Value) -> Result<Given, AskStop>
        ensures { Runs result stops self.new (spec.noted (spec.written value.now) self.old) }
    {
        if let Value::Null = value {
            return self.add(Text::new(self.alloc));
        }
        match to_str(self.alloc, value) {
            Ok(text) => self.add(text),
            Err(VbFault::Error(number)) => Err(AskStop::Error(number)),
            Err(VbFault::Memory) => Err(AskStop::Memory),
        }
    }

    fn stop(&self) -> Result<Given, AskStop>
        ensures { Runs result stops self.now (spec.stopped self.now.is_wide self.now) }
    {
        if self.is_wide {
            Err(AskStop::PageStop)
        } else {
            self.failed(VbError::OBJECT_REQUIRED)
        }
    }

    fn item(&self, name: &Text) -> Result<Given, AskStop>
        ensures { Runs result stops self.now (spec.item self.now.is_wide name.now self.now) }
    {
        if self.is_wide {
            Ok(Given::Call(AppCall::Get(fold(self.alloc, name)?)))
        } else {
            self.failed(VbError::OBJECT_REQUIRED)
        }
    }
}

impl Intrinsics for Notes {
    ghost use Rattle.run_cases.specs.Notes.{asked as notes_asked, answered as notes_answered};

    ghost asked = { notes_asked };

    ghost answered = { λ _ _ reply notes. notes_answered reply notes };

    #[tactic(auto, unfolding(crate::specs::Notes::asked))]
    fn ask(&mut self, member: Member, arguments: &[Value]) -> Result<Given, AskStop> {
        match (member, arguments) {
            (Member::ResponseWrite, [value]) => self.write(value),
            (Member::ResponseEnd, []) => self.stop(),
            (Member::ApplicationContents(ContentsPart::Item), [Value::Str(name)]) => {
                self.item(name)
            }
            _ => self.failed(VbError::OBJECT_REQUIRED),
        }
    }

    fn answer(
        &mut self,
        _member: Member,
        _arguments: &[Value],
        reply: AppReply,
    ) -> Result<Given, AskStop> {
        match reply {
            AppReply::Value(value) => Ok(Given::Value(value)),
            _ => self.failed(VbError::OBJECT_REQUIRED),
        }
    }
}
