//! Calls of the Application object and their replies, as a journal writes them.
ghost use Rattle.std.specs.Prelude.{◌++◌, IsTrue};
ghost use Rattle.std.specs.Fmt.{signed_decimal};
ghost use Rattle.std.specs.List.{list_all};
ghost use Rattle.std.specs.Result.{OnOk};
ghost use lib.Utf8.{scalars};
ghost use Rattle.vb_value.specs.Outcome.{Adds};
ghost use Rattle.asp_record.specs.Journal as journal;
ghost use Rattle.asp_record.specs.Lines as lines;
ghost use Rattle.asp_record.specs.Values as spec;

use crate::fields::push_signed;
use crate::value::{push_names, push_text, push_value};
use vb_value::{AppCall, AppReply, Bytes, Memory, Text};

/// Adds a word, a space and a name.
fn push_named(bytes: &mut Bytes, word: &[u8], name: &Text) -> Result<(), Memory>
    ensures text { Adds result bytes.old bytes.new (word.now ++ lines.field (spec.text_form name.now)) }
    ensures ranged { OnOk result (IsTrue (scalars name.now)) }
{
    bytes.append_slice(word)?;
    bytes.append_slice(b" ")?;
    push_text(bytes, name)
}

/// Adds a word, a space and a number.
fn push_numbered(bytes: &mut Bytes, word: &[u8], number: i32) -> Result<(), Memory>
    ensures text { Adds result bytes.old bytes.new (word.now ++ lines.field (signed_decimal number)) }
    ensures ranged { OnOk result (IsTrue (journal.is_long number)) }
{
    bytes.append_slice(word)?;
    bytes.append_slice(b" ")?;
    push_signed(bytes, i64::from(number))
}

/// Adds the text of a call.
pub fn push_call(bytes: &mut Bytes, call: &AppCall) -> Result<(), Memory>
    ensures text { Adds result bytes.old bytes.new (spec.call_text call.now) }
    ensures ranged { OnOk result (IsTrue (journal.call_ranged call.now)) }
{
    match call {
        AppCall::Get(name) => push_named(bytes, b"get", name),
        AppCall::Put(name, value) => {
            push_named(bytes, b"put", name)?;
            bytes.append_slice(b" ")?;
            push_value(bytes, value)
        }
        AppCall::Remove(name) => push_named(bytes, b"remove", name),
        AppCall::RemoveAll => bytes.append_slice(b"removeall"),
        AppCall::Count => bytes.append_slice(b"count"),
        AppCall::KeyAt(place) => push_numbered(bytes, b"keyat", *place),
        AppCall::Names => bytes.append_slice(b"names"),
        AppCall::Lock => bytes.append_slice(b"lock"),
        AppCall::Unlock => bytes.append_slice(b"unlock"),
    }
}

/// Adds a space and names, where there are any.
fn push_names_field(bytes: &mut Bytes, names: &[Text]) -> Result<(), Memory>
    ensures text { Adds result bytes.old bytes.new (spec.names_field names.now) }
    ensures ranged { OnOk result (IsTrue (list_all scalars names.now)) }
{
    if names.is_empty() {
        return Ok(());
    }
    bytes.append_slice(b" ")?;
    push_names(bytes, names)
}

/// Adds the text of a reply.
pub fn push_reply(bytes: &mut Bytes, reply: &AppReply) -> Result<(), Memory>
    ensures text { Adds result bytes.old bytes.new (spec.reply_text reply.now) }
    ensures ranged { OnOk result (IsTrue (journal.reply_ranged reply.now)) }
{
    match reply {
        AppReply::Value(value) => push_value(bytes, value),
        AppReply::Number(number) => push_numbered(bytes, b"number", *number),
        AppReply::Name(name) => push_named(bytes, b"name", name),
        AppReply::NoName => bytes.append_slice(b"noname"),
        AppReply::Names(names) => {
            bytes.append_slice(b"names")?;
            push_names_field(bytes, names.as_slice())
        }
        AppReply::Done => bytes.append_slice(b"done"),
        AppReply::Full => bytes.append_slice(b"full"),
    }
}
