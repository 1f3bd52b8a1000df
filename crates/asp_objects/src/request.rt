//! The members of Request.
ghost use Rattle.std.specs.Prelude.{◌≡◌, ◌==◌, length};
ghost use Rattle.std.specs.List.{list_any};
ghost use Rattle.std.specs.Option.{option_copied};
ghost use Rattle.vb_value.specs.Outcome.{Answers, Gives};
ghost use Rattle.asp_request.specs.Inputs as inputs_spec;
ghost use Rattle.asp_request.specs.Pairs.{names_in};
ghost use Rattle.asp_objects.specs.Given as given;
ghost use Rattle.asp_objects.specs.RequestMembers as spec;

use crate::collections::Collections;
use crate::given::{copy_texts, count, failed, item_at, long_in, text_in};
use asp_request::InSet;
use std::alloc::Global;
use vb_syntax::{AskStop, CollectionPart, Given};
use vb_value::{Bytes, Copied, Memory, Text, Value, VbError};

fn keyed(alloc: Global, key: &Text, raw: Option<&Bytes>) -> Result<Value, Memory>
    ensures { Gives result (spec.keyed key.now (option_copied raw.entry)) }
{
    match raw {
        Some(raw) => asp_request::keyed(alloc, raw.as_slice(), key),
        None => Ok(Value::Empty),
    }
}

fn has_equals(raw: &[u8]) -> bool
    ensures { result ≡ list_any (λ b. b == 61) raw.now }
{
    raw.iter().any(|b| *b == b'=')
}

fn has_keys(raw: Option<&Bytes>) -> bool
    ensures { result ≡ spec.has_keys (option_copied raw.entry) }
{
    match raw {
        Some(raw) => has_equals(raw.as_slice()),
        None => false,
    }
}

impl Collections {
    fn item(&self, alloc: Global, set: InSet, name: &Value) -> Result<Given, AskStop>
        ensures { Answers result AskStop.Memory (given.and_then (given.text_in name.now)
            (λ named. given.value (inputs_spec.shown (inputs_spec.values_of self.now set named)))) }
    {
        let name = text_in(alloc, name)?;
        Ok(Given::Value(self.joined(alloc, set, &name)?))
    }

    fn value_count(&self, alloc: Global, set: InSet, name: &Value) -> Result<Given, AskStop>
        ensures { Answers result AskStop.Memory (given.and_then (given.text_in name.now)
            (λ named. given.count (length (inputs_spec.values_of self.now set named)))) }
    {
        let name = text_in(alloc, name)?;
        count(self.values(alloc, set, &name)?.len())
    }

    fn cookie_pair(&self, alloc: Global, name: &Value, key: &Text) -> Result<Given, AskStop>
        ensures { Answers result AskStop.Memory (given.and_then (given.text_in name.now)
            (λ named. given.value (spec.keyed key.now (inputs_spec.raw_cookie_of self.now named)))) }
    {
        let name = text_in(alloc, name)?;
        Ok(Given::Value(keyed(alloc, key, self.raw_cookie(alloc, &name)?)?))
    }

    fn nth_value(
        &self,
        alloc: Global,
        set: InSet,
        name: &Value,
        index: &Value,
    ) -> Result<Given, AskStop>
        ensures { Answers result AskStop.Memory (given.and_then (given.text_in name.now)
            (λ named. given.and_then (given.long_in index.now)
            (given.item_at (inputs_spec.values_of self.now set named)))) }
    {
        let name = text_in(alloc, name)?;
        let place = long_in(index)?;
        item_at(self.values(alloc, set, &name)?, place)
    }

    fn value_at(
        &self,
        alloc: Global,
        set: InSet,
        name: &Value,
        index: &Value,
    ) -> Result<Given, AskStop>
        ensures { Answers result AskStop.Memory (spec.value_at self.now set name.now index.now) }
    {
        match (set, index) {
            (InSet::Cookies, Value::Str(key)) => self.cookie_pair(alloc, name, key),
            _ => self.nth_value(alloc, set, name, index),
        }
    }

    fn cookie_has_keys(&self, alloc: Global, name: &Value) -> Result<Given, AskStop>
        ensures { Answers result AskStop.Memory (given.and_then (given.text_in name.now)
            (λ named. given.value (Value.Bool (spec.has_keys (inputs_spec.raw_cookie_of self.now named))))) }
    {
        let name = text_in(alloc, name)?;
        Ok(Given::Value(Value::Bool(has_keys(self.raw_cookie(alloc, &name)?))))
    }

    fn key(&self, set: InSet, index: &Value) -> Result<Given, AskStop>
        ensures { Answers result AskStop.Memory (given.and_then (given.long_in index.now)
            (given.item_at (names_in (inputs_spec.pairs_of self.now set)))) }
    {
        let place = long_in(index)?;
        item_at(self.names(set), place)
    }
}

/// What a collection of the request answers. Error 9 for an index that is none of its places, and the error of an
/// argument that is no name or no index.
#[tactic(auto, unfolding(crate::specs::RequestMembers::asked_of))]
pub(crate) fn ask_collection(
    alloc: Global,
    collections: &Collections,
    set: InSet,
    part: CollectionPart,
    arguments: &[Value],
) -> Result<Given, AskStop>
    ensures { Answers result AskStop.Memory (spec.asked_of collections.now set part arguments.now) }
{
    match (part, arguments) {
        (CollectionPart::Raw, []) => Ok(Given::Value(Value::Str(collections.raw(set).copy()?))),
        (CollectionPart::Item, [name]) => collections.item(alloc, set, name),
        (CollectionPart::ValueCount, [name]) => collections.value_count(alloc, set, name),
        (CollectionPart::Value, [name, index]) => collections.value_at(alloc, set, name, index),
        (CollectionPart::HasKeys, [name]) => collections.cookie_has_keys(alloc, name),
        (CollectionPart::Count, []) => count(collections.names(set).len()),
        (CollectionPart::Key, [index]) => collections.key(set, index),
        (CollectionPart::Names, []) => Ok(Given::Names(copy_texts(alloc, collections.names(set))?)),
        _ => Err(failed(VbError::OBJECT_REQUIRED)),
    }
}
