//! The attributes of a directive and of a tag.
ghost use Rattle.std.specs.Prelude.{◌≡◌, ◌≤◌, ◌<◌, ◌^◌, length};
ghost use Rattle.std.specs.List.{list_any, prefix_len};
ghost use Rattle.vb_value.specs.Outcome.{Gives};
ghost use Rattle.page_read.specs.Attributes as spec;
ghost use Rattle.page_read.specs.Marks as marks;
ghost use Rattle.page_read.specs.Forms as forms;
ghost use Rattle.page_read.specs.Reading.{shown_attribute, shown_pair};

use crate::mark::{blank_len, cut_by, is_blank_text, unblanked};
use std::alloc::Global;
use vb_value::{List, Memory, Text};

/// An attribute of a directive or of a tag, with its letters made small.
#[derive(Debug, Drop)]
pub struct Attribute {
    /// Its name.
    pub name: Text,
    /// Its value, without quotes; no character, where it has none.
    pub value: Text,
}

fn is_plain(c: char) -> bool
    ensures { result ≡ spec.is_plain c }
{
    !matches!(c, ' ' | '\t' | '\r' | '\n' | '"' | '\'' | '<' | '=' | '>')
}

/// How many plain characters stand at the front.
#[tactic(auto, using(crate::proofs::Fronts::front_more, crate::proofs::Fronts::front_stops, crate::proofs::Fronts::front_ends))]
fn word_len(text: &[char]) -> usize
    ensures value { result ≡ prefix_len spec.is_plain text.now }
    ensures within { result ≤ length text.now }
{
    for at in 0..text.len() {
        if !is_plain(text[at]) {
            return at;
        }
    }
    text.len()
}

fn first_word(text: &[char]) -> Option<(&[char], &[char])>
    ensures { shown_pair result ≡ spec.first_word text.now }
{
    let count = word_len(text);
    if count == 0 {
        return None;
    }
    Some((&text[..count], &text[count..]))
}

fn first_value(text: &[char]) -> Option<(&[char], &[char])>
    ensures { shown_pair result ≡ spec.first_value text.now }
{
    match text {
        [] => None,
        [quote, more @ ..] if *quote == '"' || *quote == '\'' => cut_by(more, &[*quote]),
        _ => first_word(text),
    }
}

/// The value behind a `=` of what follows a name, or no character where there is no `=`, and what stands behind it.
fn assigned(text: &[char]) -> Option<(&[char], &[char])>
    ensures { shown_pair result ≡ spec.assigned text.now (marks.unblanked text.now) }
{
    match unblanked(text) {
        ['=', more @ ..] => first_value(unblanked(more)),
        _ => Some((&text[..0], text)),
    }
}

/// The name and the value of the attribute at the front, which has a blank before it, and what follows it.
fn first_attribute(text: &[char]) -> Option<(&[char], &[char], &[char])>
    ensures { shown_attribute result ≡ spec.first_attribute text.now }
{
    if blank_len(text) == 0 {
        return None;
    }
    let (name, behind) = first_word(unblanked(text))?;
    let (value, rest) = assigned(behind)?;
    Some((name, value, rest))
}

fn owned(alloc: Global, name: &[char], value: &[char]) -> Result<Attribute, Memory>
    ensures { Gives result (record { name = name.now; value = value.now }) }
{
    Ok(Attribute {
        name: List::from_slice(alloc, name)?,
        value: List::from_slice(alloc, value)?,
    })
}

/// The attributes of a text, where it has nothing else but blanks.
pub fn attributes(alloc: Global, text: &[char]) -> Result<Option<List<Attribute>>, Memory>
    ensures { Gives result (spec.attributes_of text.now) }
{
    let mut found = List::new(alloc);
    let mut rest = text;
    for read in 0..text.len() + 1 {
        if is_blank_text(rest) {
            return Ok(Some(found));
        }
        let Some((name, value, behind)) = first_attribute(rest) else {
            return Ok(None);
        };
        found.push(owned(alloc, name, value)?)?;
        rest = behind;
    }
    Ok(None)
}

/// Whether the attribute has this name.
pub fn has_name(attribute: &Attribute, name: &[char]) -> bool
    ensures { result ≡ forms.has_name name.now attribute.now }
{
    attribute.name.as_slice() == name
}

/// Whether the attribute has this name and this value.
pub fn is_setting(attribute: &Attribute, name: &[char], value: &[char]) -> bool
    ensures { result ≡ forms.is_setting name.now value.now attribute.now }
{
    attribute.name.as_slice() == name && attribute.value.as_slice() == value
}

/// Whether one of the attributes has this name and this value.
pub fn has_setting(attributes: &[Attribute], name: &[char], value: &[char]) -> bool
    ensures { result ≡ list_any (forms.is_setting name.now value.now) attributes.now }
{
    attributes.iter().any(|a| is_setting(a, name, value))
}
