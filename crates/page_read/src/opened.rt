//! The piece at a place of a page at which a form begins.
ghost use Rattle.std.specs.Prelude.{◌≡◌, ◌+◌, ◌<◌, ◌≤◌, ◌^◌, ◌∷◌, IfOk, length};
ghost use Rattle.std.specs.List.{list_all, list_any};
ghost use Rattle.std.specs.Option.{option_and_then};
ghost use Rattle.vb_value.specs.Outcome.{Gives};
ghost use Rattle.vb_value.specs.Folding.{folded};
ghost use Rattle.page_read.specs.Attributes.{attributes_of};
ghost use Rattle.page_read.specs.Forms as spec;
ghost use Rattle.page_read.specs.Reading.{Reads, ReadsOn, stopped};

use crate::attribute::{Attribute, has_name, has_setting, is_setting};
use crate::fault::{PageFault, PageStop};
use crate::fragment::Fragment;
use crate::mark::{begins, behind, cut_by, is_blank_text};
use crate::tag::{folded_attributes, include_of, server_tag};
use std::alloc::Global;
use vb_value::{List, Memory, Text, line_ends};

const LANGUAGE: [char; 8] = ['l', 'a', 'n', 'g', 'u', 'a', 'g', 'e'];

const VBSCRIPT: [char; 8] = ['v', 'b', 's', 'c', 'r', 'i', 'p', 't'];

const CODEPAGE: [char; 8] = ['c', 'o', 'd', 'e', 'p', 'a', 'g', 'e'];

const SESSION: [char; 18] = [
    'e', 'n', 'a', 'b', 'l', 'e', 's', 'e', 's', 's', 'i', 'o', 'n', 's', 't', 'a', 't', 'e',
];

const SCRIPT: [char; 7] = ['<', 's', 'c', 'r', 'i', 'p', 't'];

const SCRIPT_END: [char; 9] = ['<', '/', 's', 'c', 'r', 'i', 'p', 't', '>'];

const OBJECT: [char; 7] = ['<', 'o', 'b', 'j', 'e', 'c', 't'];

/// The fault, in this line.
fn fault(kind: PageFault, line: u32) -> PageStop
    ensures { result ≡ stopped kind line }
{
    PageStop::Fault { kind, line }
}

// ---- directives

fn is_taken(attribute: &Attribute) -> bool
    ensures { result ≡ spec.is_taken attribute.now }
{
    is_setting(attribute, &LANGUAGE, &VBSCRIPT)
        || is_setting(attribute, &CODEPAGE, &['6', '5', '0', '0', '1'])
        || is_setting(attribute, &SESSION, &['t', 'r', 'u', 'e'])
        || is_setting(attribute, &SESSION, &['f', 'a', 'l', 's', 'e'])
}

fn are_taken(attributes: &[Attribute]) -> bool
    ensures { result ≡ list_all spec.is_taken attributes.now }
{
    attributes.iter().all(|a| is_taken(a))
}

fn are_distinct(attributes: &[Attribute]) -> bool
    ensures { result ≡ spec.are_distinct attributes.now }
{
    let mut rest = attributes;
    while let [first, more @ ..] = rest {
        if holds_name(more, first.name.as_slice()) {
            return false;
        }
        rest = more;
    }
    true
}

fn holds_name(attributes: &[Attribute], name: &[char]) -> bool
    ensures { result ≡ list_any (spec.has_name name.now) attributes.now }
{
    attributes.iter().any(|a| has_name(a, name))
}

/// Whether a page with a directive of these attributes has sessions, where they are taken, each at most once.
fn session_of(attributes: &[Attribute]) -> Option<bool>
    ensures { result ≡ spec.session_of attributes.now }
{
    if !are_taken(attributes) || !are_distinct(attributes) {
        return None;
    }
    Some(!has_setting(attributes, &SESSION, &['f', 'a', 'l', 's', 'e']))
}

/// The attributes of a directive with this text behind its `<%@`.
fn directive_attributes(alloc: Global, inside: &[char]) -> Result<Option<List<Attribute>>, Memory>
    ensures { Gives result (attributes_of (folded (32 ∷ inside.now))) }
{
    let mut text = Text::new(alloc);
    text.push(' ')?;
    text.append_slice(inside)?;
    folded_attributes(alloc, text.as_slice())
}

/// Whether the page has sessions by a directive with this text behind its `<%@`, where the directive is taken.
fn directive_session(alloc: Global, inside: &[char]) -> Result<Option<bool>, Memory>
    ensures { Gives result (option_and_then spec.session_of (attributes_of (folded (32 ∷ inside.now)))) }
{
    match directive_attributes(alloc, inside)? {
        Some(attributes) => Ok(session_of(attributes.as_slice())),
        None => Ok(None),
    }
}

/// The directive of this text behind its `<%@`, behind this text of the page.
#[tactic(auto, unfolding(crate::specs::Forms::directive_at))]
fn directive_at(
    alloc: Global,
    before: &[char],
    line: u32,
    inside: &[char],
) -> Result<Fragment, PageStop>
    ensures { Reads result line (spec.directive_at before.now inside.now) }
{
    if !is_blank_text(before) {
        return Err(fault(PageFault::LateDirective, line));
    }
    match directive_session(alloc, inside)? {
        Some(session) => Ok(Fragment::Directive { session }),
        None => Err(fault(PageFault::BadDirective, line)),
    }
}

// ---- blocks

/// What a block with this text inside is, behind this text of the page.
fn block_of(
    alloc: Global,
    before: &[char],
    line: u32,
    inside: &[char],
) -> Result<Fragment, PageStop>
    ensures { Reads result line (spec.block_of before.now line inside.now) }
{
    match inside {
        ['=', value @ ..] => Ok(Fragment::Write {
            text: List::from_slice(alloc, value)?,
            line,
        }),
        ['@', more @ ..] => directive_at(alloc, before, line, more),
        _ => Ok(Fragment::Script {
            text: List::from_slice(alloc, inside)?,
            line,
        }),
    }
}

/// The block from behind its `<%`, behind this text of the page, and what follows it.
fn block_behind<'a>(
    alloc: Global,
    before: &[char],
    line: u32,
    inside: &'a [char],
) -> Result<(Fragment, &'a [char]), PageStop>
    ensures value { ReadsOn result line (spec.block_behind before.now line inside.now) }
    ensures shorter { IfOk result (λ found. length found.1.now ≤ length inside.now) }
{
    let Some((inside, rest)) = cut_by(inside, &['%', '>']) else {
        return Err(fault(PageFault::OpenBlock, line));
    };
    match block_of(alloc, before, line, inside) {
        Ok(piece) => Ok((piece, rest)),
        Err(stop) => Err(stop),
    }
}

// ---- elements

fn is_for_element(attribute: &Attribute) -> bool
    ensures { result ≡ spec.is_for_element attribute.now }
{
    !has_name(attribute, &['s', 'r', 'c'])
        && (!has_name(attribute, &LANGUAGE) || attribute.value.as_slice() == VBSCRIPT.as_slice())
}

fn are_for_element(attributes: &[Attribute]) -> bool
    ensures { result ≡ list_all spec.is_for_element attributes.now }
{
    attributes.iter().all(|a| is_for_element(a))
}

/// The script element with these attributes, from behind its tag, where `begins` is the line, and what follows it. Its
/// tag begins in the line `line`, in which its faults are told.
fn element_at<'a>(
    alloc: Global,
    line: u32,
    begins: u32,
    attributes: &[Attribute],
    text: &'a [char],
) -> Result<(Fragment, &'a [char]), PageStop>
    ensures value { ReadsOn result line (spec.element_at begins (attributes.now, text.now)) }
    ensures shorter { IfOk result (λ found. length found.1.now ≤ length text.now) }
{
    if !are_for_element(attributes) {
        return Err(fault(PageFault::BadDirective, line));
    }
    let Some((inside, rest)) = cut_by(text, &SCRIPT_END) else {
        return Err(fault(PageFault::OpenBlock, line));
    };
    match List::from_slice(alloc, inside) {
        Ok(text) => Ok((Fragment::Element { text, line: begins }, rest)),
        Err(Memory) => Err(PageStop::Memory),
    }
}

/// The include or the element at the front, and what follows it.
fn include_or_element(
    alloc: Global,
    line: u32,
    text: &[char],
) -> Result<(Fragment, &[char]), PageStop>
    requires { line + length text.now < 2 ^ 32 }
    ensures value { ReadsOn result line (spec.include_or_element line text.now (spec.include_of text.now)) }
    ensures shorter { IfOk result (λ found. length found.1.now < length text.now) }
{
    if let Some((from_root, path, rest)) = include_of(text) {
        return match List::from_slice(alloc, path) {
            Ok(path) => Ok((
                Fragment::Include {
                    from_root,
                    path,
                    line,
                },
                rest,
            )),
            Err(Memory) => Err(PageStop::Memory),
        };
    }
    match server_tag(alloc, text, &SCRIPT) {
        Ok(Some((attributes, rest))) => {
            let begins = line + line_ends(text.len() - rest.len(), text);
            element_at(alloc, line, begins, attributes.as_slice(), rest)
        }
        Ok(None) => Err(fault(PageFault::ObjectTag, line)),
        Err(Memory) => Err(PageStop::Memory),
    }
}

/// The piece at the front of a text at which a form begins, behind this text of the page, and what follows it.
#[tactic(auto, unfolding(crate::specs::Forms::opened))]
pub fn opened<'a>(
    alloc: Global,
    before: &[char],
    line: u32,
    text: &'a [char],
) -> Result<(Fragment, &'a [char]), PageStop>
    requires { line + length text.now < 2 ^ 32 }
    ensures value { ReadsOn result line (spec.opened before.now line text.now) }
    ensures shorter { IfOk result (λ found. length found.1.now < length text.now) }
{
    match behind(text, &['<', '%']) {
        Some(inside) => block_behind(alloc, before, line, inside),
        None => include_or_element(alloc, line, text),
    }
}

/// Whether a form other than plain text begins at the front of the text.
#[tactic(auto, unfolding(crate::specs::Forms::begins_form))]
pub fn begins_form(alloc: Global, text: &[char]) -> Result<bool, Memory>
    ensures { Gives result (spec.begins_form text.now) }
{
    if begins(text, &['<', '%']) || include_of(text).is_some() {
        return Ok(true);
    }
    Ok(server_tag(alloc, text, &SCRIPT)?.is_some() || server_tag(alloc, text, &OBJECT)?.is_some())
}
