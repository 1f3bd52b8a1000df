//! Tags of elements that are to run on the server, and includes.
ghost use Rattle.std.specs.Prelude.{◌≡◌, ◌<◌, ◌≤◌, IfOk, IfSome, length};
ghost use Rattle.std.specs.List.{prefix_len};
ghost use Rattle.std.specs.Option.{option_copied};
ghost use Rattle.vb_value.specs.Outcome.{Gives};
ghost use Rattle.page_read.specs.Forms as spec;
ghost use Rattle.vb_value.specs.Folding.{folded};
ghost use Rattle.page_read.specs.Attributes.{attributes_of};
ghost use Rattle.page_read.specs.Reading.{shown_beside, shown_include, shown_pair};

use crate::attribute::{Attribute, attributes, has_setting};
use crate::mark::{behind, cut_by, unblanked};
use std::alloc::Global;
use vb_value::{List, Memory, Text, fold};

/// What stands behind the mark, where nothing but blanks stands before it.
fn next_behind<'a>(text: &'a [char], mark: &[char]) -> Option<&'a [char]>
    ensures value { option_copied result ≡ spec.next_behind mark.now text.now }
    ensures shorter { IfSome result (λ rest. length rest.now ≤ length text.now) }
{
    behind(unblanked(text), mark)
}

/// The path between the quotes behind `=`, and what follows it.
fn quoted_path(text: &[char]) -> Option<(&[char], &[char])>
    ensures value { shown_pair result ≡ spec.quoted_path text.now }
    ensures shorter { IfSome result (λ found. length found.1.now ≤ length text.now) }
{
    let value = next_behind(text, &['='])?;
    let inside = next_behind(value, &['"'])?;
    cut_by(inside, &['"'])
}

/// An include, from behind the word `file` or `virtual`.
fn include_behind(text: &[char], from_root: bool) -> Option<(bool, &[char], &[char])>
    ensures value { shown_include result ≡ spec.include_behind from_root text.now }
    ensures shorter { IfSome result (λ found. length found.2.now ≤ length text.now) }
{
    let (path, rest) = quoted_path(text)?;
    let rest = next_behind(rest, &['-', '-', '>'])?;
    Some((from_root, path, rest))
}

/// An include, from behind `#include`.
fn include_named(text: &[char]) -> Option<(bool, &[char], &[char])>
    ensures value { shown_include result ≡ spec.include_named text.now }
    ensures shorter { IfSome result (λ found. length found.2.now ≤ length text.now) }
{
    if let Some(rest) = next_behind(text, &['f', 'i', 'l', 'e']) {
        return include_behind(rest, false);
    }
    let rest = next_behind(text, &['v', 'i', 'r', 't', 'u', 'a', 'l'])?;
    include_behind(rest, true)
}

/// The include at the front: whether its path is from the root, its path, and what follows it.
#[tactic(auto, unfolding(crate::specs::Forms::include_of))]
pub fn include_of(text: &[char]) -> Option<(bool, &[char], &[char])>
    ensures value { shown_include result ≡ spec.include_of text.now }
    ensures shorter { IfSome result (λ found. length found.2.now < length text.now) }
{
    let comment = behind(text, &['<', '!', '-', '-'])?;
    let named = next_behind(comment, &['#', 'i', 'n', 'c', 'l', 'u', 'd', 'e'])?;
    include_named(named)
}

fn is_inside(c: char) -> bool
    ensures { result ≡ spec.is_inside c }
{
    c != '<' && c != '>'
}

/// How many characters at the front are neither `<` nor `>`.
#[tactic(auto, using(crate::proofs::Fronts::front_more, crate::proofs::Fronts::front_stops, crate::proofs::Fronts::front_ends))]
fn inside_len(text: &[char]) -> usize
    ensures value { result ≡ prefix_len spec.is_inside text.now }
    ensures within { result ≤ length text.now }
{
    for at in 0..text.len() {
        if !is_inside(text[at]) {
            return at;
        }
    }
    text.len()
}

/// What a tag has behind its name, up to its `>` and without a `<`, and what follows the tag.
fn inside_of_tag(text: &[char]) -> Option<(&[char], &[char])>
    ensures value { shown_pair result ≡ spec.inside_of_tag text.now }
    ensures shorter { IfSome result (λ found. length found.1.now < length text.now) }
{
    let at = inside_len(text);
    if at == text.len() || text[at] != '>' {
        return None;
    }
    Some((&text[..at], &text[at + 1..]))
}

/// The attributes of a text in any ASCII case, as those with small letters.
pub fn folded_attributes(alloc: Global, text: &[char]) -> Result<Option<List<Attribute>>, Memory>
    ensures { Gives result (attributes_of (folded text.now)) }
{
    let text: Text = List::from_slice(alloc, text)?;
    let text = fold(alloc, &text)?;
    attributes(alloc, text.as_slice())
}

/// The tag of this name at the front, of an element that is to run on the server: its attributes, and what follows it.
#[tactic(auto, unfolding(crate::specs::Forms::server_tag))]
pub fn server_tag<'a>(
    alloc: Global,
    text: &'a [char],
    name: &[char],
) -> Result<Option<(List<Attribute>, &'a [char])>, Memory>
    ensures value { IfOk result (λ found. shown_beside found ≡ spec.server_tag name.now text.now) }
    ensures shorter { IfOk result (λ found. IfSome found (λ tag. length tag.1.now < length text.now)) }
{
    let Some(inside) = behind(text, name) else {
        return Ok(None);
    };
    let Some((inside, rest)) = inside_of_tag(inside) else {
        return Ok(None);
    };
    let Some(attributes) = folded_attributes(alloc, inside)? else {
        return Ok(None);
    };
    if !has_setting(
        attributes.as_slice(),
        &['r', 'u', 'n', 'a', 't'],
        &['s', 'e', 'r', 'v', 'e', 'r'],
    ) {
        return Ok(None);
    }
    Ok(Some((attributes, rest)))
}
