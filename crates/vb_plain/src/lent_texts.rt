//! Functions on texts that lie in variables. Where one is refused, none gives a value: the call is then made as any other.
ghost use Rattle.std.specs.Prelude.{◌≡◌, ◌∷◌, [], take, drop, IfSome, Ok};
ghost use Rattle.vb_meaning.specs.Step.{raising};
ghost use Rattle.vb_strings.specs.Functions.{call_string_of};
ghost use Rattle.vb_value.specs.TextLimit.{limited};
ghost use Rattle.vb_value.specs.declared.function.StrFn.TheVariants as on_texts;
ghost use Rattle.vb_value.specs.declared.value.Value.{Str};

use std::alloc::Global;
use std::slice::from_ref;
use vb_meaning::raise;
use vb_strings::{call_string, place_from, place_in};
use vb_value::{StrFn, Text, Value, limited, to_long};

/// What a function gives of one argument.
pub fn of_one(alloc: Global, found: StrFn, value: &Value) -> Option<Value>
    ensures { IfSome result (λ given. raising (call_string_of found (value.now ∷ [])) ≡ Ok given) }
{
    match raise(call_string(alloc, found, from_ref(value))) {
        Ok(given) => Some(given),
        Err(_) => None,
    }
}

/// These characters as a value, if a text may have so many.
fn cut(alloc: Global, characters: &[char]) -> Option<Value>
    ensures { IfSome result (λ given. limited characters.now ≡ Ok given) }
{
    match Text::from_slice(alloc, characters) {
        Ok(text) => limited(text).ok(),
        Err(_) => None,
    }
}

/// The first so many characters, or all where there are fewer.
fn front(text: &[char], count: usize) -> &[char]
    ensures { result.now ≡ take count text.now }
{
    if count < text.len() {
        &text[..count]
    } else {
        text
    }
}

/// What stands behind so many characters.
fn behind(text: &[char], skipped: usize) -> &[char]
    ensures { result.now ≡ drop skipped text.now }
{
    if skipped < text.len() {
        &text[skipped..]
    } else {
        &[]
    }
}

/// `Left`.
fn left(alloc: Global, text: &Text, n: &Value) -> Option<Value>
    ensures { IfSome result (λ given. raising (call_string_of on_texts.Left (Str text.now ∷ n.now ∷ [])) ≡ Ok given) }
{
    let Ok(count) = to_long(n) else {
        return None;
    };
    if count < 0 {
        return None;
    }
    cut(alloc, front(text.as_slice(), count as usize))
}

/// `Right`.
fn right(alloc: Global, text: &Text, n: &Value) -> Option<Value>
    ensures { IfSome result (λ given. raising (call_string_of on_texts.Right (Str text.now ∷ n.now ∷ [])) ≡ Ok given) }
{
    let Ok(count) = to_long(n) else {
        return None;
    };
    if count < 0 {
        return None;
    }
    let start = text.len().saturating_sub(count as usize);
    cut(alloc, behind(text.as_slice(), start))
}

/// `Mid` from a place on.
fn rest(alloc: Global, text: &Text, i: &Value) -> Option<Value>
    ensures { IfSome result (λ given. raising (call_string_of on_texts.Mid (Str text.now ∷ i.now ∷ [])) ≡ Ok given) }
{
    let Ok(place) = to_long(i) else {
        return None;
    };
    if place < 1 {
        return None;
    }
    cut(alloc, behind(text.as_slice(), place as usize - 1))
}

/// `Mid` of so many characters from a place on.
fn middle(alloc: Global, text: &Text, i: &Value, n: &Value) -> Option<Value>
    ensures { IfSome result (λ given.
        raising (call_string_of on_texts.Mid (Str text.now ∷ i.now ∷ n.now ∷ [])) ≡ Ok given) }
{
    let (Ok(place), Ok(count)) = (to_long(i), to_long(n)) else {
        return None;
    };
    if place < 1 || count < 0 {
        return None;
    }
    let skipped = place as usize - 1;
    cut(
        alloc,
        front(behind(text.as_slice(), skipped), count as usize),
    )
}

/// `InStr` of a value and a text in it.
fn place(alloc: Global, value: &Value, sought: &Value) -> Option<Value>
    ensures { IfSome result (λ given. raising (call_string_of on_texts.InStr (value.now ∷ sought.now ∷ [])) ≡ Ok given) }
{
    match raise(place_in(alloc, value, sought)) {
        Ok(given) => Some(given),
        Err(_) => None,
    }
}

/// `InStr` from a place on, of a value and a text in it.
pub fn place_behind(alloc: Global, from: &Value, value: &Value, sought: &Value) -> Option<Value>
    ensures { IfSome result (λ given.
        raising (call_string_of on_texts.InStr (from.now ∷ value.now ∷ sought.now ∷ [])) ≡ Ok given) }
{
    match raise(place_from(alloc, from, value, sought)) {
        Ok(given) => Some(given),
        Err(_) => None,
    }
}

/// What a function gives of a value and one argument more, where that is a part of a text or a place in it.
pub fn of_two(alloc: Global, found: StrFn, value: &Value, more: &Value) -> Option<Value>
    ensures { IfSome result (λ given. raising (call_string_of found (value.now ∷ more.now ∷ [])) ≡ Ok given) }
{
    let Value::Str(text) = value else {
        return None;
    };
    match found {
        StrFn::Left => left(alloc, text, more),
        StrFn::Right => right(alloc, text, more),
        StrFn::Mid => rest(alloc, text, more),
        StrFn::InStr => place(alloc, value, more),
        _ => None,
    }
}

/// What a function gives of a value and two arguments more, where that is a part of a text.
pub fn of_three(
    alloc: Global,
    found: StrFn,
    value: &Value,
    second: &Value,
    third: &Value,
) -> Option<Value>
    ensures { IfSome result (λ given.
        raising (call_string_of found (value.now ∷ second.now ∷ third.now ∷ [])) ≡ Ok given) }
{
    match (found, value) {
        (StrFn::Mid, Value::Str(text)) => middle(alloc, text, second, third),
        _ => None,
    }
}
