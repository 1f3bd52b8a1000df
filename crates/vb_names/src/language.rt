//! The names that the language has, and the objects that a page is given.
ghost use Rattle.std.specs.Prelude.{◌≡◌, map};
ghost use Rattle.std.specs.Option.{option_copied};
ghost use Rattle.vb_value.specs.Outcome.{Gives};
ghost use Rattle.vb_syntax.specs.scope.Names as spec;
ghost use Rattle.vb_value.specs.Folding.{beside};
ghost use Rattle.vb_names.specs.Beginnings.{beginning, first_letter, seen};

use std::alloc::Global;
use vb_syntax::program::{DictionaryMember, Named};
use vb_syntax::{Literal, PageObject};
use vb_value::{List, Memory, PlainFn, StrFn, among, is_word};

/// The functions on texts whose names begin with a small letter.
fn string_functions(letter: char) -> &'static [(&'static [u8], StrFn)]
    ensures { seen result.now ≡ beginning letter spec.string_functions }
{
    match letter {
        'a' => &[(b"asc", StrFn::Asc), (b"ascw", StrFn::AscW)],
        'c' => &[(b"chr", StrFn::Chr), (b"chrw", StrFn::ChrW)],
        'i' => &[(b"instr", StrFn::InStr), (b"instrrev", StrFn::InStrRev)],
        'j' => &[(b"join", StrFn::Join)],
        'l' => &[
            (b"len", StrFn::Len),
            (b"left", StrFn::Left),
            (b"lcase", StrFn::LCase),
            (b"ltrim", StrFn::LTrim),
        ],
        'm' => &[(b"mid", StrFn::Mid)],
        'r' => &[
            (b"right", StrFn::Right),
            (b"rtrim", StrFn::RTrim),
            (b"replace", StrFn::Replace),
        ],
        's' => &[
            (b"split", StrFn::Split),
            (b"strreverse", StrFn::StrReverse),
            (b"space", StrFn::Space),
            (b"string", StrFn::String),
            (b"strcomp", StrFn::StrComp),
        ],
        't' => &[(b"trim", StrFn::Trim)],
        'u' => &[(b"ucase", StrFn::UCase)],
        _ => &[],
    }
}

/// The other functions but `TypeName` and `CreateObject`, likewise.
fn plain_functions(letter: char) -> &'static [(&'static [u8], PlainFn)]
    ensures { seen result.now ≡ beginning letter spec.plain_functions }
{
    match letter {
        'a' => &[(b"abs", PlainFn::Abs), (b"array", PlainFn::Array)],
        'c' => &[
            (b"cbool", PlainFn::CBool),
            (b"ccur", PlainFn::CCur),
            (b"cint", PlainFn::CInt),
            (b"clng", PlainFn::CLng),
            (b"cstr", PlainFn::CStr),
        ],
        'f' => &[(b"fix", PlainFn::Fix)],
        'h' => &[(b"hex", PlainFn::Hex)],
        'i' => &[
            (b"int", PlainFn::Int),
            (b"isarray", PlainFn::IsArray),
            (b"isempty", PlainFn::IsEmpty),
            (b"isnull", PlainFn::IsNull),
            (b"isobject", PlainFn::IsObject),
            (b"isnumeric", PlainFn::IsNumeric),
        ],
        'l' => &[(b"lbound", PlainFn::LBound)],
        'o' => &[(b"oct", PlainFn::Oct)],
        's' => &[(b"sgn", PlainFn::Sgn)],
        'u' => &[(b"ubound", PlainFn::UBound)],
        'v' => &[(b"vartype", PlainFn::VarType)],
        _ => &[],
    }
}

/// The constants that are Integers.
const INTEGERS: [(&[u8], i16); 14] = [
    (b"vbtrue", -1),
    (b"vbfalse", 0),
    (b"vbbinarycompare", 0),
    (b"vbtextcompare", 1),
    (b"vbempty", 0),
    (b"vbnull", 1),
    (b"vbinteger", 2),
    (b"vblong", 3),
    (b"vbcurrency", 6),
    (b"vbstring", 8),
    (b"vbobject", 9),
    (b"vbboolean", 11),
    (b"vbvariant", 12),
    (b"vbarray", 8192),
];

/// The objects that a page is given.
const PAGE_OBJECTS: [(&[u8], PageObject); 5] = [
    (b"request", PageObject::Request),
    (b"response", PageObject::Response),
    (b"server", PageObject::Server),
    (b"session", PageObject::Session),
    (b"application", PageObject::Application),
];

/// The members of a Dictionary.
const DICTIONARY_MEMBERS: [(&[u8], DictionaryMember); 9] = [
    (b"add", DictionaryMember::Add),
    (b"item", DictionaryMember::Item),
    (b"exists", DictionaryMember::Exists),
    (b"remove", DictionaryMember::Remove),
    (b"removeall", DictionaryMember::RemoveAll),
    (b"keys", DictionaryMember::Keys),
    (b"items", DictionaryMember::Items),
    (b"count", DictionaryMember::Count),
    (b"comparemode", DictionaryMember::CompareMode),
];

/// `vbObjectError`
const OBJECT_ERROR: i32 = -2147221504;

/// The first letter of a name, made small. Of no name it is a letter with which no name begins.
fn first_letter(name: &[char]) -> char
    ensures { result ≡ first_letter name.now }
{
    match name {
        [] => '\0',
        [letter, ..] => letter.to_ascii_lowercase(),
    }
}

fn string_function(name: &[char]) -> Option<StrFn>
    ensures { result ≡ beside spec.string_functions name.now }
{
    among(string_functions(first_letter(name)), name)
}

fn plain_function(name: &[char]) -> Option<PlainFn>
    ensures { result ≡ beside spec.plain_functions name.now }
{
    among(plain_functions(first_letter(name)), name)
}

fn integers(letter: char) -> &'static [(&'static [u8], i16)]
    ensures { seen result.now ≡ beginning letter spec.integers }
{
    match letter {
        'v' => &INTEGERS,
        _ => &[],
    }
}

fn integer(name: &[char]) -> Option<i16>
    ensures { result ≡ beside spec.integers name.now }
{
    among(integers(first_letter(name)), name)
}

#[tactic(auto, unfolding(vb_syntax::specs::scope::Names::object_named))]
/// The object of a page that a name stands for, where nothing declares it (ASP 3.0 object reference).
pub fn object_named(name: &[char]) -> Option<PageObject>
    ensures { result ≡ spec.object_named name.now }
{
    among(&PAGE_OBJECTS, name)
}

#[tactic(auto, unfolding(vb_syntax::specs::scope::Names::dictionary_member))]
/// The member of a Dictionary that a name says (Microsoft Scripting Runtime, "Dictionary Object").
pub fn dictionary_member(name: &[char]) -> Option<DictionaryMember>
    ensures { result ≡ spec.dictionary_member name.now }
{
    among(&DICTIONARY_MEMBERS, name)
}

fn text(name: &[char]) -> Option<&'static [char]>
    ensures { option_copied result ≡ beside spec.texts name.now }
{
    if first_letter(name) != 'v' {
        return None;
    }
    if is_word(b"vbcr", name) {
        return Some(&['\r']);
    }
    if is_word(b"vblf", name) {
        return Some(&['\n']);
    }
    if is_word(b"vbcrlf", name) {
        return Some(&['\r', '\n']);
    }
    if is_word(b"vbnewline", name) {
        return Some(&['\r', '\n']);
    }
    if is_word(b"vbtab", name) {
        return Some(&['\t']);
    }
    if is_word(b"vbnullchar", name) {
        return Some(&['\0']);
    }
    if is_word(b"vbnullstring", name) {
        return Some(&[]);
    }
    None
}

fn further(name: &[char]) -> Option<Named>
    ensures { result ≡ spec.further_names name.now }
{
    if is_word(b"typename", name) {
        return Some(Named::TypeName);
    }
    if is_word(b"createobject", name) {
        return Some(Named::CreateObject);
    }
    if is_word(b"err", name) {
        return Some(Named::Err);
    }
    if is_word(b"vbobjecterror", name) {
        return Some(Named::Value(Literal::Long(OBJECT_ERROR)));
    }
    None
}

#[tactic(auto, unfolding(vb_syntax::specs::scope::Names::of_language))]
/// What a name of the language stands for (VBScript 5.6 language reference, "Functions" and "Constants").
pub fn of_language(alloc: Global, name: &[char]) -> Result<Option<Named>, Memory>
    ensures { Gives result (spec.of_language name.now) }
{
    if let Some(found) = string_function(name) {
        return Ok(Some(Named::StringFunction(found)));
    }
    if let Some(found) = plain_function(name) {
        return Ok(Some(Named::PlainFunction(found)));
    }
    if let Some(number) = integer(name) {
        return Ok(Some(Named::Value(Literal::Integer(number))));
    }
    if let Some(characters) = text(name) {
        let text = List::from_slice(alloc, characters)?;
        return Ok(Some(Named::Value(Literal::Text(text))));
    }
    Ok(further(name))
}
