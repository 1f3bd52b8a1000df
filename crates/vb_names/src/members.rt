//! The members of the objects that a page is given, and those of Err.
ghost use Rattle.std.specs.Prelude.{◌≡◌, ◌≤◌, ◌+◌, false, length};
ghost use Rattle.vb_syntax.specs.scope.Members as spec;

use vb_syntax::program::ErrMember;
use vb_syntax::{MEMBERS, MemberRow, MemberStep, MemberWord, PageObject, Shape, Stands};
use vb_value::{among, is_word};

const ERR_MEMBERS: [(&[u8], ErrMember); 5] = [
    (b"number", ErrMember::Number),
    (b"description", ErrMember::Description),
    (b"source", ErrMember::Source),
    (b"clear", ErrMember::Clear),
    (b"raise", ErrMember::Raise),
];

/// A word in small letters.
fn spelling(word: MemberWord) -> &'static [u8]
    ensures { result.now ≡ spec.spelling word }
{
    match word {
        MemberWord::Count => b"count",
        MemberWord::QueryString => b"querystring",
        MemberWord::Item => b"item",
        MemberWord::Key => b"key",
        MemberWord::Form => b"form",
        MemberWord::Cookies => b"cookies",
        MemberWord::HasKeys => b"haskeys",
        MemberWord::ServerVariables => b"servervariables",
        MemberWord::TotalBytes => b"totalbytes",
        MemberWord::Write => b"write",
        MemberWord::Clear => b"clear",
        MemberWord::End => b"end",
        MemberWord::Flush => b"flush",
        MemberWord::Redirect => b"redirect",
        MemberWord::Buffer => b"buffer",
        MemberWord::ContentType => b"contenttype",
        MemberWord::Charset => b"charset",
        MemberWord::Status => b"status",
        MemberWord::AddHeader => b"addheader",
        MemberWord::CacheControl => b"cachecontrol",
        MemberWord::Path => b"path",
        MemberWord::Domain => b"domain",
        MemberWord::Secure => b"secure",
        MemberWord::IsClientConnected => b"isclientconnected",
        MemberWord::HtmlEncode => b"htmlencode",
        MemberWord::UrlEncode => b"urlencode",
        MemberWord::MapPath => b"mappath",
        MemberWord::CreateObject => b"createobject",
        MemberWord::ScriptTimeout => b"scripttimeout",
        MemberWord::Contents => b"contents",
        MemberWord::Remove => b"remove",
        MemberWord::RemoveAll => b"removeall",
        MemberWord::SessionId => b"sessionid",
        MemberWord::Timeout => b"timeout",
        MemberWord::Abandon => b"abandon",
        MemberWord::Lock => b"lock",
        MemberWord::Unlock => b"unlock",
    }
}

/// Whether two objects are the same.
fn same_object(one: PageObject, other: PageObject) -> bool
    ensures { result ≡ spec.same_object one other }
{
    one == other
}

/// Whether a path may go on with these steps.
fn may_stand(stands: Stands, is_group: bool, steps: &[Shape]) -> bool
    ensures { result ≡ spec.may_stand stands is_group steps.now }
{
    match stands {
        Stands::Anywhere => true,
        Stands::Alone => steps.is_empty(),
        Stands::Group => steps.is_empty() && is_group,
    }
}

/// Whether a path has the steps of a row, and goes on as the row says.
fn fits(stands: Stands, is_group: bool, mut pattern: &[MemberStep], mut steps: &[Shape]) -> bool
    ensures { result ≡ spec.fits stands is_group pattern.entry.now steps.entry.now }
{
    while let [wanted, rest @ ..] = pattern {
        match wanted {
            MemberStep::End => return may_stand(stands, is_group, steps),
            MemberStep::Name(word) => {
                let [Shape::Member(name), more @ ..] = steps else {
                    return false;
                };
                if !is_word(spelling(*word), name.as_slice()) {
                    return false;
                }
                steps = more;
            }
            MemberStep::Arguments => {
                let [Shape::Group, more @ ..] = steps else {
                    return false;
                };
                steps = more;
            }
        }
        pattern = rest;
    }
    may_stand(stands, is_group, steps)
}

/// The steps of a row.
fn steps_of(row: &MemberRow) -> [MemberStep; 4]
    ensures { result ≡ spec.steps_of row.now }
{
    [row.first, row.second, row.third, row.fourth]
}

/// The first of some rows that fits.
fn first_row(
    mut rows: &[MemberRow],
    object: PageObject,
    is_group: bool,
    steps: &[Shape],
) -> Option<MemberRow>
    ensures { result ≡ spec.first_row rows.entry.now object is_group steps.now }
{
    while let [row, rest @ ..] = rows {
        if same_object(row.object, object) && fits(row.stands, is_group, &steps_of(row), steps) {
            return Some(*row);
        }
        rows = rest;
    }
    None
}

#[tactic(auto, unfolding(vb_syntax::specs::scope::Members::member_meant))]
/// The row of the member that stands behind an object (ASP 3.0 object reference). `None` is an object without a member
/// that it has. A For Each goes over the path where `is_group` is true.
pub fn member_meant(object: PageObject, is_group: bool, steps: &[Shape]) -> Option<MemberRow>
    ensures { result ≡ spec.member_meant object is_group steps.now }
{
    first_row(&MEMBERS, object, is_group, steps)
}

/// How many steps a row has.
fn length_in(steps: &[MemberStep]) -> usize
    ensures length { result ≡ spec.length_of steps.now }
    ensures within { result ≤ length steps.now }
{
    match steps {
        [] => 0,
        [MemberStep::End, ..] => 0,
        [MemberStep::Name(_), rest @ ..] => 1 + length_in(rest),
        [MemberStep::Arguments, rest @ ..] => 1 + length_in(rest),
    }
}

/// How many steps say which member is meant.
pub fn length_of(row: &MemberRow) -> usize
    ensures { result ≡ spec.length_of (spec.steps_of row.now) }
{
    length_in(&steps_of(row))
}

/// The parenthesis right behind a row.
fn right_behind(ended: bool, step: &Shape) -> u32
    ensures behind { result ≡ spec.right_behind ended step.now }
    ensures within { result ≤ 1 }
{
    match step {
        Shape::Group => { if ended { 0 } else { 1 } }
        Shape::Member(_) => 0,
    }
}

/// How many parentheses a row has, and the one right behind it.
fn groups_in(ended: bool, pattern: &[MemberStep], steps: &[Shape]) -> u32
    requires { length pattern.now ≤ 4 }
    ensures groups { result ≡ spec.groups_behind ended pattern.now steps.now }
    ensures within { result ≤ length pattern.now + 1 }
{
    let [step, more @ ..] = steps else {
        return 0;
    };
    match pattern {
        [MemberStep::Name(_), rest @ ..] => groups_in(false, rest, more),
        [MemberStep::Arguments, rest @ ..] => 1 + groups_in(true, rest, more),
        [] => right_behind(ended, step),
        [MemberStep::End, ..] => right_behind(ended, step),
    }
}

/// How many of the path's first parentheses hold the arguments of the member.
pub fn groups_behind(row: &MemberRow, steps: &[Shape]) -> u32
    ensures { result ≡ spec.groups_behind false (spec.steps_of row.now) steps.now }
{
    groups_in(false, &steps_of(row), steps)
}

/// What stands behind Err, and how many of the steps say so (VBScript 5.6 language reference, "Err Object").
#[tactic(auto, unfolding(vb_syntax::specs::scope::Members::err_meant))]
pub fn err_meant(steps: &[Shape]) -> (ErrMember, usize)
    ensures { result ≡ spec.err_meant steps.now }
{
    match steps {
        [Shape::Member(name), ..] => match among(&ERR_MEMBERS, name.as_slice()) {
            Some(found) => (found, 1),
            None => (ErrMember::Absent, 1),
        },
        _ => (ErrMember::Number, 0),
    }
}
