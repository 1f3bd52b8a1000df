//! What words say: which calls a run makes, and what it leaves.
ghost use Rattle.std.specs.Prelude.{◌≡◌, ◌+◌, ◌*◌, ◌++◌, ◌∷◌, [], replicate, length, ◌<◌, ◌^◌, IfOk, IfSome, OnOk, IsTrue};
ghost use Rattle.vb_value.specs.Outcome.{Gives};
ghost use Rattle.asp_job.specs.Calls.{IsAppCall};
ghost use Rattle.asp_job.specs.Running.{IsBounded};
ghost use Rattle.word_runs.specs.Words as spec;

use crate::run::Page;
use asp_job::{Answer, Fail, Finished, Header, Job, Named, Request, SessionState, Verb, Work};
use std::alloc::Global;
use vb_value::{AppCall, Bytes, Copied, List, Memory, Text, Value, to_str};

/// So many MiB or more are never answered.
const TOO_MANY: usize = 4096;

/// Whether the letter stands at the place.
fn is_letter(word: &Text, place: usize, letter: char) -> bool
    ensures { result ≡ spec.is_letter word.now place letter }
{
    match word.get(place) {
        Some(found) => *found == letter,
        None => false,
    }
}

/// Whether runs of the word have a session.
fn has_session(word: &Text) -> bool
    ensures { result ≡ spec.has_session word.now }
{
    is_letter(word, 1, 'k')
}

/// Whether the job has a session.
pub fn is_keyed(job: &Job) -> bool
    ensures { result ≡ spec.is_keyed job.now }
{
    match &job.work {
        Work::Page(request) => has_session(&request.path),
        _ => false,
    }
}

fn is_head(verb: Verb) -> bool
    ensures { result ≡ spec.is_head verb }
{
    matches!(verb, Verb::Head)
}

/// The page of a request.
fn requested(request: &Request) -> Result<Page, Memory>
    ensures { Gives result (spec.requested request.now) }
{
    Ok(Page {
        word: request.path.copy()?,
        sent: request.body.copy()?,
        head_only: is_head(request.verb),
        close: request.close,
    })
}

/// The page of what is to be done, and the place of its first call.
pub fn page_of(work: &Work) -> Result<(Option<Page>, usize), Memory>
    ensures { Gives result (spec.page_of work.now, spec.place_after (spec.page_of work.now) 0) }
{
    match work {
        Work::Page(request) => {
            let page = requested(request)?;
            let place = if has_session(&page.word) { 2 } else { 1 };
            Ok((Some(page), place))
        }
        _ => Ok((None, 0)),
    }
}

fn name(alloc: Global, letter: char) -> Result<Text, Memory>
    ensures { Gives result (letter ∷ []) }
{
    Ok(Text::from_slice(alloc, &[letter])?)
}

/// What a letter calls.
fn call_of(alloc: Global, letter: char) -> Result<Option<AppCall>, Memory>
    ensures call { Gives result (spec.call_of letter) }
    ensures legal { IfOk result (λ call. IfSome call IsAppCall) }
{
    if letter == 'l' {
        Ok(Some(AppCall::Lock))
    } else if letter == 'u' {
        Ok(Some(AppCall::Unlock))
    } else if letter == 'n' {
        Ok(Some(AppCall::Count))
    } else if letter == 'c' {
        Ok(Some(AppCall::RemoveAll))
    } else if letter == 'g' {
        Ok(Some(AppCall::Get(name(alloc, 'a')?)))
    } else if letter == 'p' {
        Ok(Some(AppCall::Put(name(alloc, 'a')?, Value::Int(1))))
    } else if letter == 'r' {
        Ok(Some(AppCall::Remove(name(alloc, 'a')?)))
    } else if letter == 'i' {
        Ok(Some(AppCall::KeyAt(1)))
    } else if letter == 'a' {
        Ok(Some(AppCall::Names))
    } else {
        Ok(None)
    }
}

/// The call at the place, and the place behind it.
pub fn call_at(alloc: Global, word: &Text, place: usize) -> Result<Option<(AppCall, usize)>, Memory>
    ensures { IfOk result (λ found. spec.IsCallAt word.now place found) }
{
    let Some(letter) = word.get(place) else {
        return Ok(None);
    };
    let Some(next) = place.checked_add(1) else {
        return Err(Memory);
    };
    match call_of(alloc, *letter)? {
        Some(call) => Ok(Some((call, next))),
        None => Ok(None),
    }
}

/// One more than the number.
fn next_after(value: &Value) -> i32
    ensures { result ≡ spec.next_after value.now }
{
    match value {
        Value::Long(n) => { if *n < 1_000_000_000 { *n + 1 } else { 1 } }
        _ => 1,
    }
}

fn count_in(session: &SessionState) -> i32
    ensures { result ≡ spec.count_in session.now }
{
    match session.values.get(0) {
        Some(entry) => next_after(&entry.value),
        None => 1,
    }
}

/// The session with its count.
fn counted(alloc: Global, session: &SessionState) -> Result<SessionState, Memory>
    ensures { Gives result (spec.counted session.now) }
{
    let mut values = List::new(alloc);
    values.push(Named {
        name: name(alloc, 'n')?,
        value: Value::Long(count_in(session)),
    })?;
    Ok(SessionState {
        serial: session.serial,
        timeout: session.timeout,
        values,
        dicts: List::new(alloc),
    })
}

fn text_of(alloc: Global, number: i32) -> Result<Text, Memory>
    ensures { Gives result (spec.text_of number) }
{
    match to_str(alloc, &Value::Long(number)) {
        Ok(text) => Ok(text),
        Err(_) => Err(Memory),
    }
}

/// The number that a run counted, if it has a session.
fn digits(alloc: Global, session: &Option<SessionState>) -> Result<Bytes, Memory>
    ensures { Gives result (spec.digits session.now) }
{
    match session {
        Some(session) => text_of(alloc, count_in(session))?.to_utf8(alloc),
        None => Ok(Bytes::new(alloc)),
    }
}

/// How many MiB are added behind the place.
fn mebis(word: &Text, place: usize) -> usize
    ensures { result ≡ spec.mebis word.now place }
{
    if is_letter(word, place, 'm') {
        word.len() - place
    } else {
        0
    }
}

/// The bytes with so many of these more.
fn filled(bytes: Bytes, count: usize, byte: u8) -> Result<Bytes, Memory>
    ensures { Gives result (bytes ++ replicate count byte) }
{
    let before = bytes.len();
    let mut vec = bytes.into_vec();
    match before.checked_add(count) {
        Some(all) => {
            vec.resize(all, byte)?;
            Ok(List::from_vec(vec))
        }
        None => Err(Memory),
    }
}

/// The number that a run counted, and behind it what was sent, where an `e` stands at the place.
fn said(
    alloc: Global,
    page: &Page,
    session: &Option<SessionState>,
    place: usize,
) -> Result<Bytes, Memory>
    ensures { Gives result (spec.said page.now session.now place) }
{
    let mut said = digits(alloc, session)?;
    if is_letter(&page.word, place, 'e') {
        said.append_slice(page.sent.as_slice())?;
    }
    Ok(said)
}

fn body(
    alloc: Global,
    page: &Page,
    session: &Option<SessionState>,
    place: usize,
) -> Result<Bytes, Memory>
    ensures body { Gives result (spec.body_of page.now session.now place) }
    ensures bounded { IfOk result (λ body. length body < 2 ^ 32) }
{
    let count = mebis(&page.word, place);
    if count >= TOO_MANY {
        return Err(Memory);
    }
    let body = filled(said(alloc, page, session, place)?, count * 1_048_576, b'm')?;
    if body.len() >= 4_294_967_296 {
        return Err(Memory);
    }
    Ok(body)
}

/// The status of a digit at the place; 200 for anything else.
fn status_at(word: &Text, place: usize) -> u16
    ensures { result ≡ spec.status_at word.now place }
{
    match word.get(place) {
        Some('2') => 204,
        Some('3') => 304,
        Some('4') => 404,
        Some('5') => 500,
        _ => 200,
    }
}

/// The field that tells a client these letters of its key.
fn cookie_field(alloc: Global, letters: &Text) -> Result<Header, Memory>
    ensures { Gives result (spec.cookie_field letters.now) }
{
    let name = Text::from_slice(alloc, &['S', 'e', 't', '-', 'C', 'o', 'o', 'k', 'i', 'e'])?;
    let mut value = Bytes::from_slice(alloc, b"ASPSESSIONIDPROFILE=")?;
    value.append(letters.to_utf8(alloc)?)?;
    value.append_slice(b"; path=/")?;
    Ok(Header { name, value })
}

fn fields(alloc: Global, cookie: &Option<Text>) -> Result<List<Header>, Memory>
    ensures { Gives result (spec.fields cookie.now) }
{
    let mut fields = List::new(alloc);
    if let Some(letters) = cookie {
        fields.push(cookie_field(alloc, letters)?)?;
    }
    Ok(fields)
}

/// The answer of a run whose calls end before the place.
fn answer_at(
    alloc: Global,
    page: &Page,
    session: &Option<SessionState>,
    cookie: &Option<Text>,
    place: usize,
) -> Result<Answer, Memory>
    ensures answer { Gives result (spec.answer_of page.now session.now cookie.now place) }
    ensures bounded { IfOk result IsBounded }
{
    Ok(Answer {
        status: status_at(&page.word, place),
        reason: Text::new(alloc),
        headers: fields(alloc, cookie)?,
        body: body(alloc, page, session, place)?,
        head_only: page.head_only,
        close: page.close,
    })
}

/// The session with its count; none behind an `x`.
fn session_after(
    alloc: Global,
    word: &Text,
    session: &Option<SessionState>,
    place: usize,
) -> Result<Option<SessionState>, Memory>
    ensures { Gives result (spec.session_after word.now session.now place) }
{
    match session {
        Some(session) => {
            if is_letter(word, place, 'x') {
                Ok(None)
            } else {
                Ok(Some(counted(alloc, session)?))
            }
        }
        None => Ok(None),
    }
}

/// An error behind an `f`.
fn fail_at(word: &Text, place: usize) -> Option<Fail>
    ensures { result ≡ spec.fail_at word.now place }
{
    if is_letter(word, place, 'f') {
        Some(Fail::Error { number: 5, line: 1 })
    } else {
        None
    }
}

/// What a run leaves whose calls end before the place.
pub fn left_at(
    alloc: Global,
    page: &Page,
    session: &Option<SessionState>,
    cookie: &Option<Text>,
    place: usize,
) -> Result<Finished, Memory>
    ensures left { Gives result (spec.left_at page.now session.now cookie.now place) }
    ensures bounded { IfOk result (λ left. IfSome left.answer IsBounded) }
{
    let answer = answer_at(alloc, page, session, cookie, place)?;
    let after = session_after(alloc, &page.word, session, place)?;
    Ok(Finished {
        answer: Some(answer),
        session: after,
        fail: fail_at(&page.word, place),
        made: 0,
        finished: 0,
    })
}

/// An event leaves nothing.
pub fn left_by_event() -> Finished
    ensures { result ≡ spec.left_by_event }
{
    Finished {
        answer: None,
        session: None,
        fail: None,
        made: 0,
        finished: 0,
    }
}
