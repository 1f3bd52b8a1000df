//! Answers without a page: static files, and what is fixed.
ghost use Rattle.std.specs.Prelude.{◌≡◌, codes, true, false};
ghost use Rattle.std.specs.Option.{option_copied};
ghost use Rattle.asp_site.specs.Endings.{media_type_of};
ghost use Rattle.vb_value.specs.Outcome.{Gives};
ghost use Rattle.asp_response.specs.Fixed.{status_answer_of, not_allowed_of};
ghost use Rattle.asp_acts.specs.Pages as spec;
ghost use Rattle.asp_run.specs.Stands.{told_of};

use crate::ended::Ended;
use crate::run::PlainRun;
use crate::text::ascii;
use asp_job::{Answer, Header, Request, Verb};
use asp_objects::HeldSession;
use asp_response::{not_allowed_answer, status_answer};
use asp_site::media_type;
use std::alloc::Global;
use vb_value::{Bytes, Copied, List, Memory, SiteFile};

/// Whether the answer has no content.
pub(crate) fn is_head(verb: Verb) -> bool
    ensures { result ≡ spec.is_head verb }
{
    match verb {
        Verb::Head => true,
        Verb::Get | Verb::Post | Verb::Other => false,
    }
}

fn file_takes(verb: Verb) -> bool
    ensures { result ≡ spec.file_takes verb }
{
    match verb {
        Verb::Get | Verb::Head => true,
        Verb::Post | Verb::Other => false,
    }
}

/// The session once more, if there is one.
pub(crate) fn copy_kept(
    alloc: Global,
    session: Option<&HeldSession>,
) -> Result<Option<HeldSession>, Memory>
    ensures { Gives result (option_copied session.entry) }
{
    match session {
        Some(session) => Ok(Some(session.copy(alloc)?)),
        None => Ok(None),
    }
}

/// A run without acts that answers this.
pub(crate) fn only_answers(alloc: Global, run: &PlainRun, answer: Answer) -> Result<Ended, Memory>
    ensures { Gives result (spec.only_answers (told_of run.now) answer) }
{
    let session = copy_kept(alloc, run.session.as_ref())?;
    Ok(Ended::of(Some(answer), session, None, 0, 0))
}

fn type_header(alloc: Global, file: &SiteFile) -> Result<Header, Memory>
    ensures { Gives result (record { name = codes "Content-Type"; value = media_type_of file.now.path }) }
{
    Ok(Header {
        name: ascii(alloc, b"Content-Type")?,
        value: Bytes::from_slice(alloc, media_type(file.path.as_slice()).as_bytes())?,
    })
}

fn file_answer(alloc: Global, file: &SiteFile, request: &Request) -> Result<Answer, Memory>
    ensures { Gives result (spec.file_answer file.now request.now) }
{
    let mut answer = status_answer(alloc, 200, is_head(request.verb), request.close)?;
    let mut headers = List::new(alloc);
    headers.push(type_header(alloc, file)?)?;
    answer.headers = headers;
    answer.body = file.bytes.copy()?;
    Ok(answer)
}

/// The run of a static file.
pub(crate) fn file_work(
    alloc: Global,
    run: &PlainRun,
    request: &Request,
    file: &SiteFile,
) -> Result<Ended, Memory>
    ensures { Gives result (spec.file_work (told_of run.now) request.now file.now) }
{
    if file_takes(request.verb) {
        return only_answers(alloc, run, file_answer(alloc, file, request)?);
    }
    let answer = not_allowed_answer(alloc, false, is_head(request.verb), request.close)?;
    only_answers(alloc, run, answer)
}

/// The run of a path at which nothing stands.
pub(crate) fn missing_work(
    alloc: Global,
    run: &PlainRun,
    request: &Request,
) -> Result<Ended, Memory>
    ensures { Gives result (spec.only_answers (told_of run.now)
        (status_answer_of 404 (spec.is_head request.now.verb) request.now.close)) }
{
    let answer = status_answer(alloc, 404, is_head(request.verb), request.close)?;
    only_answers(alloc, run, answer)
}

/// The run of a page that takes no such method.
pub(crate) fn refused_work(
    alloc: Global,
    run: &PlainRun,
    request: &Request,
) -> Result<Ended, Memory>
    ensures { Gives result (spec.only_answers (told_of run.now)
        (not_allowed_of true (spec.is_head request.now.verb) request.now.close)) }
{
    let answer = not_allowed_answer(alloc, true, is_head(request.verb), request.close)?;
    only_answers(alloc, run, answer)
}
