//! Fields of a request, and its form.
ghost use Rattle.std.specs.Prelude.{◌≡◌, ◌==◌, IfOk, codes, find, take};
ghost use Rattle.std.specs.Option.{option_copied, option_map_or};
ghost use Rattle.vb_value.specs.Folding.{same_name};
ghost use Rattle.asp_request.specs.Collection.{Collects};
ghost use Rattle.asp_request.specs.Request as spec;

use crate::collection::Collection;
use crate::place::place_of;
use crate::query::collect_query;
use asp_job::{Header, Request, Verb};
use asp_text::trim_blanks;
use std::alloc::Global;
use vb_value::{Memory, is_word};

fn find_header<'a>(headers: &'a [Header], name: &[u8]) -> Option<&'a Header>
    ensures { option_copied result ≡ find (λ header. same_name name.now header.name) headers.now }
{
    headers
        .iter()
        .find(|header| is_word(name, header.name.as_slice()))
}

/// The value of the first field of a name, and nothing without one.
pub(crate) fn value_of_header<'a>(headers: &'a [Header], name: &[u8]) -> &'a [u8]
    ensures { result.now ≡ spec.value_of_header name.now headers.now }
{
    match find_header(headers, name) {
        Some(header) => header.value.as_slice(),
        None => &[],
    }
}

fn media_type(value: &[u8]) -> &[u8]
    ensures { result.now ≡ spec.media_type value.now }
{
    trim_blanks(&value[..place_of(value, b';')])
}

fn is_post(verb: Verb) -> bool
    ensures { result ≡ spec.is_post verb }
{
    matches!(verb, Verb::Post)
}

fn is_form(request: &Request) -> bool
    ensures { result ≡ spec.is_form request.now }
{
    let value = value_of_header(request.headers.as_slice(), b"Content-Type");
    is_post(request.verb)
        && media_type(value).eq_ignore_ascii_case(b"application/x-www-form-urlencoded")
}

/// The names and values of the form that a request posts.
pub(crate) fn collect_form(alloc: Global, request: &Request) -> Result<Collection, Memory>
    ensures { IfOk result (λ kept. Collects kept (spec.form_pairs request.now)) }
{
    if is_form(request) {
        collect_query(alloc, request.body.as_slice())
    } else {
        Ok(Collection::new(alloc))
    }
}
