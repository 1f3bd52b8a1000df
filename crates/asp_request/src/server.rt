//! ServerVariables.
ghost use Rattle.std.specs.Prelude.{◌≡◌, ◌+◌, ◌≤◌, ◌++◌, ◌∷◌, [], List as Items, IfOk, OnOk};
ghost use Rattle.std.specs.Prelude.{codes, decimal, drop, length, map, take};
ghost use Rattle.vb_value.specs.Folding.{folded};
ghost use Rattle.vb_value.specs.Outcome.{Gives};
ghost use Rattle.asp_request.specs.Collection.{Collects, values_at};
ghost use Rattle.asp_request.specs.Pairs.{Pair, joined};
ghost use Rattle.asp_request.specs.Request as spec;

use crate::collection::Collection;
use crate::field::value_of_header;
use crate::place::place_of;
use crate::text::{ascii, join, text_of};
use asp_job::{Header, Request, Verb};
use std::alloc::Global;
use vb_value::{Copied, Memory, Text, fold};

fn method_text(alloc: Global, verb: Verb) -> Result<Text, Memory>
    ensures { Gives result (spec.method_text verb) }
{
    match verb {
        Verb::Get => ascii(alloc, b"GET"),
        Verb::Head => ascii(alloc, b"HEAD"),
        Verb::Post => ascii(alloc, b"POST"),
        Verb::Other => Ok(Text::new(alloc)),
    }
}

fn protocol(alloc: Global, minor: u8) -> Result<Text, Memory>
    ensures { Gives result (spec.protocol minor) }
{
    if minor == 0 {
        ascii(alloc, b"HTTP/1.0")
    } else {
        ascii(alloc, b"HTTP/1.1")
    }
}

#[tactic(auto, unfolding(crate::specs::Request::bracket_end))]
fn bracket_end(host: &[u8]) -> usize
    ensures place { result ≡ spec.bracket_end host.now }
    ensures within { result ≤ length host.now }
{
    match host {
        [first, ..] if *first == b'[' => place_of(host, b']'),
        _ => 0,
    }
}

fn port_text(alloc: Global, port: &[u8]) -> Result<Text, Memory>
    ensures { Gives result (spec.port_text port.now) }
{
    if port.is_empty() {
        return ascii(alloc, b"80");
    }
    text_of(alloc, port)
}

fn decimal_text(alloc: Global, number: u64) -> Result<Text, Memory>
    ensures { Gives result (decimal number) }
{
    ascii(alloc, number.to_string(alloc)?.as_bytes())
}

/// Adds a variable.
fn add(kept: &mut Collection, alloc: Global, name: &[u8], value: Text) -> Result<(), Memory>
    ensures { OnOk result ((pairs : Items Pair) →
        Collects kept.old pairs → Collects kept.new (pairs ++ (name.now, value) ∷ [])) }
{
    let name = ascii(alloc, name)?;
    kept.add(name, value)?;
    Ok(())
}

fn add_request(kept: &mut Collection, alloc: Global, request: &Request) -> Result<(), Memory>
    ensures { OnOk result ((pairs : Items Pair) →
        Collects kept.old pairs → Collects kept.new (pairs ++ spec.request_variables request.now)) }
{
    add(
        kept,
        alloc,
        b"REQUEST_METHOD",
        method_text(alloc, request.verb)?,
    )?;
    add(
        kept,
        alloc,
        b"QUERY_STRING",
        text_of(alloc, request.query.as_slice())?,
    )?;
    add(kept, alloc, b"SCRIPT_NAME", request.path.copy()?)?;
    add(kept, alloc, b"URL", request.path.copy()?)?;
    add(kept, alloc, b"PATH_INFO", request.path.copy()?)?;
    Ok(())
}

/// Where the name in a Host field ends.
fn host_end(host: &[u8]) -> usize
    ensures place { result ≡ spec.host_end host.now }
    ensures within { result ≤ length host.now }
{
    let skipped = bracket_end(host);
    skipped + place_of(&host[skipped..], b':')
}

/// The name and the port of a Host field.
fn split_host(host: &[u8]) -> (&[u8], &[u8])
    ensures name { result.0.now ≡ take (spec.host_end host.now) host.now }
    ensures port { result.1.now ≡ drop (spec.host_end host.now + 1) host.now }
{
    let end = host_end(host);
    if end < host.len() {
        (&host[..end], &host[end + 1..])
    } else {
        (host, &[])
    }
}

fn add_host(kept: &mut Collection, alloc: Global, request: &Request) -> Result<(), Memory>
    ensures { OnOk result ((pairs : Items Pair) →
        Collects kept.old pairs → Collects kept.new (pairs ++ spec.host_variables request.now)) }
{
    let (name, port) = split_host(value_of_header(request.headers.as_slice(), b"Host"));
    add(kept, alloc, b"SERVER_NAME", text_of(alloc, name)?)?;
    add(kept, alloc, b"SERVER_PORT", port_text(alloc, port)?)?;
    add(
        kept,
        alloc,
        b"SERVER_PROTOCOL",
        protocol(alloc, request.minor)?,
    )?;
    add(
        kept,
        alloc,
        b"SERVER_SOFTWARE",
        ascii(alloc, b"ClassicASP")?,
    )?;
    add(kept, alloc, b"HTTPS", ascii(alloc, b"off")?)?;
    Ok(())
}

fn add_body(kept: &mut Collection, alloc: Global, request: &Request) -> Result<(), Memory>
    ensures { OnOk result ((pairs : Items Pair) →
        Collects kept.old pairs → Collects kept.new (pairs ++ spec.body_variables request.now)) }
{
    let media = value_of_header(request.headers.as_slice(), b"Content-Type");
    add(
        kept,
        alloc,
        b"CONTENT_LENGTH",
        decimal_text(alloc, request.body.len() as u64)?,
    )?;
    add(kept, alloc, b"CONTENT_TYPE", text_of(alloc, media)?)?;
    Ok(())
}

fn capital(character: char) -> char
    ensures { result ≡ spec.capital character }
{
    if character == '-' {
        '_'
    } else {
        character.to_ascii_uppercase()
    }
}

fn capitals(alloc: Global, name: &[char]) -> Result<Text, Memory>
    ensures { Gives result (map spec.capital name.now) }
{
    let mut text = Text::with_capacity(alloc, name.len())?;
    for character in name {
        text.push(capital(*character))?;
    }
    Ok(text)
}

fn variable_name(alloc: Global, name: &[char]) -> Result<Text, Memory>
    ensures { Gives result (codes "HTTP_" ++ map spec.capital name.now) }
{
    let mut text = ascii(alloc, b"HTTP_")?;
    text.append(capitals(alloc, name)?)?;
    Ok(text)
}

fn collect_headers(alloc: Global, headers: &[Header]) -> Result<Collection, Memory>
    ensures { IfOk result (λ kept. Collects kept (map spec.header_pair headers.now)) }
{
    let mut kept = Collection::new(alloc);
    for header in headers {
        let name = variable_name(alloc, header.name.as_slice())?;
        kept.add(name, text_of(alloc, header.value.as_slice())?)?;
    }
    Ok(kept)
}

/// Adds a variable with all values that a name has in another collection.
fn add_joined(
    kept: &mut Collection,
    alloc: Global,
    from: &Collection,
    name: &Text,
) -> Result<(), Memory>
    ensures { OnOk result ((pairs : Items Pair) → Collects kept.old pairs →
        Collects kept.new (pairs ++ (name.now, joined (values_at from.now.groups (folded name.now))) ∷ [])) }
{
    let value = join(alloc, from.values(&fold(alloc, name)?))?;
    kept.add(name.copy()?, value)?;
    Ok(())
}

/// Adds a variable for each of some names of another collection.
fn add_all(
    kept: &mut Collection,
    alloc: Global,
    from: &Collection,
    names: &[Text],
) -> Result<(), Memory>
    ensures { OnOk result ((pairs : Items Pair) → Collects kept.old pairs → Collects kept.new
        (pairs ++ map (λ name. (name, joined (values_at from.now.groups (folded name)))) names.now)) }
{
    for name in names {
        add_joined(kept, alloc, from, name)?;
    }
    Ok(())
}

fn add_headers(kept: &mut Collection, alloc: Global, headers: &[Header]) -> Result<(), Memory>
    ensures { OnOk result ((pairs : Items Pair) →
        Collects kept.old pairs → Collects kept.new (pairs ++ spec.header_variables headers.now)) }
{
    let from = collect_headers(alloc, headers)?;
    add_all(kept, alloc, &from, from.names())?;
    Ok(())
}

/// The server variables of a request.
pub(crate) fn collect_server(alloc: Global, request: &Request) -> Result<Collection, Memory>
    ensures { IfOk result (λ kept. Collects kept (spec.server_pairs request.now)) }
{
    let mut kept = Collection::new(alloc);
    add_request(&mut kept, alloc, request)?;
    add_host(&mut kept, alloc, request)?;
    add_body(&mut kept, alloc, request)?;
    add_headers(&mut kept, alloc, request.headers.as_slice())?;
    Ok(kept)
}
