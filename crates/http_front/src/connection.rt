//! What a `Connection` field asks for.
ghost use Rattle.std.specs.Prelude.{◌≡◌, ◌==◌, codes};
ghost use Rattle.std.specs.List.{list_any, slice_split};
ghost use Rattle.httparse.specs.Grammar.{trim_ows};
ghost use Rattle.http_front.specs.Fields as spec;

use asp_text::trim_blanks;

fn is_close(part: &[u8]) -> bool
    ensures { result ≡ spec.same_name (trim_ows part.now) (codes "close") }
{
    trim_blanks(part).eq_ignore_ascii_case(b"close")
}

/// Whether one of the value's parts between commas is `close` (RFC 9112, section 9.6).
#[tactic(auto, unfolding(crate::specs::Fields::lists_close))]
pub(crate) fn lists_close(value: &[u8]) -> bool
    ensures { result ≡ spec.lists_close value.now }
{
    value.split(|b| *b == b',').any(|part| is_close(part))
}
