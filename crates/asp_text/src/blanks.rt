//! Blanks around a part of a field (RFC 9110, section 5.6.3).
ghost use Rattle.std.specs.Prelude.{◌≡◌};
ghost use Rattle.httparse.specs.Grammar.{is_ows, skip_ows, trim_ows};

fn is_blank(b: u8) -> bool
    ensures { result ≡ is_ows b }
{
    b == b' ' || b == b'\t'
}

fn skip_blanks(bytes: &[u8]) -> &[u8]
    ensures { result.now ≡ skip_ows bytes.now }
{
    let mut rest = bytes;
    while let [first, more @ ..] = rest {
        if !is_blank(*first) {
            return rest;
        }
        rest = more;
    }
    rest
}

/// The bytes without the blanks at both ends.
#[tactic(auto, using(crate::proofs::Trimming::one_back, crate::proofs::Trimming::none_back, crate::proofs::Trimming::nothing_back), unfolding(httparse::specs::Grammar::trim_ows))]
pub fn trim_blanks(bytes: &[u8]) -> &[u8]
    ensures { result.now ≡ trim_ows bytes.now }
{
    let mut rest = skip_blanks(bytes);
    while let [more @ .., last] = rest {
        if !is_blank(*last) {
            return rest;
        }
        rest = more;
    }
    rest
}
