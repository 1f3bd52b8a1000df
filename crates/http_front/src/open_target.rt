//! A target that is still being read, whose UTF-8 the parser tests only at its end.

ghost use Rattle.std.specs.Prelude.{◌≡◌, false, IsTrue, MatchOption, Some, None};
ghost use Rattle.httparse.specs.Grammar.{EndsInTarget, NeverHasRequest};
ghost use Rattle.http_front.specs.Front.{BeginsHead};
ghost use Rattle.http_front.specs.OpenTarget.{after_space, GoesOn, IsNoText};

fn after_space(bytes: &[u8]) -> Option<&[u8]>
    ensures { MatchOption result (after_space bytes.now ≡ None)
        (λ rest. after_space bytes.now ≡ Some rest.now) }
{
    let mut rest = bytes;
    while let [first, tail @ ..] = rest {
        if *first == b' ' {
            return Some(tail);
        }
        rest = tail;
    }
    None
}

/// Whether bytes can follow that make the text UTF-8.
fn may_become_text(text: &[u8]) -> bool
    ensures open { IsTrue result → GoesOn text.now }
    ensures shut { result ≡ false → IsNoText text.now }
{
    match std::str::from_utf8(text) {
        Ok(_) => true,
        Err(fault) => fault.error_len().is_none(),
    }
}

/// Whether the window may be the beginning of a head, as far as a target at its end decides.
pub(crate) fn may_go_on(window: &[u8]) -> bool
    ensures open { IsTrue result → EndsInTarget window.now → BeginsHead window.now }
    ensures shut { result ≡ false → NeverHasRequest window.now }
{
    match after_space(window) {
        Some(target) if !target.contains(&b' ') => may_become_text(target),
        _ => true,
    }
}
