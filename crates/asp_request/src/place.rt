//! Where a byte first stands.
ghost use Rattle.std.specs.Prelude.{◌≡◌, ◌≤◌, ◌==◌, length, position};
ghost use Rattle.std.specs.List.{position_or_len};

fn first_place(bytes: &[u8], mark: u8) -> Option<usize>
    ensures { result ≡ position (λ b. b == mark) bytes.now }
{
    bytes.iter().position(|b| *b == mark)
}

/// The place of the first such byte, or the length where there is none.
#[tactic(auto, using(crate::proofs::Places::place_or_length, crate::proofs::Places::place_within))]
pub(crate) fn place_of(bytes: &[u8], mark: u8) -> usize
    ensures place { result ≡ position_or_len (λ b. b == mark) bytes.now }
    ensures within { result ≤ length bytes.now }
{
    first_place(bytes, mark).unwrap_or(bytes.len())
}
