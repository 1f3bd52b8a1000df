//! The letters of a key.
ghost use Rattle.std.specs.Prelude.{◌<◌, IfOk};

use asp_session::letters;
use case_files::{Answer, CaseStop, Subject, read_text};

/// A seed in hexadecimal and a key, with the key's letters.
pub struct Letters;

impl Subject for Letters {
    fn answer(&self, case: &str, out: &mut Answer) {
        match read_text(out.alloc(), case) {
            Ok(text) => write_letters(out, text.as_str()),
            Err(stop) => out.stop(stop),
        }
    }
}

fn digit(digits: &[u8], place: usize) -> Result<u8, CaseStop>
    ensures { IfOk result (λ digit. digit < 16) }
{
    match digits.get(place) {
        Some(c @ b'0'..=b'9') => Ok(*c - b'0'),
        Some(c @ b'a'..=b'f') => Ok(*c - b'a' + 10),
        _ => Err(CaseStop::Unreadable),
    }
}

/// The seed of 64 hexadecimal digits.
fn seed(written: &str) -> Result<[u8; 32], CaseStop> {
    let digits = written.as_bytes();
    if digits.len() != 64 {
        return Err(CaseStop::Unreadable);
    }
    let mut seed = [0; 32];
    for place in 0..32 {
        let high = digit(digits, 2 * place)?;
        let low = digit(digits, 2 * place + 1)?;
        seed[place] = high * 16 + low;
    }
    Ok(seed)
}

/// Writes the letters of a key, which stands behind the seed.
fn write_letters(out: &mut Answer, written: &str) {
    let (digits, key) = written.split_once(' ').unwrap_or((written, ""));
    match (seed(digits), key.parse()) {
        (Ok(seed), Ok(key)) if key > 0 => {
            for letter in letters(&seed, key).as_slice() {
                out.text(&[char::from(*letter)]);
            }
        }
        _ => out.stop(CaseStop::Unreadable),
    }
}
