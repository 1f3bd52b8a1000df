//! The fields of lines, read.
ghost use Rattle.std.specs.Prelude.{◌≡◌, ◌≤◌, length, min};
ghost use Rattle.std.specs.List.{prefix_len};
ghost use Rattle.std.specs.Char.{digit_value};
ghost use Rattle.hex.specs.Hex.{decode_sized};
ghost use Rattle.std.specs.Str.Parse.{digits_value};
ghost use Rattle.asp_record.specs.Fields.{Reads};
ghost use Rattle.asp_record.specs.Fields as spec;

use hex::{decode_to_slice, encode_to_slice};

/// Past each number that a line may have.
const TOO_GREAT: u128 = 1 << 64;

/// What stands behind a word at the front of bytes.
pub fn behind<'a>(word: &[u8], bytes: &'a [u8]) -> Option<&'a [u8]>
    ensures { Reads (λ rest. rest.now) result (spec.behind word.now bytes.now) }
{
    bytes.strip_prefix(word)
}

fn is_digit(byte: u8) -> bool
    ensures { result ≡ spec.is_digit byte }
{
    char::from(byte).is_digit(10)
}

/// How many digits bytes begin with.
fn run(bytes: &[u8]) -> usize
    ensures value { result ≡ prefix_len spec.is_digit bytes.now }
    ensures within { result ≤ length bytes.now }
{
    let mut end = 0;
    while end < bytes.len() && is_digit(bytes[end]) {
        end += 1;
    }
    end
}

/// The value of digits, or the number past every value where it is greater.
#[tactic(auto, using(crate::proofs::Numbers::value_more))]
fn value(digits: &[u8]) -> u128
    ensures { result ≡ min (digits_value 10 digits.now) TOO_GREAT }
{
    let mut value = 0;
    for c in digits {
        value = (value * 10 + u128::from(digit(*c))).min(TOO_GREAT);
    }
    value
}

fn is_plain(digits: &[u8]) -> bool
    ensures { result ≡ spec.is_plain digits.now }
{
    match digits {
        [] => false,
        [_] => true,
        [first, ..] => *first != 48,
    }
}

/// The number at the front of bytes.
#[tactic(auto, unfolding(crate::specs::Fields::number_at))]
pub fn number_at(bytes: &[u8]) -> Option<(u64, &[u8])>
    ensures { Reads (λ read. (read.0, read.1.now)) result (spec.number_at bytes.now) }
{
    let count = run(bytes);
    let (digits, rest) = bytes.split_at(count);
    let value = value(digits);
    if is_plain(digits) && value < TOO_GREAT {
        Some((value as u64, rest))
    } else {
        None
    }
}

/// The number at the front of bytes, with a word behind it.
#[tactic(auto, unfolding(crate::specs::Fields::marked_at))]
pub fn marked_at<'a>(word: &[u8], bytes: &'a [u8]) -> Option<(u64, &'a [u8])>
    ensures { Reads (λ read. (read.0, read.1.now)) result (spec.marked_at word.now bytes.now) }
{
    let (number, rest) = number_at(bytes)?;
    let rest = behind(word, rest)?;
    Some((number, rest))
}

/// So many bytes, with a line feed behind them.
#[tactic(auto, unfolding(crate::specs::Fields::counted_at))]
pub fn counted_at(count: u64, bytes: &[u8]) -> Option<(&[u8], &[u8])>
    ensures { Reads (λ read. (read.0.now, read.1.now)) result (spec.counted_at count bytes.now) }
{
    if count >= bytes.len() as u64 {
        return None;
    }
    let (counted, rest) = bytes.split_at(count as usize);
    let rest = behind(b"\n", rest)?;
    Some((counted, rest))
}

/// The 32 bytes that 64 hexadecimal digits in lower case are.
#[tactic(auto, unfolding(crate::specs::Fields::seed_at))]
pub fn seed_at(bytes: &[u8]) -> Option<([u8; 32], &[u8])>
    ensures { Reads (λ read. (read.0, read.1.now)) result (spec.seed_at bytes.now) }
{
    if bytes.len() < 64 {
        return None;
    }
    let (digits, rest) = bytes.split_at(64);
    let seed = decoded(digits)?;
    Some((seed, rest))
}

/// The value of a digit.
fn digit(byte: u8) -> u64
    ensures value { result ≡ digit_value byte }
    ensures low { result ≤ 36 }
{
    match char::from(byte).to_digit(36) {
        Some(value) => u64::from(value),
        None => 36,
    }
}

fn decoded(digits: &[u8]) -> Option<[u8; 32]>
    requires { length digits.now ≡ 64 }
    ensures { Reads (λ seed. seed) result (spec.in_lower_case digits.now (decode_sized digits.now 32)) }
{
    let mut seed = [0; 32];
    if decode_to_slice(digits, &mut seed).is_err() {
        return None;
    }
    let mut again = [0; 64];
    if encode_to_slice(seed.as_slice(), &mut again).is_err() {
        return None;
    }
    if again.as_slice() == digits {
        Some(seed)
    } else {
        None
    }
}
