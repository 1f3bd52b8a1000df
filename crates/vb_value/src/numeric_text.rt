//! Texts that are numbers.
ghost use Rattle.std.specs.Prelude.{◌≡◌, ◌*◌, ◌^◌, ◌==◌, ◌<◌, ◌≤◌, ◌∷◌, min, length, drop, slice_index};
ghost use Rattle.std.specs.Ordering.{nat_cmp};
ghost use Rattle.std.specs.List.{before_first, after_first, position, position_or_len, list_all};
ghost use Rattle.std.specs.Char.{is_ascii_digit};
ghost use Rattle.vb_value.specs.Numbers.{rounded};
ghost use Rattle.vb_value.specs.Characters.{is_blank};
ghost use Rattle.vb_value.specs.NumericText.{without_first, without_last, trimmed, has_minus};
ghost use Rattle.vb_value.specs.NumericText.{unsigned, is_point, is_numeral, digit_of, number_of, numeral_size};
ghost use Rattle.vb_value.specs.NumericText.{signed, cur_of_text_of};

use crate::fault::VbError;
use crate::number::as_currency;
use crate::text::Text;
use std::cmp::Ordering;

/// A whole part from which on a Currency overflows, whatever decimals follow.
const TOO_LARGE: u64 = 1_000_000_000_000_000;

/// A numeric text in ten-thousandths, half rounded to even at the fourth decimal. Error 13 for a text that
/// is none, and error 6 for one that is out of range.
#[tactic(auto, using(crate::proofs::Ranges::same_currency))]
pub fn cur_of_text(text: &Text) -> Result<i64, VbError>
    ensures { result ≡ cur_of_text_of text.now }
{
    let body = trimmed(text.as_slice());
    let (whole, decimals) = split_at_point(unsigned(body));
    if !is_numeral(whole, decimals) {
        return Err(VbError::TYPE_MISMATCH);
    }
    as_currency(signed(has_minus(body), numeral_size(whole, decimals)))
}

/// The text without the blanks at its ends.
fn trimmed(text: &[char]) -> &[char]
    ensures { result.now ≡ trimmed text.now }
{
    without_last_blanks(without_first_blanks(text))
}

/// The text from its first character on that is no blank.
fn without_first_blanks(text: &[char]) -> &[char]
    ensures { result.now ≡ without_first is_blank text.now }
{
    let mut left = text;
    while let [first, rest @ ..] = left
        && is_blank(*first)
    {
        left = rest;
    }
    left
}

/// The text up to its last character that is no blank.
fn without_last_blanks(text: &[char]) -> &[char]
    ensures { result.now ≡ without_last is_blank text.now }
{
    let mut end = text.len();
    while 0 < end && is_blank(text[end - 1]) {
        end -= 1;
    }
    &text[..end]
}

/// Whether the character is a space or a tab.
pub fn is_blank(c: char) -> bool
    ensures { result ≡ is_blank c }
{
    c == ' ' || c == '\t'
}

/// Whether a `-` stands first.
fn has_minus(text: &[char]) -> bool
    ensures { result ≡ has_minus text.now }
{
    match text {
        [first, ..] => *first == '-',
        [] => false,
    }
}

/// The text without its sign.
fn unsigned(text: &[char]) -> &[char]
    ensures { result.now ≡ unsigned text.now }
{
    match text {
        [first, rest @ ..] if *first == '+' || *first == '-' => rest,
        _ => text,
    }
}

/// What stands before the first point, and what stands behind it.
fn split_at_point(text: &[char]) -> (&[char], &[char])
    ensures before { result.0.now ≡ before_first is_point text.now }
    ensures behind { result.1.now ≡ after_first is_point text.now }
{
    let at = point_place(text);
    if at < text.len() {
        (&text[..at], &text[at + 1..])
    } else {
        (text, &[])
    }
}

/// The place of the first point, or the length where there is none.
#[tactic(auto, using(crate::proofs::Points::place_or_length))]
fn point_place(text: &[char]) -> usize
    ensures { result ≡ position_or_len is_point text.now }
{
    first_point(text).unwrap_or(text.len())
}

/// The place of the first point.
fn first_point(text: &[char]) -> Option<usize>
    ensures { result ≡ position is_point text.now }
{
    text.iter().position(|c| *c == '.')
}

/// Whether both are digits alone, and there is one at least.
fn is_numeral(whole: &[char], decimals: &[char]) -> bool
    ensures { result ≡ is_numeral whole.now decimals.now }
{
    are_digits(whole) && are_digits(decimals) && !(whole.is_empty() && decimals.is_empty())
}

/// Whether all are digits.
fn are_digits(text: &[char]) -> bool
    ensures { result ≡ list_all is_ascii_digit text.now }
{
    text.iter().all(|c| c.is_ascii_digit())
}

/// The number that a digit writes.
fn digit_of(c: char) -> u64
    ensures value { result ≡ digit_of c }
    ensures bound { result < 10 }
{
    if c.is_ascii_digit() {
        c as u64 - '0' as u64
    } else {
        0
    }
}

/// The size of a numeral in ten-thousandths, or another one that is too large as well.
#[tactic(auto, using(crate::proofs::Digits::numeral_most))]
fn numeral_size(whole: &[char], decimals: &[char]) -> u64
    ensures { min result (10 ^ 19) ≡ min (numeral_size whole.now decimals.now) (10 ^ 19) }
{
    whole_size(whole) * 10_000 + decimals_size(decimals)
}

/// The number that the digits write, or [`TOO_LARGE`] where it is greater.
#[tactic(auto, using(crate::proofs::Digits::size_none))]
fn whole_size(digits: &[char]) -> u64
    ensures { result ≡ min (number_of digits.now) (10 ^ 15) }
{
    let mut size = 0;
    for digit in digits {
        size = (size * 10 + digit_of(*digit)).min(TOO_LARGE);
    }
    size
}

/// The decimals in ten-thousandths, half rounded to even.
#[tactic(auto, using(crate::proofs::Digits::decimals_rounded))]
fn decimals_size(decimals: &[char]) -> u64
    ensures value { result ≡ rounded (10 ^ length decimals.now) (number_of decimals.now * 10000) }
    ensures bound { result ≤ 10000 }
{
    let size = 1000 * digit_at(decimals, 0)
        + 100 * digit_at(decimals, 1)
        + 10 * digit_at(decimals, 2)
        + digit_at(decimals, 3);
    match rest_against_half(decimals) {
        Ordering::Less => size,
        Ordering::Equal => size + size % 2,
        Ordering::Greater => size + 1,
    }
}

/// The digit at a place, 0 behind the last.
fn digit_at(digits: &[char], at: usize) -> u64
    ensures value { result ≡ digit_of (slice_index digits.now at) }
    ensures bound { result < 10 }
{
    match digits.get(at) {
        Some(digit) => digit_of(*digit),
        None => 0,
    }
}

/// What stands behind the fourth decimal, against half a ten-thousandth.
#[tactic(auto, using(crate::proofs::Digits::half_short))]
fn rest_against_half(decimals: &[char]) -> Ordering
    ensures { result ≡ nat_cmp (2 * number_of (drop 4 decimals.now)) (10 ^ length (drop 4 decimals.now)) }
{
    match decimals {
        [_, _, _, _, rest @ ..] => against_half(rest),
        _ => Ordering::Less,
    }
}

/// The decimals against one half.
#[tactic(auto, using(crate::proofs::Digits::half_empty))]
fn against_half(decimals: &[char]) -> Ordering
    ensures { result ≡ nat_cmp (2 * number_of decimals.now) (10 ^ length decimals.now) }
{
    match decimals {
        [] => Ordering::Less,
        [first, rest @ ..] => first_against_half(*first, rest),
    }
}

/// A first decimal and the others against one half.
#[tactic(auto, using(crate::proofs::Digits::half_cons))]
fn first_against_half(first: char, rest: &[char]) -> Ordering
    ensures { result ≡ nat_cmp (2 * number_of (first ∷ rest.now)) (10 ^ length (first ∷ rest.now)) }
{
    let digit = digit_of(first);
    if digit != 5 {
        digit.cmp(&5)
    } else if is_nought(rest) {
        Ordering::Equal
    } else {
        Ordering::Greater
    }
}

/// Whether the digits write 0.
#[tactic(auto, using(crate::proofs::Digits::nought_all))]
fn is_nought(digits: &[char]) -> bool
    ensures { result ≡ (number_of digits.now == 0) }
{
    are_noughts(digits)
}

/// Whether all digits are 0.
fn are_noughts(digits: &[char]) -> bool
    ensures { result ≡ list_all (λ digit. digit_of digit == 0) digits.now }
{
    digits.iter().all(|digit| digit_of(*digit) == 0)
}

/// A size with a sign.
fn signed(minus: bool, size: u64) -> i128
    ensures { result ≡ signed minus size }
{
    if minus { -(size as i128) } else { size as i128 }
}
