//! Values, read.
ghost use Rattle.std.specs.Prelude.{◌≡◌, ◌≤◌, IfOk, int_le, length, min, negsuc, not};
ghost use Rattle.std.specs.List.{list_all, prefix_len};
ghost use Rattle.hex.specs.Hex.{decode_of};
ghost use Rattle.vb_value.specs.Decoding.{decoded};
ghost use Rattle.asp_record.specs.Fields.{Reads};
ghost use Rattle.vb_value.specs.Sound as counts;
ghost use Rattle.asp_record.specs.ReadingValues as spec;

use crate::fields::push_hex;
use crate::scanning::{behind, number_at};
use hex::{FromHexError, decode};
use std::alloc::Global;
use vb_value::{Bytes, List, Memory, Text, Utf8Stop, Value, fold};

/// Past every length.
const TOO_MANY: u128 = 1 << 64;

fn below_zero(size: u64) -> Option<i64>
    ensures { Reads (λ n. n) result (spec.below_zero size) }
{
    if 0 < size && size <= 9223372036854775808 {
        Some(-1 - (size - 1) as i64)
    } else {
        None
    }
}

/// The number at the front of bytes, which may have a sign.
#[tactic(auto, unfolding(crate::specs::ReadingValues::signed_at))]
fn signed_at(bytes: &[u8]) -> Option<(i64, &[u8])>
    ensures { Reads (λ read. (read.0, read.1.now)) result (spec.signed_at bytes.now) }
{
    if let Some(rest) = behind(b"-", bytes) {
        let (size, rest) = number_at(rest)?;
        let number = below_zero(size)?;
        return Some((number, rest));
    }
    let (size, rest) = number_at(bytes)?;
    if size < 9223372036854775808 {
        Some((size as i64, rest))
    } else {
        None
    }
}

/// One of 32 bits.
#[tactic(auto, unfolding(crate::specs::ReadingValues::long_at))]
pub fn long_at(bytes: &[u8]) -> Option<(i32, &[u8])>
    ensures { Reads (λ read. (read.0, read.1.now)) result (spec.long_at bytes.now) }
{
    let (number, rest) = signed_at(bytes)?;
    if -2147483648 <= number && number <= 2147483647 {
        Some((number as i32, rest))
    } else {
        None
    }
}

fn ends_item(byte: u8) -> bool
    ensures { result ≡ spec.ends_item byte }
{
    byte == b' ' || byte == b',' || byte == b']' || byte == b'\n' || byte == b'|'
}

/// How many bytes stand before the end of a field or an item.
fn item_length(bytes: &[u8]) -> usize
    ensures value { result ≡ prefix_len (λ c. not (spec.ends_item c)) bytes.now }
    ensures within { result ≤ length bytes.now }
{
    let mut end = 0;
    while end < bytes.len() && !ends_item(bytes[end]) {
        end += 1;
    }
    end
}

/// The bytes that hexadecimal digits in lower case are.
fn lower_bytes(alloc: Global, digits: &[u8]) -> Result<Option<Bytes>, Memory>
    ensures { IfOk result (λ found. Reads (λ bytes. bytes) found (spec.lower_bytes digits.now (decode_of digits.now))) }
{
    let bytes = match decode(alloc, digits) {
        Ok(bytes) => Bytes::from_vec(bytes),
        Err(FromHexError::OutOfMemory) => return Err(Memory),
        Err(_) => return Ok(None),
    };
    let mut again = Bytes::new(alloc);
    push_hex(&mut again, bytes.as_slice())?;
    if again.as_slice() == digits {
        Ok(Some(bytes))
    } else {
        Ok(None)
    }
}

fn text_of(alloc: Global, utf8: &[u8]) -> Result<Option<Text>, Memory>
    ensures { IfOk result (λ found. Reads (λ text. text) found (spec.text_of (decoded utf8.now))) }
{
    match Text::from_utf8(alloc, utf8) {
        Ok(text) => Ok(Some(text)),
        Err(Utf8Stop::NotUtf8) => Ok(None),
        Err(Utf8Stop::Memory) => Err(Memory),
    }
}

/// The text behind its `s`.
#[tactic(auto, unfolding(crate::specs::ReadingValues::text_at))]
fn text_at(alloc: Global, bytes: &[u8]) -> Result<Option<(Text, &[u8])>, Memory>
    ensures { IfOk result (λ found. Reads (λ read. (read.0, read.1.now)) found (spec.text_at bytes.now)) }
{
    let (digits, rest) = bytes.split_at(item_length(bytes));
    let Some(utf8) = lower_bytes(alloc, digits)? else {
        return Ok(None);
    };
    let Some(text) = text_of(alloc, utf8.as_slice())? else {
        return Ok(None);
    };
    Ok(Some((text, rest)))
}

/// The name at the front of bytes.
#[tactic(auto, unfolding(crate::specs::ReadingValues::name_at))]
pub fn name_at(alloc: Global, bytes: &[u8]) -> Result<Option<(Text, &[u8])>, Memory>
    ensures { IfOk result (λ found. Reads (λ read. (read.0, read.1.now)) found (spec.name_at bytes.now)) }
{
    let Some(rest) = behind(b"s", bytes) else {
        return Ok(None);
    };
    let Some((name, rest)) = text_at(alloc, rest)? else {
        return Ok(None);
    };
    if fold(alloc, &name)?.as_slice() == name.as_slice() {
        Ok(Some((name, rest)))
    } else {
        Ok(None)
    }
}

#[tactic(auto, unfolding(crate::specs::ReadingValues::string_at))]
fn string_at(alloc: Global, bytes: &[u8]) -> Result<Option<(Value, &[u8])>, Memory>
    ensures { IfOk result (λ found. Reads (λ read. (read.0, read.1.now)) found (spec.string_at bytes.now)) }
{
    let Some((text, rest)) = text_at(alloc, bytes)? else {
        return Ok(None);
    };
    if text.len() < 2147483648 {
        Ok(Some((Value::Str(text), rest)))
    } else {
        Ok(None)
    }
}

/// The bounds of an array, and what stands behind their `|`.
#[tactic(auto, unfolding(crate::specs::ReadingValues::bounds_at))]
pub fn bounds_at(alloc: Global, bytes: &[u8]) -> Result<Option<(List<i32>, &[u8])>, Memory>
    ensures { IfOk result (λ found. Reads (λ read. (read.0, read.1.now)) found (spec.bounds_at bytes.now)) }
{
    let mut bounds = List::new(alloc);
    if let Some(rest) = behind(b"|", bytes) {
        return Ok(Some((bounds, rest)));
    }
    let mut rest = bytes;
    for count in 0..bytes.len() {
        let Some((bound, after)) = long_at(rest) else {
            return Ok(None);
        };
        bounds.push(bound)?;
        if let Some(end) = behind(b"|", after) {
            return Ok(Some((bounds, end)));
        }
        let Some(next) = behind(b",", after) else {
            return Ok(None);
        };
        rest = next;
    }
    Ok(None)
}

#[tactic(auto, unfolding(crate::specs::ReadingValues::int_at))]
fn int_at(bytes: &[u8]) -> Option<(Value, &[u8])>
    ensures { Reads (λ read. (read.0, read.1.now)) result (spec.int_at bytes.now) }
{
    let (number, rest) = signed_at(bytes)?;
    if -32768 <= number && number <= 32767 {
        Some((Value::Int(number as i16), rest))
    } else {
        None
    }
}

/// The value that is no array whose letter stands before bytes.
pub fn simple_by(alloc: Global, letter: u8, bytes: &[u8]) -> Result<Option<(Value, &[u8])>, Memory>
    ensures { IfOk result (λ found. Reads (λ read. (read.0, read.1.now)) found (spec.simple_by letter bytes.now)) }
{
    match letter {
        b'e' => Ok(Some((Value::Empty, bytes))),
        b'n' => Ok(Some((Value::Null, bytes))),
        b't' => Ok(Some((Value::Bool(true), bytes))),
        b'f' => Ok(Some((Value::Bool(false), bytes))),
        b'i' => Ok(int_at(bytes)),
        b'l' => Ok(long_at(bytes).map(|(number, rest)| (Value::Long(number), rest))),
        b'c' => Ok(signed_at(bytes).map(|(number, rest)| (Value::Cur(number), rest))),
        b's' => string_at(alloc, bytes),
        _ => Ok(None),
    }
}

/// How many items an array of these bounds has, up to a number past every length.
#[tactic(auto, using(crate::proofs::Counting::count_more))]
fn item_count(bounds: &[i32]) -> u128
    ensures { result ≡ min (counts.item_count bounds.now) TOO_MANY }
{
    if bounds.is_empty() {
        return 0;
    }
    let mut count = 1;
    for bound in bounds {
        count = (count * places(*bound)).min(TOO_MANY);
    }
    count
}

fn places(bound: i32) -> u128
    ensures value { result ≡ counts.places bound }
    ensures low { result ≤ 2147483648 }
{
    if bound < 0 { 0 } else { bound as u128 + 1 }
}

fn are_bounds(bounds: &[i32]) -> bool
    ensures { result ≡ list_all (λ bound. int_le (negsuc 0) bound) bounds.now }
{
    let mut all = true;
    for bound in bounds {
        all = all && -1 <= *bound;
    }
    all
}

/// Whether an array may have these bounds, and so many items.
#[tactic(auto, using(crate::proofs::Counting::same_count))]
pub fn is_well_made(bounds: &[i32], count: usize) -> bool
    ensures { result ≡ spec.is_well_made bounds.now count }
{
    bounds.len() <= 60 && are_bounds(bounds) && count as u128 == item_count(bounds)
}
