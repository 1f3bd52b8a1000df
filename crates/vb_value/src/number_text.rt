//! The texts of numbers.
ghost use Rattle.std.specs.Prelude.{◌≡◌, ◌∷◌, ◌+◌, ◌<◌, take};
ghost use Rattle.vb_value.specs.NumericText.{decimal_text, whole_text, four_digits, decimals_text, size_text, currency_text};
ghost use Rattle.vb_value.specs.Outcome.{Gives};

use crate::memory::Memory;
use crate::text::Text;
use std::alloc::Global;

/// A whole number in decimal.
#[tactic(auto, using(crate::proofs::Decimals::whole_characters))]
pub fn whole_text(alloc: Global, n: i64) -> Result<Text, Memory>
    ensures { Gives result (whole_text n) }
{
    Text::from_str(alloc, n.to_string(alloc)?.as_str())
}

/// A Currency in decimal, of so many ten-thousandths.
pub fn currency_text(alloc: Global, amount: i64) -> Result<Text, Memory>
    ensures { Gives result (currency_text amount) }
{
    let size = size_text(alloc, amount.unsigned_abs())?;
    if 0 <= amount {
        return Ok(size);
    }
    let mut text = Text::from_slice(alloc, &['-'])?;
    text.append(size)?;
    Ok(text)
}

/// A size in decimal, of so many ten-thousandths.
fn size_text(alloc: Global, size: u64) -> Result<Text, Memory>
    ensures { Gives result (size_text size) }
{
    let mut text = decimal_text(alloc, size / 10_000)?;
    text.append(decimals_text(alloc, size % 10_000)?)?;
    Ok(text)
}

/// A number in decimal.
#[tactic(auto, using(crate::proofs::Decimals::decimal_characters))]
fn decimal_text(alloc: Global, n: u64) -> Result<Text, Memory>
    ensures { Gives result (decimal_text n) }
{
    Text::from_str(alloc, n.to_string(alloc)?.as_str())
}

/// A point and the decimals, of so many ten-thousandths.
fn decimals_text(alloc: Global, n: u64) -> Result<Text, Memory>
    requires { n < 10000 }
    ensures { Gives result (decimals_text n) }
{
    let mut text = Text::with_capacity(alloc, 5)?;
    text.push('.')?;
    text.push(digit(n / 1000))?;
    text.push(digit(n / 100 % 10))?;
    text.push(digit(n / 10 % 10))?;
    text.push(digit(n % 10))?;
    text.truncate(decimals_len(n));
    Ok(text)
}

/// A digit.
fn digit(n: u64) -> char
    requires { n < 10 }
    ensures { result ≡ 48 + n }
{
    (b'0' + n as u8) as char
}

/// How many characters the point and the decimals take.
fn decimals_len(n: u64) -> usize
    requires { n < 10000 }
    ensures { take result (46 ∷ four_digits n) ≡ decimals_text n }
{
    if n == 0 {
        0
    } else if n % 10 != 0 {
        5
    } else if n % 100 != 0 {
        4
    } else if n % 1000 != 0 {
        3
    } else {
        2
    }
}
