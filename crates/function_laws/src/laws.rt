//! Laws of the functions. The functions here do nothing: their contracts are the laws.
ghost use Rattle.std.specs.Int.{w16, w32};
ghost use Rattle.vb_value.specs.declared.value.Value.{Int, Long};
ghost use Rattle.function_laws.specs.Laws.{FixesBySize, GivesSound, Lowers, ReadsAgain, Writes};

use value_laws::currency_reads_back;
use vb_value::{PlainFn, Value};

/// What `Hex` and `Oct` write of an Integer reads back as that Integer.
pub fn integers_read_back(n: i16)
    ensures hex { Writes PlainFn.Hex 16 w16 (Int n) n }
    ensures oct { Writes PlainFn.Oct 8 w16 (Int n) n }
{
    let _ = n;
}

/// What `Hex` and `Oct` write of a Long reads back as that Long.
pub fn longs_read_back(n: i32)
    ensures hex { Writes PlainFn.Hex 16 w32 (Long n) n }
    ensures oct { Writes PlainFn.Oct 8 w32 (Long n) n }
{
    let _ = n;
}

/// `Int` of a Currency gives the greatest whole number that is at most as great, or error 6 where that is no Currency.
pub fn int_is_the_floor(amount: i64)
    ensures { Lowers amount }
{
    let _ = amount;
}

/// `Fix` of a value is its sign times `Int` of its size.
pub fn fix_is_by_size(value: &Value)
    ensures { FixesBySize value.now }
{
    let _ = value;
}

/// `CInt` of what `CStr` gives of an Integer is that Integer.
pub fn texts_of_integers_read_back(n: i16)
    ensures { ReadsAgain PlainFn.CInt (Int n) }
{
    currency_reads_back(n as i64 * 10_000);
}

/// `CLng` of what `CStr` gives of a Long is that Long.
pub fn texts_of_longs_read_back(n: i32)
    ensures { ReadsAgain PlainFn.CLng (Long n) }
{
    currency_reads_back(n as i64 * 10_000);
}

/// What the functions give of sound arguments is sound.
pub fn results_are_sound()
    ensures { GivesSound }
{}
