//! Laws of values and their conversions. The functions do nothing: their contracts are the laws.
ghost use Rattle.std.specs.Prelude.{IfOk};
ghost use Rattle.vb_value.specs.declared.value.Value.{Str};
ghost use Rattle.vb_value.specs.Conversions.{number_text, to_number_of};
ghost use Rattle.vb_value.specs.NumericText.{currency_text, whole_text};
ghost use Rattle.vb_value.specs.Sound.{IsSound};
ghost use Rattle.value_laws.specs.Grammar.{FollowsGrammar};
ghost use Rattle.value_laws.specs.Laws.{ReadsBack, ReadsSoundly, RoundsToNearest};

use vb_value::{Number, Value, to_number};

/// Half rounded to even is within half a unit, and even at a tie.
pub fn rounding_is_nearest()
    ensures { RoundsToNearest }
{}

/// A text is a number exactly where it is blanks, a sign or none, digits with a point or none, and blanks, and then
/// it has the value that they say.
pub fn numeric_texts_follow_the_grammar(text: &[char])
    ensures { FollowsGrammar text.now }
{
    let _ = text;
}

/// The text of a Currency reads as that Currency.
pub fn currency_reads_back(amount: i64)
    ensures { ReadsBack amount }
{
    let _ = amount;
}

/// The text of a sound value is sound, as the value that a String of it is.
#[tactic(auto, using(crate::proofs::SoundTexts::reads_soundly))]
pub fn texts_are_sound(value: &Value)
    ensures { ReadsSoundly value.now }
{
    number_of_value_is_short(value);
}

/// The text of the number of a value is sound.
fn number_of_value_is_short(value: &Value)
    ensures { IfOk (to_number_of value.now) (λ number. IsSound (Str (number_text number))) }
{
    match to_number(value) {
        Ok(number) => number_is_short(number),
        Err(_) => {}
    }
}

/// The text of a number is sound.
fn number_is_short(number: Number)
    ensures { IsSound (Str (number_text number)) }
{
    match number {
        Number::Int(n) => whole_is_short(n as i64),
        Number::Long(n) => whole_is_short(n as i64),
        Number::Cur(n) => currency_is_short(n),
    }
}

/// The text of a whole number is sound.
fn whole_is_short(n: i64)
    ensures { IsSound (Str (whole_text n)) }
{
    let _ = n;
}

/// The text of a Currency is sound.
fn currency_is_short(n: i64)
    ensures { IsSound (Str (currency_text n)) }
{
    let _ = n;
}
