//! Status codes with their reasons.
ghost use Rattle.std.specs.Prelude.{◌≡◌, ◌-◌, IsTrue};
ghost use Rattle.std.specs.Char.{is_ascii_digit};
ghost use Rattle.vb_value.specs.Outcome.{Gives};
ghost use Rattle.asp_response.specs.Head as spec;

use crate::field::is_value;
use std::alloc::Global;
use vb_value::{Memory, Text};

/// A status that a page has set.
#[derive(Debug, Drop)]
pub struct Status {
    /// From 200 to 599.
    pub code: u16,
    /// At least one character, all of them printable.
    pub reason: Text,
}

fn digit(character: char) -> u16
    requires { IsTrue (is_ascii_digit character) }
    ensures { result ≡ character - 48 }
{
    (u32::from(character) - 48) as u16
}

fn code_in(hundreds: char, tens: char, units: char) -> Option<u16>
    ensures { result ≡ spec.code_in hundreds tens units }
{
    if hundreds >= '2' && hundreds <= '5' && tens.is_ascii_digit() && units.is_ascii_digit() {
        Some(100 * digit(hundreds) + 10 * digit(tens) + digit(units))
    } else {
        None
    }
}

/// The status that a text says.
#[tactic(auto, unfolding(crate::specs::Head::status_in))]
pub(crate) fn status_in(alloc: Global, text: &[char]) -> Result<Option<Status>, Memory>
    ensures { Gives result (spec.status_in text.now) }
{
    let [hundreds, tens, units, space, reason @ ..] = text else {
        return Ok(None);
    };
    if *space != ' ' || reason.is_empty() || !is_value(reason) {
        return Ok(None);
    }
    let Some(code) = code_in(*hundreds, *tens, *units) else {
        return Ok(None);
    };
    let reason = Text::from_slice(alloc, reason)?;
    Ok(Some(Status { code, reason }))
}
