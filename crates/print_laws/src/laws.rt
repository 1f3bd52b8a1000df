//! Laws on what is printed.
ghost use Rattle.std.specs.Prelude.{Ok};
ghost use Rattle.vb_value.specs.Outcome.{Answers};
ghost use Rattle.vb_syntax.specs.grammar.Rules.{Tokens};
ghost use Rattle.vb_syntax.specs.declared.unit.Unit.{Unit as Script};
ghost use Rattle.vb_print.specs.Units.{print_of};
ghost use Rattle.vb_syntax.specs.grammar.Units.{Derives};

use std::alloc::Global;
use vb_parse::{ParseStop, parse};
use vb_print::print;
use vb_syntax::Unit;
use vb_value::Stop;

/// The printed words of a unit that some words spell spell it again.
pub fn printed_again()
    ensures { (tokens : Tokens) (unit : Script) → Derives tokens unit → Derives (print_of unit) unit }
{}

/// A unit that some words spell is read again from the words that are printed of it.
pub fn print_and_parse(alloc: Global, unit: &Unit) -> Result<Unit, ParseStop>
    ensures { (tokens : Tokens) → Derives tokens unit.now → Answers result Stop.Memory (Ok unit.now) }
{
    let words = print(alloc, unit)?;
    parse(alloc, words.as_slice())
}
