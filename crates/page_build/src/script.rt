//! A script's text as a program.
ghost use Rattle.std.specs.Prelude.{◌^◌, ◌<◌, IfOk, Ok, length};
ghost use Rattle.vb_value.specs.declared.stop.Stop.TheVariants.{Memory as OutOfMemory};
ghost use Rattle.vb_value.specs.Outcome.{Answers, OnFault};
ghost use Rattle.vb_syntax.specs.scope.Programs.{Parts};
ghost use Rattle.vb_scope.specs.Answers.{parts_of};
ghost use Rattle.page_build.specs.Script.{IsProgramOf, HasFault, answered};

use crate::fault::{ScriptStop, stop_of_grammar, stop_of_scope, stop_of_words};
use std::alloc::Global;
use vb_lex::lex;
use vb_parse::parse;
use vb_scope::resolve;
use vb_syntax::Program;
use vb_value::Text;

/// The program of a script, whose lines are counted from 1 (VBScript 5.6 language reference).
///
/// A fault of its words comes before one of its grammar, and that before one of its names.
pub fn script_program(alloc: Global, text: &Text) -> Result<Program, ScriptStop>
    requires { length text.now < 2 ^ 31 }
    ensures program { IfOk result (λ program. IsProgramOf text.now (parts_of program)) }
    ensures only { (program : Parts) → IsProgramOf text.now program
        → Answers (answered result) OutOfMemory (Ok program) }
    ensures fault { OnFault result (HasFault text.now) }
{
    let tokens = match lex(alloc, text) {
        Ok(tokens) => tokens,
        Err(stop) => return Err(stop_of_words(stop)),
    };
    let unit = match parse(alloc, tokens.as_slice()) {
        Ok(unit) => unit,
        Err(stop) => return Err(stop_of_grammar(stop)),
    };
    match resolve(alloc, unit) {
        Ok(program) => Ok(program),
        Err(stop) => Err(stop_of_scope(stop)),
    }
}
