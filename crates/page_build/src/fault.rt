//! Why a script is no program.
ghost use Rattle.std.specs.Prelude.{◌≡◌};
ghost use Rattle.page_build.specs.Script.{of_words, of_grammar, of_scope};

use std::fmt;
use vb_lex::{LexFault, LexStop};
use vb_parse::{ParseFault, ParseStop};
use vb_syntax::{ScopeFault, ScopeStop};
use vb_value::Stop;

/// What is wrong with a script. Its words come before its grammar, and its grammar before its names.
#[derive(Clone, Copy, Debug, PartialEq, Eq)]
pub enum ScriptFault {
    /// A word is wrong.
    Words(LexFault),
    /// The words are no script.
    Grammar(ParseFault),
    /// A name may not stand as it does.
    Scope(ScopeFault),
}

impl fmt::Display for ScriptFault {
    fn fmt<W: fmt::Write>(&self, f: &mut fmt::Formatter<W>) -> fmt::Result {
        match self {
            ScriptFault::Words(kind) => write!(f, "{kind:?}"),
            ScriptFault::Grammar(kind) => write!(f, "{kind:?}"),
            ScriptFault::Scope(kind) => write!(f, "{kind}"),
        }
    }
}

/// Why a script has no program: its first fault, or out of memory.
pub type ScriptStop = Stop<ScriptFault>;

/// The stop at the words of a script, as one of the script.
pub fn stop_of_words(stop: LexStop) -> ScriptStop
    ensures { result ≡ of_words stop }
{
    stop.map(|kind| ScriptFault::Words(kind))
}

/// The stop at the grammar of a script, as one of the script.
pub fn stop_of_grammar(stop: ParseStop) -> ScriptStop
    ensures { result ≡ of_grammar stop }
{
    stop.map(|kind| ScriptFault::Grammar(kind))
}

/// The stop at the names of a script, as one of the script.
pub fn stop_of_scope(stop: ScopeStop) -> ScriptStop
    ensures { result ≡ of_scope stop }
{
    stop.map(|kind| ScriptFault::Scope(kind))
}
