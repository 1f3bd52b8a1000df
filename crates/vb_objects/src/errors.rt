//! Errors, and what Err holds of them.
ghost use Rattle.std.specs.Prelude.{◌≡◌};
ghost use Rattle.vb_value.specs.Outcome.{Gives};
ghost use Rattle.vb_meaning.specs.Errors as spec;
ghost use Rattle.vb_meaning.specs.Statements as statements;
ghost use Rattle.vb_meaning.specs.Step.{Returns};
ghost use Rattle.vb_meaning.specs.Shown.{shown};

use std::alloc::Global;
use vb_meaning::{Cause, Exit, Raised, World};
use vb_syntax::ExitKind;
use vb_value::{Memory, Text, error_text};

/// The source of the language's own errors, in UTF-8.
fn source_bytes() -> &'static str
    ensures { result.now ≡ spec.language_source }
{
    "Microsoft VBScript runtime error"
}

/// The source of the language's own errors.
#[tactic(auto, using(crate::proofs::Texts::source_characters))]
pub fn language_source(alloc: Global) -> Result<Text, Memory>
    ensures { Gives result spec.language_source }
{
    Text::from_str(alloc, source_bytes())
}

/// An error of the language with its source and its description.
fn language_error(alloc: Global, number: i32) -> Result<Raised, Memory>
    ensures { Gives result (spec.language_error number) }
{
    Ok(Raised {
        number,
        source: language_source(alloc)?,
        description: error_text(alloc, number)?,
    })
}

/// What an error says.
pub fn raised_by(alloc: Global, cause: Cause) -> Result<Raised, Memory>
    ensures { Gives result (spec.raised_by cause) }
{
    match cause {
        Cause::Language(number) => language_error(alloc, number),
        Cause::Raised(raised) => Ok(raised),
    }
}

/// What Err holds where there is no error.
pub fn no_error(alloc: Global) -> Raised
    ensures { result ≡ spec.no_error }
{
    Raised {
        number: 0,
        source: Text::new(alloc),
        description: Text::new(alloc),
    }
}

/// Clears Err.
pub fn clear(alloc: Global, world: &mut World)
    ensures { shown world.new ≡ spec.cleared (shown world.old) }
{
    world.err = no_error(alloc);
}

/// On Error Resume Next, and On Error GoTo 0.
pub fn on_error(alloc: Global, world: &mut World, resumes: bool)
    ensures { shown world.new ≡ spec.on_error resumes (shown world.old) }
{
    world.frame.resumes = resumes;
    clear(alloc, world);
}

/// Whether an Exit clears Err.
fn clears_err(kind: ExitKind) -> bool
    ensures { result ≡ statements.clears_err kind }
{
    matches!(
        kind,
        ExitKind::Sub | ExitKind::Function | ExitKind::Property
    )
}

/// Exit, which clears Err where it leaves a procedure.
pub fn leave(alloc: Global, world: &mut World, kind: ExitKind) -> Exit
    ensures { statements.leave kind (shown world.old) ≡ Returns result (shown world.new) }
{
    if clears_err(kind) {
        clear(alloc, world);
    }
    Exit::Leave(kind)
}
