//! Answers of calls below as steps have them, and the lines of stops.
ghost use Rattle.std.specs.Prelude.{◌≡◌, Result};
ghost use Rattle.vb_meaning.specs.declared.stop.Stop.TheVariants as stop;
ghost use Rattle.vb_value.specs.Errors.{reported as on_call};
ghost use Rattle.vb_value.specs.Outcome.{Answers};
ghost use Rattle.vb_value.specs.declared.fault.VbError.{VbError};
ghost use Rattle.vb_value.specs.declared.fault.VbFault.TheVariants as fault;
ghost use Rattle.vb_meaning.specs.Errors as spec;
ghost use Rattle.vb_meaning.specs.Step.{raising};

use crate::cause::Cause;
use crate::stop::Stop;
use vb_value::VbFault;

/// What a call that makes a value answers, as a step has it.
pub fn raise<T>(answer: Result<T, VbFault>) -> Result<T, Stop>
    ensures { (meant : Result T VbError) → Answers answer fault.Memory (on_call meant)
        → Answers result stop.Memory (raising meant) }
{
    match answer {
        Ok(value) => Ok(value),
        Err(VbFault::Error(number)) => Err(Stop::Error(Cause::Language(number), None)),
        Err(VbFault::Memory) => Err(Stop::Memory),
    }
}

/// A stop with its line, if it has none yet.
pub fn stop_in(line: u32, why: Stop) -> Stop
    ensures { result ≡ spec.stop_in line why }
{
    match why {
        Stop::Error(cause, None) => Stop::Error(cause, Some(line)),
        Stop::Limit(kind, None) => Stop::Limit(kind, Some(line)),
        other => other,
    }
}
