//! Why a script does not run.

use case_files::{Answer, CaseStop};
use page_build::ScriptStop;

/// Writes the kind of a script's first fault, and its line.
pub fn write_stop(out: &mut Answer, stop: &ScriptStop) {
    match stop {
        ScriptStop::Fault { kind, line } => {
            out.put("refused: ");
            out.show(kind);
            out.put(" in line ");
            out.show(line);
        }
        ScriptStop::Memory => out.stop(CaseStop::Memory),
    }
}
