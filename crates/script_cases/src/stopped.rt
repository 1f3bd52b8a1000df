//! Why a script gives no answer of its own.

use case_files::{Answer, CaseStop};
use page_build::{ScriptFault, ScriptStop};
use std::fmt::Debug;
use vb_value::Stop;

/// Writes the kind of a script's first fault, and its line.
pub fn write_stop<K: Debug>(out: &mut Answer, stop: &Stop<K>) {
    match stop {
        Stop::Fault { kind, line } => write_fault(out, kind, *line),
        Stop::Memory => out.stop(CaseStop::Memory),
    }
}

/// The same of a fault that a script has in its words, its grammar or its names.
pub fn write_script_stop(out: &mut Answer, stop: &ScriptStop) {
    match stop {
        Stop::Fault { kind, line } => match kind {
            ScriptFault::Words(kind) => write_fault(out, kind, *line),
            ScriptFault::Grammar(kind) => write_fault(out, kind, *line),
            ScriptFault::Scope(kind) => write_fault(out, kind, *line),
        },
        Stop::Memory => out.stop(CaseStop::Memory),
    }
}

fn write_fault<K: Debug>(out: &mut Answer, kind: &K, line: u32) {
    out.debug(kind);
    out.put(" ");
    out.show(&line);
}
