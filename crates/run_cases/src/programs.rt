//! The programs of scripts.

use case_files::{Answer, CaseStop};
use page_build::{ScriptStop, script_program};
use vb_syntax::Program;
use vb_value::Text;

/// The program of a script, or why it has none. A script that is too long for one stops the answer.
pub fn program(out: &mut Answer, script: &str) -> Result<Program, ScriptStop> {
    match Text::from_str(out.alloc(), script) {
        Ok(text) => {
            if text.len() < 1 << 31 {
                script_program(out.alloc(), &text)
            } else {
                out.stop(CaseStop::Unreadable);
                Err(ScriptStop::Memory)
            }
        }
        Err(_) => Err(ScriptStop::Memory),
    }
}
