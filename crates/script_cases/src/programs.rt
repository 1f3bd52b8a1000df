//! The programs of scripts and pages.

use crate::stopped::{write_script_stop, write_stop};
use crate::words::{case_text, page_words};
use case_files::Answer;
use page_build::script_program;
use vb_parse::parse;
use vb_scope::resolve;
use vb_syntax::Program;
use vb_value::{List, Text};

/// The program of a script's text, if it has one. Else the answer has why.
pub fn program(out: &mut Answer, script: &str) -> Option<Program> {
    let text = case_text(out, script)?;
    match script_program(out.alloc(), &text) {
        Ok(program) => Some(program),
        Err(stop) => {
            write_script_stop(out, &stop);
            None
        }
    }
}

/// Writes the variables, procedures and classes of a script's program.
pub fn write_script_parts(out: &mut Answer, script: &str) {
    if let Some(program) = program(out, script) {
        write_parts(out, &program);
    }
}

/// Writes the variables, procedures and classes of a page's program.
pub fn write_page_parts(out: &mut Answer, page: &str) {
    let Some(words) = page_words(out, page) else {
        return;
    };
    match parse(out.alloc(), words.as_slice()) {
        Ok(unit) => match resolve(out.alloc(), unit) {
            Ok(program) => write_parts(out, &program),
            Err(stop) => write_stop(out, &stop),
        },
        Err(stop) => write_stop(out, &stop),
    }
}

/// Writes that a script has a program.
pub fn write_accepted(out: &mut Answer, script: &str) {
    if program(out, script).is_some() {
        out.put("accepted");
    }
}

fn write_parts(out: &mut Answer, program: &Program) {
    out.put("variables");
    write_names(out, &program.vars);
    out.put(", procedures");
    write_names(out, &program.procs);
    out.put(", classes");
    write_names(out, &program.classes);
}

fn write_names(out: &mut Answer, names: &List<Text>) {
    if names.is_empty() {
        out.put(" none");
    }
    for name in names.as_slice() {
        out.put(" ");
        out.text(name.as_slice());
    }
}
