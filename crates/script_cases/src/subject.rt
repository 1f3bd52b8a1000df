//! What each file of cases is tried on.

use crate::grammar::{
    write_bare_tree, write_inner_words, write_printed, write_script_counts, write_script_places,
    write_tree, write_verdict,
};
use crate::names::write_names;
use crate::programs::{write_accepted, write_page_parts, write_script_parts};
use case_files::{Answer, Subject};

/// What the scripts of a file are tried on. Each has its answer or its first fault with the line.
#[derive(Clone, Copy)]
pub enum Scripts {
    Words,
    Places,
    Counts,
    Trees,
    BareTrees,
    Verdicts,
    Printed,
    Programs,
    Names,
    ScriptParts,
    PageParts,
}

impl Subject for Scripts {
    fn answer(&self, case: &str, out: &mut Answer) {
        match self {
            Scripts::Words => write_inner_words(out, case),
            Scripts::Places => write_script_places(out, case),
            Scripts::Counts => write_script_counts(out, case),
            Scripts::Trees => write_tree(out, case),
            Scripts::BareTrees => write_bare_tree(out, case),
            Scripts::Verdicts => write_verdict(out, case),
            Scripts::Printed => write_printed(out, case),
            Scripts::Programs => write_accepted(out, case),
            Scripts::Names => write_names(out, case),
            Scripts::ScriptParts => write_script_parts(out, case),
            Scripts::PageParts => write_page_parts(out, case),
        }
    }
}
