//! The pieces of a page file.
ghost use Rattle.std.specs.Prelude.{◌≡◌, ◌^◌, ◌<◌, ◌≤◌, ℕ, List as Items, IfOk, chars, length};
ghost use Rattle.page_read.specs.declared.fault.PageFault.{PageFault as Kind};
ghost use Rattle.page_read.specs.declared.fragment.Fragment.{Fragment as Piece};
ghost use Rattle.vb_value.specs.Outcome.{OnFault};
ghost use Rattle.page_read.specs.Fragments.{HasFault, IsFragmentsOf, unmarked};
ghost use Rattle.page_read.specs.Spelling.{SpellTogether};

use crate::fault::{PageFault, PageStop};
use crate::piece::pieces;
use std::alloc::Global;
use vb_value::{List, Text, Utf8Stop};

/// A piece of a page file (ASP 3.0, "Creating ASP Pages"). Lines are counted from 1, and end at CR LF, CR and LF.
#[derive(Debug, Drop)]
pub enum Fragment {
    /// What stands between `<%@` and `%>`.
    Directive {
        /// Whether the page has sessions.
        session: bool,
    },
    /// Plain text, which is written as it stands.
    Text {
        /// The text.
        text: Text,
        /// The line in which it begins.
        line: u32,
    },
    /// What stands between `<%` and `%>`.
    Script {
        /// What stands between the marks, blanks and all.
        text: Text,
        /// The line in which the `<%` stands.
        line: u32,
    },
    /// What stands between `<%=` and `%>`, whose value is written.
    Write {
        /// What stands between the marks, blanks and all.
        text: Text,
        /// The line in which the `<%=` stands.
        line: u32,
    },
    /// What stands between a `<script>` that is to run on the server and `</script>`.
    Element {
        /// What stands between the tags, blanks and all.
        text: Text,
        /// The line in which the text begins.
        line: u32,
    },
    /// A file that stands here in place of an include.
    Include {
        /// Whether the path begins at the site's root, and not in the folder of the file that includes.
        from_root: bool,
        /// The path as it is written.
        path: Text,
        /// The line in which the `<!--` stands.
        line: u32,
    },
}

/// The pieces of a page file with these bytes, or the first fault in it.
#[tactic(auto, using(crate::proofs::Page::no_text, crate::proofs::Page::short_text, crate::proofs::Page::pieces_there, crate::proofs::Page::fault_there))]
pub fn fragments(alloc: Global, bytes: &[u8]) -> Result<List<Fragment>, PageStop>
    requires { length bytes.now < 2 ^ 31 }
    ensures ok { IfOk result (IsFragmentsOf bytes.now) }
    ensures fault { OnFault result (HasFault bytes.now) }
{
    match Text::from_utf8(alloc, bytes) {
        Ok(text) => pieces(alloc, without_mark(text.as_slice())),
        Err(Utf8Stop::NotUtf8) => Err(PageStop::Fault {
            kind: PageFault::NotUtf8,
            line: 0,
        }),
        Err(Utf8Stop::Memory) => Err(PageStop::Memory),
    }
}

/// The text without the byte order mark that may stand first in it.
fn without_mark(text: &[char]) -> &[char]
    ensures value { result.now ≡ unmarked text.now }
    ensures shorter { length result.now ≤ length text.now }
{
    match text {
        ['\u{feff}', rest @ ..] => rest,
        _ => text,
    }
}

/// At most one list of pieces belongs to one file.
#[tactic(auto, using(crate::proofs::Pieces::one_list))]
pub fn fragments_unique()
    ensures { (bytes : Items ℕ) (these those : Items Piece)
        → IsFragmentsOf bytes these → IsFragmentsOf bytes those → these ≡ those }
{}

/// A file to which pieces belong has no fault.
pub fn fragments_or_fault()
    ensures { (bytes : Items ℕ) (pieces : Items Piece) (kind : Kind) (line : ℕ)
        → IsFragmentsOf bytes pieces → HasFault bytes kind line → ⊥ }
{}

/// A file has one fault, in one line.
pub fn one_fault()
    ensures { (bytes : Items ℕ) (kind other : Kind) (line number : ℕ) → HasFault bytes kind line
        → HasFault bytes other number → (kind ≡ other) × (line ≡ number) }
{}

/// The text of a file is the spellings of its pieces, one after the other.
#[tactic(auto, using(crate::proofs::SpelledForms::pieces_spelled))]
pub fn pieces_spelled()
    ensures { (bytes : Items ℕ) (pieces : Items Piece) → IsFragmentsOf bytes pieces
        → SpellTogether pieces (unmarked (chars bytes)) }
{}
