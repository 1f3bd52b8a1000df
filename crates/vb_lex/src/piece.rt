//! A piece of a script: a word, or what stands between two words.

use crate::fault::LexFault;
use vb_value::TokenKind;

/// What stands at the front of a text.
#[derive(Debug, Drop)]
pub enum Piece {
    /// Characters that belong to no word: a blank, what continues a line, or a comment.
    Gap {
        /// How many characters it has.
        length: usize,
    },
    /// A word.
    Word {
        /// What word it is.
        kind: TokenKind,
        /// How many characters it has.
        length: usize,
    },
    /// Something that is no word.
    Fault {
        /// What is wrong with it.
        kind: LexFault,
    },
}
