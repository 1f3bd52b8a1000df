//! What a survey of an old site sees in one file: forms, names, members, objects and words that this host hasn't or
//! refuses, each with the way out that a table has.
#![tactic(auto)]

mod encoding;
mod fault;
mod faulty;
mod file;
mod folding;
mod include;
mod kind;
mod pieces;
mod plain;
mod scan;
mod table;
mod uses;
mod words;

pub use encoding::{Encoding, encoding_of, repaired};
pub use fault::{TableFault, TableStop};
pub use file::{Around, scan_file};
pub use folding::folded;
pub use kind::{KINDS, Kind};
pub use scan::{Scan, Sight};
pub use table::{Row, Table};
