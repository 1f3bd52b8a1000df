//! The table: what old pages have that this host has not, each with the way out.

use crate::fault::{TableFault, TableStop};
use crate::folding::folded;
use crate::kind::{KINDS, Kind};
use indexmap::{IndexMap, IndexSet};
use std::alloc::Global;
use std::collections::BTreeMap;
use vb_value::{Memory, Stop};

/// A row of the table.
#[derive(Drop)]
pub struct Row {
    /// The word, as the table writes it.
    pub word: String,
    /// The way out.
    pub way: String,
}

/// The rows of a table.
#[derive(Drop)]
pub struct Table {
    alloc: Global,
    /// The rows of each kind, in the table's order, by their words in small letters.
    rows: BTreeMap<Kind, IndexMap<String, Row>>,
    /// The objects with which the words of members begin, in small letters.
    heads: IndexSet<String>,
}

/// The kinds that have a row for all other words.
const OPEN_KINDS: [Kind; 4] = [Kind::Fault, Kind::Form, Kind::File, Kind::Component];

impl Table {
    /// The table of a text: a row a line, `KIND WORD | WAY OUT`. Empty lines, and those that begin with `#`, are none.
    pub fn read(alloc: Global, text: &str) -> Result<Table, TableStop> {
        let mut table = Table::empty(alloc)?;
        let mut line = 0u32;
        for written in text.lines() {
            line = line.saturating_add(1);
            if !written.is_empty() && !written.starts_with('#') {
                if let Some(kind) = table.add(written)? {
                    return Err(Stop::Fault { kind, line });
                }
            }
        }
        for kind in OPEN_KINDS {
            if table.row(kind, "*").is_none() {
                let kind = TableFault::NoRest;
                return Err(Stop::Fault { kind, line });
            }
        }
        Ok(table)
    }

    /// The row of this kind with this word, which has small letters.
    pub fn row(&self, kind: Kind, word: &str) -> Option<&Row> {
        match self.rows.get(&kind) {
            Some(rows) => rows.get(word),
            None => None,
        }
    }

    /// The way out of this, by its own row or by that for all other words of its kind; no characters where neither is
    /// there.
    pub fn way_out(&self, kind: Kind, word: &str) -> Result<String, Memory> {
        let small = folded(self.alloc, word)?;
        if let Some(row) = self.row(kind, small.as_str()) {
            return Ok(row.way.clone()?);
        }
        match self.row(kind, "*") {
            Some(row) => Ok(row.way.clone()?),
            None => Ok(String::new(self.alloc)),
        }
    }

    /// The first row of this kind whose word stands in the text, which has small letters.
    pub(crate) fn row_within(&self, kind: Kind, text: &str) -> Option<&Row> {
        if let Some(rows) = self.rows.get(&kind) {
            for (word, row) in rows.iter() {
                if text.contains(word.as_str()) {
                    return Some(row);
                }
            }
        }
        None
    }

    /// Whether the word of a member begins with this object, in small letters.
    pub(crate) fn is_head(&self, word: &str) -> bool {
        self.heads.contains(word)
    }

    fn empty(alloc: Global) -> Result<Table, Memory> {
        let mut rows = BTreeMap::new(alloc);
        for kind in KINDS {
            rows.insert(kind, IndexMap::new(alloc))?;
        }
        Ok(Table {
            alloc,
            rows,
            heads: IndexSet::new(alloc),
        })
    }

    /// Adds the row that this line is. Gives what is wrong with it, if something is.
    fn add(&mut self, written: &str) -> Result<Option<TableFault>, Memory> {
        let Some((head, way)) = written.split_once(" | ") else {
            return Ok(Some(TableFault::NoRow));
        };
        let Some((kind, word)) = head.trim_end().split_once(' ') else {
            return Ok(Some(TableFault::NoRow));
        };
        match Kind::of_word(kind) {
            Some(kind) => self.add_row(kind, word, way.trim()),
            None => Ok(Some(TableFault::NoKind)),
        }
    }

    fn add_row(&mut self, kind: Kind, word: &str, way: &str) -> Result<Option<TableFault>, Memory> {
        let small = folded(self.alloc, word)?;
        if kind == Kind::Member {
            self.add_head(small.as_str())?;
        }
        let row = Row {
            word: String::from_str(self.alloc, word)?,
            way: String::from_str(self.alloc, way)?,
        };
        let Some(rows) = self.rows.get_mut(&kind) else {
            return Ok(Some(TableFault::NoKind));
        };
        match rows.insert(small, row)? {
            Some(_) => Ok(Some(TableFault::Twice)),
            None => Ok(None),
        }
    }

    /// Adds the object with which the word of a member begins.
    fn add_head(&mut self, word: &str) -> Result<(), Memory> {
        let (head, _) = word.split_once('.').unwrap_or((word, ""));
        self.heads.insert(String::from_str(self.alloc, head)?)?;
        Ok(())
    }
}
