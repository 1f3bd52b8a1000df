//! What a survey has found.

use file_survey::{Kind, Table};
use std::alloc::Global;
use std::collections::BTreeMap;
use vb_value::{Copied, Memory, Text, fold};

/// Where something is told: findings come in the order of their spots.
#[derive(Drop, PartialEq, Eq, PartialOrd, Ord)]
pub struct Spot {
    /// The path of the file, with small letters.
    pub folded: Text,
    /// The line, counted from 1, or 0 for the file as a whole.
    pub line: u32,
    /// Its place among what is told of the file, from 1, or 0 for what `check` refuses there.
    pub at: u32,
    /// What it is.
    pub word: String,
}

/// What is told at a spot.
#[derive(Drop)]
pub struct Remark {
    /// What kind of thing it is.
    pub kind: Kind,
    /// The path of the file, as the site has it.
    pub path: Text,
    /// The way out.
    pub way: String,
}

/// All that a survey tells, in its order.
#[derive(Drop)]
pub struct Findings {
    alloc: Global,
    /// The findings.
    pub told: BTreeMap<Spot, Remark>,
}

impl Findings {
    /// Nothing yet.
    pub fn new(alloc: Global) -> Findings {
        Findings {
            alloc,
            told: BTreeMap::new(alloc),
        }
    }

    /// Adds what is told, unless the same stands at the same spot.
    pub fn tell(
        &mut self,
        path: &Text,
        (line, at): (u32, u32),
        (kind, word): (Kind, &str),
        way: &str,
    ) -> Result<(), Memory> {
        let spot = Spot {
            folded: fold(self.alloc, path)?,
            line,
            at,
            word: String::from_str(self.alloc, word)?,
        };
        if self.told.contains_key(&spot) {
            return Ok(());
        }
        let remark = Remark {
            kind,
            path: path.copy()?,
            way: String::from_str(self.alloc, way)?,
        };
        self.told.insert(spot, remark)?;
        Ok(())
    }

    /// Adds what is told of a file or a folder as a whole.
    pub fn tell_whole(
        &mut self,
        table: &Table,
        path: &Text,
        (kind, word): (Kind, &str),
    ) -> Result<(), Memory> {
        let way = table.way_out(kind, word)?;
        self.tell(path, (0, 0), (kind, word), way.as_str())
    }
}
