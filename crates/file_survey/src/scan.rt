//! What a survey sees in one file.

use crate::kind::Kind;
use std::alloc::Global;
use vb_value::{FaultKind, Memory};

/// Something that is told of a place in a file.
#[derive(Drop)]
pub struct Sight {
    /// What kind of thing it is.
    pub kind: Kind,
    /// Its line.
    pub line: u32,
    /// Its place among those of the file, from 1.
    pub at: u32,
    /// What it is.
    pub word: String,
    /// The way out.
    pub way: String,
    /// Why `check` refuses it, if it does.
    pub refused: Option<FaultKind>,
}

/// What a survey sees in one file.
#[derive(Drop)]
pub struct Scan {
    alloc: Global,
    /// What is told of it, but for names.
    pub sights: Vec<Sight>,
    /// Names that the host has not. One is told unless each page that has the file declares it.
    pub names: Vec<Sight>,
    /// Those of such names that the file declares itself, as the table writes them.
    pub declared: Vec<String>,
    /// Words that the host refuses, with their lines.
    pub faults: Vec<(u32, FaultKind)>,
    /// The places of the files that it includes.
    pub includes: Vec<usize>,
    /// How many sights there are.
    count: u32,
}

impl Scan {
    /// Nothing yet.
    pub(crate) fn new(alloc: Global) -> Scan {
        Scan {
            alloc,
            sights: Vec::new(alloc),
            names: Vec::new(alloc),
            declared: Vec::new(alloc),
            faults: Vec::new(alloc),
            includes: Vec::new(alloc),
            count: 0,
        }
    }

    fn sight(&mut self, kind: Kind, line: u32, word: &str, way: &str) -> Result<Sight, Memory> {
        self.count = self.count.saturating_add(1);
        Ok(Sight {
            kind,
            line,
            at: self.count,
            word: String::from_str(self.alloc, word)?,
            way: String::from_str(self.alloc, way)?,
            refused: None,
        })
    }

    /// Adds what is told.
    pub(crate) fn see(
        &mut self,
        kind: Kind,
        line: u32,
        word: &str,
        way: &str,
    ) -> Result<(), Memory> {
        let sight = self.sight(kind, line, word, way)?;
        self.sights.push(sight)?;
        Ok(())
    }

    /// Adds what is told, which the host refuses.
    pub(crate) fn see_refused(
        &mut self,
        kind: Kind,
        line: u32,
        word: &str,
        way: &str,
        fault: FaultKind,
    ) -> Result<(), Memory> {
        let mut sight = self.sight(kind, line, word, way)?;
        sight.refused = Some(fault);
        self.sights.push(sight)?;
        Ok(())
    }

    /// The first thing seen in a line that `check` refuses for this.
    pub fn refused_in(&self, line: u32, fault: FaultKind) -> Option<&Sight> {
        self.sights
            .iter()
            .find(|sight| sight.line == line && sight.refused == Some(fault))
    }

    /// Adds a name that the host has not.
    pub(crate) fn see_name(&mut self, line: u32, word: &str, way: &str) -> Result<(), Memory> {
        let sight = self.sight(Kind::Name, line, word, way)?;
        self.names.push(sight)?;
        Ok(())
    }

    /// Whether the file declares the name.
    pub fn declares(&self, word: &str) -> bool {
        self.declared.iter().any(|name| name.as_str() == word)
    }

    /// Adds a name that the file declares.
    pub(crate) fn declare(&mut self, word: &str) -> Result<(), Memory> {
        if !self.declares(word) {
            self.declared.push(String::from_str(self.alloc, word)?)?;
        }
        Ok(())
    }
}
