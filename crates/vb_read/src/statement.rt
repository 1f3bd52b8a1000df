//! Reading statements that hold others, and blocks.
ghost use Rattle.vb_read.specs.Reader as reader;
ghost use Rattle.vb_read.specs.ReadLines.{«end»};
ghost use Rattle.vb_read.specs.ReadStatements as spec;
ghost use Rattle.vb_read.specs.Nests.{Nests};
ghost use Rattle.vb_value.specs.Outcome.{Runs};
ghost use Rattle.vb_read.specs.Reader.{stopped_at};
ghost use Rattle.vb_read.specs.Depths.{rules};

use crate::cursor::{Cursor, ReadStop};
use crate::ends::{with_end, with_last};
use crate::looser::Looser;
use crate::place::Place;
use crate::simple::{const_statement, simple};
use std::alloc::Global;
use vb_syntax::{Statement, StatementKind};
use vb_value::{Keyword, List};

impl<F: Fn(Global, &mut Cursor<'_>, Looser, u32) -> Result<List<Statement>, ReadStop>> Place<F> {
    fn with_block(&self, cursor: &mut Cursor<'_>) -> Result<Statement, ReadStop>
        requires { Nests self.now.looser self.now.depth (F.pre self.now.block) (F.post self.now.block) }
        ensures { Runs result stopped_at cursor.new.rest.now
            (spec.with_block (rules self.now.looser) self.now.depth (spec.blocks_inside (rules self.now.looser)
            self.now.depth) cursor.old.rest.now) }
    {
        if self.depth == 0 {
            return Err(ReadStop::Fault);
        }
        let line = cursor.keyword(Keyword::With)?;
        let subject = self.expression(cursor)?;
        cursor.end()?;
        let body = self.inner_block(cursor)?;
        let kind = StatementKind::With { subject, body };
        with_last(cursor, Statement { line, kind }, Keyword::With)
    }

    /// A statement other than If, or a constant.
    fn other(&self, cursor: &mut Cursor<'_>) -> Result<Statement, ReadStop>
        requires { Nests self.now.looser self.now.depth (F.pre self.now.block) (F.post self.now.block) }
        ensures { Runs result stopped_at cursor.new.rest.now
            (spec.other (rules self.now.looser) self.now.depth (spec.blocks_inside (rules self.now.looser)
            self.now.depth) cursor.old.rest.now) }
    {
        if cursor.sees_const() {
            const_statement(self.alloc, cursor)
        } else if cursor.sees_keyword(Keyword::Select) {
            self.select(cursor)
        } else if cursor.sees_keyword(Keyword::For) {
            self.for_loop(cursor)
        } else if cursor.sees_keyword(Keyword::Do) {
            self.do_loop(cursor)
        } else if cursor.sees_keyword(Keyword::While) {
            self.while_loop(cursor)
        } else if cursor.sees_keyword(Keyword::With) {
            self.with_block(cursor)
        } else {
            simple(self.alloc, cursor, self.looser, self.depth)
        }
    }

    /// A statement other than If, or a constant, and what ends it.
    fn ended(&self, cursor: &mut Cursor<'_>) -> Result<Statement, ReadStop>
        requires { Nests self.now.looser self.now.depth (F.pre self.now.block) (F.post self.now.block) }
        ensures { Runs result stopped_at cursor.new.rest.now
            ((reader.◌>>=◌ (spec.other (rules self.now.looser) self.now.depth (spec.blocks_inside (rules
            self.now.looser) self.now.depth)) (λ found. reader.◌>>◌ «end» (reader.pure found))) cursor.old.rest.now) }
    {
        let found = self.other(cursor)?;
        with_end(cursor, found)
    }

    /// A statement or a constant, and what ends it.
    fn sentence(&self, cursor: &mut Cursor<'_>) -> Result<Statement, ReadStop>
        requires { Nests self.now.looser self.now.depth (F.pre self.now.block) (F.post self.now.block) }
        ensures { Runs result stopped_at cursor.new.rest.now
            (spec.sentence (rules self.now.looser) self.now.depth (spec.blocks_inside (rules self.now.looser)
            self.now.depth) cursor.old.rest.now) }
    {
        if cursor.sees_keyword(Keyword::If) {
            self.if_sentence(cursor)
        } else {
            self.ended(cursor)
        }
    }
}

/// A statement or a constant, and what ends it, where `depth` more constructs may open.
pub fn sentence(
    alloc: Global,
    cursor: &mut Cursor<'_>,
    looser: Looser,
    depth: u32,
) -> Result<Statement, ReadStop>
    ensures { Runs result stopped_at cursor.new.rest.now
        (spec.sentence (rules looser) depth (spec.blocks_inside (rules looser) depth) cursor.old.rest.now) }
{
    Place {
        alloc,
        looser,
        depth,
        block,
    }
    .sentence(cursor)
}

/// Statements and constants, where `depth` more constructs may open.
pub fn block(
    alloc: Global,
    cursor: &mut Cursor<'_>,
    looser: Looser,
    depth: u32,
) -> Result<List<Statement>, ReadStop>
    ensures { Runs result stopped_at cursor.new.rest.now
        ((spec.blocks (rules looser) depth).block cursor.old.rest.now) }
{
    let place = Place {
        alloc,
        looser,
        depth,
        block,
    };
    let mut found = List::new(alloc);
    while cursor.begins_statement() {
        found.push(place.sentence(cursor)?)?;
    }
    Ok(found)
}
