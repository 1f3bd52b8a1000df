//! Where a statement stands. The rules of statements that hold others take the reader of blocks as a parameter, so
//! that each is proved by itself.
ghost use Rattle.std.specs.Prelude.{◌<◌};
ghost use Rattle.vb_read.specs.Heads.{head_of};
ghost use Rattle.vb_read.specs.ReadExpressions.{list_of};
ghost use Rattle.vb_read.specs.ReadLines.{line_if_from};
ghost use Rattle.vb_read.specs.ReadStatements as spec;
ghost use Rattle.vb_read.specs.Nests.{Nests};
ghost use Rattle.vb_value.specs.Outcome.{Runs};
ghost use Rattle.vb_read.specs.Reader.{stopped_at};
ghost use Rattle.vb_read.specs.Depths.{inside, rules};

use crate::cursor::{Cursor, ReadStop};
use crate::expression::{expression, list};
use crate::line::{Head, LastRead, if_head, line_if_from};
use crate::looser::Looser;
use std::alloc::Global;
use vb_syntax::{Expression, Statement};
use vb_value::List;

/// A place at which statements stand.
#[derive(Clone, Copy)]
pub struct Place<F> {
    pub alloc: Global,
    pub looser: Looser,
    /// How many more constructs may open.
    pub depth: u32,
    /// What reads a block, given how many more constructs may open in it.
    pub block: F,
}

impl<F: Fn(Global, &mut Cursor<'_>, Looser, u32) -> Result<List<Statement>, ReadStop>> Place<F> {
    /// A block inside the construct that opens here.
    pub fn inner_block(&self, cursor: &mut Cursor<'_>) -> Result<List<Statement>, ReadStop>
        requires nests { Nests self.now.looser self.now.depth (F.pre self.now.block) (F.post self.now.block) }
        requires opens { 0 < self.now.depth }
        ensures { Runs result stopped_at cursor.new.rest.now
            ((spec.blocks_inside (rules self.now.looser) self.now.depth).block cursor.old.rest.now) }
    {
        (self.block)(self.alloc, cursor, self.looser, self.depth - 1)
    }

    /// An expression inside the construct that opens here.
    pub fn expression(&self, cursor: &mut Cursor<'_>) -> Result<Expression, ReadStop>
        requires nests { Nests self.now.looser self.now.depth (F.pre self.now.block) (F.post self.now.block) }
        requires opens { 0 < self.now.depth }
        ensures { Runs result stopped_at cursor.new.rest.now
            ((inside self.now.depth).expression cursor.old.rest.now) }
    {
        expression(self.alloc, cursor, self.depth - 1)
    }

    /// The expressions of this construct, with commas between.
    pub fn expressions(&self, cursor: &mut Cursor<'_>) -> Result<List<Expression>, ReadStop>
        requires nests { Nests self.now.looser self.now.depth (F.pre self.now.block) (F.post self.now.block) }
        requires opens { 0 < self.now.depth }
        ensures { Runs result stopped_at cursor.new.rest.now
            (list_of (inside self.now.depth).expression cursor.old.rest.now) }
    {
        list(self.alloc, cursor, self.depth - 1)
    }

    /// The `If`, the condition and the `Then` of this construct.
    pub fn head(&self, cursor: &mut Cursor<'_>) -> Result<Head, ReadStop>
        requires nests { Nests self.now.looser self.now.depth (F.pre self.now.block) (F.post self.now.block) }
        requires opens { 0 < self.now.depth }
        ensures { Runs result stopped_at cursor.new.rest.now
            (head_of (inside self.now.depth).expression cursor.old.rest.now) }
    {
        if_head(self.alloc, cursor, self.depth - 1)
    }

    /// What stands behind the `Then` of a one-line If.
    pub fn line_if(&self, cursor: &mut Cursor<'_>, head: Head) -> Result<LastRead, ReadStop>
        requires nests { Nests self.now.looser self.now.depth (F.pre self.now.block) (F.post self.now.block) }
        requires opens { 0 < self.now.depth }
        ensures { Runs result stopped_at cursor.new.rest.now
            (line_if_from (rules self.now.looser) self.now.depth (spec.blocks_inside (rules self.now.looser)
            self.now.depth) head.line head.condition cursor.old.rest.now) }
    {
        line_if_from(self.alloc, cursor, self.looser, self.depth - 1, head)
    }
}
