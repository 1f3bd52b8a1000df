//! Reading loops. Each method reads what the rule of its name spells.
ghost use Rattle.std.specs.Prelude.{◌<◌};
ghost use Rattle.vb_read.specs.ReadStatements as spec;
ghost use Rattle.vb_read.specs.Nests.{Nests};
ghost use Rattle.vb_value.specs.Outcome.{Runs};
ghost use Rattle.vb_read.specs.Reader.{stopped_at};
ghost use Rattle.vb_read.specs.Depths.{inside, rules};

use crate::condition::{condition, loop_condition};
use crate::cursor::{Cursor, ReadStop};
use crate::ends::with_keyword;
use crate::looser::Looser;
use crate::place::Place;
use std::alloc::Global;
use vb_syntax::{Condition, Expression, Repetition, Statement, StatementKind};
use vb_value::{Keyword, List, Symbol};

impl<F: Fn(Global, &mut Cursor<'_>, Looser, u32) -> Result<List<Statement>, ReadStop>> Place<F> {
    /// The expression behind `Step`, or none.
    fn step_part(&self, cursor: &mut Cursor<'_>) -> Result<Option<Expression>, ReadStop>
        requires nests { Nests self.now.looser self.now.depth (F.pre self.now.block) (F.post self.now.block) }
        requires opens { 0 < self.now.depth }
        ensures { Runs result stopped_at cursor.new.rest.now
            (spec.step_part (rules self.now.looser) self.now.depth (spec.blocks_inside (rules self.now.looser)
            self.now.depth) cursor.old.rest.now) }
    {
        if cursor.sees_quoted(b"step") {
            cursor.quoted(b"step")?;
            Ok(Some(self.expression(cursor)?))
        } else {
            Ok(None)
        }
    }

    /// A For over numbers behind that word.
    fn for_from(&self, cursor: &mut Cursor<'_>, line: u32) -> Result<Statement, ReadStop>
        requires nests { Nests self.now.looser self.now.depth (F.pre self.now.block) (F.post self.now.block) }
        requires opens { 0 < self.now.depth }
        ensures { Runs result stopped_at cursor.new.rest.now
            (spec.for_from (rules self.now.looser) self.now.depth (spec.blocks_inside (rules self.now.looser)
            self.now.depth) line cursor.old.rest.now) }
    {
        let variable = cursor.name()?;
        cursor.symbol(Symbol::Equal)?;
        let from = self.expression(cursor)?;
        cursor.keyword(Keyword::To)?;
        let to = self.expression(cursor)?;
        let step = self.step_part(cursor)?;
        cursor.end()?;
        let body = self.inner_block(cursor)?;
        let kind = StatementKind::For {
            variable,
            from,
            to,
            step,
            body,
        };
        with_keyword(cursor, Statement { line, kind }, Keyword::Next)
    }

    /// A For Each behind the word `For`.
    fn for_each_from(&self, cursor: &mut Cursor<'_>, line: u32) -> Result<Statement, ReadStop>
        requires nests { Nests self.now.looser self.now.depth (F.pre self.now.block) (F.post self.now.block) }
        requires opens { 0 < self.now.depth }
        ensures { Runs result stopped_at cursor.new.rest.now
            (spec.for_each_from (rules self.now.looser) self.now.depth (spec.blocks_inside (rules self.now.looser)
            self.now.depth) line cursor.old.rest.now) }
    {
        cursor.keyword(Keyword::Each)?;
        let variable = cursor.name()?;
        cursor.keyword(Keyword::In)?;
        let group = self.expression(cursor)?;
        cursor.end()?;
        let body = self.inner_block(cursor)?;
        let kind = StatementKind::ForEach {
            variable,
            group,
            body,
        };
        with_keyword(cursor, Statement { line, kind }, Keyword::Next)
    }

    /// A `For` or a `For Each`, from its first word to its last.
    pub fn for_loop(&self, cursor: &mut Cursor<'_>) -> Result<Statement, ReadStop>
        requires { Nests self.now.looser self.now.depth (F.pre self.now.block) (F.post self.now.block) }
        ensures { Runs result stopped_at cursor.new.rest.now
            (spec.for (rules self.now.looser) self.now.depth (spec.blocks_inside (rules self.now.looser)
            self.now.depth) cursor.old.rest.now) }
    {
        if self.depth == 0 {
            return Err(ReadStop::Fault);
        }
        let line = cursor.keyword(Keyword::For)?;
        if cursor.sees_keyword(Keyword::Each) {
            self.for_each_from(cursor, line)
        } else {
            self.for_from(cursor, line)
        }
    }

    fn inner_condition(&self, cursor: &mut Cursor<'_>) -> Result<(u32, Condition), ReadStop>
        requires nests { Nests self.now.looser self.now.depth (F.pre self.now.block) (F.post self.now.block) }
        requires opens { 0 < self.now.depth }
        ensures { Runs result stopped_at cursor.new.rest.now
            (spec.condition (inside self.now.depth).expression cursor.old.rest.now) }
    {
        condition(self.alloc, cursor, self.depth - 1)
    }

    /// A Do with a condition behind that word.
    fn do_before(&self, cursor: &mut Cursor<'_>, line: u32) -> Result<Statement, ReadStop>
        requires nests { Nests self.now.looser self.now.depth (F.pre self.now.block) (F.post self.now.block) }
        requires opens { 0 < self.now.depth }
        ensures { Runs result stopped_at cursor.new.rest.now
            (spec.do_before_from (rules self.now.looser) self.now.depth (spec.blocks_inside (rules self.now.looser)
            self.now.depth) line cursor.old.rest.now) }
    {
        let (_, condition) = self.inner_condition(cursor)?;
        cursor.end()?;
        let body = self.inner_block(cursor)?;
        let repetition = Repetition::Before(condition);
        let kind = StatementKind::Do { repetition, body };
        with_keyword(cursor, Statement { line, kind }, Keyword::Loop)
    }

    /// A Do without a condition behind that word.
    fn do_after(&self, cursor: &mut Cursor<'_>, line: u32) -> Result<Statement, ReadStop>
        requires nests { Nests self.now.looser self.now.depth (F.pre self.now.block) (F.post self.now.block) }
        requires opens { 0 < self.now.depth }
        ensures { Runs result stopped_at cursor.new.rest.now
            (spec.do_after_from (rules self.now.looser) self.now.depth (spec.blocks_inside (rules self.now.looser)
            self.now.depth) line cursor.old.rest.now) }
    {
        cursor.end()?;
        let body = self.inner_block(cursor)?;
        cursor.keyword(Keyword::Loop)?;
        let repetition = loop_condition(self.alloc, cursor, self.depth)?;
        let kind = StatementKind::Do { repetition, body };
        Ok(Statement { line, kind })
    }

    /// A `Do`, from its first word to its last, or to the condition behind `Loop`.
    pub fn do_loop(&self, cursor: &mut Cursor<'_>) -> Result<Statement, ReadStop>
        requires { Nests self.now.looser self.now.depth (F.pre self.now.block) (F.post self.now.block) }
        ensures { Runs result stopped_at cursor.new.rest.now
            (spec.do_loop (rules self.now.looser) self.now.depth (spec.blocks_inside (rules self.now.looser)
            self.now.depth) cursor.old.rest.now) }
    {
        if self.depth == 0 {
            return Err(ReadStop::Fault);
        }
        let line = cursor.keyword(Keyword::Do)?;
        if cursor.sees_loop_word() {
            self.do_before(cursor, line)
        } else {
            self.do_after(cursor, line)
        }
    }

    /// A `While`, from its first word to its last.
    pub fn while_loop(&self, cursor: &mut Cursor<'_>) -> Result<Statement, ReadStop>
        requires { Nests self.now.looser self.now.depth (F.pre self.now.block) (F.post self.now.block) }
        ensures { Runs result stopped_at cursor.new.rest.now
            (spec.while (rules self.now.looser) self.now.depth (spec.blocks_inside (rules self.now.looser)
            self.now.depth) cursor.old.rest.now) }
    {
        if self.depth == 0 {
            return Err(ReadStop::Fault);
        }
        let line = cursor.keyword(Keyword::While)?;
        let condition = self.expression(cursor)?;
        cursor.end()?;
        let body = self.inner_block(cursor)?;
        let kind = StatementKind::While { condition, body };
        with_keyword(cursor, Statement { line, kind }, Keyword::Wend)
    }
}
