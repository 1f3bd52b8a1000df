//! Reading If, in both its forms, and Select. Each method reads what the rule of its name spells.
ghost use Rattle.std.specs.Prelude.{◌<◌};
ghost use Rattle.vb_read.specs.ReadStatements as spec;
ghost use Rattle.vb_read.specs.Nests.{Nests};
ghost use Rattle.vb_value.specs.Outcome.{Runs};
ghost use Rattle.vb_read.specs.Reader.{stopped_at};
ghost use Rattle.vb_read.specs.Depths.{rules};

use crate::condition::passed_texts;
use crate::cursor::{Cursor, ReadStop};
use crate::ends::with_last;
use crate::line::Head;
use crate::looser::Looser;
use crate::place::Place;
use std::alloc::Global;
use vb_syntax::{Case, ElseIf, Statement, StatementKind};
use vb_value::{Keyword, List};

impl<F: Fn(Global, &mut Cursor<'_>, Looser, u32) -> Result<List<Statement>, ReadStop>> Place<F> {
    fn else_block(&self, cursor: &mut Cursor<'_>) -> Result<List<Statement>, ReadStop>
        requires nests { Nests self.now.looser self.now.depth (F.pre self.now.block) (F.post self.now.block) }
        requires opens { 0 < self.now.depth }
        ensures { Runs result stopped_at cursor.new.rest.now
            (spec.else_block (rules self.now.looser) self.now.depth (spec.blocks_inside (rules self.now.looser)
            self.now.depth) cursor.old.rest.now) }
    {
        cursor.keyword(Keyword::Else)?;
        cursor.end()?;
        self.inner_block(cursor)
    }

    fn else_part(&self, cursor: &mut Cursor<'_>) -> Result<Option<List<Statement>>, ReadStop>
        requires nests { Nests self.now.looser self.now.depth (F.pre self.now.block) (F.post self.now.block) }
        requires opens { 0 < self.now.depth }
        ensures { Runs result stopped_at cursor.new.rest.now
            (spec.else_part (rules self.now.looser) self.now.depth (spec.blocks_inside (rules self.now.looser)
            self.now.depth) cursor.old.rest.now) }
    {
        if cursor.sees_keyword(Keyword::Else) {
            Ok(Some(self.else_block(cursor)?))
        } else {
            Ok(None)
        }
    }

    fn else_if(&self, cursor: &mut Cursor<'_>) -> Result<ElseIf, ReadStop>
        requires nests { Nests self.now.looser self.now.depth (F.pre self.now.block) (F.post self.now.block) }
        requires opens { 0 < self.now.depth }
        ensures { Runs result stopped_at cursor.new.rest.now
            (spec.else_if (rules self.now.looser) self.now.depth (spec.blocks_inside (rules self.now.looser)
            self.now.depth) cursor.old.rest.now) }
    {
        let line = cursor.keyword(Keyword::ElseIf)?;
        let condition = self.expression(cursor)?;
        cursor.keyword(Keyword::Then)?;
        cursor.end()?;
        let then = self.inner_block(cursor)?;
        Ok(ElseIf {
            line,
            condition,
            then,
        })
    }

    fn else_ifs(&self, cursor: &mut Cursor<'_>) -> Result<List<ElseIf>, ReadStop>
        requires nests { Nests self.now.looser self.now.depth (F.pre self.now.block) (F.post self.now.block) }
        requires opens { 0 < self.now.depth }
        ensures { Runs result stopped_at cursor.new.rest.now
            (spec.else_ifs (rules self.now.looser) self.now.depth (spec.blocks_inside (rules self.now.looser)
            self.now.depth) cursor.old.rest.now) }
    {
        let mut found = List::new(self.alloc);
        while cursor.sees_keyword(Keyword::ElseIf) {
            found.push(self.else_if(cursor)?)?;
        }
        Ok(found)
    }

    /// A block If behind its `Then`.
    fn block_if(&self, cursor: &mut Cursor<'_>, head: Head) -> Result<Statement, ReadStop>
        requires nests { Nests self.now.looser self.now.depth (F.pre self.now.block) (F.post self.now.block) }
        requires opens { 0 < self.now.depth }
        ensures { Runs result stopped_at cursor.new.rest.now
            (spec.block_if_from (rules self.now.looser) self.now.depth (spec.blocks_inside (rules self.now.looser)
            self.now.depth) head.line head.condition cursor.old.rest.now) }
    {
        cursor.end()?;
        let then = self.inner_block(cursor)?;
        let others = self.else_ifs(cursor)?;
        let otherwise = self.else_part(cursor)?;
        let Head { line, condition } = head;
        let kind = StatementKind::If {
            condition,
            then,
            others,
            otherwise,
        };
        with_last(cursor, Statement { line, kind }, Keyword::If)
    }

    /// An If behind its `Then`, and what ends it.
    fn if_from(&self, cursor: &mut Cursor<'_>, head: Head) -> Result<Statement, ReadStop>
        requires nests { Nests self.now.looser self.now.depth (F.pre self.now.block) (F.post self.now.block) }
        requires opens { 0 < self.now.depth }
        ensures { Runs result stopped_at cursor.new.rest.now
            (spec.if_from (rules self.now.looser) self.now.depth (spec.blocks_inside (rules self.now.looser)
            self.now.depth) head.line head.condition cursor.old.rest.now) }
    {
        if cursor.sees_break() {
            let found = self.block_if(cursor, head)?;
            cursor.end()?;
            Ok(found)
        } else {
            let (found, _, _) = self.line_if(cursor, head)?;
            cursor.line_end()?;
            Ok(found)
        }
    }

    /// An If, and what ends it.
    pub fn if_sentence(&self, cursor: &mut Cursor<'_>) -> Result<Statement, ReadStop>
        requires { Nests self.now.looser self.now.depth (F.pre self.now.block) (F.post self.now.block) }
        ensures { Runs result stopped_at cursor.new.rest.now
            (spec.if_sentence (rules self.now.looser) self.now.depth (spec.blocks_inside (rules self.now.looser)
            self.now.depth) cursor.old.rest.now) }
    {
        if self.depth == 0 {
            return Err(ReadStop::Fault);
        }
        let head = self.head(cursor)?;
        self.if_from(cursor, head)
    }

    /// A `Case` behind that word.
    fn case_from(&self, cursor: &mut Cursor<'_>, line: u32) -> Result<Case, ReadStop>
        requires nests { Nests self.now.looser self.now.depth (F.pre self.now.block) (F.post self.now.block) }
        requires opens { 0 < self.now.depth }
        ensures { Runs result stopped_at cursor.new.rest.now
            (spec.case_from (rules self.now.looser) self.now.depth (spec.blocks_inside (rules self.now.looser)
            self.now.depth) line cursor.old.rest.now) }
    {
        let values = self.expressions(cursor)?;
        cursor.end()?;
        let body = self.inner_block(cursor)?;
        Ok(Case { line, values, body })
    }

    /// The `Case` parts, and the `Case Else` part.
    fn cases(
        &self,
        cursor: &mut Cursor<'_>,
    ) -> Result<(List<Case>, Option<List<Statement>>), ReadStop>
        requires nests { Nests self.now.looser self.now.depth (F.pre self.now.block) (F.post self.now.block) }
        requires opens { 0 < self.now.depth }
        ensures { Runs result stopped_at cursor.new.rest.now
            (spec.cases (rules self.now.looser) self.now.depth (spec.blocks_inside (rules self.now.looser)
            self.now.depth) cursor.old.rest.now) }
    {
        let mut found = List::new(self.alloc);
        while cursor.sees_keyword(Keyword::Case) {
            let line = cursor.keyword(Keyword::Case)?;
            if cursor.sees_keyword(Keyword::Else) {
                let body = self.else_block(cursor)?;
                return Ok((found, Some(body)));
            }
            found.push(self.case_from(cursor, line)?)?;
        }
        Ok((found, None))
    }

    /// A `Select`, from its first word to its last.
    pub fn select(&self, cursor: &mut Cursor<'_>) -> Result<Statement, ReadStop>
        requires { Nests self.now.looser self.now.depth (F.pre self.now.block) (F.post self.now.block) }
        ensures { Runs result stopped_at cursor.new.rest.now
            (spec.select (rules self.now.looser) self.now.depth (spec.blocks_inside (rules self.now.looser)
            self.now.depth) cursor.old.rest.now) }
    {
        if self.depth == 0 {
            return Err(ReadStop::Fault);
        }
        let line = cursor.keyword(Keyword::Select)?;
        cursor.keyword(Keyword::Case)?;
        let subject = self.expression(cursor)?;
        cursor.end()?;
        passed_texts(cursor, self.looser.texts)?;
        let (cases, otherwise) = self.cases(cursor)?;
        let kind = StatementKind::Select {
            subject,
            cases,
            otherwise,
        };
        with_last(cursor, Statement { line, kind }, Keyword::Select)
    }
}
