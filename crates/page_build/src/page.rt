//! Pages, of their parts.
ghost use Rattle.std.specs.Prelude.{◌≡◌, IfOk};
ghost use Rattle.std.specs.Option.{option_copied};
ghost use Rattle.vb_syntax.specs.scope.Resolving.{Resolves};
ghost use Rattle.vb_scope.specs.Answers.{parts_of};
ghost use Rattle.page_read.specs.Reading.{OnSiteFault, StopsAtFault};
ghost use Rattle.page_build.specs.Building as spec;
ghost use Rattle.page_build.specs.Words as words;

use crate::joining::{PageWords, page_words};
use crate::part::{first_line, stop_at};
use crate::unit::page_unit;
use asp_site::{LineSpot, Lines, Page};
use page_read::{Fragment, Located, SiteStop};
use std::alloc::Global;
use vb_parse::ParseFault;
use vb_scope::resolve;
use vb_syntax::{Program, ScopeFault, Unit};
use vb_value::{Copied, FaultKind, Memory, SiteFault, Stop, Text};

fn kind_of_grammar(kind: ParseFault) -> FaultKind
    ensures { result ≡ spec.kind_of_grammar kind }
{
    match kind {
        ParseFault::TooDeep => FaultKind::TooDeep,
        ParseFault::CallParens => FaultKind::CallParens,
        ParseFault::TextHere => FaultKind::TextHere,
        ParseFault::Unexpected => FaultKind::Unexpected,
    }
}

fn kind_of_scope(kind: ScopeFault) -> FaultKind
    ensures { result ≡ spec.kind_of_scope kind }
{
    match kind {
        ScopeFault::Redefined => FaultKind::Redefined,
        ScopeFault::BadExit => FaultKind::BadExit,
        ScopeFault::ConstTarget => FaultKind::ConstTarget,
        ScopeFault::BadMember => FaultKind::BadMember,
        ScopeFault::TooMany => FaultKind::TooMany,
    }
}

fn is_block(piece: &Fragment) -> bool
    ensures { result ≡ words.is_block piece.now }
{
    match piece {
        Fragment::Script { text: _, line: _ } => true,
        Fragment::Write { text: _, line: _ } => true,
        _ => false,
    }
}

/// The first block of script or value that is written.
fn first_block(parts: &[Located]) -> Option<&Located>
    ensures { option_copied result ≡ words.first_block parts.now }
{
    parts.iter().find(|part| is_block(&part.fragment))
}

/// The first block, where it may not stand: in `/global.asa`.
fn bad_block(parts: &[Located], global: bool) -> Option<&Located>
    ensures { option_copied result ≡ words.bad_block global parts.now }
{
    if global { first_block(parts) } else { None }
}

/// Whether the page has sessions: what its directive says, and else true.
fn session_of(parts: &[Located]) -> bool
    ensures { result ≡ spec.session_of parts.now }
{
    let mut rest = parts;
    while let [part, later @ ..] = rest {
        if let Fragment::Directive { session } = &part.fragment {
            return *session;
        }
        rest = later;
    }
    true
}

/// The stop at a fault in a line of the script of the page at the path, told in the line of the file.
fn told_stop(path: &Text, lines: &Lines, line: u32, kind: FaultKind) -> SiteStop
    ensures { StopsAtFault (spec.told_at path.now lines.now line kind) result }
{
    match lines.spot(line as usize) {
        Ok(Some(LineSpot { path, line })) => SiteStop::Fault(SiteFault { path, line, kind }),
        Ok(None) => stop_at(path, 0, kind),
        Err(Memory) => SiteStop::Memory,
    }
}

/// The script of a page's words, and the lines of files that it stands in.
fn words_unit(alloc: Global, path: &Text, words: PageWords) -> Result<(Unit, Lines), SiteStop>
    ensures ok { IfOk result (λ found. spec.SpellsUnit words found.0 × (found.1 ≡ words.lines)) }
    ensures fault { OnSiteFault result (spec.IsGrammarFault path.now words) }
{
    let PageWords {
        tokens,
        stray,
        lines,
    } = words;
    match page_unit(alloc, tokens, stray) {
        Ok(unit) => Ok((unit, lines)),
        Err(Stop::Fault { kind, line }) => {
            Err(told_stop(path, &lines, line, kind_of_grammar(kind)))
        }
        Err(Stop::Memory) => Err(SiteStop::Memory),
    }
}

/// The program of a script.
fn unit_program(alloc: Global, path: &Text, lines: &Lines, unit: Unit) -> Result<Program, SiteStop>
    ensures ok { IfOk result (λ program. Resolves unit (parts_of program)) }
    ensures fault { OnSiteFault result (spec.IsNameFault path.now lines.now unit) }
{
    match resolve(alloc, unit) {
        Ok(program) => Ok(program),
        Err(Stop::Fault { kind, line }) => Err(told_stop(path, lines, line, kind_of_scope(kind))),
        Err(Stop::Memory) => Err(SiteStop::Memory),
    }
}

/// The page of some words.
fn words_page(alloc: Global, path: &Text, session: bool, words: PageWords) -> Result<Page, SiteStop>
    ensures ok { IfOk result (spec.IsWordsPage path.now session words) }
    ensures fault { OnSiteFault result (spec.IsScriptFault path.now words) }
{
    let (unit, lines) = words_unit(alloc, path, words)?;
    let program = unit_program(alloc, path, &lines, unit)?;
    Ok(Page {
        path: path.copy()?,
        session,
        program,
        lines,
    })
}

/// The page at the path, of the parts that [`page_read::expand`] gives of it, or that of `/global.asa`, whose blocks of
/// script are refused and whose text is passed over (ASP 3.0, "Creating ASP Pages").
///
/// A fault is told in its file and line: that of a block in `/global.asa` before all others, one of words in any part
/// before one of grammar, and that before one of names. A script of 2^31 characters and more, and a page of more than
/// 2^32 lines, are `Memory`.
pub fn build(alloc: Global, path: &Text, parts: &[Located], global: bool) -> Result<Page, SiteStop>
    ensures page { IfOk result (spec.IsPageOf path.now parts.now global) }
    ensures fault { OnSiteFault result (spec.HasPageFault path.now parts.now global) }
{
    if let Some(part) = bad_block(parts, global) {
        let line = first_line(&part.fragment);
        return Err(stop_at(&part.path, line, FaultKind::BadGlobal));
    }
    let words = page_words(alloc, path, parts, global)?;
    words_page(alloc, path, session_of(parts), words)
}
