//! Pages with their includes replaced by the files that they name.
ghost use Rattle.std.specs.Prelude.{◌≡◌, ◌<◌, ◌∷◌, [], ◌^◌, ◌++◌, ℕ, List as Items, IfOk, length};
ghost use Rattle.vb_value.specs.declared.site_file.SiteFile.{SiteFile};
ghost use Rattle.std.specs.List.{All};
ghost use Rattle.vb_value.specs.Lines.{line_at};
ghost use Rattle.vb_value.specs.Outcome.{Gives};
ghost use Rattle.page_read.specs.Expansion as spec;
ghost use Rattle.page_read.specs.Expansion.{Outcome};
ghost use Rattle.page_read.specs.Reading.{GivesNext, GivesPieces, IsShort, OnSiteFault, Shows, StartsShort, StopsAtFault};

use crate::fault::PageFault;
use crate::fragment::{Fragment, fragments};
use crate::included::{Nest, file_at, included};
use crate::located::{Located, SiteStop};
use crate::piece::line_behind;
use std::alloc::Global;
use vb_value::{Copied, FaultKind, List, Memory, SiteFault, SiteFile, Stop, Text};

/// How many files may include one another, behind the page.
const MOST_NESTED: u32 = 32;

fn site_kind(kind: PageFault) -> FaultKind
    ensures { result ≡ spec.site_kind kind }
{
    match kind {
        PageFault::NotUtf8 => FaultKind::NotUtf8,
        PageFault::OpenBlock => FaultKind::OpenBlock,
        PageFault::LateDirective => FaultKind::LateDirective,
        PageFault::BadDirective => FaultKind::BadDirective,
        PageFault::ObjectTag => FaultKind::ObjectTag,
    }
}

/// The stop at a fault in this line of the file at the path.
fn placed_stop(path: &Text, line: u32, kind: FaultKind) -> SiteStop
    ensures { StopsAtFault (spec.fault_at path.now line kind) result }
{
    match path.copy() {
        Ok(path) => SiteStop::Fault(SiteFault { path, line, kind }),
        Err(Memory) => SiteStop::Memory,
    }
}

/// The line of the directive, which stands first in a file or behind blank text.
fn directive_line(pieces: &[Fragment]) -> Option<u32>
    requires { StartsShort pieces.now }
    ensures { result ≡ spec.directive_line pieces.now }
{
    match pieces {
        [Fragment::Directive { session: _ }, ..] => Some(1),
        [
            Fragment::Text { text, line: _ },
            Fragment::Directive { session: _ },
            ..
        ] => { Some(line_behind(text.as_slice(), 0, text.len(), 1)) }
        _ => None,
    }
}

/// The line of a directive in a file that is included behind the files at the paths `around`.
fn late_line(around: &[Text], pieces: &[Fragment]) -> Option<u32>
    requires { StartsShort pieces.now }
    ensures { result ≡ spec.late_line around.now pieces.now }
{
    match around {
        [] => None,
        [_, ..] => directive_line(pieces),
    }
}

/// The pieces of a file that is included behind the files at the paths `around`.
#[tactic(auto, using(crate::proofs::Expanding::starts_short))]
fn file_pieces(alloc: Global, around: &[Text], file: &SiteFile) -> Result<List<Fragment>, SiteStop>
    requires { IsShort file.now }
    ensures { GivesPieces result around.now file.now }
{
    let pieces = match fragments(alloc, file.bytes.as_slice()) {
        Ok(pieces) => pieces,
        Err(Stop::Fault { kind, line }) => {
            return Err(placed_stop(&file.path, line, site_kind(kind)));
        }
        Err(Stop::Memory) => return Err(SiteStop::Memory),
    };
    match late_line(around, pieces.as_slice()) {
        Some(line) => Err(placed_stop(&file.path, line, FaultKind::LateDirective)),
        None => Ok(pieces),
    }
}

/// The piece alone, as a part of the file at the path.
fn one_part(alloc: Global, path: &Text, piece: Fragment) -> Result<List<Located>, Memory>
    ensures { Gives result (spec.placed path.now piece ∷ []) }
{
    let mut parts = List::with_capacity(alloc, 1)?;
    parts.push(Located {
        path: path.copy()?,
        fragment: piece,
    })?;
    Ok(parts)
}

/// The paths of the files around this one, and its own.
fn chain_to(around: &[Text], path: &Text) -> Result<List<Text>, Memory>
    ensures { Gives result (around.now ++ path.now ∷ []) }
{
    let mut chain = List::with_capacity(*path.allocator(), around.len() + 1)?;
    for other in around {
        chain.push(other.copy()?)?;
    }
    chain.push(path.copy()?)?;
    Ok(chain)
}

/// The parts of a file that is included behind the files at the paths `around`, where `left` more may nest in it.
#[cycle(parts)]
fn file_parts(
    alloc: Global,
    files: &[SiteFile],
    left: u32,
    around: &[Text],
    file: &SiteFile,
) -> Result<List<Located>, SiteStop>
    requires files { All IsShort files.now }
    requires file { IsShort file.now }
    ensures { Shows result (spec.ComesOf left files.now around.now file.now) }
{
    let pieces = match file_pieces(alloc, around, file) {
        Ok(pieces) => pieces,
        Err(stop) => return Err(stop),
    };
    let chain = chain_to(around, &file.path)?;
    let nest = Nest {
        files,
        left,
        chain: chain.as_slice(),
        path: &file.path,
    };
    pieces_parts(alloc, &nest, pieces)
}

/// The parts of the pieces of a file.
#[cycle(parts)]
fn pieces_parts(
    alloc: Global,
    nest: &Nest<'_>,
    pieces: List<Fragment>,
) -> Result<List<Located>, SiteStop>
    requires { All IsShort nest.now.files.now }
    ensures { Shows result (spec.PiecesGive (GivesNext nest.now) pieces) }
{
    let mut parts = List::with_capacity(alloc, pieces.len())?;
    for piece in pieces.into_vec() {
        match piece_parts(alloc, nest, piece) {
            Ok(more) => parts.append(more)?,
            Err(stop) => return Err(stop),
        }
    }
    Ok(parts)
}

/// The parts of a piece of a file: those of the file that it includes, or the piece itself.
#[cycle(parts)]
fn piece_parts(alloc: Global, nest: &Nest<'_>, piece: Fragment) -> Result<List<Located>, SiteStop>
    requires { All IsShort nest.now.files.now }
    ensures { Shows result (GivesNext nest.now piece) }
{
    match piece {
        Fragment::Include {
            from_root,
            path,
            line,
        } => match included(alloc, nest, from_root, path.as_slice(), line) {
            Ok(file) => file_parts(alloc, nest.files, nest.left - 1, nest.chain, file),
            Err(Stop::Fault { kind, line }) => Err(placed_stop(nest.path, line, kind)),
            Err(Stop::Memory) => Err(SiteStop::Memory),
        },
        piece => Ok(one_part(alloc, nest.path, piece)?),
    }
}

/// The parts of the page at a path: its pieces, and in place of each include the parts of the file that it names, at
/// most 32 deep. A path at which there is no file is a fault in line 0.
pub fn expand(alloc: Global, files: &List<SiteFile>, path: &Text) -> Result<List<Located>, SiteStop>
    requires { All IsShort files.now }
    ensures ok { IfOk result (spec.Expands files.now path.now) }
    ensures fault { OnSiteFault result (spec.HasExpansionFault files.now path.now) }
{
    match file_at(files.as_slice(), path.as_slice()) {
        Some(file) => file_parts(alloc, files.as_slice(), MOST_NESTED, &[], file),
        None => Err(placed_stop(path, 0, FaultKind::NotFound)),
    }
}

/// One list of parts, or one fault, comes of a page.
pub fn one_outcome()
    ensures { (files : Items SiteFile) (path : Items ℕ) (one other : Outcome) → spec.ComesOfPage files path one
        → spec.ComesOfPage files path other → one ≡ other }
{}
