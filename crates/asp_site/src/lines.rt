//! The lines of files in which the lines of a page's program stand.
ghost use Rattle.std.specs.Prelude.{◌≡◌, ◌+◌, ◌<◌, ◌++◌, [], length, slice_get};
ghost use Rattle.vb_value.specs.Outcome.{Changes, Gives};
ghost use Rattle.asp_site.specs.Spots as spec;

use crate::site::LineSpot;
use crate::stretch::Stretch;
use std::alloc::Global;
use std::marker::Model;
use vb_value::{Copied, List, Memory, Text};

/// Lines of files, each at a place. Contracts see them as the list of the lines.
///
/// A stretch of lines of one file takes the memory of its path, however many lines it has.
#[derive(Debug, Drop)]
pub struct Lines {
    stretches: List<Stretch>,
    len: usize,
}

impl Model for Lines {
    ghost use Rattle.std.specs.Prelude.{◌≡◌, List as Items, length};
    ghost use Rattle.asp_site.specs.declared.site.LineSpot.{LineSpot};
    ghost use Rattle.asp_site.specs.Spots.{spots_of};

    ghost Value = { Items LineSpot };

    ghost view = { λ lines. spots_of lines.stretches };

    ghost invariant = { λ lines. lines.len ≡ length (spots_of lines.stretches) };
}

/// The line that stands so many places behind the first of a stretch.
fn spot_in(stretch: &Stretch, behind: u32) -> Result<LineSpot, Memory>
    requires { behind < stretch.now.count }
    ensures { Gives result (spec.spot stretch.now.path (stretch.now.first + behind)) }
{
    Ok(LineSpot {
        path: stretch.path.copy()?,
        line: stretch.first + behind,
    })
}

/// The line at a place of the lines of some stretches.
#[tactic(auto, using(crate::proofs::SpotPlaces::spot_there, crate::proofs::SpotPlaces::spot_behind))]
fn spot_at(stretches: &[Stretch], place: usize) -> Result<Option<LineSpot>, Memory>
    ensures { Gives result (slice_get (spec.spots_of stretches.now) place) }
{
    let mut left = place;
    for stretch in stretches {
        let count = stretch.count as usize;
        if left < count {
            return Ok(Some(spot_in(stretch, left as u32)?));
        }
        left -= count;
    }
    Ok(None)
}

fn more_lines(len: usize, count: u32) -> Result<usize, Memory>
    ensures { Gives result (len + count) }
{
    match len.checked_add(count as usize) {
        Some(more) => Ok(more),
        None => Err(Memory),
    }
}

impl Lines {
    /// No lines.
    pub fn new(alloc: Global) -> Lines
        ensures { result ≡ [] }
    {
        Lines {
            stretches: List::new(alloc),
            len: 0,
        }
    }

    /// How many lines there are.
    pub fn len(&self) -> usize
        ensures { result ≡ length self.now }
    {
        self.len
    }

    /// The line at a place, counted from 0. It looks at one stretch after another.
    pub fn spot(&self, place: usize) -> Result<Option<LineSpot>, Memory>
        ensures { Gives result (slice_get self.now place) }
    {
        spot_at(self.stretches.as_slice(), place)
    }

    /// Adds so many lines of the file at the path, from one on. Past the line 2^32 - 1 that is `Memory`.
    pub fn add(&mut self, path: &Text, first: u32, count: u32) -> Result<(), Memory>
        ensures { Changes result self.old self.new (self.old ++ spec.spots path.now first count) }
    {
        if count > u32::MAX - first {
            return Err(Memory);
        }
        let len = more_lines(self.len, count)?;
        self.stretches.push(Stretch {
            path: path.copy()?,
            first,
            count,
        })?;
        self.len = len;
        Ok(())
    }
}
