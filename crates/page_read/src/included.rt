//! The files that includes name.
ghost use Rattle.std.specs.Prelude.{◌≡◌, ◌<◌, IfOk, IfSome};
ghost use Rattle.std.specs.List.{All, list_any};
ghost use Rattle.std.specs.Option.{option_copied};
ghost use Rattle.vb_value.specs.Folding.{same_name};
ghost use Rattle.vb_value.specs.Outcome.{Adds, Answers, Gives};
ghost use Rattle.page_read.specs.Including as spec;
ghost use Rattle.page_read.specs.Reading.{IsShort, Names};

use asp_text::{PathStop, normal_path, same_path};
use std::alloc::Global;
use vb_value::{FaultKind, List, Memory, SiteFile, Stop, Text};

fn has_slash(path: &[char]) -> bool
    ensures { result ≡ spec.has_slash path.now }
{
    path.iter().any(|c| *c == '/')
}

/// The folder of the file at a path.
#[tactic(auto, using(crate::proofs::Folders::folder_here, crate::proofs::Folders::folder_more))]
fn folder_of(path: &[char]) -> &[char]
    ensures { result.now ≡ spec.folder_of path.now }
{
    for at in 0..path.len() {
        let (folder, name) = path.split_at(at);
        if !has_slash(name) {
            return folder;
        }
    }
    path
}

fn push_written(text: &mut Text, character: char) -> Result<(), Memory>
    ensures { Adds result text.old text.new (spec.written_character character) }
{
    if character == '%' {
        return text.append_slice(&['%', '2', '5']);
    }
    text.push(character)
}

/// The path as requests write it.
fn written(alloc: Global, path: &[char]) -> Result<Text, Memory>
    ensures { Gives result (spec.written path.now) }
{
    let mut text = Text::with_capacity(alloc, path.len())?;
    for character in path {
        push_written(&mut text, *character)?;
    }
    Ok(text)
}

/// Where the path of an include begins.
fn base_of(alloc: Global, from_root: bool, including: &[char]) -> Result<Text, Memory>
    ensures { Gives result (spec.base_of from_root including.now) }
{
    if from_root {
        return List::from_slice(alloc, &['/']);
    }
    written(alloc, folder_of(including))
}

/// The normal path that an include of `path` names in the file at the path `including`.
fn included_path(
    alloc: Global,
    including: &[char],
    from_root: bool,
    path: &[char],
) -> Result<Text, PathStop>
    ensures { Answers result PathStop.Memory (spec.included_path including.now from_root path.now) }
{
    let mut raw = base_of(alloc, from_root, including)?;
    raw.append_slice(path)?;
    normal_path(alloc, raw.to_utf8(alloc)?.as_slice())
}

/// The site's file at a path, without regard to ASCII case. It looks at one file after another.
pub fn file_at<'a>(files: &'a [SiteFile], path: &[char]) -> Option<&'a SiteFile>
    requires { All IsShort files.now }
    ensures value { option_copied result ≡ spec.file_at files.now path.now }
    ensures short { IfSome result (λ file. IsShort file.now) }
{
    files
        .iter()
        .find(|file| same_path(path, file.path.as_slice()))
}

fn is_in_chain(chain: &[Text], path: &[char]) -> bool
    ensures { result ≡ list_any (same_name path.now) chain.now }
{
    chain.iter().any(|other| same_path(path, other.as_slice()))
}

/// The file that is read, and what it may include.
#[derive(Clone, Copy)]
pub struct Nest<'a> {
    /// The files of the site.
    pub files: &'a [SiteFile],
    /// How many files may still nest in this one.
    pub left: u32,
    /// The paths of the files of which each includes the next, up to this one.
    pub chain: &'a [Text],
    /// The path of this one.
    pub path: &'a Text,
}

/// The site's file at a path, which must be there.
fn existing<'a>(
    files: &'a [SiteFile],
    path: &[char],
    line: u32,
) -> Result<&'a SiteFile, Stop<FaultKind>>
    requires { All IsShort files.now }
    ensures value { Names result line (spec.there (spec.file_at files.now path.now)) }
    ensures short { IfOk result (λ file. IsShort file.now) }
{
    match file_at(files, path) {
        Some(file) => Ok(file),
        None => Err(Stop::Fault {
            kind: FaultKind::NotFound,
            line,
        }),
    }
}

/// The site's file at the path that an include in this line names.
fn named<'a>(
    alloc: Global,
    nest: &Nest<'a>,
    from_root: bool,
    path: &[char],
    line: u32,
) -> Result<&'a SiteFile, Stop<FaultKind>>
    requires { All IsShort nest.now.files.now }
    ensures value { Names result line (spec.file_named nest.now.files.now
        (spec.included_path nest.now.path.now from_root path.now)) }
    ensures short { IfOk result (λ file. IsShort file.now) }
{
    match included_path(alloc, nest.path.as_slice(), from_root, path) {
        Ok(path) => existing(nest.files, path.as_slice(), line),
        Err(PathStop::Memory) => Err(Stop::Memory),
        Err(_) => Err(Stop::Fault {
            kind: FaultKind::BadPath,
            line,
        }),
    }
}

/// The file that an include in this line names.
#[tactic(auto, unfolding(crate::specs::Including::included))]
pub fn included<'a>(
    alloc: Global,
    nest: &Nest<'a>,
    from_root: bool,
    path: &[char],
    line: u32,
) -> Result<&'a SiteFile, Stop<FaultKind>>
    requires { All IsShort nest.now.files.now }
    ensures value { Names result line (spec.included nest.now.files.now nest.now.left nest.now.chain.now
        nest.now.path.now from_root path.now) }
    ensures deeper { IfOk result (λ file. 0 < nest.now.left) }
    ensures short { IfOk result (λ file. IsShort file.now) }
{
    let file = match named(alloc, nest, from_root, path, line) {
        Ok(file) => file,
        Err(stop) => return Err(stop),
    };
    if is_in_chain(nest.chain, file.path.as_slice()) {
        return Err(Stop::Fault {
            kind: FaultKind::Cycle,
            line,
        });
    }
    if nest.left == 0 {
        return Err(Stop::Fault {
            kind: FaultKind::Depth,
            line,
        });
    }
    Ok(file)
}
