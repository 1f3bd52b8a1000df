//! The files that includes name.

use asp_text::{PathStop, normal_path};
use std::alloc::Global;
use std::collections::BTreeMap;
use vb_value::{Memory, Text, fold};

/// The place of the file that an include names in the file at the path `including`, if it is one of these.
pub fn included_place(
    alloc: Global,
    places: &BTreeMap<Text, usize>,
    including: &Text,
    from_root: bool,
    path: &Text,
) -> Result<Option<usize>, Memory> {
    let mut raw = Text::new(alloc);
    if from_root {
        raw.push('/')?;
    } else {
        raw = written_folder(alloc, including)?;
    }
    raw.append_slice(path.as_slice())?;
    match normal_path(alloc, raw.to_utf8(alloc)?.as_slice()) {
        Ok(path) => {
            let small = fold(alloc, &path)?;
            Ok(places.get(&small).copied())
        }
        Err(PathStop::Memory) => Err(Memory),
        Err(_) => Ok(None),
    }
}

/// The folder of a file, as the path of a request has it.
fn written_folder(alloc: Global, path: &Text) -> Result<Text, Memory> {
    let mut folder = Text::new(alloc);
    let mut name = Text::new(alloc);
    for character in path.as_slice() {
        if *character == '%' {
            name.append_slice(&['%', '2', '5'])?;
        } else {
            name.push(*character)?;
        }
        if *character == '/' {
            folder.append(name)?;
            name = Text::new(alloc);
        }
    }
    Ok(folder)
}
