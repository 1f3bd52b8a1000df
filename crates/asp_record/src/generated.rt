//! Sites of one page, and recordings of so many requests for it.
ghost use Rattle.std.specs.Prelude.{◌≡◌, IfOk, map};
ghost use Rattle.std.specs.List.{range_with_len};
ghost use Rattle.vb_value.specs.Outcome.{Gives};
ghost use Rattle.asp_record.specs.Generated as spec;

use crate::recording::{Item, Recording};
use std::alloc::Global;
use vb_value::{Bytes, List, Memory, SiteFile, Text};

/// The page that is asked for.
const COUNT_PAGE: &[u8] = b"<% Application.Lock : Application(\"n\") = Application(\"n\") + 1 : \
Session(\"c\") = Session(\"c\") + 1 : Application.Unlock %><%= Session(\"c\") %>";

/// What each client sends.
const COUNT: &[u8] = b"GET /count.asp HTTP/1.1\r\nHost: x\r\n\r\n";

/// The one page, as a file.
#[tactic(auto, using(crate::proofs::CountPage::path_characters))]
fn count_page(alloc: Global) -> Result<SiteFile, Memory>
    ensures { Gives result spec.count_page }
{
    Ok(SiteFile {
        path: Text::from_str(alloc, "/count.asp")?,
        bytes: Bytes::from_slice(alloc, COUNT_PAGE)?,
    })
}

/// The files of the site: that one alone.
fn count_files(alloc: Global) -> Result<List<SiteFile>, Memory>
    ensures { Gives result spec.count_files }
{
    let mut files = List::new(alloc);
    files.push(count_page(alloc)?)?;
    Ok(files)
}

/// Request `i`, counted from 0.
fn generated_item(alloc: Global, i: u32) -> Result<Item, Memory>
    ensures { Gives result (spec.generated_item i) }
{
    Ok(Item::Request {
        client: i % 7 + 1,
        moment: u64::from(i / 100),
        bytes: Bytes::from_slice(alloc, COUNT)?,
    })
}

/// The first `count` requests.
fn generated_items(alloc: Global, count: u32) -> Result<List<Item>, Memory>
    ensures { Gives result (map spec.generated_item (range_with_len 0 count)) }
{
    let mut items = List::with_capacity(alloc, count as usize)?;
    for i in 0..count {
        items.push(generated_item(alloc, i)?)?;
    }
    Ok(items)
}

/// The recording of them.
#[tactic(auto, unfolding(crate::specs::Generated::generated))]
fn generated_recording(alloc: Global, count: u32) -> Result<Recording, Memory>
    ensures { Gives result (spec.generated count) }
{
    Ok(Recording {
        seed: [0; 32],
        strict: false,
        items: generated_items(alloc, count)?,
    })
}

/// The files of a site with the page `/count.asp` alone, and the recording of `count` requests for it, from seven
/// clients in turn, a hundred in each second, under the plain rule.
pub fn generate(alloc: Global, count: u32) -> Result<(List<SiteFile>, Recording), Memory>
    ensures { Gives result (spec.count_files, spec.generated count) }
{
    let files = count_files(alloc)?;
    Ok((files, generated_recording(alloc, count)?))
}
