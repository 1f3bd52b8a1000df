//! The items of a recording, read where they stand.
ghost use Rattle.asp_record.specs.Fields.{Reads};
ghost use Rattle.asp_record.specs.Reading as spec;

use crate::scanning::{behind, counted_at, marked_at};

/// An item, as it stands in the text of a recording.
#[derive(Clone, Copy, Debug)]
pub enum Line<'a> {
    Request {
        client: u32,
        moment: u64,
        bytes: &'a [u8],
    },
    Tick {
        moment: u64,
    },
}

/// What stands behind `tick`.
#[tactic(auto, unfolding(crate::specs::Reading::tick_at))]
fn tick_at(bytes: &[u8]) -> Option<(Line<'_>, &[u8])>
    ensures { Reads (λ read. (spec.item_of read.0, read.1.now)) result (spec.tick_at bytes.now) }
{
    let (moment, rest) = marked_at(b"\n", bytes)?;
    Some((Line::Tick { moment }, rest))
}

/// What stands behind `request`.
#[tactic(auto, unfolding(crate::specs::Reading::request_at))]
fn request_at(bytes: &[u8]) -> Option<(Line<'_>, &[u8])>
    ensures { Reads (λ read. (spec.item_of read.0, read.1.now)) result (spec.request_at bytes.now) }
{
    let (client, rest) = marked_at(b" ", bytes)?;
    let (moment, rest) = marked_at(b" ", rest)?;
    let (count, rest) = marked_at(b"\n", rest)?;
    let (bytes, rest) = counted_at(count, rest)?;
    if client < 4294967296 {
        let client = client as u32;
        Some((
            Line::Request {
                client,
                moment,
                bytes,
            },
            rest,
        ))
    } else {
        None
    }
}

/// The item at the front of bytes, and what follows it.
#[tactic(auto, unfolding(crate::specs::Reading::item_at))]
pub fn item_at(bytes: &[u8]) -> Option<(Line<'_>, &[u8])>
    ensures { Reads (λ read. (spec.item_of read.0, read.1.now)) result (spec.item_at bytes.now) }
{
    if let Some(rest) = behind(b"tick ", bytes) {
        return tick_at(rest);
    }
    match behind(b"request ", bytes) {
        Some(rest) => request_at(rest),
        None => None,
    }
}
