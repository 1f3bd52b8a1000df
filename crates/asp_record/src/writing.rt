//! Recordings, written.
ghost use Rattle.std.specs.List.{flat_map};
ghost use Rattle.vb_value.specs.Outcome.{Adds, Gives};
ghost use Rattle.asp_record.specs.Recording as spec;

use crate::fields::{push_hex, push_number};
use crate::recording::{Item, Recording};
use std::alloc::Global;
use vb_value::{Bytes, Memory};

fn push_request(text: &mut Bytes, client: u32, moment: u64, bytes: &[u8]) -> Result<(), Memory>
    ensures { Adds result text.old text.new (spec.request_text client moment bytes.now) }
{
    text.append_slice(b"request")?;
    push_number(text, u64::from(client))?;
    push_number(text, moment)?;
    push_number(text, bytes.len() as u64)?;
    text.append_slice(b"\n")?;
    text.append_slice(bytes)?;
    text.append_slice(b"\n")
}

fn push_tick(text: &mut Bytes, moment: u64) -> Result<(), Memory>
    ensures { Adds result text.old text.new (spec.tick_text moment) }
{
    text.append_slice(b"tick")?;
    push_number(text, moment)?;
    text.append_slice(b"\n")
}

fn push_item(text: &mut Bytes, item: &Item) -> Result<(), Memory>
    ensures { Adds result text.old text.new (spec.item_text item.now) }
{
    match item {
        Item::Request {
            client,
            moment,
            bytes,
        } => push_request(text, *client, *moment, bytes.as_slice()),
        Item::Tick { moment } => push_tick(text, *moment),
    }
}

fn push_items(text: &mut Bytes, items: &[Item]) -> Result<(), Memory>
    ensures { Adds result text.old text.new (flat_map spec.item_text items.now) }
{
    for item in items {
        push_item(text, item)?;
    }
    Ok(())
}

fn push_seed(text: &mut Bytes, seed: &[u8]) -> Result<(), Memory>
    ensures { Adds result text.old text.new (spec.seed_text seed.now) }
{
    text.append_slice(b"seed ")?;
    push_hex(text, seed)?;
    text.append_slice(b"\n")
}

fn push_rule(text: &mut Bytes, strict: bool) -> Result<(), Memory>
    ensures { Adds result text.old text.new (spec.lock_text strict) }
{
    if strict {
        text.append_slice(b"lock strict\n")
    } else {
        text.append_slice(b"lock plain\n")
    }
}

/// The text of a recording, in the second version.
#[tactic(auto, unfolding(crate::specs::Recording::recording_text))]
pub fn write_recording(alloc: Global, recording: &Recording) -> Result<Bytes, Memory>
    ensures { Gives result (spec.recording_text spec.Second recording.now) }
{
    let mut text = Bytes::new(alloc);
    text.append_slice(b"ASPREC 2\n")?;
    push_seed(&mut text, &recording.seed)?;
    push_rule(&mut text, recording.strict)?;
    push_items(&mut text, recording.items.as_slice())?;
    text.append_slice(b"end\n")?;
    Ok(text)
}
