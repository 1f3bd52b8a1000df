//! The longest texts, the deepest arrays, the most parts.

use std::alloc::Global;
use std::test::Fail;
use vb_strings::call_string;
use vb_value::{Array, Bytes, Copied, List, StrFn, Text, Value, is_plain};

#[test]
fn a_million_characters(rt: HostRuntime) -> Result<(), Fail> {
    let alloc = rt.alloc();
    let mut text = Text::new(alloc);
    for n in 0..1_000_000u32 {
        text.push(if n % 2 == 0 { 'a' } else { '\u{e9}' })?;
    }
    let copy = text.copy()?;
    assert!(rt; copy == text && copy.len() == 1_000_000);
    let bytes: Bytes = text.to_utf8(alloc)?;
    assert!(rt; bytes.len() == 1_500_000);
    let mut twice = Text::new(alloc);
    twice.append_slice(text.as_slice())?;
    twice.append_slice(copy.as_slice())?;
    assert!(rt; twice > text && twice.get(1_999_999) == Some(&'\u{e9}'));
    Ok(())
}

/// An array of one place.
fn array_of(alloc: Global, item: Value) -> Result<Value, Fail> {
    let mut items = List::new(alloc);
    items.push(item)?;
    Ok(Value::Arr(Array {
        bounds: List::from_slice(alloc, &[0])?,
        fixed: false,
        items,
    }))
}

/// Arrays may nest 64 deep in a plain value, and no deeper.
#[test]
fn arrays_in_arrays(rt: HostRuntime) -> Result<(), Fail> {
    let mut value = Value::Empty;
    for _ in 0..65 {
        assert!(rt; is_plain(&value));
        value = array_of(rt.alloc(), value)?;
    }
    assert!(rt; !is_plain(&value));
    Ok(())
}

/// A long text with many separators, and its parts joined without them.
#[test]
fn many_parts(rt: HostRuntime) -> Result<(), Fail> {
    let text = call_string(rt.alloc(), StrFn::Space, &[Value::Long(600_000)])?;
    let parts = call_string(rt.alloc(), StrFn::Split, &[text])?;
    let joined = call_string(rt.alloc(), StrFn::Join, &[parts, Value::Empty])?;
    let length = call_string(rt.alloc(), StrFn::Len, &[joined]);
    assert!(rt; matches!(length, Ok(Value::Long(0))));
    Ok(())
}
