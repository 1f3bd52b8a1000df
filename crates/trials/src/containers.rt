//! Lists, boxes, tables of names and stops.

use std::alloc::Global;
use std::test::Fail;
use vb_value::{Boxed, Copied, List, Memory, Stop, Text, among};

/// The numbers from 0 on, so many.
fn numbers(alloc: Global, count: u32) -> Result<List<u32>, Memory> {
    let mut list = List::with_capacity(alloc, 1)?;
    for n in 0..count {
        list.push(n)?;
    }
    Ok(list)
}

#[test]
fn lists_take_items(rt: HostRuntime) -> Result<(), Memory> {
    let mut list = numbers(rt.alloc(), 2)?;
    list.reserve(100)?;
    list.append_slice(&[7])?;
    list.append(list.copy()?)?;
    assert!(rt; list.as_slice() == [0, 1, 7, 0, 1, 7].as_slice());
    Ok(())
}

#[test]
fn lists_lose_items(rt: HostRuntime) -> Result<(), Memory> {
    let mut list = numbers(rt.alloc(), 5)?;
    if list.len() > 3 {
        list.set(0, 9);
        list.truncate(3);
    }
    assert!(rt; list.pop() == Some(2));
    assert!(rt; list.as_slice() == [9, 1].as_slice());
    Ok(())
}

#[test]
fn lists_show_their_items(rt: HostRuntime) -> Result<(), Memory> {
    let list = numbers(rt.alloc(), 2)?;
    assert!(rt; list.get(1).copied() == Some(1));
    assert!(rt; list.get(2).is_none() && !list.is_empty());
    assert!(rt; list.iter().count() == 2);
    Ok(())
}

#[test]
fn lists_are_compared(rt: HostRuntime) -> Result<(), Memory> {
    let (list, more) = (numbers(rt.alloc(), 2)?, numbers(rt.alloc(), 3)?);
    assert!(rt; list == List::from_vec(list.copy()?.into_vec()));
    assert!(rt; list < more && more > list && list != more);
    Ok(())
}

#[test]
fn a_box_holds_its_value(rt: HostRuntime) -> Result<(), Memory> {
    let held = Boxed::new(rt.alloc(), 'x')?;
    assert!(rt; *held.get() == 'x');
    assert!(rt; held.into_inner() == 'x');
    Ok(())
}

/// A name is found in any ASCII case, and the first of two that are equal counts.
#[test]
fn names_in_tables(rt: HostRuntime) -> Result<(), Fail> {
    let table: [(&[u8], u32); 3] = [(b"Len", 1), (b"Mid", 2), (b"len", 3)];
    for (name, found) in [("lEN", Some(1)), ("mid", Some(2)), ("le", None), ("", None)] {
        let name = Text::from_str(rt.alloc(), name)?;
        assert!(rt; among(&table, name.as_slice()) == found);
    }
    Ok(())
}

#[test]
fn a_stop_keeps_its_line(rt: HostRuntime) {
    let fault = Stop::Fault {
        kind: 2u32,
        line: 7,
    };
    assert!(rt;
        fault.map(|kind| kind == 2)
            == Stop::Fault {
                kind: true,
                line: 7
            }
    );
    let stop: Stop<u32> = Memory.into();
    assert!(rt; stop.map(|kind| kind == 2) == Stop::Memory);
}
