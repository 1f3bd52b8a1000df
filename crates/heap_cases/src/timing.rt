//! Times stores, reads and release points on the data of a page. What was done goes to standard output, and the time that
//! it took to standard error.

use std::alloc::Global;
use std::io;
use std::io::ErrorKind;
use std::rt::{Clock, Runtime};
use std::time::{Duration, Instant};
use vb_heap::{CellNo, Heap, HeapStop, Place};
use vb_value::{List, Value};

/// How many stores and reads are timed.
const ROUNDS: u64 = 20_000;
/// How many objects are live at a release point.
const OBJECTS: u32 = 1_000;

/// Makes so many cells.
fn make_cells(heap: &mut Heap, cells: u64) -> Result<(), HeapStop> {
    for _ in 0..cells {
        heap.new_cell(Value::Empty)?;
    }
    Ok(())
}

/// Makes so many objects, each of them in a cell.
fn make_objects(heap: &mut Heap, objects: u32) -> Result<(), HeapStop> {
    for _ in 0..objects {
        let object = heap.new_object(0, 0)?;
        heap.new_cell(Value::Obj(object))?;
    }
    Ok(())
}

/// Stores a number in a cell and reads it. Whether that was done.
fn is_stored_and_read(alloc: Global, heap: &mut Heap, cell: u64) -> bool {
    let place = Place {
        cell: CellNo(cell),
        steps: List::new(alloc),
    };
    heap.store(&place, Value::Int(7)).is_ok() && heap.read(alloc, &place).is_ok()
}

/// Stores a number in one cell after another, and reads it. Whether that was done.
fn are_stored_and_read(alloc: Global, heap: &mut Heap, cells: u64) -> bool {
    for round in 0..ROUNDS {
        let cell = round.checked_rem(cells).unwrap_or(0);
        if !is_stored_and_read(alloc, heap, cell) {
            return false;
        }
    }
    true
}

/// How long the stores and reads take on a page with so many cells, which is reset first.
fn stores_time<R: AllocGlobal + Clock>(
    rt: &R,
    heap: &mut Heap,
    cells: u64,
) -> io::Result<Duration> {
    heap.reset();
    if make_cells(heap, cells).is_err() {
        return Err(ErrorKind::Other.into());
    }
    let start = Instant::now(rt)?;
    if !are_stored_and_read(rt.alloc(), heap, cells) {
        return Err(ErrorKind::Other.into());
    }
    start.elapsed(rt)
}

/// Whether a release point of a page with live objects named one, and how long it took. The page is reset first.
fn release_time<R: Clock>(rt: &R, heap: &mut Heap) -> io::Result<(bool, Duration)> {
    heap.reset();
    if make_objects(heap, OBJECTS).is_err() {
        return Err(ErrorKind::Other.into());
    }
    let start = Instant::now(rt)?;
    let is_named = heap.release_point().is_some();
    Ok((is_named, start.elapsed(rt)?))
}

fn time_stores<R: Runtime + AllocGlobal>(rt: &R, heap: &mut Heap, cells: u64) -> io::Result<()> {
    let time = stores_time(rt, heap, cells)?;
    println!(rt; "cells: {cells}; stores and reads: {ROUNDS}")?;
    eprintln!(rt; "{} microseconds", time.as_micros())
}

fn time_release<R: Runtime>(rt: &R, heap: &mut Heap) -> io::Result<()> {
    let (is_named, time) = release_time(rt, heap)?;
    println!(rt; "live objects, each in a cell: {OBJECTS}; named at a release point: {is_named}")?;
    eprintln!(rt; "{} microseconds", time.as_micros())
}

fn time_page<R: Runtime + AllocGlobal>(rt: &R, heap: &mut Heap) -> io::Result<()> {
    time_stores(rt, heap, 1)?;
    time_stores(rt, heap, 1_000)?;
    time_stores(rt, heap, 100_000)?;
    time_release(rt, heap)
}

/// Runs each trial, and tells what was done and the time that it took.
pub fn time_pages<R: Runtime + AllocGlobal>(rt: &R) -> io::Result<()> {
    match Heap::new(rt.alloc()) {
        Ok(mut heap) => time_page(rt, &mut heap),
        Err(_) => Err(ErrorKind::OutOfMemory.into()),
    }
}
