//! The forms in memory.

use asp_io::{
    Clock, Failed, Folder, Link, MemClock, MemFolder, MemLink, MemSink, MemSource, MemWire, Source,
    SureFolder, SureLink, SureSink, SureSource, SureWire, Wire, write_all,
};
use std::alloc::Global;
use std::test::Fail;
use vb_value::{Bytes, List, Memory, SiteFile, Text};

/// The files with these paths and texts.
fn files(alloc: Global, pairs: &[(&str, &str)]) -> Result<List<SiteFile>, Memory> {
    let mut files = List::new(alloc);
    for (path, text) in pairs {
        files.push(SiteFile {
            path: Text::from_str(alloc, path)?,
            bytes: Bytes::from_slice(alloc, text.as_bytes())?,
        })?;
    }
    Ok(files)
}

#[test]
fn a_folder_has_rooted_paths_that_differ(rt: HostRuntime) -> Result<(), Fail> {
    let alloc = rt.alloc();
    let right = [("/a", "1"), ("/b/a", "2")];
    let alike = [("/a", "1"), ("/b", ""), ("/a", "2")];
    let bare = [("/a", "1"), ("b", "2")];
    assert!(rt; SureFolder::new(files(alloc, right.as_slice())?).is_some());
    assert!(rt; SureFolder::new(files(alloc, alike.as_slice())?).is_none());
    assert!(rt; SureFolder::new(files(alloc, bare.as_slice())?).is_none());
    Ok(())
}

#[test]
fn listed_calls_of_a_folder_fail(rt: HostRuntime) -> Result<(), Fail> {
    let alloc = rt.alloc();
    let pairs = [("/a", "one"), ("/b", "two")];
    let Some(folder) = SureFolder::new(files(alloc, pairs.as_slice())?) else {
        return Err(Fail::from(Failed));
    };
    let mut fails = List::new(alloc);
    fails.push(2)?;
    let mut folder = MemFolder::new(folder, fails);
    let mut counts = List::new(alloc);
    for _ in 0..3 {
        counts.push(folder.names(alloc).map_or(9, |names| names.len()))?;
    }
    assert!(rt; counts.as_slice() == [2, 9, 2].as_slice());
    assert!(rt; folder.plan.faults == 1);
    Ok(())
}

/// What a sink holds after a piece, where it has so much room and its call of that number fails, or none at 0.
#[test]
fn a_piece_goes_to_a_sink(rt: HostRuntime) -> Result<(), Fail> {
    let alloc = rt.alloc();
    let cases: [(usize, u64, Result<(), Failed>, &str); 3] = [
        (9, 0, Ok(()), "ne"),
        (1, 0, Err(Failed), "n"),
        (9, 1, Err(Failed), ""),
    ];
    for (room, fails, want, held) in cases {
        let mut sink = MemSink::new(alloc, room, List::from_slice(alloc, &[fails])?)?;
        assert!(rt; write_all(&mut sink, b"ne") == want, "{room}");
        assert!(rt; sink.held() == held.as_bytes(), "{room}");
    }
    Ok(())
}

#[test]
fn listed_reads_of_a_source_fail(rt: HostRuntime) -> Result<(), Fail> {
    let alloc = rt.alloc();
    let bytes = Bytes::from_slice(alloc, b"abc")?;
    let mut source = MemSource::new(bytes, List::from_slice(alloc, &[2, 5])?);
    let mut buffer = [0u8; 2];
    for want in [Ok(2), Err(Failed), Ok(1), Ok(0), Err(Failed)] {
        assert!(rt; source.read(&mut buffer) == want);
    }
    assert!(rt; buffer == *b"cb");
    assert!(rt; source.plan.faults == 2);
    assert!(rt; source.read(&mut []) == Ok(0));
    Ok(())
}

/// The second, third and sixth of a connection's calls fail; it has room for three bytes. Each call is the text that is
/// written, or a read, with what it answers and what the buffer of the reads then holds.
#[test]
fn calls_of_a_link_are_counted_together(rt: HostRuntime) -> Result<(), Fail> {
    let alloc = rt.alloc();
    let bytes = Bytes::from_slice(alloc, b"abc")?;
    let mut link = MemLink::new(alloc, bytes, 3, List::from_slice(alloc, &[2, 3, 6])?)?;
    let calls: [(Option<&str>, Result<u32, Failed>, [u8; 2]); 9] = [
        (None, Ok(2), *b"ab"),
        (Some("xy"), Err(Failed), *b"ab"),
        (None, Err(Failed), *b"ab"),
        (Some("xy"), Ok(2), *b"ab"),
        (Some("zw"), Ok(1), *b"ab"),
        (None, Err(Failed), *b"ab"),
        (None, Ok(1), *b"cb"),
        (None, Ok(0), *b"cb"),
        (Some("w"), Err(Failed), *b"cb"),
    ];
    let mut buffer = [0u8; 2];
    for (written, want, held) in calls.iter() {
        let answer = match written {
            Some(text) => link.write(text.as_bytes()),
            None => link.read(&mut buffer),
        };
        assert!(rt; answer == *want);
        assert!(rt; buffer == *held);
    }
    assert!(rt; link.sink.held() == b"xyz".as_slice());
    Ok(())
}

#[test]
fn a_link_that_never_fails(rt: HostRuntime) -> Result<(), Fail> {
    let mut link = SureLink::new(Bytes::from_slice(rt.alloc(), b"abc")?);
    let mut buffer = [0u8; 2];
    for want in [Ok(2), Ok(1), Ok(0)] {
        assert!(rt; link.read(&mut buffer) == want);
    }
    assert!(rt; buffer == *b"cb");
    assert!(rt; link.write(b"abc") == Ok(3));
    Ok(())
}

#[test]
fn a_wire_that_never_fails(rt: HostRuntime) -> Result<(), Fail> {
    let mut links = List::new(rt.alloc());
    links.push(SureLink::new(Bytes::new(rt.alloc())))?;
    let mut wire = SureWire::new(links);
    assert!(rt; matches!(wire.accept(), Ok(Some(_))));
    assert!(rt; matches!(wire.accept(), Ok(None)));
    Ok(())
}

#[test]
fn streams_that_never_fail(rt: HostRuntime) -> Result<(), Fail> {
    let mut source = SureSource::new(Bytes::from_slice(rt.alloc(), b"x")?);
    assert!(rt; source.read(&mut [0u8; 2]) == Ok(1));
    assert!(rt; write_all(&mut SureSink, b"abc") == Ok(()));
    Ok(())
}

#[test]
fn a_wire_with_calls_that_fail(rt: HostRuntime) -> Result<(), Fail> {
    let mut links = List::new(rt.alloc());
    let bytes = Bytes::new(rt.alloc());
    links.push(MemLink::new(rt.alloc(), bytes, 0, List::new(rt.alloc()))?)?;
    let mut fails = List::new(rt.alloc());
    fails.push(1)?;
    let mut wire = MemWire::new(links, fails);
    assert!(rt; matches!(wire.accept(), Err(Failed)));
    assert!(rt; matches!(wire.accept(), Ok(Some(_))));
    assert!(rt; matches!(wire.accept(), Ok(None)));
    Ok(())
}

#[test]
fn a_clock_in_memory(rt: HostRuntime) -> Result<(), Fail> {
    let mut seconds = List::new(rt.alloc());
    seconds.push(7)?;
    seconds.push(5)?;
    let clock = MemClock::new(seconds);
    for want in [7, 5, 5] {
        assert!(rt; clock.seconds() == want);
    }
    assert!(rt; MemClock::new(List::new(rt.alloc())).seconds() == 0);
    Ok(())
}
