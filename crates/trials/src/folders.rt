//! A real folder and real output.

use asp_io::{Failed, Folder, IoStop, Sink, StdFolder, StdOut, write_all};
use std::alloc::Global;
use std::fs;
use std::os::unix::fs::symlink;
use std::test::Fail;
use vb_value::{List, Memory, Text};

/// The paths, each with a newline after it.
fn listing(alloc: Global, names: &List<Text>) -> Result<String, Memory> {
    let mut lines = String::new(alloc);
    for name in names.as_slice() {
        lines.push_str(name.to_string(alloc)?.as_str())?;
        lines.push('\n')?;
    }
    Ok(lines)
}

#[test]
fn a_real_folder(rt: HostRuntime) -> Result<(), Fail> {
    let alloc = rt.alloc();
    let root = "asp_io_real_folder";
    fs::create_dir_all(&rt, "asp_io_real_folder/deep/er")?;
    fs::write(&rt, "asp_io_real_folder/index.asp", "hello")?;
    fs::write(&rt, "asp_io_real_folder/deep/er/é.asp", "deep")?;
    fs::write(&rt, "asp_io_real_folder/deep/empty.inc", "")?;
    let mut folder = StdFolder::new(rt.clone()?, String::from_str(alloc, root)?);
    let names = folder.names(alloc)?;
    assert!(rt;
        listing(alloc, &names)?.as_str() == "/deep/empty.inc\n/deep/er/é.asp\n/index.asp\n"
    );
    let reads = [
        ("/index.asp", 9, "hello"),
        ("/index.asp", 4, "hell"),
        ("/deep/er/é.asp", 9, "deep"),
        ("/deep/empty.inc", 9, ""),
    ];
    for (name, most, want) in reads {
        let bytes = folder.read(alloc, &Text::from_str(alloc, name)?, most)?;
        assert!(rt; bytes.as_slice() == want.as_bytes(), "{name}");
    }
    assert!(rt; folder.faults() == 0);
    Ok(fs::remove_dir_all(&rt, root)?)
}

#[test]
fn what_a_real_folder_refuses(rt: HostRuntime) -> Result<(), Fail> {
    let alloc = rt.alloc();
    let root = "asp_io_refusals";
    fs::create_dir_all(&rt, "asp_io_refusals/deep")?;
    fs::write(&rt, "asp_io_refusals/x.asp", "hello")?;
    symlink(&rt, "x.asp", "asp_io_refusals/link.asp")?;
    symlink(&rt, "..", "asp_io_refusals/circle")?;
    let mut folder = StdFolder::new(rt.clone()?, String::from_str(alloc, root)?);
    let refused = [
        "/nothing.asp",
        "/deep",
        "/",
        "x.asp",
        "/./x.asp",
        "/deep/../x.asp",
        "/link.asp",
        "/circle/asp_io_refusals/x.asp",
    ];
    for (at, name) in refused.iter().enumerate() {
        let read = folder.read(alloc, &Text::from_str(alloc, name)?, 9);
        assert!(rt; matches!(read, Err(IoStop::Failed)), "{name}");
        assert!(rt; folder.faults() == at as u64 + 1, "{name}");
    }
    assert!(rt; matches!(folder.names(alloc), Err(IoStop::Failed)));
    Ok(fs::remove_dir_all(&rt, root)?)
}

#[test]
fn roots_that_are_no_folders_of_files(rt: HostRuntime) -> Result<(), Fail> {
    let alloc = rt.alloc();
    for root in ["asp_io_no_such_folder", "", "/dev/null", "/dev"] {
        let mut folder = StdFolder::new(rt.clone()?, String::from_str(alloc, root)?);
        assert!(rt;
            matches!(folder.names(alloc), Err(IoStop::Failed)),
            "{root}"
        );
        let read = folder.read(alloc, &Text::from_str(alloc, "/null")?, 9);
        assert!(rt; matches!(read, Err(IoStop::Failed)), "{root}");
        assert!(rt; folder.faults() == 2, "{root}");
    }
    Ok(())
}

#[test]
fn real_output(rt: HostRuntime) -> Result<(), Fail> {
    let mut out = StdOut::new(rt.clone()?);
    assert!(rt; write_all(&mut out, "é\n".as_bytes()) == Ok(()));
    assert!(rt; out.faults() == 0);
    Ok(())
}
