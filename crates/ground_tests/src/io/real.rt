//! Real files below the current folder, and the real standard output. What needs limits of the system, as a disk that is
//! full, is left to the runs of the program.

use super::got;
use dm_io::{Folder, Got, RealFolder, RealSink, Sink};
use dm_token::Text;
use std::fmt::Display;
use std::fs;
use std::io::{self, ErrorKind};
use std::os::unix::fs::{PermissionsExt, symlink};
use std::test::Fail;

/// Makes a folder of this name, with a file `a.c`.
fn make_folder(rt: &HostRuntime, folder: &str) -> Result<(), Fail> {
    let _ = fs::remove_dir_all(rt, folder);
    fs::create_dir(rt, folder)?;
    let path = format!(in rt.alloc(); "{folder}/a.c")?;
    fs::write(rt, path.as_str(), "12345")?;
    Ok(())
}

fn read(rt: &HostRuntime, name: &str, most: usize) -> Result<Got, Fail> {
    let name = Text::new(rt.alloc(), name)?;
    Ok(RealFolder::new(*rt).read(rt.alloc(), &name, most)?)
}

fn write(rt: &HostRuntime, name: &str, bytes: &[u8]) -> Result<bool, Fail> {
    let name = Text::new(rt.alloc(), name)?;
    Ok(RealFolder::new(*rt).write(&name, bytes))
}

/// The number of names in a folder.
fn names_in(rt: &HostRuntime, folder: &str) -> Result<usize, Fail> {
    let mut names = 0usize;
    for entry in fs::read_dir(rt, folder)? {
        let _ = entry?;
        names = names.saturating_add(1);
    }
    Ok(names)
}

#[test]
fn real_files_are_read(rt: HostRuntime) -> Result<(), Fail> {
    make_folder(&rt, "dm_io_read")?;
    assert_eq!(rt; read(&rt, "dm_io_read/a.c", 5)?, got(rt.alloc(), b"12345")?);
    assert_eq!(rt; read(&rt, "dm_io_read/a.c", 4)?, Got::Long);
    for absent in [
        "dm_io_read/b.c",
        "dm_io_read/a.c/b.c",
        "dm_io_read//a.c",
        "dm_io_read/../dm_io_read/a.c",
        "/dev/null",
    ] {
        assert_eq!(rt; read(&rt, absent, 5)?, Got::Absent, "{absent}");
    }
    symlink(&rt, "/dev/zero", "dm_io_read/device.c")?;
    symlink(&rt, "loop.c", "dm_io_read/loop.c")?;
    for failing in ["dm_io_read", "dm_io_read/device.c", "dm_io_read/loop.c"] {
        assert_eq!(rt; read(&rt, failing, 5)?, Got::Failed, "{failing}");
    }
    fs::remove_dir_all(&rt, "dm_io_read")?;
    Ok(())
}

#[test]
fn a_real_file_of_a_mebibyte_is_read_and_written(rt: HostRuntime) -> Result<(), Fail> {
    make_folder(&rt, "dm_io_large")?;
    let large = "0123456789abcde\n".repeat(rt.alloc(), 65_536)?;
    let name = Text::new(rt.alloc(), "dm_io_large/a.c")?;
    let mut folder = RealFolder::new(rt);
    folder.ready(rt.alloc(), &name, large.len())?;
    assert_eq!(rt;
        fs::read(&rt, "dm_io_large/a.c")?.as_slice(),
        b"12345".as_slice()
    );
    assert_eq!(rt; names_in(&rt, "dm_io_large")?, 1);
    assert!(rt; folder.write(&name, large.as_bytes()));
    assert_eq!(rt;
        fs::read(&rt, "dm_io_large/a.c")?.as_slice(),
        large.as_bytes()
    );
    assert_eq!(rt; names_in(&rt, "dm_io_large")?, 1);
    let whole = got(rt.alloc(), large.as_bytes())?;
    assert_eq!(rt; folder.read(rt.alloc(), &name, 1_048_576)?, whole);
    assert_eq!(rt; folder.read(rt.alloc(), &name, 1_048_575)?, Got::Long);
    fs::remove_dir_all(&rt, "dm_io_large")?;
    Ok(())
}

#[test]
fn real_files_are_replaced(rt: HostRuntime) -> Result<(), Fail> {
    make_folder(&rt, "dm_io_write")?;
    fs::set_permissions(&rt, "dm_io_write/a.c", fs::Permissions::from_mode(0o640))?;
    assert!(rt; write(&rt, "dm_io_write/a.c", b"\x00\xFF9")?);
    assert_eq!(rt;
        fs::read(&rt, "dm_io_write/a.c")?.as_slice(),
        b"\x00\xFF9".as_slice()
    );
    assert_eq!(rt;
        fs::metadata(&rt, "dm_io_write/a.c")?.permissions().mode() & 0o777,
        0o640
    );
    symlink(&rt, "/dev/null", "dm_io_write/device.c")?;
    symlink(&rt, "loop.c", "dm_io_write/loop.c")?;
    for refused in ["b.c", "", "/a.c", "device.c", "loop.c"] {
        let name = format!(in rt.alloc(); "dm_io_write/{refused}")?;
        assert!(rt; !write(&rt, name.as_str(), b"9")?, "{refused}");
    }
    assert_eq!(rt; names_in(&rt, "dm_io_write")?, 3);
    fs::remove_dir_all(&rt, "dm_io_write")?;
    Ok(())
}

#[test]
fn a_symbolic_link_stays_one(rt: HostRuntime) -> Result<(), Fail> {
    make_folder(&rt, "dm_io_link")?;
    symlink(&rt, "a.c", "dm_io_link/b.c")?;
    assert!(rt; write(&rt, "dm_io_link/b.c", b"9")?);
    assert!(rt; fs::symlink_metadata(&rt, "dm_io_link/b.c")?.is_symlink());
    assert_eq!(rt;
        fs::read(&rt, "dm_io_link/a.c")?.as_slice(),
        b"9".as_slice()
    );
    fs::remove_dir_all(&rt, "dm_io_link")?;
    Ok(())
}

#[test]
fn a_file_under_the_spare_name_stays(rt: HostRuntime) -> Result<(), Fail> {
    make_folder(&rt, "dm_io_spare")?;
    fs::write(&rt, "dm_io_spare/.demacrofier.tmp", "old")?;
    assert!(rt; write(&rt, "dm_io_spare/a.c", b"9")?);
    assert_eq!(rt;
        fs::read(&rt, "dm_io_spare/a.c")?.as_slice(),
        b"9".as_slice()
    );
    assert_eq!(rt;
        fs::read(&rt, "dm_io_spare/.demacrofier.tmp")?.as_slice(),
        b"old".as_slice()
    );
    fs::remove_dir_all(&rt, "dm_io_spare")?;
    Ok(())
}

/// A standard output that is full.
#[derive(Debug, Drop)]
struct Full;

impl Print for Full {
    fn print<D: Display + Drop>(&self, _value: D) -> io::Result<()> {
        Err(io::Error::from(ErrorKind::StorageFull))
    }

    fn println<D: Display + Drop>(&self, _value: D) -> io::Result<()> {
        Err(io::Error::from(ErrorKind::StorageFull))
    }

    fn write_all(&self, _bytes: &[u8]) -> io::Result<()> {
        Err(io::Error::from(ErrorKind::StorageFull))
    }
}

#[test]
fn the_real_output_takes_bytes(rt: HostRuntime) -> Result<(), Fail> {
    let mut output = RealSink::new(rt);
    output.ready(rt.alloc(), 8)?;
    assert!(rt; output.put(b"written\n"));
    assert!(rt; output.put(&[]));
    let mut full = RealSink::new(Full);
    assert!(rt; !full.put(b"written\n"));
    Ok(())
}
