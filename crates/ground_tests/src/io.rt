//! Worked calls, calls that are to fail, and real files.

mod real;

ghost use Rattle.std.specs.Prelude.{◌↔◌, IsTrue, Some};
ghost use Rattle.dm_io.specs.Files.{HasFile};
ghost use Rattle.dm_io.specs.MemoryFolder.{files_of};

use dm_io::{Folder, Got, MemoryFolder, MemorySink, Sink};
use dm_token::{List, Memory, Text};
use std::alloc::Global;
use std::process::Abort;
use std::test::Fail;

/// What a reading of these bytes gives.
fn got(alloc: Global, bytes: &[u8]) -> Result<Got, Memory> {
    Ok(Got::Bytes(List::from_vec(bytes.to_vec(alloc)?)))
}

/// Whether a folder has a file.
fn has_file(folder: &MemoryFolder, name: &Text) -> bool
    ensures { IsTrue result ↔ HasFile (Some (files_of folder.now)) name.now }
{
    folder.file(name).is_some()
}

/// Adds a file, where there is none of its name.
fn add(alloc: Global, folder: &mut MemoryFolder, name: &str, bytes: &[u8]) -> Result<(), Memory> {
    let name = Text::new(alloc, name)?;
    match folder.file(&name) {
        None => folder.add(&name, bytes),
        Some(_) => Ok(()),
    }
}

/// A folder with three files, whose calls of these numbers are to fail.
fn three_files(alloc: Global, failing: &[u32]) -> Result<MemoryFolder, Memory> {
    let failing = List::from_vec(failing.to_vec(alloc)?);
    let mut folder = MemoryFolder::new(alloc, failing);
    add(alloc, &mut folder, "a.c", b"12345")?;
    add(alloc, &mut folder, "b.c", b"67")?;
    add(alloc, &mut folder, "empty.c", b"")?;
    Ok(folder)
}

fn read(alloc: Global, folder: &mut MemoryFolder, name: &str, most: usize) -> Result<Got, Memory> {
    let name = Text::new(alloc, name)?;
    folder.read(alloc, &name, most)
}

/// Takes the memory for the bytes and writes them. None where there is no such file.
fn write(
    alloc: Global,
    folder: &mut MemoryFolder,
    name: &str,
    bytes: &[u8],
) -> Result<Option<bool>, Memory> {
    let name = Text::new(alloc, name)?;
    if !has_file(folder, &name) {
        return Ok(None);
    }
    folder.ready(alloc, &name, bytes.len())?;
    Ok(Some(folder.write(&name, bytes)))
}

/// A call of a folder, and what it gives.
enum Call {
    /// A reading of at most so many bytes, and what is told: `=` and the bytes, or a word in their place.
    Read(usize, &'static str),
    /// A writing of these bytes, and whether they are written.
    Write(&'static str, bool),
    /// The bytes that the folder has.
    Has(Option<&'static str>),
}

/// Whether these words tell what was read.
fn tells(words: &str, got: &Got) -> bool {
    match (got, words.as_bytes()) {
        (Got::Bytes(bytes), [b'=', wanted @ ..]) => bytes.items() == wanted,
        (Got::Long, _) => words == "long",
        (Got::Absent, _) => words == "absent",
        (Got::Failed, _) => words == "failed",
        _ => false,
    }
}

/// Whether the folder has these bytes under a name.
fn has_bytes(
    alloc: Global,
    folder: &MemoryFolder,
    name: &str,
    bytes: Option<&str>,
) -> Result<bool, Memory> {
    let name = Text::new(alloc, name)?;
    Ok(folder.file(&name) == bytes.map(str::as_bytes))
}

/// Whether a call gives what it says.
fn is_answered(
    alloc: Global,
    folder: &mut MemoryFolder,
    name: &str,
    call: &Call,
) -> Result<bool, Memory> {
    match call {
        Call::Read(most, words) => Ok(tells(words, &read(alloc, folder, name, *most)?)),
        Call::Write(bytes, written) => {
            Ok(write(alloc, folder, name, bytes.as_bytes())? == Some(*written))
        }
        Call::Has(bytes) => has_bytes(alloc, folder, name, *bytes),
    }
}

/// Checks what calls give, of a folder with three files whose calls of these numbers are to fail.
fn expect_calls<R: Abort + AllocGlobal>(
    rt: &R,
    failing: &[u32],
    calls: &[(&str, Call)],
) -> Result<(), Fail> {
    let mut folder = three_files(rt.alloc(), failing)?;
    for (number, (name, call)) in calls.iter().enumerate() {
        let answered = is_answered(rt.alloc(), &mut folder, name, call)?;
        assert!(rt; answered, "call {number}, of {name}");
    }
    Ok(())
}

#[test]
fn a_file_is_read_whole_or_not_at_all(rt: HostRuntime) -> Result<(), Fail> {
    expect_calls(
        &rt,
        &[],
        &[
            ("a.c", Call::Read(5, "=12345")),
            ("a.c", Call::Read(usize::MAX, "=12345")),
            ("a.c", Call::Read(4, "long")),
            ("a.c", Call::Read(0, "long")),
            ("empty.c", Call::Read(0, "=")),
            ("c.c", Call::Read(5, "absent")),
            ("a.", Call::Read(5, "absent")),
            ("a.c", Call::Has(Some("12345"))),
            ("b.c", Call::Has(Some("67"))),
            ("c.c", Call::Has(None)),
        ],
    )
}

#[test]
fn readings_and_writes_fail_where_listed(rt: HostRuntime) -> Result<(), Fail> {
    expect_calls(
        &rt,
        &[3, 0, 3, 5],
        &[
            ("a.c", Call::Read(5, "failed")),
            ("a.c", Call::Read(5, "=12345")),
            ("b.c", Call::Write("8", true)),
            ("a.c", Call::Write("9", false)),
            ("a.c", Call::Has(Some("12345"))),
            ("b.c", Call::Has(Some("8"))),
            ("c.c", Call::Has(None)),
            ("a.c", Call::Write("9", true)),
            ("c.c", Call::Read(5, "failed")),
            ("c.c", Call::Read(5, "absent")),
            ("a.c", Call::Has(Some("9"))),
            ("b.c", Call::Has(Some("8"))),
            ("c.c", Call::Has(None)),
        ],
    )
}

#[test]
fn the_first_write_may_fail(rt: HostRuntime) -> Result<(), Fail> {
    expect_calls(
        &rt,
        &[0],
        &[
            ("a.c", Call::Write("9", false)),
            ("a.c", Call::Has(Some("12345"))),
            ("b.c", Call::Has(Some("67"))),
            ("c.c", Call::Has(None)),
            ("a.c", Call::Write("9", true)),
            ("a.c", Call::Has(Some("9"))),
            ("b.c", Call::Has(Some("67"))),
            ("c.c", Call::Has(None)),
        ],
    )
}

/// Whether these are the bytes of the first two files, and no other was made.
fn are_files(
    alloc: Global,
    folder: &MemoryFolder,
    first: &[u8],
    second: &[u8],
) -> Result<bool, Memory> {
    let one = Text::new(alloc, "a.c")?;
    let two = Text::new(alloc, "b.c")?;
    let three = Text::new(alloc, "c.c")?;
    let same = folder.file(&one) == Some(first) && folder.file(&two) == Some(second);
    Ok(same && folder.file(&three).is_none())
}

#[test]
fn a_file_that_is_ready_takes_so_many_bytes_again_and_again(rt: HostRuntime) -> Result<(), Fail> {
    let mut folder = three_files(rt.alloc(), &[])?;
    let name = Text::new(rt.alloc(), "a.c")?;
    assert!(rt; has_file(&folder, &name));
    folder.ready(rt.alloc(), &name, 9)?;
    assert!(rt; are_files(rt.alloc(), &folder, b"12345", b"67")?);
    let bytes = b"abcdefghi".as_slice();
    assert_eq!(rt; bytes.len(), 9);
    assert!(rt; folder.write(&name, bytes));
    assert!(rt; are_files(rt.alloc(), &folder, bytes, b"67")?);
    assert!(rt; has_file(&folder, &name));
    assert!(rt; folder.write(&name, &[]));
    assert!(rt; are_files(rt.alloc(), &folder, b"", b"67")?);
    assert!(rt; has_file(&folder, &name));
    assert!(rt; folder.write(&name, bytes));
    assert!(rt; are_files(rt.alloc(), &folder, bytes, b"67")?);
    Ok(())
}

#[test]
fn the_last_ready_counts(rt: HostRuntime) -> Result<(), Fail> {
    for (first, last) in [(9, 3), (3, 9), (9, 9), (0, 3)] {
        let mut folder = three_files(rt.alloc(), &[])?;
        let name = Text::new(rt.alloc(), "b.c")?;
        assert!(rt; has_file(&folder, &name));
        folder.ready(rt.alloc(), &name, first)?;
        folder.ready(rt.alloc(), &name, last)?;
        assert!(rt; are_files(rt.alloc(), &folder, b"12345", b"67")?);
        let bytes = b"abcdefghi".as_slice();
        assert!(rt; last <= bytes.len());
        assert!(rt; folder.write(&name, &bytes[..last]));
        assert!(rt; are_files(rt.alloc(), &folder, b"12345", &bytes[..last])?);
    }
    Ok(())
}

#[test]
fn a_sink_holds_what_was_put(rt: HostRuntime) -> Result<(), Fail> {
    let mut sink = MemorySink::new(rt.alloc(), List::new(rt.alloc()));
    assert!(rt; sink.put(&[]));
    sink.ready(rt.alloc(), 3)?;
    let (first, last) = (b"ab".as_slice(), b"c".as_slice());
    assert_eq!(rt; first.len(), 2);
    assert_eq!(rt; last.len(), 1);
    assert!(rt; sink.put(first));
    assert!(rt; sink.put(last));
    assert_eq!(rt; sink.bytes(), b"abc".as_slice());
    sink.ready(rt.alloc(), 2)?;
    sink.ready(rt.alloc(), 1)?;
    assert!(rt; sink.put(last));
    assert_eq!(rt; sink.bytes(), b"abcc".as_slice());
    Ok(())
}

#[test]
fn calls_of_put_fail_where_listed(rt: HostRuntime) -> Result<(), Fail> {
    let failing = List::from_vec([0u32, 2].to_vec(rt.alloc())?);
    let mut sink = MemorySink::new(rt.alloc(), failing);
    for (byte, written) in [(b'a', false), (b'b', true), (b'c', false), (b'd', true)] {
        sink.ready(rt.alloc(), 1)?;
        assert_eq!(rt; sink.put(&[byte]), written);
    }
    assert_eq!(rt; sink.bytes(), b"bd".as_slice());
    Ok(())
}

/// Whether files in memory are added, read and written with these bytes.
fn folder_takes(alloc: Global, bytes: &[u8]) -> Result<bool, Memory> {
    let mut folder = three_files(alloc, &[])?;
    add(alloc, &mut folder, "large.c", bytes)?;
    let found = read(alloc, &mut folder, "large.c", bytes.len())?;
    let written = write(alloc, &mut folder, "a.c", bytes)? == Some(true);
    let kept = are_files(alloc, &folder, bytes, b"67")?;
    Ok(written && kept && found == got(alloc, bytes)?)
}

/// Whether a sink in memory takes these bytes.
fn sink_takes(alloc: Global, bytes: &[u8]) -> Result<bool, Memory> {
    let mut sink = MemorySink::new(alloc, List::new(alloc));
    sink.ready(alloc, bytes.len())?;
    Ok(sink.put(bytes) && sink.bytes() == bytes)
}

#[test]
fn each_call_in_memory_takes_a_mebibyte(rt: HostRuntime) -> Result<(), Fail> {
    let large = "0123456789abcde\n".repeat(rt.alloc(), 65_536)?;
    assert_eq!(rt; large.len(), 1_048_576);
    assert!(rt; folder_takes(rt.alloc(), large.as_bytes())?);
    assert!(rt; sink_takes(rt.alloc(), large.as_bytes())?);
    Ok(())
}
