//! Worked searches, and calls that stop.

use crate::folders::add;
use dm_io::MemoryFolder;
use dm_search::Loader;
use dm_token::{Limit, List, Place, Refusal, Stop, Text};
use std::process::Abort;
use std::test::Fail;

/// Adds empty files with these names.
fn add_empty<R: Abort + AllocGlobal>(
    rt: &R,
    folder: &mut MemoryFolder,
    names: &str,
) -> Result<(), Fail> {
    for name in names.split(' ') {
        add(rt, folder, name, b"")?;
    }
    Ok(())
}

/// The number of a name, which is below the count of names.
fn number<R: Abort + AllocGlobal>(rt: &R, loader: &mut Loader, name: &str) -> Result<u32, Fail> {
    assert!(rt; loader.names().len() < 10_000);
    Ok(loader.number(&Text::new(rt.alloc(), name)?)?)
}

/// What a search for a header finds.
fn found<R: Abort + AllocGlobal>(
    rt: &R,
    loader: &mut Loader,
    folder: &mut MemoryFolder,
    quoted: bool,
    name: &str,
) -> Result<Option<u32>, Fail> {
    let from = number(rt, loader, "src/a.c")?;
    let include = [Text::new(rt.alloc(), "inc")?];
    let name = Text::new(rt.alloc(), name)?;
    assert!(rt; loader.names().len() < 10_000);
    assert!(rt; (from as usize) < loader.names().len());
    let found = loader.find(folder, from, quoted, &name, &include);
    Ok(found.ok().flatten())
}

/// Checks what the search for the header of a row finds, which stands behind the `=`, and nothing where the search finds none.
fn expect_found<R: Abort + AllocGlobal>(
    rt: &R,
    loader: &mut Loader,
    folder: &mut MemoryFolder,
    row: &str,
) -> Result<(), Fail> {
    let Some((header, wanted)) = row.split_once(" = ") else {
        panic!(rt; "no file in {row}");
    };
    let quoted = header.starts_with('"');
    let name = header.trim_matches(['"', '<', '>']);
    let found = found(rt, loader, folder, quoted, name)?;
    let wanted = number(rt, loader, wanted)?;
    assert_eq!(rt; found.unwrap_or(6), wanted, "{row}");
    Ok(())
}

/// Headers and the files that are found for them.
const FOUND: &str = "\"../x.h\" = x.h\n\
\"../../x.h\" = \n\
\"y.h\" = src/y.h\n\
<y.h> = inc/y.h\n\
\"/x.h\" = \n\
\"..//../x.h\" = x.h\n\
\"..//x.h\" = \n\
\"stdio.h\" = <stdio.h>\n\
<limits.h> = inc/limits.h\n\
<./stdio.h> = ";

/// Checks what the searches of rows find in a folder.
fn expect_all_found<R: Abort + AllocGlobal>(
    rt: &R,
    folder: &mut MemoryFolder,
    rows: &str,
) -> Result<(), Fail> {
    let mut loader = Loader::new(rt.alloc())?;
    // Number 6 is the name of no file.
    number(rt, &mut loader, "")?;
    for row in rows.split('\n') {
        expect_found(rt, &mut loader, folder, row)?;
    }
    Ok(())
}

#[test]
fn searches_go_from_folder_to_folder(rt: HostRuntime) -> Result<(), Fail> {
    let mut folder = MemoryFolder::new(rt.alloc(), List::new(rt.alloc()));
    add_empty(&rt, &mut folder, "x.h src/y.h inc/y.h inc/limits.h")?;
    expect_all_found(&rt, &mut folder, FOUND)
}

/// What loading a file gives that is there, is absent or is not read.
fn loaded_as(file: u32, wanted: &str) -> Result<bool, Stop> {
    if wanted == "read fault" {
        return Err(Stop::ReadFault(file));
    }
    Ok(wanted == "there")
}

/// Checks whether the file of a row is loaded.
fn expect_load<R: Abort + AllocGlobal>(
    rt: &R,
    loader: &mut Loader,
    folder: &mut MemoryFolder,
    row: &str,
) -> Result<(), Fail> {
    let Some((name, wanted)) = row.split_once(" = ") else {
        panic!(rt; "no answer in {row}");
    };
    let file = number(rt, loader, name)?;
    assert!(rt; (file as usize) < loader.names().len());
    let loaded = loader.load(folder, file);
    assert_eq!(rt; loaded, loaded_as(file, wanted), "{row}");
    Ok(())
}

/// Files that are loaded in turn.
const LOADED: &str = "a.c = there\n\
b.c = absent\n\
a.c = there\n\
b.c = absent\n\
c.c = read fault\n\
c.c = absent";

/// Checks in turn whether the files of rows are loaded.
fn expect_all_loaded<R: Abort + AllocGlobal>(
    rt: &R,
    folder: &mut MemoryFolder,
    rows: &str,
) -> Result<(), Fail> {
    let mut loader = Loader::new(rt.alloc())?;
    for row in rows.split('\n') {
        expect_load(rt, &mut loader, folder, row)?;
    }
    Ok(())
}

#[test]
fn files_are_read_once(rt: HostRuntime) -> Result<(), Fail> {
    // The third reading fails.
    let failing = List::from_vec([2u32].to_vec(rt.alloc())?);
    let mut folder = MemoryFolder::new(rt.alloc(), failing);
    add(&rt, &mut folder, "a.c", b"int a;\n")?;
    expect_all_loaded(&rt, &mut folder, LOADED)
}

/// Checks how a file with these bytes stops its loading, and the replacement of a loaded file: by a refusal at a byte of
/// its first line.
fn expect_refusal<R: Abort + AllocGlobal>(
    rt: &R,
    loader: &mut Loader,
    bytes: &[u8],
    number_of_refusal: u8,
    byte: u32,
) -> Result<(), Fail> {
    let refusal = Refusal {
        number: number_of_refusal,
        detail: 0,
        place: Place {
            file: 0,
            byte,
            line: 1,
            column: byte.saturating_add(1),
        },
    };
    let new = List::from_vec(bytes.to_vec(rt.alloc())?);
    assert!(rt; loader.holds(0));
    assert_eq!(rt; loader.replace(0, new), Err(Stop::Refused(refusal)));
    Ok(())
}

/// Checks that a file may have so many bytes and no more.
fn expect_limit<R: Abort + AllocGlobal>(
    rt: &R,
    loader: &mut Loader,
    length: usize,
) -> Result<(), Fail> {
    let longest = vec![in rt.alloc(); b'\n'; length]?;
    let mut longer = longest.clone()?;
    longer.push(b'\n')?;
    let limit = Limit { number: 1, file: 0 };
    assert!(rt; loader.holds(0));
    assert_eq!(rt;
        loader.replace(0, List::from_vec(longer)),
        Err(Stop::Limit(limit))
    );
    assert!(rt; loader.holds(0));
    assert_eq!(rt; loader.replace(0, List::from_vec(longest)), Ok(()));
    Ok(())
}

/// Checks the bytes and the number of tokens of the first file.
fn expect_content(rt: &impl Abort, loader: &Loader, bytes: &[u8], tokens: usize) {
    assert!(rt; loader.holds(0));
    assert_eq!(rt; loader.bytes(0), bytes);
    assert!(rt; loader.holds(0));
    assert_eq!(rt; loader.tokens(0).len(), tokens);
}

/// Checks that what can't be read leaves the first file, which has this text.
fn expect_held<R: Abort + AllocGlobal>(
    rt: &R,
    loader: &mut Loader,
    text: &[u8],
) -> Result<(), Fail> {
    expect_content(rt, loader, text, 44);
    expect_refusal(rt, loader, b"/* x", 2, 0)?;
    expect_refusal(rt, loader, b"a /* b\\\n", 8, 6)?;
    expect_content(rt, loader, text, 44);
    Ok(())
}

#[test]
fn new_bytes_are_held_where_they_can_be_read(rt: HostRuntime) -> Result<(), Fail> {
    let mut loader = Loader::new(rt.alloc())?;
    let name = Text::new(rt.alloc(), "stdio.h")?;
    let text = Loader::header(&name).unwrap_or(&[]);
    expect_held(&rt, &mut loader, text)?;
    expect_limit(&rt, &mut loader, 1_048_576)
}

#[test]
fn built_in_headers_stand_first(rt: HostRuntime) -> Result<(), Fail> {
    let loader = Loader::new(rt.alloc())?;
    let bracketed = Text::new(rt.alloc(), "<stddef.h>")?;
    assert_eq!(rt; Loader::header(&bracketed), None);
    assert_eq!(rt; loader.names().len(), 6);
    assert_eq!(rt; loader.name(2), &bracketed);
    let text = "typedef unsigned long size_t;
typedef long ptrdiff_t;
#define NULL ((void *)0)
";
    let name = Text::new(rt.alloc(), "stddef.h")?;
    assert_eq!(rt; Loader::header(&name), Some(text.as_bytes()));
    Ok(())
}
