//! Names joined from a folder's and a header's, and made normal.
ghost use Rattle.std.specs.Prelude.{◌≡◌, ◌+◌, ◌<◌, ◌≤◌, [], ◌∷◌, ◌++◌, map, Some, IfOk, OnOk, length, option_to_list};
ghost use Rattle.std.specs.List.{join_with_byte};
ghost use Rattle.dm_search.specs.Joining.{HasWalked, parts_of, entered, walked, joined as joined_name, folder_of as folder_name, candidates as names_for, places, named};

use dm_token::{Memory, Text, is_normal_name};
use std::alloc::{AllocError, Global};

/// The names that a search for a header looks for in the folder, in order: in the folder of the including file where
/// the header is quoted, and then in the include folders.
pub fn candidates(
    alloc: Global,
    from: &[u8],
    quoted: bool,
    name: &[u8],
    include: &[Text],
) -> Result<Vec<Text>, Memory>
    ensures { IfOk result (λ found. found.items ≡ names_for name.now (places from.now quoted include.now)) }
{
    let mut found = beside(alloc, from, quoted, name)?;
    for folder in include {
        add(&mut found, joined(alloc, folder.bytes(), name)?)?;
    }
    Ok(found)
}

/// What a search for a quoted header looks for first: the name in the folder of the including file.
fn beside(alloc: Global, from: &[u8], quoted: bool, name: &[u8]) -> Result<Vec<Text>, Memory>
    ensures { IfOk result (λ found. found.items ≡ names_for name.now (places from.now quoted [])) }
{
    let mut found = Vec::new(alloc);
    if quoted {
        let folder = folder_of(alloc, from)?;
        add(&mut found, joined(alloc, &folder, name)?)?;
    }
    Ok(found)
}

/// Adds a name, if there is one.
fn add(names: &mut Vec<Text>, name: Option<Text>) -> Result<(), Memory>
    ensures { OnOk result (names.new.items ≡ names.old.items ++ option_to_list name) }
{
    if let Some(name) = name {
        names.push(name)?;
    }
    Ok(())
}

/// The folder of a file, as a path.
fn folder_of(alloc: Global, file: &[u8]) -> Result<Vec<u8>, AllocError>
    ensures { IfOk result (λ folder. folder.items ≡ folder_name file.now) }
{
    let mut folder = Vec::from_slice(alloc, file)?;
    folder.extend_from_slice(b"/..")?;
    Ok(folder)
}

/// The normal name of what a name leads to from a folder, if it has one.
fn joined(alloc: Global, folder: &[u8], name: &[u8]) -> Result<Option<Text>, Memory>
    ensures { IfOk result (λ found. found ≡ joined_name folder.now name.now) }
{
    let mut parts = Vec::new(alloc);
    if !walk(alloc, &mut parts, folder)? {
        return Ok(None);
    }
    if !walk(alloc, &mut parts, name)? {
        return Ok(None);
    }
    named_by(alloc, &parts)
}

/// Goes along the parts of a path, and says whether it stays inside the folder that it starts from.
fn walk<'a>(alloc: Global, parts: &mut Vec<&'a [u8]>, path: &'a [u8]) -> Result<bool, AllocError>
    ensures { IfOk result (λ inside. HasWalked inside (map (λ part. part.now) parts.new.items) (walked (parts_of path.now) (map (λ part. part.now) parts.old.items))) }
{
    let steps = split(alloc, path)?;
    for step in &steps {
        if !enter(parts, step)? {
            return Ok(false);
        }
    }
    Ok(true)
}

/// The parts of a path.
fn split<'a>(alloc: Global, path: &'a [u8]) -> Result<Vec<&'a [u8]>, AllocError>
    ensures { IfOk result (λ parts. map (λ part. part.now) parts.items ≡ parts_of path.now) }
{
    path.split(|byte| *byte == b'/').collect(alloc)
}

/// Takes one more part, and says whether it has its place.
fn enter<'a>(parts: &mut Vec<&'a [u8]>, part: &'a [u8]) -> Result<bool, AllocError>
    ensures { IfOk result (λ inside. HasWalked inside (map (λ part. part.now) parts.new.items) (entered (map (λ part. part.now) parts.old.items) part.now)) }
{
    if part == b".".as_slice() {
        return Ok(true);
    }
    if part == b"..".as_slice() {
        return Ok(parts.pop().is_some());
    }
    parts.push(part)?;
    Ok(true)
}

/// The name of these parts, if it is normal.
fn named_by(alloc: Global, parts: &[&[u8]]) -> Result<Option<Text>, Memory>
    ensures { IfOk result (λ found. found ≡ named (map (λ part. part.now) parts.now)) }
{
    let path = path_of(alloc, parts)?;
    if is_normal_name(&path) {
        Ok(Some(Text::from_vec(alloc, path)?))
    } else {
        Ok(None)
    }
}

/// The parts with a slash between each two.
fn path_of(alloc: Global, parts: &[&[u8]]) -> Result<Vec<u8>, AllocError>
    ensures { IfOk result (λ path. path.items ≡ join_with_byte 47 (map (λ part. part.now) parts.now)) }
{
    let mut path = Vec::new(alloc);
    let Some((first, others)) = parts.split_first() else {
        return Ok(path);
    };
    path.extend_from_slice(first)?;
    for part in others {
        path.push(b'/')?;
        path.extend_from_slice(part)?;
    }
    Ok(path)
}
