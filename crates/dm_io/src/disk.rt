//! Real files by name: a whole file is read, and a whole file is replaced.
ghost use Rattle.std.specs.Prelude.{◌≡◌, ◌≢◌, ◌≤◌, IfOk, IsErr, None, false};
ghost use Rattle.dm_token.specs.Names.{is_normal_name as is_normal};
ghost use Rattle.dm_io.specs.Answers.{HasAtMost};

use crate::folder::Got;
use arrayvec::ArrayString;
use dm_token::{List, is_normal_name};
use std::alloc::Global;
use std::fs::{self, OpenFile, OpenOptions, Permissions};
use std::io::{self, ErrorKind, Read, Write};
use std::rt::Files;

/// Where the new bytes of a file are written before they take its place.
const SPARE_NAME: &str = ".demacrofier.tmp";

/// A name has at most 255 bytes, so a name beside it has room here.
const SPARE_ROOM: usize = 272;

/// Reads the file of a name, of at most so many bytes. A name that is no normal name has no file.
pub fn read_file<R: Files>(files: &R, alloc: Global, name: &[u8], most: usize) -> io::Result<Got>
    ensures bounded { IfOk result (HasAtMost most) }
    ensures read { IfOk result (λ got. got ≢ Got.Failed) }
    ensures outside { is_normal name.now ≡ false → result ≡ Ok Got.Absent }
{
    let Some(path) = path_of(name) else {
        return Ok(Got::Absent);
    };
    match read_regular(files, alloc, path, most) {
        Ok(bytes) if bytes.len() > most => Ok(Got::Long),
        Ok(bytes) => Ok(Got::Bytes(List::from_vec(bytes))),
        Err(error) if is_absence(error.kind()) => Ok(Got::Absent),
        Err(error) => Err(error),
    }
}

/// Gives the file of a name new bytes, by a spare file beside it that then takes its place, so that a failure leaves
/// the old bytes. Where no spare file can be made, and for a symbolic link, the file itself is written.
pub fn replace_file<R: Files>(files: &R, name: &[u8], bytes: &[u8]) -> io::Result<()>
    ensures outside { is_normal name.now ≡ false → IsErr result }
{
    let path = path_of(name).ok_or(ErrorKind::InvalidInput)?;
    let permissions = regular_permissions(files, path)?;
    if files.symlink_metadata(path)?.is_symlink() {
        return overwrite(files, path, bytes);
    }
    let spare = spare_beside(path)?;
    match create_new(files, spare.as_str()) {
        Ok(file) => put_in_place(files, file, spare.as_str(), path, permissions, bytes),
        Err(_) => overwrite(files, path, bytes),
    }
}

/// The path of a normal name, which leads below the current folder.
fn path_of(name: &[u8]) -> Option<&str>
    ensures outside { is_normal name.now ≡ false → result ≡ None }
{
    if is_normal_name(name) {
        str::from_utf8(name).ok()
    } else {
        None
    }
}

/// Whether an error says that there is no such file.
fn is_absence(kind: ErrorKind) -> bool {
    matches!(kind, ErrorKind::NotFound | ErrorKind::NotADirectory)
}

/// The permissions of a file that is no folder, pipe or device.
fn regular_permissions<R: Files>(files: &R, path: &str) -> io::Result<Permissions> {
    let metadata = files.metadata(path)?;
    if metadata.is_file() {
        Ok(metadata.permissions())
    } else {
        Err(io::Error::from(ErrorKind::InvalidInput))
    }
}

/// The bytes of a file, and no more than one over so many.
fn read_regular<R: Files>(
    files: &R,
    alloc: Global,
    path: &str,
    most: usize,
) -> io::Result<Vec<u8>> {
    regular_permissions(files, path)?;
    let file = fs::open(files, path)?;
    let mut bytes = Vec::new(alloc);
    file.take((most as u64).saturating_add(1))
        .read_to_end(&mut bytes)?;
    Ok(bytes)
}

/// The name of the spare file in the folder of a file.
fn spare_beside(path: &str) -> io::Result<ArrayString<SPARE_ROOM>> {
    let mut spare = ArrayString::new();
    if let Some((folder, _)) = path.rsplit_once('/') {
        push_all(&mut spare, folder)?;
        push_all(&mut spare, "/")?;
    }
    push_all(&mut spare, SPARE_NAME)?;
    Ok(spare)
}

fn push_all(spare: &mut ArrayString<SPARE_ROOM>, text: &str) -> io::Result<()> {
    match spare.try_push_str(text) {
        Ok(()) => Ok(()),
        Err(_) => Err(io::Error::from(ErrorKind::InvalidFilename)),
    }
}

/// Makes a file that wasn't there.
fn create_new<R: Files>(files: &R, path: &str) -> io::Result<R::File> {
    OpenOptions::new()
        .write(true)
        .create_new(true)
        .open(files, path)
}

/// Writes the spare file and lets it take the file's place. Where that fails the spare file is removed.
fn put_in_place<R: Files>(
    files: &R,
    file: R::File,
    spare: &str,
    path: &str,
    permissions: Permissions,
    bytes: &[u8],
) -> io::Result<()> {
    let written = write_whole(file, permissions, bytes);
    let placed = match written {
        Ok(()) => fs::rename(files, spare, path),
        Err(error) => Err(error),
    };
    if placed.is_err() {
        let _ = fs::remove_file(files, spare);
    }
    placed
}

fn write_whole<F: Write + OpenFile + Drop>(
    mut file: F,
    permissions: Permissions,
    bytes: &[u8],
) -> io::Result<()> {
    file.write_all(bytes)?;
    file.set_permissions(permissions)?;
    file.sync_all()
}

/// Writes over a file that is there.
fn overwrite<R: Files>(files: &R, path: &str, bytes: &[u8]) -> io::Result<()> {
    let mut file = OpenOptions::new()
        .write(true)
        .truncate(true)
        .open(files, path)?;
    file.write_all(bytes)?;
    file.sync_all()
}
