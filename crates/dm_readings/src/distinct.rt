//! The different macro definitions in files, and their keys.

ghost use Rattle.std.specs.Prelude.{◌≡◌, true, map, fold, length, unwrap_or, IfOk, OnOk};
ghost use Rattle.dm_definitions.specs.Counts.{is_in_file as stands_in_file};
ghost use Rattle.dm_search.specs.Loaded.{is_held};
ghost use Rattle.dm_token.specs.Places.{line_at};
ghost use Rattle.dm_readings.specs.Again.{put_in};
ghost use Rattle.dm_readings.specs.Definitions.{definitions_in, in_files, once_more, key_of as key_in};
ghost use Rattle.dm_readings.specs.Sites.{sites_of, with_one};

use dm_reading::Reading;
use dm_search::Loader;
use dm_token::{Definition, Memory, Origin, Read};
use indexmap::IndexSet;
use std::alloc::Global;

/// What tells a definition from the others of a project while its files stay.
#[derive(Clone, Copy, Debug, PartialEq, Eq, Hash)]
pub(crate) struct Site {
    file: u32,
    hash: u32,
}

/// What tells a definition from the others of a project where edits keep lines.
#[derive(Clone, Copy, Debug, PartialEq, Eq, Hash)]
pub struct Key {
    pub file: u32,
    /// The line of its `#`.
    pub line: usize,
}

fn is_in_file(origin: Origin) -> bool
    ensures { result ≡ stands_in_file origin }
{
    matches!(origin, Origin::File)
}

/// Adds a definition, if it is in a file and isn't there.
fn add<'a>(
    sites: &mut IndexSet<Site>,
    found: &mut Vec<&'a Definition>,
    one: &'a Definition,
) -> Result<(), Memory>
    requires sites { sites.old.keys ≡ sites_of (map (λ one. one.now) found.old.items) }
    ensures sites { OnOk result (sites.new.keys ≡ sites_of (map (λ one. one.now) found.new.items)) }
    ensures found { OnOk result (map (λ one. one.now) found.new.items ≡ with_one (map (λ one. one.now) found.old.items) one.now) }
{
    if !is_in_file(one.origin) {
        return Ok(());
    }
    let (_, is_new) = sites.insert_full(Site {
        file: one.place.file,
        hash: one.hash,
    })?;
    if !is_new {
        return Ok(());
    }
    found.push(one)?;
    Ok(())
}

/// Adds the definitions in files that a unit reads.
fn add_read<'a>(
    sites: &mut IndexSet<Site>,
    found: &mut Vec<&'a Definition>,
    read: &'a [Read],
) -> Result<(), Memory>
    requires sites { sites.old.keys ≡ sites_of (map (λ one. one.now) found.old.items) }
    ensures sites { OnOk result (sites.new.keys ≡ sites_of (map (λ one. one.now) found.new.items)) }
    ensures found { OnOk result (map (λ one. one.now) found.new.items ≡ fold once_more (map (λ one. one.now) found.old.items) (in_files read.now)) }
{
    for one in read {
        add(sites, found, &one.definition)?;
    }
    Ok(())
}

/// The definitions in files, each once, in the order of first reading.
pub fn definitions<'a>(
    alloc: Global,
    readings: &'a [Reading],
) -> Result<Vec<&'a Definition>, Memory>
    ensures { IfOk result (λ found. map (λ one. one.now) found.items ≡ definitions_in readings.now) }
{
    let mut sites = IndexSet::new(alloc);
    let mut found = Vec::new(alloc);
    for reading in readings {
        add_read(&mut sites, &mut found, reading.pp.read.items())?;
    }
    Ok(found)
}

/// The same for the readings of a project, where some units have new ones.
pub fn definitions_with<'a>(
    alloc: Global,
    kept: &'a [Reading],
    news: &'a [Option<Reading>],
) -> Result<Vec<&'a Definition>, Memory>
    requires { length news.now ≡ length kept.now }
    ensures { IfOk result (λ found. map (λ one. one.now) found.items ≡ definitions_in (put_in kept.now news.now)) }
{
    let mut sites = IndexSet::new(alloc);
    let mut found = Vec::new(alloc);
    for at in 0..kept.len() {
        let reading = newest(&kept[at], &news[at]);
        add_read(&mut sites, &mut found, reading.pp.read.items())?;
    }
    Ok(found)
}

/// The new reading of a unit, or else the one that is kept.
pub fn newest<'a>(kept: &'a Reading, new: &'a Option<Reading>) -> &'a Reading
    ensures { result.now ≡ unwrap_or new.now kept.now }
{
    match new {
        Some(reading) => reading,
        None => kept,
    }
}

/// The key of a definition whose file is held.
pub fn key_of(loader: &Loader, one: &Definition) -> Key
    requires { is_held loader.now one.now.place.file ≡ true }
    ensures { result ≡ key_in loader.now one.now }
{
    Key {
        file: one.place.file,
        line: line_of(loader.bytes(one.place.file), one.hash),
    }
}

/// The line of the byte at an offset.
fn line_of(bytes: &[u8], offset: u32) -> usize
    ensures { result ≡ line_at bytes.now offset }
{
    let before = bytes.len().min(offset as usize);
    1 + bytes[..before]
        .iter()
        .filter(|byte| **byte == b'\n')
        .count()
}
