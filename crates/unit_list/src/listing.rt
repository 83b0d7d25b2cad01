//! The listing of a project: of each unit what it declares and its typed trees, or the stop of its reading.

ghost use Rattle.std.specs.Prelude.{◌≡◌, ◌+◌, ◌<◌, All, OnOk};
ghost use Rattle.dm_type.specs.Tables.{IsId};
ghost use Rattle.dm_tree.specs.TypeNumbers.{IsTypedUnit};
ghost use Rattle.dm_manifest.specs.Units.{IsLawful};
ghost use Rattle.unit_list.specs.Known.{IsKnownExternal};

use crate::trees::{Scene, put_external};
use dm_io::Folder;
use dm_read::{Steps, read_unit};
use dm_search::Loader;
use dm_token::{List, Memory, Stop, Text, Unit};
use dm_tree::{CoreExternal, CoreUnit, Declared};
use dm_type::Types;
use std::alloc::Global;
use std::fmt::Write;
use std::marker::Brand;
use std::sync::ledger::{Blank, Ledger};
use tree_words::entries::{put_entry, structs_of};
use tree_words::words::put_text;

/// The entries of a unit in their order, a line each.
fn put_entries(
    out: &mut String,
    types: &Types,
    structs: &[u32],
    entries: &[Declared],
) -> Result<(), Memory>
    requires { All (λ entry. IsId types.now entry.kind) entries.now }
{
    for entry in entries {
        out.push_str("  ")?;
        put_entry(out, types, structs, entry)?;
        out.push_str("\n")?;
    }
    Ok(())
}

/// The external declarations of a unit in their order.
fn put_externals(
    out: &mut String,
    scene: &Scene,
    types: &Types,
    externals: &[CoreExternal],
) -> Result<(), Memory>
    requires { All (IsKnownExternal types.now) externals.now }
{
    for external in externals {
        put_external(out, scene, types, external)?;
    }
    Ok(())
}

/// What a typed unit declares, and its trees.
fn put_core(out: &mut String, types: &Types, core: &CoreUnit) -> Result<(), Memory>
    requires { IsTypedUnit types.now core.now }
{
    let structs = structs_of(*out.allocator(), types)?;
    put_entries(out, types, structs.items(), core.declared.items())?;
    let scene = Scene {
        declared: core.declared.items(),
        structs: structs.items(),
    };
    put_externals(out, &scene, types, core.externals.items())
}

/// The name of a file.
fn put_file(out: &mut String, names: &[Text], file: u32) -> Result<(), Memory> {
    match names.get(file as usize) {
        Some(name) => put_text(out, name),
        None => {
            out.push_str("?")?;
            Ok(())
        }
    }
}

/// The line of a stop: the refusal, with the typing rule that is broken or 0, or the limit, and the file.
fn put_stop(out: &mut String, names: &[Text], stop: Stop) -> Result<(), Memory> {
    match stop {
        Stop::Memory => return Err(Memory),
        Stop::Refused(refusal) => {
            let place = refusal.place;
            write!(
                out,
                "  refusal {} rule {} at ",
                refusal.number, refusal.detail
            )?;
            put_file(out, names, place.file)?;
            write!(out, ":{}:{}", place.line, place.column)?;
        }
        Stop::Limit(limit) => {
            write!(out, "  limit {} at ", limit.number)?;
            put_file(out, names, limit.file)?;
        }
        Stop::ReadFault(file) => {
            out.push_str("  read fault at ")?;
            put_file(out, names, file)?;
        }
    }
    out.push_str("\n")?;
    Ok(())
}

/// A unit: its main file, and what its reading gives. It counts as one reading, and changes no file. 4,000,000,000 names or more count
/// as want of memory.
fn put_unit<F: Folder, L: Ledger>(
    out: &mut String,
    folder: &mut F,
    loader: &mut Loader,
    unit: Unit,
    readings: &mut Steps<L>,
) -> Result<(), Memory>
    requires { IsLawful unit }
    ensures counted { OnOk result (readings.new ≡ readings.old + 1) }
    ensures files_stay { F.files folder.new ≡ F.files folder.old }
{
    if loader.names().len() >= 4_000_000_000 {
        return Err(Memory);
    }
    out.push_str("unit ")?;
    put_text(out, &unit.file)?;
    out.push_str("\n")?;
    match read_unit(*out.allocator(), folder, loader, &unit, readings) {
        Ok(reading) => put_core(out, &reading.types, &reading.core),
        Err(stop) => put_stop(out, loader.names(), stop),
    }
}

/// The listing of units, which are read one after the other through one loader.
fn list_units<F: Folder, L: Ledger>(
    alloc: Global,
    folder: &mut F,
    units: List<Unit>,
    readings: &mut Steps<L>,
) -> Result<String, Memory>
    requires { All IsLawful units }
{
    let mut loader = Loader::new(alloc)?;
    let mut out = String::new(alloc);
    for unit in units.into_vec() {
        put_unit(&mut out, folder, &mut loader, unit, readings)?;
    }
    Ok(out)
}

/// The same, counted in a new ledger.
fn list_counted<F: Folder, L: Ledger>(
    alloc: Global,
    folder: &mut F,
    units: List<Unit>,
    blank: Blank,
) -> Result<String, Memory>
    requires lawful { All IsLawful units }
    requires name { blank.name ≡ L.name }
    requires parts { blank.parts ≡ L.parts }
    requires some { 0 < L.parts }
{
    let mut readings = Steps::<L>::new(blank);
    list_units(alloc, folder, units, &mut readings)
}

/// The listing of the units of a project.
pub fn list_project<F: Folder>(
    alloc: Global,
    folder: &mut F,
    units: List<Unit>,
) -> Result<String, Memory>
    requires { All IsLawful units }
{
    let blank = Blank::new(1);
    list_counted::<F, Brand>(alloc, folder, units, blank)
}
