//! The readings of projects in memory. A row has files, each behind its name; `a.c` is the main file of the first unit, and `b.c`, if
//! there is one, that of the second.

ghost use Rattle.std.specs.Prelude.{◌≡◌, ◌<◌, [], IfOk, OnOk};
ghost use Rattle.dm_tree.specs.TypeNumbers.{IsTypedUnit};
ghost use Rattle.dm_judge.specs.Units.{AreTyped};

use dm_io::MemoryFolder;
use dm_read::{Steps, read_unit};
use dm_reading::Reading;
use dm_search::Loader;
use dm_token::{List, Text, Unit};
use std::alloc::Global;
use std::marker::Brand;
use std::sync::ledger::{Blank, Ledger};
use std::test::Fail;

/// Adds a file, whose first line is its name.
fn add_file(alloc: Global, folder: &mut MemoryFolder, file: &str) -> Result<(), Fail> {
    let Some((name, text)) = file.split_once('\n') else {
        return Err("a file has no text".into());
    };
    let name = Text::new(alloc, name)?;
    if folder.file(&name).is_some() {
        return Err("two files of one name".into());
    }
    folder.add(&name, text.as_bytes())?;
    Ok(())
}

/// The files of a row.
fn folder_of(alloc: Global, row: &str) -> Result<MemoryFolder, Fail> {
    let mut folder = MemoryFolder::new(alloc, List::new(alloc));
    for file in row.split("\n@") {
        add_file(alloc, &mut folder, file)?;
    }
    Ok(folder)
}

/// A unit without include folders and definitions of its own.
fn unit_of(alloc: Global, file: Text) -> Unit
    ensures { result.define ≡ [] }
{
    Unit {
        file,
        include: List::new(alloc),
        define: List::new(alloc),
    }
}

/// The reading of a unit.
fn read<L: Ledger>(
    alloc: Global,
    folder: &mut MemoryFolder,
    loader: &mut Loader,
    file: Text,
    count: &mut Steps<L>,
) -> Result<Reading, Fail>
    ensures { IfOk result (λ reading. IsTypedUnit reading.types reading.core) }
{
    let unit = unit_of(alloc, file);
    if loader.names().len() > 10_000 {
        return Err("too many names".into());
    }
    Ok(read_unit(alloc, folder, loader, &unit, count)?)
}

/// Adds the reading of a unit.
fn add_reading<L: Ledger>(
    alloc: Global,
    folder: &mut MemoryFolder,
    loader: &mut Loader,
    file: Text,
    count: &mut Steps<L>,
    readings: &mut Vec<Reading>,
) -> Result<(), Fail>
    requires { AreTyped readings.old.items }
    ensures { OnOk result (AreTyped readings.new.items) }
{
    let reading = read(alloc, folder, loader, file, count)?;
    readings.push(reading)?;
    Ok(())
}

/// The readings of the units, counted in a new ledger.
fn read_counted<L: Ledger>(
    alloc: Global,
    folder: &mut MemoryFolder,
    loader: &mut Loader,
    blank: Blank,
) -> Result<Vec<Reading>, Fail>
    requires name { blank.name ≡ L.name }
    requires parts { blank.parts ≡ L.parts }
    requires some { 0 < L.parts }
    ensures { IfOk result (λ readings. AreTyped readings.items) }
{
    let mut count = Steps::<L>::new(blank);
    let main = Text::new(alloc, "a.c")?;
    let other = Text::new(alloc, "b.c")?;
    let has_other = folder.file(&other).is_some();
    let mut readings = Vec::new(alloc);
    add_reading(alloc, folder, loader, main, &mut count, &mut readings)?;
    if has_other {
        add_reading(alloc, folder, loader, other, &mut count, &mut readings)?;
    }
    Ok(readings)
}

/// The readings of the units of a row, and the names of the files.
#[derive(Drop)]
pub struct Project {
    pub readings: Vec<Reading>,
    pub loader: Loader,
}

/// Reads the units of a row.
pub fn project_of(alloc: Global, row: &str) -> Result<Project, Fail>
    ensures { IfOk result (λ project. AreTyped project.readings.items) }
{
    let mut folder = folder_of(alloc, row)?;
    let mut loader = Loader::new(alloc)?;
    let readings = read_counted::<Brand>(alloc, &mut folder, &mut loader, Blank::new(1))?;
    Ok(Project { readings, loader })
}
