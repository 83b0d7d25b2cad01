//! The reading of a unit (5.1.1.2): what each layer gives of it.

ghost use Rattle.std.specs.Prelude.{◌≡◌, ◌≢◌, ◌+◌, ◌<◌, ◌≤◌, ℕ, List as Sequence, Some, Err, All, IfOk, length};
ghost use Rattle.dm_token.specs.Limits.{source_length_limit};
ghost use Rattle.dm_token.specs.declared.stop.Stop.TheVariants.{Memory, ReadFault};
ghost use Rattle.dm_io.specs.Faults.{Rose};
ghost use Rattle.dm_io.specs.Files.{Files};
ghost use Rattle.dm_unit.specs.Loaders.{Grows, WasUnknown, stopped_at, most_names};
ghost use Rattle.dm_unit.specs.Units.{setting_of};
ghost use Rattle.dm_unit.specs.Views.{StaysServed};
ghost use Rattle.dm_tree.specs.TypeNumbers.{IsTypedUnit};
ghost use Rattle.dm_reading.specs.Layered.{IsLayered};
ghost use Rattle.dm_readings.specs.Reading.{IsReading, IsReadingByKnown};

use crate::behind::typed_tokens;
use crate::count::Steps;
use dm_io::Folder;
use dm_reading::{Layers, Reading, copy_of_unit};
use dm_search::Loader;
use dm_token::{Stop, Unit};
use dm_unit::unit_tokens;
use std::alloc::Global;
use std::sync::ledger::Ledger;

/// What each layer gives of a unit; the typed unit is well typed. It counts as one reading, whatever it gives.
///
/// # Errors
///
/// The stop of the first layer that stops.
pub fn read_unit<F: Folder, L: Ledger>(
    alloc: Global,
    folder: &mut F,
    loader: &mut Loader,
    unit: &Unit,
    readings: &mut Steps<L>,
) -> Result<Reading, Stop>
    requires room { length loader.old.names < most_names }
    requires short { All (λ (define : Sequence ℕ). length define ≤ source_length_limit) unit.now.define }
    ensures counted { readings.new ≡ readings.old + 1 }
    ensures reading { (files : Files) → F.files folder.old ≡ Some files → IsReading (setting_of loader.old loader.new files unit.now) unit.now loader.old result loader.new }
    // Whether or not the folder tells its files.
    ensures known { IfOk result (IsReadingByKnown unit.now loader.old loader.new) }
    ensures layers { IfOk result IsLayered }
    ensures well_typed { IfOk result (λ given. IsTypedUnit given.types given.core) }
    // What the loader knows stays known, and each new name's file is held, apart from that of a stop.
    ensures loader { result ≢ Err Memory → Grows (stopped_at result) loader.old loader.new }
    // Where the folder tells its files, the loader holds what it read of them.
    ensures served { StaysServed (F.files folder.old) loader.old loader.new }

    // A fault has its cause outside, and names a file of which nothing was known.
    ensures failed { (file : ℕ) → result ≡ Err (ReadFault file) → Rose (F.faults folder.old) (F.faults folder.new) }
    ensures unknown { (file : ℕ) → result ≡ Err (ReadFault file) → WasUnknown loader.old loader.new file }

    ensures files_stay { F.files folder.new ≡ F.files folder.old }
    ensures rooms_stay { (other : Sequence ℕ) → F.room folder.new other ≡ F.room folder.old other }
    ensures later { F.faults folder.old ≤ F.faults folder.new }
{
    readings.tick();
    let own = copy_of_unit(alloc, unit)?;
    let pp = unit_tokens(alloc, folder, loader, unit)?;
    let made = typed_tokens(alloc, pp.tokens.items())?;
    let Layers {
        tokens,
        syntax,
        core,
        types,
    } = made;
    Ok(Reading {
        unit: own,
        pp,
        tokens,
        syntax,
        core,
        types,
    })
}
