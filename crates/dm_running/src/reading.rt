//! One reading of a unit.

ghost use Rattle.std.specs.Prelude.{◌≡◌, ◌≤◌, ◌<◌, ℕ, List, length, Err, All, IfOk};
ghost use Rattle.dm_token.specs.Limits.{source_length_limit};
ghost use Rattle.dm_token.specs.declared.stop.Stop.TheVariants.{ReadFault};
ghost use Rattle.dm_io.specs.Faults.{Rose};
ghost use Rattle.dm_search.specs.Fresh.{fresh};
ghost use Rattle.dm_tree.specs.TypeNumbers.{IsTypedUnit};
ghost use Rattle.dm_running.specs.Readings.{IsUnitReading};

use dm_io::Folder;
use dm_read::{Steps, read_unit};
use dm_reading::Reading;
use dm_search::Loader;
use dm_token::{Stop, Unit};
use std::alloc::Global;
use std::marker::Brand;
use std::sync::ledger::{Blank, Ledger};

/// Reads a unit, by a loader that knows no file.
pub(crate) fn read_once<F: Folder>(
    alloc: Global,
    folder: &mut F,
    loader: &mut Loader,
    unit: Unit,
) -> Result<Reading, Stop>
    requires fresh { loader.old ≡ fresh }
    requires short { All (λ (define : List ℕ). length define ≤ source_length_limit) unit.define }
    ensures reading { IsUnitReading (F.files folder.old) unit result loader.new }
    ensures well_typed { IfOk result (λ given. IsTypedUnit given.types given.core) }
    ensures failed { (file : ℕ) → result ≡ Err (ReadFault file) → Rose (F.faults folder.old) (F.faults folder.new) }
    ensures files_stay { F.files folder.new ≡ F.files folder.old }
    ensures later { F.faults folder.old ≤ F.faults folder.new }
{
    read_counted::<F, Brand>(alloc, folder, loader, unit, Blank::new(1))
}

/// The same, with a count of readings.
fn read_counted<F: Folder, L: Ledger>(
    alloc: Global,
    folder: &mut F,
    loader: &mut Loader,
    unit: Unit,
    blank: Blank,
) -> Result<Reading, Stop>
    requires name { blank.name ≡ L.name }
    requires parts { blank.parts ≡ L.parts }
    requires some { 0 < L.parts }
    requires fresh { loader.old ≡ fresh }
    requires short { All (λ (define : List ℕ). length define ≤ source_length_limit) unit.define }
    ensures reading { IsUnitReading (F.files folder.old) unit result loader.new }
    ensures well_typed { IfOk result (λ given. IsTypedUnit given.types given.core) }
    ensures failed { (file : ℕ) → result ≡ Err (ReadFault file) → Rose (F.faults folder.old) (F.faults folder.new) }
    ensures files_stay { F.files folder.new ≡ F.files folder.old }
    ensures later { F.faults folder.old ≤ F.faults folder.new }
{
    let mut readings = Steps::<L>::new(blank);
    read_unit(alloc, folder, loader, &unit, &mut readings)
}
