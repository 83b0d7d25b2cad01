//! One plan of a project's units.

ghost use Rattle.std.specs.Prelude.{◌≡◌, ◌<◌, ◌≤◌, map, bytes_eq, All, IfOk, IfErr};
ghost use Rattle.std.specs.List.{IsDistinct};
ghost use Rattle.dm_io.specs.Files.{HasFile};
ghost use Rattle.dm_manifest.specs.Units.{IsLawful};
ghost use Rattle.dm_search.specs.Fresh.{fresh};
ghost use Rattle.dm_edit.specs.declared.plan.Changed.{Changed};
ghost use Rattle.dm_apply.specs.Plans.{HasCause, IsOnePlan};

use dm_edit::Plan;
use dm_io::Folder;
use dm_planning::{Steps, plan};
use dm_readings::held_files_stay_there;
use dm_search::Loader;
use dm_token::{Stop, Unit};
use std::alloc::Global;
use std::marker::Brand;
use std::sync::ledger::{Blank, Ledger};

/// The plan of units, by a loader that knows no file.
pub(crate) fn plan_once<F: Folder>(
    alloc: Global,
    folder: &mut F,
    loader: &mut Loader,
    units: &[Unit],
) -> Result<Plan, Stop>
    requires fresh { loader.old ≡ fresh }
    requires lawful { All IsLawful units.now }
    ensures plan { IsOnePlan (F.files folder.old) units.now result loader.new }
    ensures there { IfOk result (λ given. All (λ (file : Changed). HasFile (F.files folder.old) file.name) given.files) }
    ensures apart { IfOk result (λ given. IsDistinct bytes_eq (map (λ (file : Changed). file.name) given.files)) }
    ensures cause { IfErr result (λ stop. HasCause stop (F.faults folder.old) (F.faults folder.new)) }
    ensures files_stay { F.files folder.new ≡ F.files folder.old }
    ensures later { F.faults folder.old ≤ F.faults folder.new }
{
    plan_counted::<F, Brand>(alloc, folder, loader, units, Blank::new(1))
}

/// The same, with a count of readings.
fn plan_counted<F: Folder, L: Ledger>(
    alloc: Global,
    folder: &mut F,
    loader: &mut Loader,
    units: &[Unit],
    blank: Blank,
) -> Result<Plan, Stop>
    requires name { blank.name ≡ L.name }
    requires parts { blank.parts ≡ L.parts }
    requires some { 0 < L.parts }
    requires fresh { loader.old ≡ fresh }
    requires lawful { All IsLawful units.now }
    ensures plan { IsOnePlan (F.files folder.old) units.now result loader.new }
    ensures there { IfOk result (λ given. All (λ (file : Changed). HasFile (F.files folder.old) file.name) given.files) }
    ensures apart { IfOk result (λ given. IsDistinct bytes_eq (map (λ (file : Changed). file.name) given.files)) }
    ensures cause { IfErr result (λ stop. HasCause stop (F.faults folder.old) (F.faults folder.new)) }
    ensures files_stay { F.files folder.new ≡ F.files folder.old }
    ensures later { F.faults folder.old ≤ F.faults folder.new }
{
    // The law on which it rests that what a new loader holds are files of the folder.
    held_files_stay_there();
    let mut readings = Steps::<L>::new(blank);
    plan(alloc, folder, loader, units, &mut readings)
}
