//! The reading of a project's units.

ghost use Rattle.std.specs.Prelude.{◌≡◌, ◌≢◌, ◌+◌, ◌<◌, ◌≤◌, ℕ, List as Sequence, Some, Err, All, IfOk, length, position, bytes_eq};
ghost use Rattle.dm_token.specs.declared.stop.Stop.TheVariants.{Memory as memory_wanted, ReadFault};
ghost use Rattle.dm_io.specs.Faults.{Rose};
ghost use Rattle.dm_io.specs.Files.{Files};
ghost use Rattle.dm_search.specs.Loaded.{number_of};
ghost use Rattle.dm_unit.specs.Loaders.{Grows, WasUnknown, stopped_at, most_names};
ghost use Rattle.dm_unit.specs.States.{limit};
ghost use Rattle.dm_unit.specs.Views.{StaysServed, stop_of};
ghost use Rattle.dm_reading.specs.Layered.{IsLayered};
ghost use Rattle.dm_readings.specs.Leaves.{AreThere, IsNumbered, Leaves};
ghost use Rattle.dm_readings.specs.Units.{HasShortDefines, ReadsNext, ReadsUnits, ReadsProject, KeepsLimits, IsTyped, ending, most_project_tokens, token_count};

use dm_io::Folder;
use dm_read::{Steps, read_unit};
use dm_reading::Reading;
use dm_readings::definitions;
use dm_search::Loader;
use dm_token::{Limit, List, MOST_DEFINITIONS, Stop, Text, Unit, limit_numbers};
use std::alloc::Global;
use std::sync::ledger::Ledger;

/// The most tokens of all units together.
pub(crate) const MOST_PROJECT_TOKENS: usize = 4_000_000;

/// The number that no file has.
pub(crate) const NO_FILE: u32 = u32::MAX;

/// With fewer names than so many there is room for those of a unit.
const MOST_NAMES: usize = 4_000_000_000;

/// The readings of a project's units, each read once, in order. 4,000,000,000 names or more count as want of memory.
///
/// # Errors
///
/// The first stop of a reading, or limit 10 where a unit has too many tokens besides those before it, at its main file; and
/// behind all readings limit 8, at the number that no file has.
pub fn read_units<F: Folder, L: Ledger>(
    alloc: Global,
    folder: &mut F,
    loader: &mut Loader,
    units: &[Unit],
    readings: &mut Steps<L>,
) -> Result<List<Reading>, Stop>
    requires room { length loader.old.names < most_names }
    requires short { All HasShortDefines units.now }
    ensures project { (files : Files) → F.files folder.old ≡ Some files →
        (begun : ℕ) × (readings.new ≡ readings.old + begun) × ReadsProject files units.now loader.old (ending result begun loader.new) }

    // Whether or not the folder tells its files.
    ensures counted { IfOk result (λ given. (length given ≡ length units.now) × (readings.new ≡ readings.old + length units.now)) }
    ensures at_most { (readings.old ≤ readings.new) × (readings.new ≤ readings.old + length units.now) }
    ensures limits { IfOk result KeepsLimits }
    ensures layers { IfOk result (All IsLayered) }
    ensures well_typed { IfOk result (All IsTyped) }

    // What the loader knows stays known, each new name's file is held, apart from that of a stop, and there is room for a unit more.
    ensures loader { result ≢ Err memory_wanted → Grows (stopped_at result) loader.old loader.new }
    ensures roomy { result ≢ Err memory_wanted → length loader.new.names < most_names }
    // The files of the call stay: those that the loader holds are those of the folder.
    ensures served { StaysServed (F.files folder.old) loader.old loader.new }
    ensures there { AreThere (F.files folder.old) loader.old → AreThere (F.files folder.old) loader.new }

    // A fault has its cause outside, and names a file of which nothing was known.
    ensures failed { (file : ℕ) → result ≡ Err (ReadFault file) → Rose (F.faults folder.old) (F.faults folder.new) }
    ensures unknown { (file : ℕ) → result ≡ Err (ReadFault file) → WasUnknown loader.old loader.new file }

    ensures files_stay { F.files folder.new ≡ F.files folder.old }
    ensures rooms_stay { (other : Sequence ℕ) → F.room folder.new other ≡ F.room folder.old other }
    ensures later { F.faults folder.old ≤ F.faults folder.new }
{
    let given = read_all(alloc, folder, loader, units, readings)?;
    if definitions(alloc, given.items())?.len() > MOST_DEFINITIONS {
        return Err(passed(limit_numbers::DEFINITIONS, NO_FILE));
    }
    Ok(given)
}

/// The readings of units, whose tokens are counted.
fn read_all<F: Folder, L: Ledger>(
    alloc: Global,
    folder: &mut F,
    loader: &mut Loader,
    units: &[Unit],
    readings: &mut Steps<L>,
) -> Result<List<Reading>, Stop>
    requires room { length loader.old.names < most_names }
    requires short { All HasShortDefines units.now }
    ensures units { (files : Files) → F.files folder.old ≡ Some files →
        (begun : ℕ) × (readings.new ≡ readings.old + begun) × ReadsUnits files units.now 0 loader.old (ending result begun loader.new) }
    ensures counted { IfOk result (λ given. (length given ≡ length units.now) × (readings.new ≡ readings.old + length units.now)) }
    ensures at_most { (readings.old ≤ readings.new) × (readings.new ≤ readings.old + length units.now) }
    ensures within { IfOk result (λ given. token_count given ≤ most_project_tokens) }
    ensures layers { IfOk result (All IsLayered) }
    ensures well_typed { IfOk result (All IsTyped) }
    ensures leaves { Leaves (F.files folder.old) (F.files folder.new) (F.room folder.old) (F.room folder.new) (F.faults folder.old) (F.faults folder.new) loader.old loader.new (stop_of result) }
{
    let mut given = List::new(alloc);
    let mut spent = 0;
    for unit in units {
        match read_next(alloc, folder, loader, unit, spent, readings) {
            Ok(reading) => {
                spent += reading.pp.tokens.len();
                given.push(reading)?;
            }
            Err(stop) => return Err(stop),
        }
    }
    Ok(given)
}

/// Reads a unit, whose tokens are counted behind so many of other units.
pub(crate) fn read_next<F: Folder, L: Ledger>(
    alloc: Global,
    folder: &mut F,
    loader: &mut Loader,
    unit: &Unit,
    spent: usize,
    readings: &mut Steps<L>,
) -> Result<Reading, Stop>
    requires room { length loader.old.names < most_names }
    requires short { HasShortDefines unit.now }
    requires few { spent ≤ most_project_tokens }
    ensures counted { readings.new ≡ readings.old + 1 }
    ensures next { (files : Files) → F.files folder.old ≡ Some files → ReadsNext files unit.now spent loader.old result loader.new }
    ensures within { IfOk result (λ given. spent + length given.pp.tokens ≤ most_project_tokens) }
    ensures layers { IfOk result IsLayered }
    ensures well_typed { IfOk result IsTyped }
    ensures leaves { Leaves (F.files folder.old) (F.files folder.new) (F.room folder.old) (F.room folder.new) (F.faults folder.old) (F.faults folder.new) loader.old loader.new (stop_of result) }
{
    number_names(loader);
    let result = read_unit(alloc, folder, loader, unit, readings);
    number_names(loader);
    if loader.names().len() >= MOST_NAMES {
        return Err(Stop::Memory);
    }
    let reading = result?;
    if reading.pp.tokens.len() > MOST_PROJECT_TOKENS - spent {
        return Err(passed(limit_numbers::PROJECT_TOKENS, number_in(loader, &unit.file)));
    }
    Ok(reading)
}

/// What holds of the numbers of each loader's names.
pub(crate) fn number_names(loader: &Loader)
    ensures { IsNumbered loader.now }
{
    // The proof needs their clauses: no two names are the same, the headers' come first, and each has a slot for its bytes.
    loader.names_differ();
    let _names = loader.names();
}

/// The number of a name, or the next one where it has none.
pub(crate) fn number_in(loader: &Loader, name: &Text) -> u32
    requires { length loader.now.names < most_names }
    ensures { result ≡ number_of loader.now name.now }
{
    let names = loader.names();
    position_of(names, name).unwrap_or(names.len()) as u32
}

/// The position of a name.
fn position_of(names: &[Text], name: &Text) -> Option<usize>
    ensures { result ≡ position (bytes_eq name.now) names.now }
{
    names.iter().position(|other| name == other)
}

/// The limit of this number, passed with a file.
pub(crate) fn passed(number: u8, file: u32) -> Stop
    ensures { result ≡ limit number file }
{
    Stop::Limit(Limit { number, file })
}
