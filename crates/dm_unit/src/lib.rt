//! A translation unit after phase 4 of C (ISO/IEC 9899:2011, 5.1.1.2): its directives are done and its macros expanded
//! (6.10).
#![tactic(auto)]

ghost use Rattle.std.specs.Prelude.{◌≡◌, ◌≢◌, ◌+◌, ◌<◌, ◌≤◌, ℕ, Bool, List, Some, Err, IfOk, IfErr, OnOk, All, length, slice_range};
ghost use Rattle.dm_token.specs.Limits.{source_length_limit, most_inclusions};
ghost use Rattle.dm_token.specs.declared.stop.Stop.TheVariants.{Memory, ReadFault};
ghost use Rattle.dm_io.specs.Faults.{Rose};
ghost use Rattle.dm_io.specs.Files.{Files};
ghost use Rattle.dm_search.specs.Loaded.{number_of};
ghost use Rattle.dm_unit.specs.States.{Setting, Catalogue, State, Outcome};
ghost use Rattle.dm_unit.specs.Outcomes.{seeing, Agree, IsLike};
ghost use Rattle.dm_unit.specs.Loaders.{Grows, WasUnknown, shown, stopped_at, most_names};
ghost use Rattle.dm_unit.specs.Readings.{ReadsPart, ReadsFile, ReadsMain, ReadsUnit, DoesManifests, Enters};
ghost use Rattle.dm_unit.specs.Units.{IsReadAs, IsReadByKnown, setting_of};
ghost use Rattle.dm_unit.specs.Views.{IsFaultless, state_of, Does, Serves, Leaves, stop_of, IsHeld, part_of, held_tokens, HoldsMain, NamesMain, IsCounted, Follows, FollowsPart, StaysServed};

mod condition;
mod conditional;
mod definition;
mod directive;
mod finish;
mod head;
mod include;
mod lines;
mod part;
mod reader;
mod section;
mod stops;
mod text;

use conditional::end;
use definition::{define_of_manifest, first_place};
pub use directive::Directive;
use dm_io::Folder;
use dm_search::Loader;
use dm_token::{MOST_NESTED, Stop, Text, Unit, UnitTokens, limit_numbers, refusals};
use finish::finish;
use include::{is_passed, load_main};
use part::{part_length, read_part, tokens_of};
use reader::Reader;
use section::Sections;
pub use section::{Section, Stage};
use std::alloc::Global;
use std::mem;
use stops::{passed, refused};

/// The tokens of a unit: those of its main file behind the manifest's defines, with its directives done and its macros
/// expanded (6.10). The files are those that the loader holds or knows to be absent, and for all other names the folder's.
///
/// # Errors
///
/// The first refusal among 2, 4 to 14 and 18, or the first limit among 1 to 4, 6 and 9, in the order of reading. Limits 1
/// and 6 name the file that was found, all others the main file. A fault names the file whose reading failed.
pub fn unit_tokens<F: Folder>(
    alloc: Global,
    folder: &mut F,
    loader: &mut Loader,
    unit: &Unit,
) -> Result<UnitTokens, Stop>
    requires room { length loader.old.names < most_names }
    requires short { All (λ (define : List ℕ). length define ≤ source_length_limit) unit.now.define }
    ensures reading { (files : Files) → F.files folder.old ≡ Some files →
        IsReadAs (setting_of loader.old loader.new files unit.now) unit.now loader.old result loader.new }

    // Whether or not the folder tells its files, what is given is the reading of those that the loader came to know.
    ensures known { IfOk result (IsReadByKnown unit.now loader.old loader.new) }

    // What the loader knows stays known, and each new name's file is held, apart from that of a stop.
    ensures loader { result ≢ Err Memory → Grows (stopped_at result) loader.old loader.new }

    // Where the folder tells its files, the loader holds what it read of them.
    ensures served { StaysServed (F.files folder.old) loader.old loader.new }

    // A fault has its cause outside, and names a file of which nothing was known.
    ensures failed { (file : ℕ) → result ≡ Err (ReadFault file) → Rose (F.faults folder.old) (F.faults folder.new) }
    ensures unknown { (file : ℕ) → result ≡ Err (ReadFault file) → WasUnknown loader.old loader.new file }

    ensures files_stay { F.files folder.new ≡ F.files folder.old }
    ensures rooms_stay { (other : List ℕ) → F.room folder.new other ≡ F.room folder.old other }
    ensures later { F.faults folder.old ≤ F.faults folder.new }
{
    read_unit(alloc, folder, loader, unit)
}

/// A unit has at most one outcome, failed readings apart, whatever names may be looked for and whatever numbers are called:
/// one state, up to the order of the names used in conditions (those that stand at one place have none), or one refusal or
/// limit.
pub fn one_outcome()
    ensures { (setting : Setting) (looked : List ℕ → Bool) (named : ℕ → List ℕ) (name : List ℕ) (defines : List (List ℕ)) (state : State) (one other : Outcome) →
        ReadsUnit setting name defines state one → ReadsUnit (seeing looked named setting) name defines state other →
        IfErr one IsFaultless → IfErr other IsFaultless → Agree IsLike one other }
{}

/// `unit_tokens`, with what it leaves in one clause.
fn read_unit<F: Folder>(
    alloc: Global,
    folder: &mut F,
    loader: &mut Loader,
    unit: &Unit,
) -> Result<UnitTokens, Stop>
    requires room { length loader.old.names < most_names }
    requires short { All (λ (define : List ℕ). length define ≤ source_length_limit) unit.now.define }
    ensures reading { (files : Files) → F.files folder.old ≡ Some files →
        IsReadAs (setting_of loader.old loader.new files unit.now) unit.now loader.old result loader.new }
    ensures known { IfOk result (IsReadByKnown unit.now loader.old loader.new) }
    ensures leaves { Leaves (F.files folder.old) (F.files folder.new) (F.room folder.old) (F.room folder.new) (F.faults folder.old) (F.faults folder.new) loader.old loader.new (stop_of result) }
{
    // The proof needs a clause of this call: each name has a slot for its bytes.
    let _ = loader.names();
    let main = loader.number(&unit.file)?;
    let mut reader = Reader::new(alloc, main)?;
    match read_all(alloc, folder, loader, unit, &mut reader, main) {
        Ok(()) => finish(alloc, reader),
        Err(stop) => Err(stop),
    }
}

/// Reads the defines of the manifest, and then the main file.
fn read_all<F: Folder>(
    alloc: Global,
    folder: &mut F,
    loader: &mut Loader,
    unit: &Unit,
    reader: &mut Reader,
    main: u32,
) -> Result<(), Stop>
    requires counted { IsCounted reader.old }
    requires few { reader.old.inclusions ≡ 0 }
    requires room { length loader.old.names ≤ most_names }
    requires numbered { main < length loader.old.names }
    requires number { main ≡ number_of loader.old unit.now.file }
    requires main { reader.old.main ≡ main }
    requires short { All (λ (define : List ℕ). length define ≤ source_length_limit) unit.now.define }
    ensures leads { (setting : Setting) → Serves (F.files folder.old) unit.now main loader.old loader.new (stop_of result) setting →
        Does (ReadsUnit setting unit.now.file unit.now.define (state_of reader.old (shown loader.old))) result (state_of reader.new (shown loader.new)) }
    ensures main { HoldsMain main result loader.new }
    ensures leaves { Leaves (F.files folder.old) (F.files folder.new) (F.room folder.old) (F.room folder.new) (F.faults folder.old) (F.faults folder.new) loader.old loader.new (stop_of result) }
{
    match read_defines(alloc, reader, unit.define.items()) {
        Ok(()) => read_main(alloc, folder, loader, unit, reader, main),
        Err(stop) => Err(stop),
    }
}

/// Reads the defines of the manifest.
fn read_defines(alloc: Global, reader: &mut Reader, defines: &[Text]) -> Result<(), Stop>
    requires counted { IsCounted reader.old }
    requires short { All (λ (define : List ℕ). length define ≤ source_length_limit) defines.now }
    ensures leads { (setting : Setting) (files : Catalogue) → setting.main ≡ reader.old.main →
        Does (DoesManifests setting defines.now (state_of reader.old files)) result (state_of reader.new files) }
    ensures follows { OnOk result (Follows reader.old reader.new) }
    ensures faultless { IfErr result IsFaultless }
    ensures file { NamesMain reader.old.main result }
{
    let mut rest = defines;
    while let Some((define, others)) = rest.split_first() {
        match define_of_manifest(alloc, reader, define) {
            Ok(()) => rest = others,
            Err(stop) => return Err(stop),
        }
    }
    Ok(())
}

/// Reads the main file, if there is one.
fn read_main<F: Folder>(
    alloc: Global,
    folder: &mut F,
    loader: &mut Loader,
    unit: &Unit,
    reader: &mut Reader,
    main: u32,
) -> Result<(), Stop>
    requires counted { IsCounted reader.old }
    requires few { reader.old.inclusions ≤ most_inclusions }
    requires room { length loader.old.names ≤ most_names }
    requires numbered { main < length loader.old.names }
    requires number { main ≡ number_of loader.old unit.now.file }
    requires main { reader.old.main ≡ main }
    ensures leads { (setting : Setting) → Serves (F.files folder.old) unit.now main loader.old loader.new (stop_of result) setting →
        Does (ReadsMain setting unit.now.file (state_of reader.old (shown loader.old))) result (state_of reader.new (shown loader.new)) }
    ensures main { HoldsMain main result loader.new }
    ensures leaves { Leaves (F.files folder.old) (F.files folder.new) (F.room folder.old) (F.room folder.new) (F.faults folder.old) (F.faults folder.new) loader.old loader.new (stop_of result) }
{
    match load_main(folder, loader, &unit.file, main) {
        Ok(true) => read_file(alloc, folder, loader, unit, reader, main, MOST_NESTED),
        Ok(false) => Err(refused(refusals::NOT_FOUND, first_place(main))),
        Err(stop) => Err(stop),
    }
}

/// Reads a file, within which so many more may be open.
#[cycle(files)]
fn read_file<F: Folder>(
    alloc: Global,
    folder: &mut F,
    loader: &mut Loader,
    unit: &Unit,
    reader: &mut Reader,
    file: u32,
    more: u32,
) -> Result<(), Stop>
    requires counted { IsCounted reader.old }
    requires few { reader.old.inclusions ≤ most_inclusions }
    requires room { length loader.old.names ≤ most_names + reader.old.inclusions }
    requires held { IsHeld loader.old file }
    ensures leads { (setting : Setting) → Serves (F.files folder.old) unit.now reader.old.main loader.old loader.new (stop_of result) setting →
        Does (ReadsFile setting (Enters setting more) file (state_of reader.old (shown loader.old))) result (state_of reader.new (shown loader.new)) }
    ensures follows { OnOk result (FollowsPart reader.old reader.new) }
    ensures room { OnOk result (length loader.new.names ≤ most_names + reader.new.inclusions) }
    ensures leaves { Leaves (F.files folder.old) (F.files folder.new) (F.room folder.old) (F.room folder.new) (F.faults folder.old) (F.faults folder.new) loader.old loader.new (stop_of result) }
{
    reader.files_read.insert(file)?;
    let outer = mem::replace(&mut reader.sections, Sections::new(alloc));
    let mut at = 0;
    while at < tokens_of(loader, file).len() {
        let to = at + part_length(&tokens_of(loader, file)[at..]);
        match read_and_enter(alloc, folder, loader, unit, reader, file, more, at, to) {
            Ok(()) => at = to,
            Err(stop) => return Err(stop),
        }
    }
    match end(reader) {
        Ok(()) => {
            reader.sections = outer;
            Ok(())
        }
        Err(stop) => Err(stop),
    }
}

/// Reads a part of a file, and enters the file that it includes, if any.
#[cycle(files)]
fn read_and_enter<F: Folder>(
    alloc: Global,
    folder: &mut F,
    loader: &mut Loader,
    unit: &Unit,
    reader: &mut Reader,
    file: u32,
    more: u32,
    from: usize,
    to: usize,
) -> Result<(), Stop>
    requires counted { IsCounted reader.old }
    requires few { reader.old.inclusions ≤ most_inclusions }
    requires room { length loader.old.names ≤ most_names + reader.old.inclusions }
    requires held { IsHeld loader.old file }
    requires some { from < to }
    requires inside { to ≤ length (held_tokens loader.old file) }
    ensures leads { (setting : Setting) → Serves (F.files folder.old) unit.now reader.old.main loader.old loader.new (stop_of result) setting →
        Does (ReadsPart setting (Enters setting more) file (part_of (slice_range (held_tokens loader.old file) from to)) (state_of reader.old (shown loader.old))) result (state_of reader.new (shown loader.new)) }
    ensures follows { OnOk result (FollowsPart reader.old reader.new) }
    ensures room { OnOk result (length loader.new.names ≤ most_names + reader.new.inclusions) }
    ensures leaves { Leaves (F.files folder.old) (F.files folder.new) (F.room folder.old) (F.room folder.new) (F.faults folder.old) (F.faults folder.new) loader.old loader.new (stop_of result) }
{
    match read_part(alloc, folder, loader, unit, reader, file, from, to) {
        Ok(None) => Ok(()),
        Ok(Some(included)) => enter(alloc, folder, loader, unit, reader, included, more),
        Err(stop) => Err(stop),
    }
}

/// Enters an included file, within which and with which so many may be open.
#[cycle(files)]
fn enter<F: Folder>(
    alloc: Global,
    folder: &mut F,
    loader: &mut Loader,
    unit: &Unit,
    reader: &mut Reader,
    file: u32,
    more: u32,
) -> Result<(), Stop>
    requires counted { IsCounted reader.old }
    requires few { reader.old.inclusions ≤ most_inclusions }
    requires room { length loader.old.names ≤ most_names + reader.old.inclusions }
    requires held { IsHeld loader.old file }
    ensures leads { (setting : Setting) → Serves (F.files folder.old) unit.now reader.old.main loader.old loader.new (stop_of result) setting →
        Does (Enters setting more file (state_of reader.old (shown loader.old))) result (state_of reader.new (shown loader.new)) }
    ensures follows { OnOk result (FollowsPart reader.old reader.new) }
    ensures room { OnOk result (length loader.new.names ≤ most_names + reader.new.inclusions) }
    ensures leaves { Leaves (F.files folder.old) (F.files folder.new) (F.room folder.old) (F.room folder.new) (F.faults folder.old) (F.faults folder.new) loader.old loader.new (stop_of result) }
{
    if more == 0 {
        return Err(passed(limit_numbers::NESTED_FILES, reader.main));
    }
    if is_passed(reader, file) {
        return Ok(());
    }
    read_file(alloc, folder, loader, unit, reader, file, more - 1)
}
