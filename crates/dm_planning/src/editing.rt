//! The edit of a definition, which stands or is taken back.

ghost use Rattle.std.specs.Prelude.{◌≡◌, ◌↔◌, ◌<◌, ◌≤◌, ◌+◌, Option as Maybe, All, IfNone, IfOk, IfErr, IfSome, IsTrue, OnOk, true, false, length};
ghost use Rattle.dm_search.specs.Loaded.{is_held, with_bytes};
ghost use Rattle.dm_search.specs.Readable.{IsReadable};
ghost use Rattle.dm_unit.specs.Loaders.{most_names};
ghost use Rattle.dm_unit.specs.Views.{stop_of};
ghost use Rattle.dm_readings.specs.Again.{put_in as readings_with, reader_count};
ghost use Rattle.dm_readings.specs.Units.{HasShortDefines, IsTyped};
ghost use Rattle.dm_reading.specs.declared.reading.Reading.{Reading as Read};
ghost use Rattle.dm_subjects.specs.Alignments.{AreAllAligned};
ghost use Rattle.dm_subjects.specs.Tables.{AreKnown, AreNew};
ghost use Rattle.dm_planning.specs.Judging.{CanBeEdited, Edits, entry_with, file_of, reread_rule};
ghost use Rattle.dm_planning.specs.Steps.{AreGood, Holds, LeavesProject, RereadsTo, is_of_source as is_seen_of_source, items_with, project_of};
ghost use Rattle.dm_edit.specs.declared.plan.Fate.TheVariants.{Rewritten, Kept};

use dm_edit::{Change, Entry, Fate, edit, lies_in};
use dm_io::Folder;
use dm_project::{Steps, read_again};
use dm_reading::Reading;
use dm_search::{Loader, readable_bytes_are_not_refused};
use dm_subjects::{Known, News, aligned_news, bytes_at, indexes_with, tables_of};
use dm_token::{Definition, HEADER_COUNT, List, Memory, Stop, Unit};
use std::alloc::Global;
use std::mem;
use std::sync::ledger::Ledger;

/// The rule that a definition breaks where its edit can't stand.
pub(crate) const REREAD_RULE: u8 = 15;

/// Puts a declaration in place of a definition, and reads the units again that read its file. Where one isn't read within the limits, or
/// isn't aligned, the old bytes are put back.
pub(crate) fn edit_one<F: Folder, L: Ledger>(
    alloc: Global,
    folder: &mut F,
    loader: &mut Loader,
    units: &[Unit],
    kept: &mut List<Reading>,
    known: &mut Known,
    change: Change,
    readings: &mut Steps<L>,
) -> Result<Entry, Stop>
    requires room { length loader.old.names < most_names }
    requires short { All HasShortDefines units.now }
    requires good { AreGood units.now kept.old }
    requires known { AreKnown kept.old known.old }
    ensures edits { IfOk result (λ entry. Edits (F.files folder.old) units.now (project_of loader.old kept.old readings.old) change entry
        (project_of loader.new kept.new readings.new)) }
    ensures good { OnOk result (AreGood units.now kept.new) }
    ensures known { OnOk result (AreKnown kept.new known.new) }
    ensures stops { IfErr result (λ stop. is_seen_of_source stop ≡ false) }
    ensures leaves { LeavesProject (F.files folder.old) (F.files folder.new) (F.room folder.old) (F.room folder.new) (F.faults folder.old) (F.faults folder.new) loader.old loader.new (stop_of result) }
{
    let file = change.definition.place.file;
    if !can_be_edited(loader, &change.definition) {
        return Ok(kept_entry(change));
    }
    let before = List::from_vec(Vec::from_slice(alloc, bytes_at(loader, file))?);
    // So the bytes can be put back.
    loader.held_are_readable();
    if !hold_edited(alloc, loader, &change)? {
        return Ok(kept_entry(change));
    }
    if read_edited(alloc, folder, loader, units, kept, known, &change, readings)? {
        return Ok(rewritten_entry(change));
    }
    put_back(loader, file, before)?;
    Ok(kept_entry(change))
}

/// Whether a definition lies in the bytes of its file, which isn't a built-in header.
fn can_be_edited(loader: &Loader, definition: &Definition) -> bool
    ensures { IsTrue result ↔ CanBeEdited loader.now definition.now }
{
    let file = definition.place.file;
    file as usize >= HEADER_COUNT && lies_in(bytes_at(loader, file), definition)
}

/// Holds the bytes of a definition's file with the declaration in its place. Where they are refused, says so, and nothing is changed.
fn hold_edited(alloc: Global, loader: &mut Loader, change: &Change) -> Result<bool, Memory>
    requires { CanBeEdited loader.old change.now.definition }
    ensures { IfOk result (λ held. Holds change.now loader.old held loader.new) }
{
    let file = change.definition.place.file;
    let edited = edit(alloc, bytes_at(loader, file), change)?;
    match loader.replace(file, edited) {
        Ok(()) => Ok(true),
        Err(Stop::Memory) => Err(Memory),
        Err(_) => Ok(false),
    }
}

/// Reads the units again that read a definition's file, and says whether they stand for the old ones: all are read within the limits and
/// aligned. If not, the old readings stay.
fn read_edited<F: Folder, L: Ledger>(
    alloc: Global,
    folder: &mut F,
    loader: &mut Loader,
    units: &[Unit],
    kept: &mut List<Reading>,
    known: &mut Known,
    change: &Change,
    readings: &mut Steps<L>,
) -> Result<bool, Stop>
    requires room { length loader.old.names < most_names }
    requires short { All HasShortDefines units.now }
    requires good { AreGood units.now kept.old }
    requires known { AreKnown kept.old known.old }
    ensures rereads { IfOk result (λ stands. RereadsTo (F.files folder.old) units.now change.now kept.old loader.old stands kept.new loader.new) }
    ensures counted { OnOk result (readings.new ≡ readings.old + reader_count (file_of change.now) kept.old) }
    ensures good { OnOk result (AreGood units.now kept.new) }
    ensures known { OnOk result (AreKnown kept.new known.new) }
    ensures stops { IfErr result (λ stop. is_seen_of_source stop ≡ false) }
    ensures leaves { LeavesProject (F.files folder.old) (F.files folder.new) (F.room folder.old) (F.room folder.new) (F.faults folder.old) (F.faults folder.new) loader.old loader.new (stop_of result) }
{
    let file = change.definition.place.file;
    match read_again(alloc, folder, loader, file, units, kept.items(), readings) {
        Ok(news) => {
            let found = new_known(alloc, kept.items(), known, news.items(), change)?;
            let Some(new) = found else {
                return Ok(false);
            };
            put_over(&mut known.tables, new.tables);
            put_over(&mut known.names, new.names);
            put_in(alloc, kept, news);
            Ok(true)
        }
        Err(stop) => {
            if is_of_source(&stop) {
                Ok(false)
            } else {
                Err(stop)
            }
        }
    }
}

/// Whether the source is the cause of a stop: neither want of memory nor a fault of the folder.
fn is_of_source(stop: &Stop) -> bool
    ensures { result ≡ is_seen_of_source stop.now }
{
    matches!(stop, Stop::Refused(_) | Stop::Limit(_))
}

/// What is known of new readings, if each unit that has one is aligned with its old one. What is known of the old ones stays.
fn new_known(
    alloc: Global,
    kept: &[Reading],
    known: &mut Known,
    news: &[Option<Reading>],
    change: &Change,
) -> Result<Option<News>, Memory>
    requires typed { All IsTyped kept.now }
    requires known { AreKnown kept.now known.old }
    requires news { All (λ (new : Maybe Read). IfSome new IsTyped) news.now }
    ensures aligned { IfOk result (λ found. IfSome found (λ _. AreAllAligned change.now kept.now news.now)) }
    ensures new { IfOk result (λ found. IfSome found (AreNew news.now)) }
    ensures differs { IfOk result (λ found. IfNone found (¬ AreAllAligned change.now kept.now news.now)) }
    ensures known { OnOk result (AreKnown kept.now known.new) }
{
    let tables = mem::replace(&mut known.tables, Vec::new(alloc));
    let indexes = indexes_with(alloc, kept, tables)?;
    let found = aligned_news(alloc, indexes.as_slice(), news, change)?;
    known.tables = tables_of(alloc, indexes)?;
    Ok(found)
}

/// Puts new items in place of the old ones.
fn put_over<T: Drop>(items: &mut Vec<T>, news: Vec<Option<T>>)
    requires { length news.items ≤ length items.old.items }
    ensures { items.new.items ≡ items_with items.old.items news.items }
{
    let mut left = news;
    while let Some(new) = left.pop() {
        if let Some(item) = new {
            items[left.len()] = item;
        }
    }
}

/// Puts new readings in place of the old ones.
fn put_in(alloc: Global, kept: &mut List<Reading>, news: List<Option<Reading>>)
    requires { length news ≤ length kept.old }
    ensures { kept.new ≡ readings_with kept.old news }
{
    let mut readings = mem::replace(kept, List::new(alloc)).into_vec();
    put_over(&mut readings, news.into_vec());
    *kept = List::from_vec(readings);
}

/// Holds the bytes again that a file had. They can be read, so only memory can be wanting.
fn put_back(loader: &mut Loader, file: u32, bytes: List<u8>) -> Result<(), Memory>
    requires held { is_held loader.old file ≡ true }
    requires readable { IsReadable file bytes }
    ensures { OnOk result (loader.new ≡ with_bytes loader.old file bytes) }
{
    // The law by which nothing is refused here.
    readable_bytes_are_not_refused();
    match loader.replace(file, bytes) {
        Ok(()) => Ok(()),
        Err(Stop::Memory) => Err(Memory),
        Err(Stop::Refused(_)) => unreachable!(),
        Err(Stop::Limit(_)) => unreachable!(),
        Err(Stop::ReadFault(_)) => unreachable!(),
    }
}

/// A definition that stays, since its edit can't stand.
fn kept_entry(change: Change) -> Entry
    ensures { result ≡ entry_with change.definition (Kept reread_rule change.definition.place) }
{
    let place = change.definition.place;
    Entry {
        definition: change.definition,
        outcome: Fate::Kept {
            rule: REREAD_RULE,
            place,
        },
    }
}

/// A definition in whose place the declaration stands.
fn rewritten_entry(change: Change) -> Entry
    ensures { result ≡ entry_with change.definition (Rewritten change.kind) }
{
    Entry {
        outcome: Fate::Rewritten(change.kind),
        definition: change.definition,
    }
}
