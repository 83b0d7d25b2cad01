//! Source file inclusion (6.10.2).

ghost use Rattle.std.specs.Prelude.{◌≡◌, ◌+◌, ◌<◌, ◌≤◌, ℕ, None, [], ◌∷◌, length, IfOk, IfErr, OnOk};
ghost use Rattle.dm_token.specs.declared.unit.Unit.{Unit as Source};
ghost use Rattle.dm_search.specs.Headers.{header_number};
ghost use Rattle.dm_search.specs.Joining.{candidates as names_for, places};
ghost use Rattle.dm_search.specs.Loaded.{name_of, number_of};
ghost use Rattle.dm_token.specs.Limits.{most_inclusions};
ghost use Rattle.dm_unit.specs.States.{Setting, Catalogue};
ghost use Rattle.dm_unit.specs.Includes.{is_quoted as quoted, is_header_kind, header_name};
ghost use Rattle.dm_unit.specs.Loaders.{shown, most_names};
ghost use Rattle.dm_unit.specs.Readings.{is_passed as passes};
ghost use Rattle.dm_unit.specs.Views.{IsFaultless, state_of, Serves, Leaves, stop_of, loaded_as, SearchLeads, NamesMain, IsHeld, FindsHeld, IsHeader, LacksHeader, FindsIncluded, IncludesOne};

use crate::reader::Reader;
use crate::stops::{passed, refused};
use dm_io::Folder;
use dm_search::Loader;
use dm_token::{
    HEADER_COUNT, MOST_INCLUSIONS, Place, PpKind, PpToken, Stop, Text, Unit, limit_numbers,
    refusals,
};
use std::alloc::Global;

/// A header name, and the place of the directive's `#`.
#[derive(Drop)]
pub(crate) struct Header {
    pub start: Place,
    pub quoted: bool,
    pub name: Text,
}

/// The header name of an `include` directive, where `operands` stand behind its name.
pub(crate) fn header_of(
    alloc: Global,
    start: &PpToken,
    operands: &[PpToken],
) -> Result<Header, Stop>
    ensures header { IfOk result (IsHeader start.now operands.now) }
    ensures stop { IfErr result (LacksHeader start.now operands.now) }
    ensures faultless { IfErr result IsFaultless }
{
    let [header, ..] = operands else {
        return Err(refused(refusals::DIRECTIVE, start.place));
    };
    if !is_header(header) {
        return Err(refused(refusals::OUT_OF_SUBSET, start.place));
    }
    let spelling = header.spelling.bytes();
    Ok(Header {
        start: start.place,
        quoted: is_quoted(spelling),
        name: Text::from_bytes(alloc, between(spelling))?,
    })
}

fn is_header(token: &PpToken) -> bool
    ensures { result ≡ is_header_kind token.now.kind }
{
    matches!(token.kind, PpKind::Header)
}

fn is_quoted(spelling: &[u8]) -> bool
    ensures { result ≡ quoted spelling.now }
{
    match spelling.first() {
        None => false,
        Some(byte) => *byte == b'"',
    }
}

/// The bytes without the first and the last.
fn between(spelling: &[u8]) -> &[u8]
    ensures { result.now ≡ header_name spelling.now }
{
    match spelling {
        [_, inside @ .., _] => inside,
        _ => &[],
    }
}

/// The number of the file that a header name means, which is counted as included.
pub(crate) fn find_included<F: Folder>(
    folder: &mut F,
    loader: &mut Loader,
    unit: &Unit,
    reader: &mut Reader,
    file: u32,
    header: Header,
) -> Result<u32, Stop>
    requires room { length loader.old.names ≤ most_names + reader.old.inclusions }
    requires few { reader.old.inclusions ≤ most_inclusions }
    requires numbered { file < length loader.old.names }
    ensures finds { (setting : Setting) → Serves (F.files folder.old) unit.now reader.old.main loader.old loader.new (stop_of result) setting →
        FindsIncluded setting file header (shown loader.old) reader.old result (shown loader.new) }
    ensures included { OnOk result (IncludesOne reader.old reader.new) }
    ensures held { IfOk result (IsHeld loader.new) }
    ensures room { OnOk result (length loader.new.names ≤ most_names + reader.new.inclusions) }
    ensures leaves { Leaves (F.files folder.old) (F.files folder.new) (F.room folder.old) (F.room folder.new) (F.faults folder.old) (F.faults folder.new) loader.old loader.new (stop_of result) }
{
    let found = match search(folder, loader, unit, file, &header) {
        Ok(Some(found)) => found,
        Ok(None) => return Err(refused(refusals::NOT_FOUND, header.start)),
        Err(stop) => return Err(stop),
    };
    if reader.inclusions >= MOST_INCLUSIONS {
        return Err(passed(limit_numbers::INCLUSIONS, reader.main));
    }
    reader.inclusions += 1;
    Ok(found)
}

/// The search for the file that a header name means.
fn search<F: Folder>(
    folder: &mut F,
    loader: &mut Loader,
    unit: &Unit,
    file: u32,
    header: &Header,
) -> Result<Option<u32>, Stop>
    requires room { length loader.old.names < 4294967295 }
    requires numbered { file < length loader.old.names }
    ensures search { (setting : Setting) (main : ℕ) → Serves (F.files folder.old) unit.now main loader.old loader.new (stop_of result) setting →
        SearchLeads setting (header_number header.now.name) (names_for header.now.name (places (name_of loader.old file) header.now.quoted setting.include)) (shown loader.old) result (shown loader.new) }
    ensures held { FindsHeld result loader.new }
    ensures names { length loader.new.names ≤ length loader.old.names + 1 }
    ensures leaves { Leaves (F.files folder.old) (F.files folder.new) (F.room folder.old) (F.room folder.new) (F.faults folder.old) (F.faults folder.new) loader.old loader.new (stop_of result) }
{
    // The proof needs a clause of this call: each name has a slot for its bytes.
    let _ = loader.names();
    loader.find(
        folder,
        file,
        header.quoted,
        &header.name,
        unit.include.items(),
    )
}

/// Loads the main file, and says whether there is one.
pub(crate) fn load_main<F: Folder>(
    folder: &mut F,
    loader: &mut Loader,
    name: &Text,
    file: u32,
) -> Result<bool, Stop>
    requires numbered { file < length loader.old.names }
    requires number { file ≡ number_of loader.old name.now }
    ensures search { (setting : Setting) (unit : Source) (main : ℕ) → Serves (F.files folder.old) unit main loader.old loader.new (stop_of result) setting →
        SearchLeads setting None (name.now ∷ []) (shown loader.old) (loaded_as file result) (shown loader.new) }
    ensures held { FindsHeld (loaded_as file result) loader.new }
    ensures names { OnOk result (length loader.new.names ≡ length loader.old.names) }
    ensures file { NamesMain file result }
    ensures leaves { Leaves (F.files folder.old) (F.files folder.new) (F.room folder.old) (F.room folder.new) (F.faults folder.old) (F.faults folder.new) loader.old loader.new (stop_of result) }
{
    // The proof needs a clause of this call: each name has a slot for its bytes.
    let _ = loader.names();
    loader.load(folder, file)
}

/// Whether a later inclusion of a file is empty: it has `#pragma once`, or is a built-in header that was read.
pub(crate) fn is_passed(reader: &Reader, file: u32) -> bool
    ensures { (files : Catalogue) → result ≡ passes file (state_of reader.now files) }
{
    reader.once.contains(&file) || (file < HEADER_COUNT as u32 && reader.files_read.contains(&file))
}
