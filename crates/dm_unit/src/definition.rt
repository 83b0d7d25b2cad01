//! Macro definitions: `#define`, `#undef` and the defines of a manifest.

ghost use Rattle.std.specs.Prelude.{◌≡◌, ◌<◌, ◌≤◌, [], ◌∷◌, ◌++◌, length, map, position, slice_set, Ok, IfOk, IfErr, OnOk, List as Sequence};
ghost use Rattle.std.specs.List.{list_any};
ghost use Rattle.dm_unit.specs.Sources.{reading_of};
ghost use Rattle.dm_token.specs.declared.token.PpToken.{PpToken as Shared};
ghost use Rattle.dm_token.specs.Limits.{source_length_limit};
ghost use Rattle.dm_unit.specs.States.{Catalogue};
ghost use Rattle.dm_unit.specs.Definitions.{DefinesLine, DoesDefine, DoesManifest, after_undef, use_of as use_in, origin_of as origin_in, define_line as line_in, implied_body as implied_in, is_equals_sign, define_text, define_token, hash_token, at_start, first_place as first_place_of};
ghost use Rattle.dm_unit.specs.Views.{AreIn, IsFaultless, state_of, Does, LeadsTo, IsLineOf, ReadingStops, TextStops, NamesMain, IsCounted, Follows};

use crate::head::is_plain_head;
use crate::reader::Reader;
use crate::stops::{passed, refused};
use dm_lex::tokens;
use dm_macro::{MacroTable, is_fixed, is_identifier};
use dm_phase::flatten;
use dm_spell::punctuator;
use dm_token::{
    HEADER_COUNT, List, MOST_WORK, Memory, Origin, Place, PpKind, PpToken, Stop, Text, Use,
    limit_numbers, refusals,
};
use std::alloc::Global;

/// Reads a line that defines a macro.
fn define_line(
    reader: &mut Reader,
    line: &[PpToken],
    origin: Origin,
    plain: bool,
) -> Result<(), Stop>
    requires counted { IsCounted reader.old }
    requires line { 0 < length line.now }
    ensures leads { (files : Catalogue) → Does (DefinesLine reader.old.main line.now origin plain (state_of reader.old files)) result (state_of reader.new files) }
    ensures follows { OnOk result (Follows reader.old reader.new) }
    ensures faultless { IfErr result IsFaultless }
    ensures file { AreIn reader.old.main line.now → NamesMain reader.old.main result }
{
    if reader.work.spent >= MOST_WORK {
        return Err(passed(limit_numbers::WORK, reader.main));
    }
    if let Err(stop) = reader.table.define(line, origin, plain) {
        return Err(stop);
    }
    reader.before.push(reader.tokens.len() as u32)?;
    reader.work.spent += 1;
    Ok(())
}

/// `#define` in the file of this number with these bytes, where `line` is its line from the `#` on.
pub(crate) fn define(
    reader: &mut Reader,
    file: u32,
    bytes: &[u8],
    start: &PpToken,
    line: &[PpToken],
) -> Result<(), Stop>
    requires counted { IsCounted reader.old }
    ensures leads { (files : Catalogue) (behind : Sequence Shared) → line.now ≡ start.now ∷ behind →
        Does (DoesDefine reader.old.main file bytes.now start.now behind (state_of reader.old files)) result (state_of reader.new files) }
    ensures follows { OnOk result (Follows reader.old reader.new) }
    ensures faultless { IfErr result IsFaultless }
{
    let [_, _, name, ..] = line else {
        return Err(refused(refusals::DIRECTIVE, start.place));
    };
    if !is_identifier(name) {
        return Err(refused(refusals::DIRECTIVE, start.place));
    }
    let plain = is_plain_head(bytes, start, line);
    define_line(reader, line, origin_of(file), plain)
}

/// Where a definition in the file of this number stands.
fn origin_of(file: u32) -> Origin
    ensures { result ≡ origin_in file }
{
    if file < HEADER_COUNT as u32 {
        Origin::Header
    } else {
        Origin::File
    }
}

/// `#undef`, where `operands` stand behind its name.
pub(crate) fn undefine(
    reader: &mut Reader,
    start: &PpToken,
    operands: &[PpToken],
) -> Result<(), Stop>
    requires { IsCounted reader.old }
    ensures leads { (files : Catalogue) → LeadsTo (after_undef start.now operands.now (state_of reader.old files)) result (state_of reader.new files) }
    ensures follows { OnOk result (Follows reader.old reader.new) }
    ensures faultless { IfErr result IsFaultless }
{
    let [name, ..] = operands else {
        return Err(refused(refusals::DIRECTIVE, start.place));
    };
    if !is_identifier(name) || is_fixed(name.spelling.bytes()) {
        return Err(refused(refusals::DIRECTIVE, start.place));
    }
    let used = use_of(&reader.table, name)?;
    reader.undefined.push(used)?;
    let count = reader.table.definitions().len() as u32;
    reader.read_before.push(count)?;
    let _ = reader.table.undefine(&name.spelling);
    Ok(())
}

/// The use of a name in a directive.
pub(crate) fn use_of(table: &MacroTable, name: &PpToken) -> Result<Use, Memory>
    ensures { IfOk result (λ used. used ≡ use_in table.now name.now) }
{
    Ok(Use {
        name: name.spelling.copy()?,
        definition: table.get(&name.spelling),
        place: name.place,
    })
}

/// A define of the manifest, as `NAME` or `NAME=BODY`.
pub(crate) fn define_of_manifest(
    alloc: Global,
    reader: &mut Reader,
    define: &Text,
) -> Result<(), Stop>
    requires counted { IsCounted reader.old }
    requires short { length define.now ≤ source_length_limit }
    ensures leads { (files : Catalogue) → Does (DoesManifest reader.old.main define.now (state_of reader.old files)) result (state_of reader.new files) }
    ensures follows { OnOk result (Follows reader.old reader.new) }
    ensures file { NamesMain reader.old.main result }
    ensures faultless { IfErr result IsFaultless }
{
    match manifest_line(alloc, reader.main, define.bytes()) {
        Ok(line) => define_line(reader, &line, Origin::Manifest, true),
        Err(stop) => Err(stop),
    }
}

/// The tokens of the line `#define NAME BODY`.
fn manifest_line(alloc: Global, main: u32, define: &[u8]) -> Result<Vec<PpToken>, Stop>
    requires { length define.now ≤ source_length_limit }
    ensures line { IfOk result (λ line. IsLineOf main define.now line.items) }
    ensures stop { IfErr result (TextStops main define.now) }
    ensures faultless { IfErr result IsFaultless }
{
    let text = manifest_text(alloc, define)?;
    match read_tokens(alloc, main, &text) {
        Ok(found) => Ok(line_of(alloc, main, define, found.items())?),
        Err(stop) => Err(stop),
    }
}

/// The preprocessing tokens of a text (5.1.1.2p1, phases 1 to 3).
fn read_tokens(alloc: Global, file: u32, text: &[u8]) -> Result<List<PpToken>, Stop>
    requires { length text.now ≤ source_length_limit }
    ensures tokens { IfOk result (λ tokens. reading_of file text.now ≡ Ok tokens) }
    ensures stop { IfErr result (ReadingStops file text.now) }
    ensures faultless { IfErr result IsFaultless }
{
    let flat = match flatten(alloc, file, text) {
        Ok(flat) => flat,
        Err(stop) => return Err(stop),
    };
    tokens(alloc, file, &flat, text)
}

/// The line of a define whose text has these tokens.
fn line_of(
    alloc: Global,
    main: u32,
    define: &[u8],
    found: &[PpToken],
) -> Result<Vec<PpToken>, Memory>
    ensures { IfOk result (λ line. line.items ≡ line_in main define.now found.now) }
{
    let mut line = manifest_head(alloc, main)?;
    add_at_start(&mut line, main, found)?;
    let mut implied = implied_body(alloc, main, define)?;
    line.append(&mut implied)?;
    Ok(line)
}

/// The body of a define that is a name alone.
fn implied_body(alloc: Global, main: u32, define: &[u8]) -> Result<Vec<PpToken>, Memory>
    ensures { IfOk result (λ body. body.items ≡ implied_in main define.now) }
{
    let mut body = Vec::new(alloc);
    if !has_equals_sign(define) {
        body.push(made(alloc, main, PpKind::Number, "1", true, false)?)?;
    }
    Ok(body)
}

fn has_equals_sign(define: &[u8]) -> bool
    ensures { result ≡ list_any is_equals_sign define.now }
{
    define.iter().any(|byte| *byte == b'=')
}

/// The position of the first `=`.
fn equals_sign(define: &[u8]) -> Option<usize>
    ensures { result ≡ position is_equals_sign define.now }
{
    define.iter().position(|byte| *byte == b'=')
}

/// The name and the body, with a blank between them in place of the first `=`.
fn manifest_text(alloc: Global, define: &[u8]) -> Result<Vec<u8>, Memory>
    ensures text { IfOk result (λ text. text.items ≡ define_text define.now) }
    ensures length { IfOk result (λ text. length text.items ≡ length define.now) }
{
    match equals_sign(define) {
        None => Ok(Vec::from_slice(alloc, define)?),
        Some(place) => with_blank(alloc, define, place),
    }
}

/// The bytes with a blank in the place of one.
fn with_blank(alloc: Global, bytes: &[u8], place: usize) -> Result<Vec<u8>, Memory>
    requires { place < length bytes.now }
    ensures { IfOk result (λ text. text.items ≡ slice_set bytes.now place 32) }
{
    let mut text = Vec::from_slice(alloc, bytes)?;
    text[place] = b' ';
    Ok(text)
}

/// The tokens `#` and `define`.
fn manifest_head(alloc: Global, main: u32) -> Result<Vec<PpToken>, Memory>
    ensures { IfOk result (λ line. line.items ≡ hash_token main ∷ (define_token main ∷ [])) }
{
    let mut line = Vec::new(alloc);
    line.push(made(
        alloc,
        main,
        PpKind::Punctuator(punctuator::HASH),
        "#",
        true,
        true,
    )?)?;
    line.push(made(alloc, main, PpKind::Identifier, "define", false, false)?)?;
    Ok(line)
}

/// Adds tokens, which are placed at the start of the main file.
fn add_at_start(line: &mut Vec<PpToken>, main: u32, found: &[PpToken]) -> Result<(), Memory>
    ensures { OnOk result (line.new.items ≡ line.old.items ++ map (at_start main) found.now) }
{
    for token in found {
        let mut token = token.copy()?;
        token.place = first_place(main);
        token.end = 0;
        line.push(token)?;
    }
    Ok(())
}

/// The start of the main file.
pub(crate) fn first_place(main: u32) -> Place
    ensures { result ≡ first_place_of main }
{
    Place {
        file: main,
        byte: 0,
        line: 1,
        column: 1,
    }
}

/// A token that the manifest implies.
fn made(
    alloc: Global,
    main: u32,
    kind: PpKind,
    spelling: &str,
    blank_before: bool,
    line_first: bool,
) -> Result<PpToken, Memory>
    ensures { IfOk result (λ token. token ≡ record { kind = kind; spelling = spelling.now; place = first_place_of main; end = 0; blank_before = blank_before; line_first = line_first }) }
{
    Ok(PpToken {
        kind,
        spelling: Text::new(alloc, spelling)?,
        place: first_place(main),
        end: 0,
        blank_before,
        line_first,
    })
}
