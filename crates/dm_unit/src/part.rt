//! The parts of a file: directives and text groups.

ghost use Rattle.std.specs.Prelude.{◌≡◌, ◌↔◌, ◌+◌, ◌<◌, ◌≤◌, ℕ, true, false, ◌∷◌, take, drop, length, slice_range, IsTrue, IfOk, IfErr, IfSome, OnOk, List as Sequence};
ghost use Rattle.dm_token.specs.declared.token.PpToken.{PpToken as Preprocessing};
ghost use Rattle.dm_token.specs.Limits.{most_inclusions};
ghost use Rattle.dm_unit.specs.States.{Setting, Catalogue};
ghost use Rattle.dm_unit.specs.Lines.{parts_of};
ghost use Rattle.dm_unit.specs.Sections.{is_read};
ghost use Rattle.dm_unit.specs.Loaders.{shown, most_names};
ghost use Rattle.dm_unit.specs.Readings.{DoesDirective, DoesRead, Enters, after_pragma};
ghost use Rattle.dm_unit.specs.Views.{IsFaultless, state_of, Does, LeadsTo, Serves, Leaves, stop_of, IsHeld, IsBytesOf, IsOther, PartLeads, part_of, held_tokens, text_or_none, IsCounted, Follows, FollowsPart};

use crate::conditional::{close, elif, open, otherwise};
use crate::definition::{define, undefine};
use crate::directive::{Directive, directive_of};
use crate::include::{find_included, header_of};
use crate::lines::{line_length, text_length};
use crate::reader::Reader;
use crate::stops::refused;
use crate::text::read_text;
use dm_io::Folder;
use dm_macro::{is_hash, is_word};
use dm_search::Loader;
use dm_token::{PpToken, Stop, Unit, refusals};
use std::alloc::Global;

/// How many tokens the part at the front has.
pub(crate) fn part_length(tokens: &[PpToken]) -> usize
    requires { 0 < length tokens.now }
    ensures some { 0 < result }
    ensures inside { result ≤ length tokens.now }
    ensures parts { parts_of tokens.now ≡ part_of (take result tokens.now) ∷ parts_of (drop result tokens.now) }
{
    if is_hash(&tokens[0]) {
        line_length(tokens)
    } else {
        text_length(tokens)
    }
}

/// The tokens of a file that is held.
pub(crate) fn tokens_of(loader: &Loader, file: u32) -> &[PpToken]
    requires { IsHeld loader.now file }
    ensures { result.now ≡ held_tokens loader.now file }
{
    loader.tokens(file)
}

/// Reads the part of a file that has the tokens from one number up to another, and gives the number of the file that it
/// includes, if any.
pub(crate) fn read_part<F: Folder>(
    alloc: Global,
    folder: &mut F,
    loader: &mut Loader,
    unit: &Unit,
    reader: &mut Reader,
    file: u32,
    from: usize,
    to: usize,
) -> Result<Option<u32>, Stop>
    requires counted { IsCounted reader.old }
    requires few { reader.old.inclusions ≤ most_inclusions }
    requires room { length loader.old.names ≤ most_names + reader.old.inclusions }
    requires held { IsHeld loader.old file }
    requires some { from < to }
    requires inside { to ≤ length (held_tokens loader.old file) }
    ensures leads { (setting : Setting) → Serves (F.files folder.old) unit.now reader.old.main loader.old loader.new (stop_of result) setting →
        PartLeads setting file (part_of (slice_range (held_tokens loader.old file) from to)) (state_of reader.old (shown loader.old)) result (state_of reader.new (shown loader.new)) }
    ensures follows { OnOk result (FollowsPart reader.old reader.new) }
    ensures held { IfOk result (λ included. IfSome included (IsHeld loader.new)) }
    ensures room { OnOk result (length loader.new.names ≤ most_names + reader.new.inclusions) }
    ensures leaves { Leaves (F.files folder.old) (F.files folder.new) (F.room folder.old) (F.room folder.new) (F.faults folder.old) (F.faults folder.new) loader.old loader.new (stop_of result) }
{
    let part = &tokens_of(loader, file)[from..to];
    let [start, behind @ ..] = part else {
        return Ok(None);
    };
    if !is_hash(start) {
        return match read_group(alloc, reader, loader, part) {
            Ok(()) => Ok(None),
            Err(stop) => Err(stop),
        };
    }
    let directive = directive_of(behind);
    if includes(reader, directive) {
        let header = match header_of(alloc, start, operands_of(part)) {
            Ok(header) => header,
            Err(stop) => return Err(stop),
        };
        return match find_included(folder, loader, unit, reader, file, header) {
            Ok(found) => Ok(Some(found)),
            Err(stop) => Err(stop),
        };
    }
    match do_directive(alloc, reader, loader, file, directive, start, part) {
        Ok(()) => Ok(None),
        Err(stop) => Err(stop),
    }
}

/// Whether a directive includes a file: it does where it is read.
fn includes(reader: &Reader, directive: Directive) -> bool
    ensures { IsTrue result ↔ ((directive ≡ Directive.Include) × (is_read reader.now.sections ≡ true)) }
{
    matches!(directive, Directive::Include) && reader.sections.is_read()
}

/// Reads a text group, or passes over it in a skipped group.
fn read_group(
    alloc: Global,
    reader: &mut Reader,
    loader: &Loader,
    group: &[PpToken],
) -> Result<(), Stop>
    requires { IsCounted reader.old }
    ensures leads { LeadsTo (text_or_none reader.old.main group.now (state_of reader.old (shown loader.now))) result (state_of reader.new (shown loader.now)) }
    ensures follows { OnOk result (Follows reader.old reader.new) }
    ensures faultless { IfErr result IsFaultless }
{
    if reader.sections.is_read() {
        read_text(alloc, reader, loader, group)?;
    }
    Ok(())
}

/// The tokens behind a directive's name, where `line` is its line from the `#` on.
fn operands_of(line: &[PpToken]) -> &[PpToken]
    ensures { result.now ≡ drop 2 line.now }
{
    match line {
        [_, _, operands @ ..] => operands,
        _ => &[],
    }
}

/// Does what a directive of a file does that includes nothing, where `line` is its line from the `#` on.
fn do_directive(
    alloc: Global,
    reader: &mut Reader,
    loader: &Loader,
    file: u32,
    directive: Directive,
    start: &PpToken,
    line: &[PpToken],
) -> Result<(), Stop>
    requires counted { IsCounted reader.old }
    requires held { IsHeld loader.now file }
    requires other { directive ≡ Directive.Include → is_read reader.old.sections ≡ false }
    ensures does { (setting : Setting) (behind : Sequence Preprocessing) (more : ℕ) → setting.main ≡ reader.old.main → IsBytesOf setting loader.now file → line.now ≡ start.now ∷ behind →
        Does (DoesDirective setting (Enters setting more) file directive start.now behind (state_of reader.old (shown loader.now))) result (state_of reader.new (shown loader.now)) }
    ensures follows { OnOk result (Follows reader.old reader.new) }
    ensures faultless { IfErr result IsFaultless }
{
    match directive {
        Directive::If | Directive::Ifdef | Directive::Ifndef => {
            open(alloc, reader, loader, directive, start, operands_of(line))
        }
        Directive::Elif => elif(alloc, reader, loader, start, operands_of(line)),
        Directive::Else => otherwise(reader, start),
        Directive::Endif => close(reader, start),
        other => {
            if reader.sections.is_read() {
                do_read(reader, loader, file, other, start, line)
            } else {
                Ok(())
            }
        }
    }
}

/// Does what a directive in a group that is read does.
fn do_read(
    reader: &mut Reader,
    loader: &Loader,
    file: u32,
    directive: Directive,
    start: &PpToken,
    line: &[PpToken],
) -> Result<(), Stop>
    requires counted { IsCounted reader.old }
    requires held { IsHeld loader.now file }
    requires other { IsOther directive }
    ensures does { (setting : Setting) (behind : Sequence Preprocessing) (more : ℕ) → setting.main ≡ reader.old.main → IsBytesOf setting loader.now file → line.now ≡ start.now ∷ behind →
        Does (DoesRead setting (Enters setting more) file directive start.now behind (state_of reader.old (shown loader.now))) result (state_of reader.new (shown loader.now)) }
    ensures follows { OnOk result (Follows reader.old reader.new) }
    ensures faultless { IfErr result IsFaultless }
{
    match directive {
        Directive::Define => define(reader, file, loader.bytes(file), start, line),
        Directive::Undef => undefine(reader, start, operands_of(line)),
        Directive::Pragma => pragma(reader, file, start, operands_of(line)),
        Directive::Null => Ok(()),
        Directive::Error => Err(refused(refusals::ERROR_DIRECTIVE, start.place)),
        Directive::Line => Err(refused(refusals::OUT_OF_SUBSET, start.place)),
        _ => Err(refused(refusals::DIRECTIVE, start.place)),
    }
}

/// `pragma`, of which `once` alone is known (6.10.6).
fn pragma(reader: &mut Reader, file: u32, start: &PpToken, operands: &[PpToken]) -> Result<(), Stop>
    requires { IsCounted reader.old }
    ensures leads { (files : Catalogue) → LeadsTo (after_pragma file start.now operands.now (state_of reader.old files)) result (state_of reader.new files) }
    ensures follows { OnOk result (Follows reader.old reader.new) }
    ensures faultless { IfErr result IsFaultless }
{
    match operands {
        [word] if is_word(word, b"once".as_slice()) => {
            reader.once.insert(file)?;
            Ok(())
        }
        _ => Err(refused(refusals::OUT_OF_SUBSET, start.place)),
    }
}
