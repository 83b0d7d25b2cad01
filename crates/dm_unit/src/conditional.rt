//! Conditional inclusion (6.10.1).

ghost use Rattle.std.specs.Prelude.{◌≡◌, ◌↔◌, IsTrue, ◌∷◌, IfOk, IfErr, OnOk, List as Sequence};
ghost use Rattle.dm_unit.specs.declared.section.Section.{Section as Open};
ghost use Rattle.dm_unit.specs.States.{Catalogue};
ghost use Rattle.dm_unit.specs.Loaders.{shown};
ghost use Rattle.dm_unit.specs.Sections.{stage_by as stage_of};
ghost use Rattle.dm_unit.specs.Conditions.{Evaluates};
ghost use Rattle.dm_unit.specs.Readings.{Opens, DoesElif, else_in, endif_in, end_in, pushed, within};
ghost use Rattle.dm_unit.specs.Views.{IsFaultless, state_of, Does, LeadsTo, Tests, TestsBy, IsBeforeElse, LacksSection, IsCounted, Follows};

use crate::condition::{evaluate, test_defined};
use crate::directive::Directive;
use crate::reader::Reader;
use crate::section::{Section, Stage};
use crate::stops::refused;
use dm_search::Loader;
use dm_token::{Place, PpToken, Stop, refusals};
use std::alloc::Global;

/// `if`, `ifdef` and `ifndef`: in a skipped group only the nesting is followed.
pub(crate) fn open(
    alloc: Global,
    reader: &mut Reader,
    loader: &Loader,
    directive: Directive,
    start: &PpToken,
    operands: &[PpToken],
) -> Result<(), Stop>
    requires { IsCounted reader.old }
    ensures does { Does (Opens start.now (state_of reader.old (shown loader.now)) (TestsBy directive reader.old.main start.now operands.now (state_of reader.old (shown loader.now))))
        result (state_of reader.new (shown loader.now)) }
    ensures follows { OnOk result (Follows reader.old reader.new) }
    ensures faultless { IfErr result IsFaultless }
{
    if !reader.sections.is_read() {
        return push(reader, start.place, Stage::Over);
    }
    match test(alloc, reader, loader, directive, start, operands) {
        Ok(truth) => push(reader, start.place, stage_by(truth)),
        Err(stop) => Err(stop),
    }
}

/// Opens a section.
fn push(reader: &mut Reader, hash: Place, stage: Stage) -> Result<(), Stop>
    requires { IsCounted reader.old }
    ensures leads { (files : Catalogue) → LeadsTo (pushed hash stage (state_of reader.old files)) result (state_of reader.new files) }
    ensures follows { OnOk result (Follows reader.old reader.new) }
    ensures faultless { IfErr result IsFaultless }
{
    reader.sections.open(Section {
        hash,
        stage,
        has_else: false,
    })?;
    Ok(())
}

/// Whether the condition of `if`, `ifdef` or `ifndef` is true.
fn test(
    alloc: Global,
    reader: &mut Reader,
    loader: &Loader,
    directive: Directive,
    start: &PpToken,
    operands: &[PpToken],
) -> Result<bool, Stop>
    requires { IsCounted reader.old }
    ensures tests { Tests (TestsBy directive reader.old.main start.now operands.now (state_of reader.old (shown loader.now))) result (state_of reader.new (shown loader.now)) }
    ensures follows { OnOk result (Follows reader.old reader.new) }
    ensures faultless { IfErr result IsFaultless }
{
    match directive {
        Directive::Ifdef => test_defined(reader, true, start, operands),
        Directive::Ifndef => test_defined(reader, false, start, operands),
        _ => evaluate(alloc, reader, loader, start, operands),
    }
}

/// The stage of a group whose condition has this truth.
fn stage_by(truth: bool) -> Stage
    ensures { result ≡ stage_of truth }
{
    if truth { Stage::Read } else { Stage::Waiting }
}

/// `elif`, whose condition is evaluated only where no group of its section was read yet.
pub(crate) fn elif(
    alloc: Global,
    reader: &mut Reader,
    loader: &Loader,
    start: &PpToken,
    operands: &[PpToken],
) -> Result<(), Stop>
    requires { IsCounted reader.old }
    ensures does { Does (DoesElif start.now reader.old.sections (Evaluates reader.old.main start.now operands.now (state_of reader.old (shown loader.now))) (state_of reader.old (shown loader.now)))
        result (state_of reader.new (shown loader.now)) }
    ensures follows { OnOk result (Follows reader.old reader.new) }
    ensures faultless { IfErr result IsFaultless }
{
    let section = match before_else(reader, start) {
        Ok(section) => section,
        Err(stop) => return Err(stop),
    };
    if !is_waiting(section.stage) {
        change(reader, section, Stage::Over);
        return Ok(());
    }
    match evaluate(alloc, reader, loader, start, operands) {
        Ok(truth) => {
            change(reader, section, stage_by(truth));
            Ok(())
        }
        Err(stop) => Err(stop),
    }
}

/// Whether no group of a section was read yet, and a later one may be.
fn is_waiting(stage: Stage) -> bool
    ensures { IsTrue result ↔ (stage ≡ Stage.Waiting) }
{
    matches!(stage, Stage::Waiting)
}

/// Changes the stage of the innermost section, which this is.
fn change(reader: &mut Reader, section: Section, stage: Stage)
    requires counted { IsCounted reader.old }
    ensures changed { (files : Catalogue) (outer : Sequence Open) → reader.old.sections ≡ section ∷ outer →
        state_of reader.new files ≡ within (record section { stage = stage } ∷ outer) (state_of reader.old files) }
    ensures follows { Follows reader.old reader.new }
{
    reader.sections.change(Section { stage, ..section });
}

/// `else`, which comes once.
pub(crate) fn otherwise(reader: &mut Reader, start: &PpToken) -> Result<(), Stop>
    requires { IsCounted reader.old }
    ensures leads { (files : Catalogue) → LeadsTo (else_in start.now reader.old.sections (state_of reader.old files)) result (state_of reader.new files) }
    ensures follows { OnOk result (Follows reader.old reader.new) }
    ensures faultless { IfErr result IsFaultless }
{
    let section = before_else(reader, start)?;
    let stage = match section.stage {
        Stage::Waiting => Stage::Read,
        _ => Stage::Over,
    };
    reader.sections.change(Section {
        stage,
        has_else: true,
        ..section
    });
    Ok(())
}

/// The innermost section, which has no `else` yet.
fn before_else(reader: &Reader, start: &PpToken) -> Result<Section, Stop>
    ensures section { IfOk result (IsBeforeElse reader.now.sections) }
    ensures stop { IfErr result (LacksSection start.now reader.now.sections) }
    ensures faultless { IfErr result IsFaultless }
{
    match reader.sections.innermost() {
        Some(section) if !section.has_else => Ok(section),
        _ => Err(refused(refusals::CONDITIONALS, start.place)),
    }
}

/// `endif`
pub(crate) fn close(reader: &mut Reader, start: &PpToken) -> Result<(), Stop>
    requires { IsCounted reader.old }
    ensures leads { (files : Catalogue) → LeadsTo (endif_in start.now reader.old.sections (state_of reader.old files)) result (state_of reader.new files) }
    ensures follows { OnOk result (Follows reader.old reader.new) }
    ensures faultless { IfErr result IsFaultless }
{
    if reader.sections.innermost().is_none() {
        return Err(refused(refusals::CONDITIONALS, start.place));
    }
    reader.sections.close();
    Ok(())
}

/// The end of a file, where no section may be open.
pub(crate) fn end(reader: &Reader) -> Result<(), Stop>
    ensures leads { (files : Catalogue) → LeadsTo (end_in reader.now.sections (state_of reader.now files)) result (state_of reader.now files) }
    ensures faultless { IfErr result IsFaultless }
{
    match reader.sections.innermost() {
        None => Ok(()),
        Some(section) => Err(refused(refusals::CONDITIONALS, section.hash)),
    }
}
