//! The runs of all definitions of a unit.

ghost use Rattle.std.specs.Prelude.{◌≡◌, ℕ, ◌<◌, ◌++◌, Some, map, length, slice_get, IfOk, IfSome, List as Sequence};
ghost use Rattle.dm_token.specs.declared.expansion.Mark.{Mark as SeenMark};
ghost use Rattle.dm_token.specs.declared.token.Token.{Token as SeenToken};
ghost use Rattle.dm_runs.specs.Beginnings.{last_mark, met};
ghost use Rattle.dm_runs.specs.Extents.{IsShape};
ghost use Rattle.dm_runs.specs.Listings.{items_at, runs_at};
ghost use Rattle.dm_runs.specs.Runs as runs;
ghost use Rattle.dm_runs.specs.Runs.{IsExpanded, first_part};

use crate::beginnings::Beginnings;
use crate::by_directive::{ByDirective, is_file};
use crate::extents::extents;
use crate::known::Known;
use crate::parts::first_parts;
use crate::run::Run;
use crate::shape::Shape;
use dm_token::{CToken, Mark, Memory, Read, UnitTokens};
use std::alloc::Global;
use std::marker::Model;

/// The runs of all macros that a unit's files define. Contracts see the directives and the list of each one's runs.
#[derive(Drop)]
pub struct Runs {
    lists: ByDirective<Run>,
}

impl Model for Runs {
    ghost use Rattle.std.specs.Prelude.{List as Sequence};
    ghost use Rattle.dm_runs.specs.declared.run.Run.{Run as SeenRun};
    ghost use Rattle.dm_runs.specs.declared.by_directive.Directive.{Directive as SeenDirective};

    ghost Value = { Sequence SeenDirective × Sequence (Sequence SeenRun) };

    ghost view = { λ runs. runs.lists };
}

// The position among those read of the definition in a file whose expansion a mark is.
fn expanded(read: &[Read], mark: Option<Mark>) -> Option<usize>
    ensures is { IsExpanded read.now mark result }
    ensures within { IfSome result (λ number. number < length read.now) }
{
    match mark {
        None => None,
        Some(
            Mark::Argument {
                parameter: _,
                occurrence: _,
            },
        ) => None,
        Some(
            Mark::Expansion {
                definition,
                instance: _,
            },
        ) => {
            let number = definition as usize;
            if number < read.len() && is_file(read[number].definition.origin) {
                Some(number)
            } else {
                None
            }
        }
    }
}

// With the run of one more beginning of trails, if it is one of a definition in a file.
fn with_run(
    found: ByDirective<Run>,
    alloc: Global,
    shape: &Shape,
    known: &Known,
    number: usize,
    part: u32,
) -> Result<ByDirective<Run>, Memory>
    requires shape { IsShape shape.now.beginnings.now.links.keys shape.now.beginnings.now.trails.items shape.now.extents.now shape.now.tokens.now }
    requires inside { number < length shape.now.beginnings.now.trails.items }
    requires part { (trail : Sequence SeenMark) → slice_get shape.now.beginnings.now.trails.items number ≡ Some trail → part ≡ first_part known.now.pp.now.tokens trail }
    ensures { IfOk result (λ more. (file hash : ℕ) (trail : Sequence SeenMark) → slice_get shape.now.beginnings.now.trails.items number ≡ Some trail
        → items_at more file hash ≡ items_at found file hash
        ++ runs.run_if known.now.pp.now shape.now.tokens.now file hash trail (runs.expanded known.now.pp.now.read (last_mark trail))) }
{
    let read = known.pp.read.items();
    let Some(place) = expanded(read, shape.beginnings.trails[number].last()) else {
        return Ok(found);
    };
    let stand = known.stand(place);
    let run = shape.run(alloc, &stand, number, part)?;
    let more = found.add(alloc, stand.definition, run)?;
    Ok(more)
}

// Those of all beginnings of trails of phase 4, which have the first numbers.
fn of_beginnings(
    alloc: Global,
    shape: &Shape,
    pp: &UnitTokens,
    parts: &[u32],
) -> Result<ByDirective<Run>, Memory>
    requires shape { IsShape shape.now.beginnings.now.links.keys shape.now.beginnings.now.trails.items shape.now.extents.now shape.now.tokens.now }
    requires known { (k : ℕ) (trail : Sequence SeenMark) → slice_get (met (map (λ (token : SeenToken). token.trail) pp.now.tokens)) k ≡ Some trail
        → slice_get shape.now.beginnings.now.trails.items k ≡ Some trail }
    requires parts { parts.now ≡ map (first_part pp.now.tokens) (met (map (λ (token : SeenToken). token.trail) pp.now.tokens)) }
    ensures { IfOk result (λ found. (file hash : ℕ) → items_at found file hash ≡ runs.runs_of pp.now shape.now.tokens.now file hash) }
{
    let known = Known::of(alloc, pp)?;
    let mut found = ByDirective::new(alloc);
    for number in 0..parts.len() {
        found = with_run(found, alloc, shape, &known, number, parts[number])?;
    }
    Ok(found)
}

impl Runs {
    /// The runs of all definitions in files that a unit reads, by the unit's tokens of phase 4 and of phase 7. More than
    /// 4,294,967,295 of either count as want of memory.
    // A function of its own in each program, so that profiles tell what it costs.
    #[inline(never)]
    pub fn of(alloc: Global, pp: &UnitTokens, tokens: &[CToken]) -> Result<Runs, Memory>
        ensures { IfOk result (λ found. (file hash : ℕ) → runs_at found file hash ≡ runs.runs_of pp.now tokens.now file hash) }
    {
        let most = u32::MAX as usize;
        if pp.tokens.len() > most || tokens.len() > most {
            return Err(Memory);
        }
        let mut beginnings = Beginnings::new(alloc)?;
        let parts = first_parts(alloc, &mut beginnings, pp.tokens.items())?;
        let extents = extents(alloc, &mut beginnings, tokens)?;
        let shape = Shape {
            beginnings: &beginnings,
            extents: &extents,
            tokens,
        };
        let lists = of_beginnings(alloc, &shape, pp, &parts)?;
        Ok(Runs { lists })
    }

    /// The runs of the definition whose `#` is this byte of a file, in the order of their first tokens, an outer one
    /// before an inner one. There are none where the unit doesn't read the definition.
    pub fn of_definition(&self, file: u32, hash: u32) -> &[Run]
        ensures { result.now ≡ runs_at self.now file hash }
    {
        self.lists.of_definition(file, hash)
    }
}
