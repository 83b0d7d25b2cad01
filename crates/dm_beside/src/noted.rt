//! Whether the arguments of the runs of one unit may be evaluated once and first.

ghost use Rattle.std.specs.Prelude.{◌≡◌, IfOk};
ghost use Rattle.dm_tree.specs.TypeNumbers.{IsTypedUnit};
ghost use Rattle.dm_tree.specs.Views.{view_of_unit};
ghost use Rattle.dm_beside.specs.Evaluation as evaluation;

use crate::amid::NotedArguments;
use crate::tally::all_pass;
use dm_around::Surroundings;
use dm_effect::QuietFunctions;
use dm_runs::Run;
use dm_sites::Sites;
use dm_stable::Objects;
use dm_token::Memory;
use dm_type::Types;
use std::alloc::Global;

/// The same as [`evaluates_alike`](crate::evaluates_alike), where it is noted what stands round the places of the unit, as for many runs:
/// doesn't look through the full expression, but only through the run and its arguments.
pub fn evaluates_alike_amid(
    alloc: Global,
    sites: &Sites,
    surroundings: &Surroundings,
    quiet: &QuietFunctions,
    objects: &Objects,
    types: &Types,
    run: &Run,
) -> Result<bool, Memory>
    requires surroundings { surroundings.now ≡ sites.now }
    requires quiet { quiet.now ≡ sites.now }
    requires objects { objects.now ≡ sites.now }
    requires typed { IsTypedUnit types.now sites.now }
    ensures { IfOk result (λ answer. answer ≡ evaluation.evaluates_alike types.now (view_of_unit types.now sites.now) run.now) }
{
    if run.occurrences.is_empty() {
        return Ok(true);
    }
    let Some(number) = sites.find(run.span) else {
        return Ok(false);
    };
    let Some(site) = sites.get(number) else {
        return Ok(false);
    };
    let arguments = NotedArguments {
        alloc,
        sites,
        surroundings,
        objects,
        types,
        run: site,
        number,
        calm: surroundings.are_quiet(sites, quiet, number),
    };
    let passed = all_pass(alloc, run.occurrences.items(), &arguments)?;
    Ok(passed)
}
