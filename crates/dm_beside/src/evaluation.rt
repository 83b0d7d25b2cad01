//! Whether the arguments of a run may be evaluated once and first, as those of a call are.

ghost use Rattle.std.specs.Prelude.{◌≡◌, IfOk};
ghost use Rattle.dm_tree.specs.TypeNumbers.{IsTypedUnit};
ghost use Rattle.dm_tree.specs.Views.{view_of_unit};
ghost use Rattle.dm_beside.specs.Evaluation as evaluation;

use crate::arguments::Arguments;
use crate::tally::all_pass;
use dm_effect::QuietFunctions;
use dm_runs::Run;
use dm_sites::Sites;
use dm_stable::Objects;
use dm_token::Memory;
use dm_type::Types;
use std::alloc::Global;

/// Whether each parameter of a run either occurs once, where it is evaluated first, or has arguments that are stable and of which one is
/// evaluated first or all are safe. Looks through the full expression once.
pub fn evaluates_alike(
    alloc: Global,
    sites: &Sites,
    quiet: &QuietFunctions,
    objects: &Objects,
    types: &Types,
    run: &Run,
) -> Result<bool, Memory>
    requires quiet { quiet.now ≡ sites.now }
    requires objects { objects.now ≡ sites.now }
    requires typed { IsTypedUnit types.now sites.now }
    ensures { IfOk result (λ answer. answer ≡ evaluation.evaluates_alike types.now (view_of_unit types.now sites.now) run.now) }
{
    if run.occurrences.is_empty() {
        return Ok(true);
    }
    let Some(number) = sites.find(run.span) else {
        return Ok(false);
    };
    let Some(site) = sites.get(number) else {
        return Ok(false);
    };
    let at = sites.path(alloc, number)?;
    let arguments = Arguments {
        alloc,
        sites,
        objects,
        types,
        run: site,
        at: &at,
        calm: quiet.are_quiet_around(site.full, &at),
    };
    let passed = all_pass(alloc, run.occurrences.items(), &arguments)?;
    Ok(passed)
}
