//! Text groups.

ghost use Rattle.std.specs.Prelude.{◌≡◌, ◌++◌, IfOk, IfErr, OnOk};
ghost use Rattle.dm_unit.specs.Loaders.{shown};
ghost use Rattle.dm_unit.specs.Readings.{after_text};
ghost use Rattle.dm_unit.specs.Views.{IsFaultless, state_of, LeadsTo, ExpansionStops, IsCounted, Follows, Expands};

use crate::reader::Reader;
use crate::stops::{in_unit, passed};
use dm_expand::{Expanded, expand};
use dm_search::Loader;
use dm_token::{MOST_TOKENS, Memory, PpToken, Stop, Text, limit_numbers};
use std::alloc::Global;

/// Expands a text group (6.10.3).
pub(crate) fn read_text(
    alloc: Global,
    reader: &mut Reader,
    loader: &Loader,
    group: &[PpToken],
) -> Result<(), Stop>
    requires { IsCounted reader.old }
    ensures leads { LeadsTo (after_text reader.old.main group.now (state_of reader.old (shown loader.now))) result (state_of reader.new (shown loader.now)) }
    ensures follows { OnOk result (Follows reader.old reader.new) }
    ensures faultless { IfErr result IsFaultless }
{
    let expanded = expand_in(alloc, reader, loader.names(), group)?;
    let Expanded { tokens, expansions } = expanded;
    add_behind(expansions.into_vec(), &mut reader.expansions)?;
    add_behind(tokens.into_vec(), &mut reader.tokens)?;
    if reader.tokens.len() > MOST_TOKENS {
        return Err(passed(limit_numbers::UNIT_TOKENS, reader.main));
    }
    Ok(())
}

// Puts items behind others. Where there are no others, none is moved.
fn add_behind<T: Drop>(items: Vec<T>, others: &mut Vec<T>) -> Result<(), Memory>
    ensures { OnOk result (others.new.items ≡ others.old.items ++ items.items) }
{
    if others.is_empty() {
        *others = items;
        return Ok(());
    }
    let mut items = items;
    others.append(&mut items)?;
    Ok(())
}

/// The expansion of a group of tokens, where `names` are the files' names by number. It counts in the unit.
pub(crate) fn expand_in(
    alloc: Global,
    reader: &mut Reader,
    names: &[Text],
    group: &[PpToken],
) -> Result<Expanded, Stop>
    requires { IsCounted reader.old }
    ensures expands { IfOk result (λ expanded. Expands reader.old reader.new names.now group.now expanded.tokens expanded.expansions) }
    ensures stop { IfErr result (ExpansionStops reader.old names.now group.now) }
    ensures faultless { IfErr result IsFaultless }
{
    match expand(
        alloc,
        &reader.table,
        names,
        group,
        reader.instance,
        &mut reader.work,
    ) {
        Ok(expanded) => {
            reader.instance += expanded.expansions.len() as u32;
            Ok(expanded)
        }
        Err(stop) => Err(in_unit(reader.main, stop)),
    }
}
