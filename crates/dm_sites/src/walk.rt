//! A walk over the trees of a unit.

ghost use Rattle.std.specs.Prelude.{◌≡◌, ◌+◌, ◌++◌, ◌∷◌, [], map, IfOk, OnOk, List as Sequence};
ghost use Rattle.dm_type.specs.Tables.{Table, no_type};
ghost use Rattle.dm_tree.specs.Paths.{nodes_in};
ghost use Rattle.dm_tree.specs.Views.{entries_of, view, view_of_unit};
ghost use Rattle.dm_sites.specs.Rows.{nodes_left};
ghost use Rattle.dm_sites.specs.Seen.{seen};
ghost use Rattle.dm_sites.specs.Sites as sites;
ghost use Rattle.dm_sites.specs.Walks.{IsLeft};

use crate::rows::list_parts;
use crate::site::Site;
use crate::standing::is_statement;
use crate::waiting::{push_external, push_operands, push_statement};
use dm_token::{List, Memory};
use dm_tree::{Core, CoreUnit, Declared};
use std::alloc::Global;

/// All places of expressions of a unit, each before those inside it.
pub(crate) fn walk(alloc: Global, unit: &CoreUnit) -> Result<Vec<Site<'_>>, Memory>
    ensures { IfOk result (λ found. (types : Table) → map (seen types (sites.sites_of_unit (view_of_unit types unit.now))) found.items ≡ sites.sites_of_unit (view_of_unit types unit.now)) }
{
    let mut row = Vec::new(alloc);
    let mut waiting = Vec::new(alloc);
    let mut found = Vec::new(alloc);
    let mut left = unit.externals.items();
    while let Some((external, rest)) = left.split_first() {
        push_external(&unit.declared, external, &mut row, &mut waiting)?;
        spread(&unit.declared, &mut row, &mut waiting, &mut found)?;
        left = rest;
    }
    Ok(found)
}

/// Finds all places in the trees at those that wait.
fn spread<'a>(
    declared: &List<Declared>,
    row: &mut Vec<&'a Core>,
    waiting: &mut Vec<Site<'a>>,
    found: &mut Vec<Site<'a>>,
) -> Result<(), Memory>
    requires { row.old.items ≡ [] }
    ensures places { OnOk result ((types : Table) (all rest : Sequence sites.Site) → IsLeft types (entries_of types declared.now) all rest found.old.items waiting.old.items
        → all ≡ map (seen types all) found.new.items ++ rest) }
    ensures empty { OnOk result (row.new.items ≡ []) }
    ensures none { OnOk result (waiting.new.items ≡ []) }
{
    while let Some(site) = waiting.pop() {
        enter(declared, site, row, waiting, found)?;
    }
    Ok(())
}

/// Finds one place, and lets those of its parts wait.
fn enter<'a>(
    declared: &List<Declared>,
    site: Site<'a>,
    row: &mut Vec<&'a Core>,
    waiting: &mut Vec<Site<'a>>,
    found: &mut Vec<Site<'a>>,
) -> Result<(), Memory>
    requires { row.old.items ≡ [] }
    ensures places { OnOk result ((types : Table) (all rest : Sequence sites.Site) → IsLeft types (entries_of types declared.now) all rest found.old.items (waiting.old.items ++ site.entry ∷ [])
        → IsLeft types (entries_of types declared.now) all rest found.new.items waiting.new.items) }
    ensures fewer { OnOk result (nodes_left waiting.new.items + 1 ≡ nodes_left waiting.old.items + nodes_in (view no_type site.entry.tree.now)) }
    ensures empty { OnOk result (row.new.items ≡ []) }
{
    if is_statement(&site.tree.form) {
        push_statement(declared, site.tree, row, waiting)?;
        Ok(())
    } else {
        list_parts(&site.tree.form, row)?;
        push_operands(&site, found.len(), row, waiting)?;
        found.push(site)?;
        Ok(())
    }
}
