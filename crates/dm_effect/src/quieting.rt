//! Trees whose evaluation writes nothing.

ghost use Rattle.std.specs.Prelude.{◌≡◌, ◌≤◌, ◌==◌, ℕ, max, nat_le, IfOk, OnOk, vec_len, if◌then◌else◌};
ghost use Rattle.std.specs.List.{list_all};
ghost use Rattle.dm_type.specs.Tables.{Table};
ghost use Rattle.dm_tree.specs.Views.{view, view_of_external, view_of_unit};
ghost use Rattle.dm_effect.specs.Entities.{is_this};
ghost use Rattle.dm_effect.specs.Questions.{is_quiet_since};
ghost use Rattle.dm_effect.specs.Quiet.{is_quiet};
ghost use Rattle.dm_effect.specs.Sequencing.{around};
ghost use Rattle.dm_effect.specs.Tables.{joins, Enters};

use crate::around::{Doubt, any_around};
use crate::functions::{is_quiet_at, returned};
use crate::question::Question;
use crate::sequencing::Path;
use crate::walk::any_node;
use dm_token::Memory;
use dm_tree::{Core, CoreExternal, CoreExternalForm, CoreUnit};
use std::alloc::Global;
use std::marker::Model;

/// The functions of a unit that are quiet, each with the token from which on it is. Contracts see the unit.
#[derive(Drop)]
pub struct QuietFunctions<'a> {
    unit: &'a CoreUnit,
    /// By the numbers of their declarations.
    since: Vec<Option<u32>>,
}

impl<'a> Model for QuietFunctions<'a> {
    ghost use Rattle.std.specs.Coded.{codes};
    ghost use Rattle.dm_tree.specs.contracts.tree.Core as core;
    ghost use Rattle.dm_tree.specs.contracts.tree.Initial as initial;
    ghost use Rattle.dm_tree.specs.contracts.tree.Local as local;
    ghost use Rattle.dm_tree.specs.declared.unit.CoreUnit.{CoreUnit as OneUnit};
    ghost use Rattle.dm_effect.specs.Tables.{IsTable};

    ghost Value = { OneUnit };

    ghost coded = { Prim.hlevel (codes, core.the_row.coded, initial.the_row.coded, local.the_row.coded) };

    ghost view = { λ table. table.unit.now };

    ghost invariant = { λ table. IsTable table.unit.now table.since.items };
}

impl<'a> QuietFunctions<'a> {
    /// Those of a unit, found in one pass: in linear time, since a typed unit has no more declarations than tokens.
    pub fn of(alloc: Global, unit: &'a CoreUnit) -> Result<QuietFunctions<'a>, Memory>
        ensures { IfOk result (λ made. made ≡ unit.now) }
    {
        let mut since = Vec::new(alloc);
        let mut end = 0;
        let externals = unit.externals.items();
        for external in externals {
            end = later(end, external.span.after);
            enter(&mut since, external, end)?;
        }
        Ok(QuietFunctions { unit, since })
    }

    /// The unit.
    pub fn unit(&self) -> &'a CoreUnit
        ensures { result.now ≡ self.now }
    {
        self.unit
    }

    /// Whether a tree of the unit is quiet. Takes the time of one walk over it.
    pub fn is_quiet(&self, tree: &Core) -> bool
        ensures { (types : Table) → result ≡ is_quiet (view_of_unit types self.now) (view types tree.now) }
    {
        let since = self.since.as_slice();
        !any_node(tree, Question::Disturbs(since, tree.inner.first))
    }

    /// Whether what stands at a place of a full expression in the unit, and all operands that are unsequenced to it, are quiet.
    pub fn are_quiet_around(&self, full: &Core, at: &Path) -> bool
        ensures { (types : Table) → result ≡ list_all (is_quiet (view_of_unit types self.now)) (around at.now (view types full.now)) }
    {
        !any_around(full, at, Doubt::Disturbs(self.since.as_slice()))
    }
}

/// Whether a tree of the unit has no store, and calls only functions whose whole body is one `return` of such a tree and which
/// the unit defines before the external declaration in which the tree stands. [`QuietFunctions`] is for many trees of one unit.
pub fn quiet(alloc: Global, unit: &CoreUnit, tree: &Core) -> Result<bool, Memory>
    ensures { (types : Table) → IfOk result (λ answer. answer ≡ is_quiet (view_of_unit types unit.now) (view types tree.now)) }
{
    let functions = QuietFunctions::of(alloc, unit)?;
    Ok(functions.is_quiet(tree))
}

/// The later of two tokens.
fn later(one: u32, other: u32) -> u32
    ensures { result ≡ max one other }
{
    one.max(other)
}

/// One more external declaration; it and those before it end before the token.
fn enter(since: &mut Vec<Option<u32>>, external: &CoreExternal, token: u32) -> Result<(), Memory>
    ensures { OnOk result (Enters since.old.items token external.now since.new.items) }
{
    if let Some(function) = made_quiet(external, since.as_slice(), token) {
        if !is_quiet_at(since.as_slice(), token, function) {
            place(since, function, token)?;
        }
    }
    Ok(())
}

/// The function that an external declaration makes quiet, where those that are so at the token are before it.
fn made_quiet(external: &CoreExternal, since: &[Option<u32>], token: u32) -> Option<u32>
    ensures { (types : Table) (d : ℕ) → joins (is_quiet_since since.now token) d (view_of_external types external.now).form ≡ is_this d result }
{
    match &external.form {
        CoreExternalForm::Declaration(_) => None,
        CoreExternalForm::Function {
            function,
            parameters: _,
            body,
        } => match returned(body) {
            Some(value) => {
                if any_node(value, Question::Disturbs(since, token)) {
                    None
                } else {
                    Some(*function)
                }
            }
            None => None,
        },
    }
}

/// A function is quiet from the token on.
fn place(since: &mut Vec<Option<u32>>, function: u32, from: u32) -> Result<(), Memory>
    ensures { OnOk result ((token d : ℕ) → is_quiet_since since.new.items token d ≡ (if function == d then nat_le from token else is_quiet_since since.old.items token d)) }
{
    let number = function as usize;
    grow(since, number + 1)?;
    since[number] = Some(from);
    Ok(())
}

/// The table goes at least to this length.
fn grow(since: &mut Vec<Option<u32>>, least: usize) -> Result<(), Memory>
    ensures same { OnOk result ((token d : ℕ) → is_quiet_since since.new.items token d ≡ is_quiet_since since.old.items token d) }
    ensures long { OnOk result (least ≤ vec_len since.new) }
{
    while since.len() < least {
        since.push(None)?;
    }
    Ok(())
}
