//! Trees that read only objects by their names.

ghost use Rattle.std.specs.Prelude.{◌≡◌, [], true, false, is_some, if◌then◌else◌, map, option_map, IfNone};
ghost use Rattle.std.specs.Option.{option_copied};
ghost use Rattle.dm_type.specs.CTypes.{CType};
ghost use Rattle.dm_type.specs.Tables.{Table};
ghost use Rattle.dm_tree.specs.Trees.{Trees, is_statement, more_trees, trees};
ghost use Rattle.dm_tree.specs.Views.{if_there, opened_form, view};
ghost use Rattle.dm_effect.specs.Entities.{object_first};
ghost use Rattle.dm_effect.specs.Forms as forms;
ghost use Rattle.dm_effect.specs.Forms.{by_parts, is_built};
ghost use Rattle.dm_effect.specs.Parts.{parts_in};
ghost use Rattle.dm_effect.specs.Stable.{steady_rule};
ghost use Rattle.dm_stable.specs.Built.{are_built_all, are_there, is_some_tree, ruling_of};

use crate::names::{Names, object_named, passes};
use dm_effect::{Parts, parts_of};
use dm_tree::{Core, Form};

/// Whether a tree is built from integer constants, addresses of objects by their names, and reads of whole objects that pass. Goes
/// down the left operands of commas in a loop, since a comma expression may have any number of parts.
#[cycle(steady)]
pub fn has_steady_leaves<N: Names>(tree: &Core, names: &N) -> bool
    ensures { (types : Table) → result ≡ is_built (steady_rule (N.test names.now)) (view types tree.now) }
{
    let mut at = tree;
    while let Form::Comma(left, right) = &at.form {
        if !has_steady_leaves(right.get(), names) {
            return false;
        }
        at = left.get();
    }
    match settled(&at.form, names) {
        Some(passed) => passed,
        None => parts_have_steady_leaves(parts_of(&at.form), names),
    }
}

/// What a node's form says of it, unless it is as its parts are.
fn settled<N: Names>(form: &Form, names: &N) -> Option<bool>
    ensures rule { (types : Table) (kind : CType) → let seen = opened_form types form.now in steady_rule (N.test names.now) seen.label kind (trees seen.parts) ≡ ruling_of result }
    ensures expression { IfNone result ((types : Table) → is_statement (opened_form types form.now).label ≡ false) }
{
    match form {
        Form::Number(_) | Form::Enumerator(_) => Some(true),
        Form::Read(a) => Some(passes(a.get(), names)),
        Form::Address(a) | Form::Decay(a) => settled_if_named(a.get()),
        Form::Block(_)
        | Form::Declare(_, _)
        | Form::Full(_)
        | Form::Empty
        | Form::If(_, _, _)
        | Form::Switch(_, _)
        | Form::Case(_, _)
        | Form::Default(_)
        | Form::While(_, _)
        | Form::Do(_, _)
        | Form::For(_, _, _, _)
        | Form::Break
        | Form::Continue
        | Form::Return(_) => Some(false),
        _ => None,
    }
}

/// The same of the address of what a tree designates.
fn settled_if_named(tree: &Core) -> Option<bool>
    ensures { (types : Table) (rest : Trees) → (if is_some (object_first (more_trees (view types tree.now) rest)) then forms.settled true else by_parts) ≡ ruling_of result }
{
    if object_named(tree).is_some() {
        Some(true)
    } else {
        None
    }
}

/// Whether there are parts, and all are built so.
#[cycle(steady)]
fn parts_have_steady_leaves<N: Names>(parts: Parts, names: &N) -> bool
    requires { parts.locals.now ≡ [] }
    ensures { (types : Table) → result ≡ are_there (steady_rule (N.test names.now)) (parts_in types parts.entry) }
{
    if !has_parts(parts) {
        return false;
    }
    if !part_has_steady_leaves(parts.first, names) {
        return false;
    }
    if !part_has_steady_leaves(parts.second, names) {
        return false;
    }
    if !part_has_steady_leaves(parts.third, names) {
        return false;
    }
    if !part_has_steady_leaves(parts.fourth, names) {
        return false;
    }
    all_have_steady_leaves(parts.items, names)
}

/// Whether there are parts.
fn has_parts(parts: Parts) -> bool
    requires { parts.locals.now ≡ [] }
    ensures { (types : Table) → result ≡ is_some_tree (parts_in types parts.entry) }
{
    parts.first.is_some()
        || parts.second.is_some()
        || parts.third.is_some()
        || parts.fourth.is_some()
        || !parts.items.is_empty()
}

/// Whether a part is built so, if it is there.
#[cycle(steady)]
fn part_has_steady_leaves<N: Names>(part: Option<&Core>, names: &N) -> bool
    ensures { (types : Table) → result ≡ are_built_all (steady_rule (N.test names.now)) (if_there (option_map (view types) (option_copied part.entry))) }
{
    match part {
        Some(tree) => has_steady_leaves(tree, names),
        None => true,
    }
}

/// Whether all trees of a list are built so.
#[cycle(steady)]
fn all_have_steady_leaves<N: Names>(trees: &[Core], names: &N) -> bool
    ensures { (types : Table) → result ≡ are_built_all (steady_rule (N.test names.now)) (map (view types) trees.now) }
{
    let mut left = trees;
    while let Some((tree, rest)) = left.split_first() {
        if !has_steady_leaves(tree, names) {
            return false;
        }
        left = rest;
    }
    true
}
