//! Trees of the code, listed in order.

ghost use Rattle.std.specs.Prelude.{◌≡◌, ◌++◌, map, option_map, OnOk};
ghost use Rattle.std.specs.Option.{option_copied};
ghost use Rattle.dm_type.specs.Tables.{Table};
ghost use Rattle.dm_tree.specs.Views.{expressions_of_items, expressions_of_locals, if_there, opened_form, view, view_of_local};
ghost use Rattle.dm_meaning.specs.Wholes.{view_of_initial};
ghost use Rattle.dm_sites.specs.Rows.{row as trees_in};

use dm_effect::parts_of;
use dm_token::Memory;
use dm_tree::{Core, Form, Initial, Local};

/// Lists the trees directly below a node.
pub(crate) fn list_parts<'a>(form: &'a Form, row: &mut Vec<&'a Core>) -> Result<(), Memory>
    ensures { OnOk result ((types : Table) → trees_in types row.new.items ≡ trees_in types row.old.items ++ (opened_form types form.now).parts) }
{
    let parts = parts_of(form);
    list_optional(parts.first, row)?;
    list_optional(parts.second, row)?;
    list_optional(parts.third, row)?;
    list_optional(parts.fourth, row)?;
    list_trees(parts.items, row)?;
    list_locals(parts.locals, row)?;
    Ok(())
}

/// Lists a tree that may be left out.
fn list_optional<'a>(tree: Option<&'a Core>, row: &mut Vec<&'a Core>) -> Result<(), Memory>
    ensures { OnOk result ((types : Table) → trees_in types row.new.items ≡ trees_in types row.old.items ++ if_there (option_map (view types) (option_copied tree.entry))) }
{
    match tree {
        Some(tree) => {
            row.push(tree)?;
            Ok(())
        }
        None => Ok(()),
    }
}

/// Lists some trees.
pub(crate) fn list_trees<'a>(trees: &'a [Core], row: &mut Vec<&'a Core>) -> Result<(), Memory>
    ensures { OnOk result ((types : Table) → trees_in types row.new.items ≡ trees_in types row.old.items ++ map (view types) trees.now) }
{
    let mut left = trees;
    while let Some((tree, rest)) = left.split_first() {
        row.push(tree)?;
        left = rest;
    }
    Ok(())
}

/// Lists the expressions in the initialisers of declarators.
fn list_locals<'a>(locals: &'a [Local], row: &mut Vec<&'a Core>) -> Result<(), Memory>
    ensures { OnOk result ((types : Table) → trees_in types row.new.items ≡ trees_in types row.old.items ++ expressions_of_locals (map (view_of_local types) locals.now)) }
{
    let mut left = locals;
    while let Some((local, rest)) = left.split_first() {
        list_local(local, row)?;
        left = rest;
    }
    Ok(())
}

/// Lists the expressions in the initialiser of a declarator, if it has one.
pub(crate) fn list_local<'a>(local: &'a Local, row: &mut Vec<&'a Core>) -> Result<(), Memory>
    ensures { OnOk result ((types : Table) → trees_in types row.new.items ≡ trees_in types row.old.items ++ (view_of_local types local.now).expressions) }
{
    match &local.initial {
        Some(initial) => {
            list_initial(initial, row)?;
            Ok(())
        }
        None => Ok(()),
    }
}

/// Lists the expressions in an initialiser.
#[cycle(initial)]
fn list_initial<'a>(initial: &'a Initial, row: &mut Vec<&'a Core>) -> Result<(), Memory>
    ensures { OnOk result ((types : Table) → trees_in types row.new.items ≡ trees_in types row.old.items ++ (view_of_initial types initial.now).expressions) }
{
    match initial {
        Initial::Value(tree) => {
            row.push(tree.get())?;
            Ok(())
        }
        Initial::Parts(list) => {
            list_initials(list.items(), row)?;
            Ok(())
        }
    }
}

/// Lists those in some initialisers.
#[cycle(initial)]
fn list_initials<'a>(initials: &'a [Initial], row: &mut Vec<&'a Core>) -> Result<(), Memory>
    ensures { OnOk result ((types : Table) → trees_in types row.new.items ≡ trees_in types row.old.items ++ expressions_of_items (map (view_of_initial types) initials.now)) }
{
    let mut left = initials;
    while let Some((initial, rest)) = left.split_first() {
        list_initial(initial, row)?;
        left = rest;
    }
    Ok(())
}
