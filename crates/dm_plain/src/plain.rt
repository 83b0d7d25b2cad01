//! A walk over a tree, which looks for automatic objects that type names name.

ghost use Rattle.std.specs.Prelude.{◌≡◌, ◌+◌, ◌++◌, ◌&&◌, ◌||◌, ◌↔◌, ℕ, Bool, IfOk, IsTrue, OnOk, map};
ghost use Rattle.dm_type.specs.Tables.{Table, no_type};
ghost use Rattle.dm_tree.specs.Paths.{nodes_in};
ghost use Rattle.dm_tree.specs.Trees.{label_of};
ghost use Rattle.dm_tree.specs.Views.{entries_of, opened_form, view, view_of_unit};
ghost use Rattle.dm_effect.specs.Scoped as scoped;
ghost use Rattle.dm_meaning.specs.Statements as statements;
ghost use Rattle.dm_plain.specs.Plain.{HasPlainTypes};
ghost use Rattle.dm_plain.specs.Walks as walks;
ghost use Rattle.dm_plain.specs.Walks.{is_local, nodes_left, waiting_parts};

use dm_agree::parts_of;
use dm_token::Memory;
use dm_tree::{Core, CoreUnit, Form, Sort};
use std::alloc::Global;

/// A tree that waits for the walk, and whether it stands in a type name.
#[derive(Clone, Copy)]
pub(crate) struct Waiting<'a> {
    tree: &'a Core,
    inside: bool,
}

/// Whether no array length or enumerator's value of a type name in a tree of the unit names an automatic object. Goes once over the tree.
pub fn has_plain_types(alloc: Global, unit: &CoreUnit, tree: &Core) -> Result<bool, Memory>
    ensures { IfOk result (λ answer. (types : Table) → IsTrue answer ↔ HasPlainTypes (view_of_unit types unit.now) (view types tree.now)) }
{
    let mut waiting = Vec::new(alloc);
    waiting.push(Waiting {
        tree,
        inside: false,
    })?;
    while let Some(one) = waiting.pop() {
        if is_local_inside(unit, one) {
            return Ok(false);
        }
        enter(alloc, one, &mut waiting)?;
    }
    Ok(true)
}

/// Whether a tree stands in a type name and names an automatic object itself.
fn is_local_inside(unit: &CoreUnit, one: Waiting) -> bool
    ensures { (types : Table) → result ≡ (one.entry.inside && is_local (scoped.is_automatic (entries_of types unit.now.declared)) (label_of (view types one.entry.tree.now))) }
{
    one.inside && names_local(unit, one.tree)
}

fn names_local(unit: &CoreUnit, tree: &Core) -> bool
    ensures { (types : Table) → result ≡ is_local (scoped.is_automatic (entries_of types unit.now.declared)) (label_of (view types tree.now)) }
{
    is_local_form(unit, &tree.form)
}

fn is_local_form(unit: &CoreUnit, form: &Form) -> bool
    ensures { (types : Table) → result ≡ is_local (scoped.is_automatic (entries_of types unit.now.declared)) (opened_form types form.now).label }
{
    match form {
        Form::Object(number) => is_automatic(unit, *number),
        _ => false,
    }
}

/// Whether a declaration is of an automatic object (6.2.4p5).
fn is_automatic(unit: &CoreUnit, number: u32) -> bool
    ensures { (types : Table) → result ≡ scoped.is_automatic (entries_of types unit.now.declared) number }
{
    match unit.declared.items().get(number as usize) {
        Some(entry) => is_automatic_sort(entry.sort),
        None => false,
    }
}

fn is_automatic_sort(sort: Sort) -> bool
    ensures { result ≡ statements.is_automatic_sort sort }
{
    matches!(sort, Sort::Object { fixed: false })
}

/// Lets the parts of a tree wait.
fn enter<'a>(alloc: Global, one: Waiting<'a>, waiting: &mut Vec<Waiting<'a>>) -> Result<(), Memory>
    ensures names { OnOk result ((types : Table) (automatic : ℕ → Bool) → walks.waits automatic types waiting.new.items
        ≡ (walks.waits automatic types waiting.old.items || walks.names_inside automatic one.entry.inside (view types one.entry.tree.now))) }
    ensures fewer { OnOk result (nodes_left waiting.new.items + 1 ≡ nodes_left waiting.old.items + nodes_in (view no_type one.entry.tree.now)) }
{
    let first = is_first_inside(one);
    let others = are_others_inside(one);
    let parts = parts_of(alloc, &one.tree.form)?;
    push_parts(&parts, first, others, waiting)?;
    Ok(())
}

/// Whether the first part of a tree stands in a type name: all parts of `sizeof` of a type do.
fn is_first_inside(one: Waiting) -> bool
    ensures { (types : Table) → result ≡ (one.entry.inside || walks.is_first_inside (label_of (view types one.entry.tree.now))) }
{
    if one.inside {
        return true;
    }
    is_first_below(one.tree)
}

fn is_first_below(tree: &Core) -> bool
    ensures { (types : Table) → result ≡ walks.is_first_inside (label_of (view types tree.now)) }
{
    is_first_of(&tree.form)
}

fn is_first_of(form: &Form) -> bool
    ensures { (types : Table) → result ≡ walks.is_first_inside (opened_form types form.now).label }
{
    matches!(form, Form::SizeofKind(_, _))
}

/// Whether the others do, as those behind the operand of a cast.
fn are_others_inside(one: Waiting) -> bool
    ensures { (types : Table) → result ≡ (one.entry.inside || walks.are_others_inside (label_of (view types one.entry.tree.now))) }
{
    if one.inside {
        return true;
    }
    are_others_below(one.tree)
}

fn are_others_below(tree: &Core) -> bool
    ensures { (types : Table) → result ≡ walks.are_others_inside (label_of (view types tree.now)) }
{
    are_others_of(&tree.form)
}

fn are_others_of(form: &Form) -> bool
    ensures { (types : Table) → result ≡ walks.are_others_inside (opened_form types form.now).label }
{
    matches!(form, Form::Convert(_, _) | Form::SizeofKind(_, _))
}

fn push_parts<'a>(
    parts: &[&'a Core],
    first: bool,
    others: bool,
    waiting: &mut Vec<Waiting<'a>>,
) -> Result<(), Memory>
    ensures { OnOk result (waiting.new.items ≡ waiting.old.items ++ waiting_parts first others parts.entry.now) }
{
    if let Some((one, rest)) = parts.split_first() {
        waiting.push(Waiting {
            tree: one,
            inside: first,
        })?;
        push_all(rest, others, waiting)?;
    }
    Ok(())
}

fn push_all<'a>(
    parts: &[&'a Core],
    inside: bool,
    waiting: &mut Vec<Waiting<'a>>,
) -> Result<(), Memory>
    ensures { OnOk result (waiting.new.items ≡ waiting.old.items ++ map (walks.waiting_of inside) parts.entry.now) }
{
    for tree in parts {
        waiting.push(Waiting { tree, inside })?;
    }
    Ok(())
}
