//! Places that wait for a walk, the last one first.

ghost use Rattle.std.specs.Prelude.{◌≡◌, ◌++◌, [], map, reverse, slice_get, OnOk, List as Sequence};
ghost use Rattle.dm_type.specs.Tables.{Table};
ghost use Rattle.dm_tree.specs.Trees.{label_of, parts_of as parts_in};
ghost use Rattle.dm_tree.specs.Views.{entries_of, view, view_of_external, view_of_form, view_of_local};
ghost use Rattle.dm_effect.specs.Questions.{as_local};
ghost use Rattle.dm_sites.specs.Rows.{row as trees_in};
ghost use Rattle.dm_sites.specs.Seen.{path_at, seen};
ghost use Rattle.dm_sites.specs.Sites as sites;
ghost use Rattle.dm_sites.specs.Walks.{operands_at};

use crate::rows::{list_local, list_parts, list_trees};
use crate::site::{Site, operand, whole};
use dm_token::{List, Memory};
use dm_tree::{Core, CoreExternal, CoreExternalForm, Declared, Form, Local, Sort};

/// Pushes the full expressions of a row, and leaves the row empty.
fn push_whole<'a>(
    row: &mut Vec<&'a Core>,
    constant: bool,
    fixed: bool,
    waiting: &mut Vec<Site<'a>>,
) -> Result<(), Memory>
    ensures places { OnOk result ((types : Table) (all : Sequence sites.Site) → map (seen types all) waiting.new.items
        ≡ map (seen types all) waiting.old.items ++ reverse (map (sites.whole constant fixed) (trees_in types row.old.items))) }
    ensures empty { OnOk result (row.new.items ≡ []) }
{
    while let Some(tree) = row.pop() {
        waiting.push(whole(tree, constant, fixed))?;
    }
    Ok(())
}

/// Pushes the parts of an expression, which are in a row, and leaves the row empty. The expression's place has a number.
pub(crate) fn push_operands<'a>(
    above: &Site<'a>,
    site: usize,
    row: &mut Vec<&'a Core>,
    waiting: &mut Vec<Site<'a>>,
) -> Result<(), Memory>
    ensures places { OnOk result ((types : Table) (all : Sequence sites.Site) → map (seen types all) waiting.new.items
        ≡ map (seen types all) waiting.old.items ++ reverse (operands_at (path_at all site) (seen types all above.now) (trees_in types row.old.items))) }
    ensures empty { OnOk result (row.new.items ≡ []) }
{
    while let Some(tree) = row.pop() {
        waiting.push(operand(above, site, row.len(), tree))?;
    }
    Ok(())
}

/// Whether an object has static storage duration.
fn is_fixed(declared: &List<Declared>, number: u32) -> bool
    ensures { (types : Table) → sites.is_fixed_entry (slice_get (entries_of types declared.now) number) ≡ result }
{
    match declared.items().get(number as usize) {
        Some(entry) => match entry.sort {
            Sort::Object { fixed } => fixed,
            _ => false,
        },
        None => false,
    }
}

/// Pushes the expressions of a declarator's initialiser.
fn push_local<'a>(
    declared: &List<Declared>,
    local: &'a Local,
    row: &mut Vec<&'a Core>,
    waiting: &mut Vec<Site<'a>>,
) -> Result<(), Memory>
    requires { row.old.items ≡ [] }
    ensures places { OnOk result ((types : Table) (all : Sequence sites.Site) → map (seen types all) waiting.new.items
        ≡ map (seen types all) waiting.old.items ++ reverse (sites.initial_sites (entries_of types declared.now) (as_local (view_of_local types local.now)))) }
    ensures empty { OnOk result (row.new.items ≡ []) }
{
    list_local(local, row)?;
    let fixed = is_fixed(declared, local.declared);
    push_whole(row, false, fixed, waiting)?;
    Ok(())
}

/// Pushes those of declarators.
fn push_locals<'a>(
    declared: &List<Declared>,
    locals: &'a [Local],
    row: &mut Vec<&'a Core>,
    waiting: &mut Vec<Site<'a>>,
) -> Result<(), Memory>
    requires { row.old.items ≡ [] }
    ensures places { OnOk result ((types : Table) (all : Sequence sites.Site) → map (seen types all) waiting.new.items
        ≡ map (seen types all) waiting.old.items ++ reverse (sites.declarator_sites (entries_of types declared.now) (map as_local (map (view_of_local types) locals.now)))) }
    ensures empty { OnOk result (row.new.items ≡ []) }
{
    let mut left = locals;
    while let Some((local, before)) = left.split_last() {
        push_local(declared, local, row, waiting)?;
        left = before;
    }
    Ok(())
}

/// Pushes the parts of a statement.
pub(crate) fn push_statement<'a>(
    declared: &List<Declared>,
    statement: &'a Core,
    row: &mut Vec<&'a Core>,
    waiting: &mut Vec<Site<'a>>,
) -> Result<(), Memory>
    requires { row.old.items ≡ [] }
    ensures places { OnOk result ((types : Table) (all : Sequence sites.Site) → map (seen types all) waiting.new.items
        ≡ map (seen types all) waiting.old.items ++ reverse (sites.statement_parts (entries_of types declared.now) (label_of (view types statement.now)) (parts_in (view types statement.now)))) }
    ensures empty { OnOk result (row.new.items ≡ []) }
{
    match &statement.form {
        Form::Declare(lengths, locals) => {
            push_locals(declared, locals.items(), row, waiting)?;
            list_trees(lengths.items(), row)?;
            push_whole(row, true, false, waiting)?;
            Ok(())
        }
        Form::Case(value, inner) => {
            waiting.push(whole(inner.get(), false, false))?;
            waiting.push(whole(value.get(), true, false))?;
            Ok(())
        }
        _ => {
            list_parts(&statement.form, row)?;
            push_whole(row, false, false, waiting)?;
            Ok(())
        }
    }
}

/// Pushes the full expressions of an external declaration.
pub(crate) fn push_external<'a>(
    declared: &List<Declared>,
    external: &'a CoreExternal,
    row: &mut Vec<&'a Core>,
    waiting: &mut Vec<Site<'a>>,
) -> Result<(), Memory>
    requires { row.old.items ≡ [] }
    ensures places { OnOk result ((types : Table) (all : Sequence sites.Site) → map (seen types all) waiting.new.items
        ≡ map (seen types all) waiting.old.items ++ reverse (sites.external_sites (entries_of types declared.now) (view_of_external types external.now))) }
    ensures empty { OnOk result (row.new.items ≡ []) }
{
    push_form(declared, &external.form, row, waiting)?;
    list_trees(external.constants.items(), row)?;
    push_whole(row, true, false, waiting)?;
    Ok(())
}

/// Pushes those of its form.
fn push_form<'a>(
    declared: &List<Declared>,
    form: &'a CoreExternalForm,
    row: &mut Vec<&'a Core>,
    waiting: &mut Vec<Site<'a>>,
) -> Result<(), Memory>
    requires { row.old.items ≡ [] }
    ensures places { OnOk result ((types : Table) (all : Sequence sites.Site) → map (seen types all) waiting.new.items
        ≡ map (seen types all) waiting.old.items ++ reverse (sites.form_sites (entries_of types declared.now) (view_of_form types form.now))) }
    ensures empty { OnOk result (row.new.items ≡ []) }
{
    match form {
        CoreExternalForm::Declaration(locals) => {
            push_locals(declared, locals.items(), row, waiting)?;
            Ok(())
        }
        CoreExternalForm::Function {
            function: _,
            parameters: _,
            body,
        } => {
            waiting.push(whole(body, false, false))?;
            Ok(())
        }
    }
}
