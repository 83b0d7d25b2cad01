//! Which places store into objects.

ghost use Rattle.std.specs.Prelude.{◌≡◌, ◌++◌, ◌∷◌, ◌<◌, [], ℕ, cond, length, slice_get, slice_index_or, slice_set, vec_len, ◌==◌, IfOk, OnOk};
ghost use Rattle.dm_type.specs.Tables.{Table};
ghost use Rattle.dm_tree.specs.Trees.{Trees, more_trees};
ghost use Rattle.dm_tree.specs.Views.{view, view_of_unit};
ghost use Rattle.dm_effect.specs.Entities.{is_this, object_first, writes_here};
ghost use Rattle.dm_sites.specs.Links.{passes};
ghost use Rattle.dm_sites.specs.Sites.{sites_of_unit};
ghost use Rattle.dm_around.specs.Writes as writes;
ghost use Rattle.dm_around.specs.Writes.{AreWrites, row_at, writes_at};

use dm_sites::Sites;
use dm_token::{List, Memory};
use dm_tree::{Core, Form};
use std::alloc::Global;

/// The object that a tree names.
fn object_named(tree: &Core) -> Option<u32>
    ensures { (types : Table) (rest : Trees) → object_first (more_trees (view types tree.now) rest) ≡ result }
{
    match &tree.form {
        Form::Object(number) => Some(*number),
        _ => None,
    }
}

/// The object into which a node stores by its name.
fn object_written(node: &Core) -> Option<u32>
    ensures { (types : Table) (d : ℕ) → writes_here d (view types node.now) ≡ is_this d result }
{
    match &node.form {
        Form::Store(target, _) | Form::Update(_, _, target, _) => object_named(target.get()),
        Form::Count {
            plus: _,
            before: _,
            object: target,
        } => object_named(target.get()),
        _ => None,
    }
}

/// There is a row for this object.
fn grow(alloc: Global, rows: &mut Vec<List<usize>>, object: usize) -> Result<(), Memory>
    ensures same { OnOk result ((d : ℕ) → row_at rows.new.items d ≡ row_at rows.old.items d) }
    ensures long { OnOk result (object < vec_len rows.new) }
{
    while rows.len() <= object {
        rows.push(List::new(alloc))?;
    }
    Ok(())
}

/// One more number behind the others of a row.
fn append(rows: &mut [List<usize>], object: usize, number: usize) -> Result<(), Memory>
    requires { object < length rows.old }
    ensures { OnOk result (rows.new ≡ slice_set rows.old object (slice_index_or rows.old object [] ++ number ∷ [])) }
{
    rows[object].push(number)?;
    Ok(())
}

/// One more place that stores into an object.
fn note(
    alloc: Global,
    rows: &mut Vec<List<usize>>,
    object: u32,
    number: usize,
) -> Result<(), Memory>
    ensures { OnOk result ((d : ℕ) → row_at rows.new.items d ≡ row_at rows.old.items d ++ cond (object == d) (number ∷ []) []) }
{
    let at = object as usize;
    grow(alloc, rows, at)?;
    append(rows.as_mut_slice(), at, number)?;
    Ok(())
}

/// The place with this number, if it stores into an object.
fn note_place(
    alloc: Global,
    rows: &mut Vec<List<usize>>,
    sites: &Sites,
    number: usize,
) -> Result<(), Memory>
    ensures { OnOk result ((types : Table) (d : ℕ) → row_at rows.new.items d
        ≡ row_at rows.old.items d ++ cond (passes (writes_at d) (slice_get (sites_of_unit (view_of_unit types sites.now)) number)) (number ∷ []) []) }
{
    let Some(site) = sites.get(number) else {
        return Ok(());
    };
    let Some(object) = object_written(site.tree) else {
        return Ok(());
    };
    note(alloc, rows, object, number)?;
    Ok(())
}

/// By the number of each object the numbers of the places that store into it by its name, which ascend.
pub(crate) fn writes_of(
    alloc: Global,
    sites: &Sites,
    total: usize,
) -> Result<Vec<List<usize>>, Memory>
    requires { (types : Table) → total ≡ length (sites_of_unit (view_of_unit types sites.now)) }
    ensures { IfOk result (λ rows. (types : Table) → AreWrites (sites_of_unit (view_of_unit types sites.now)) rows.items) }
{
    let mut rows = Vec::new(alloc);
    for number in 0..total {
        note_place(alloc, &mut rows, sites, number)?;
    }
    Ok(rows)
}

/// The numbers of the places that store into an object.
pub(crate) fn row_of(rows: &[List<usize>], object: u32) -> &[usize]
    ensures { result.now ≡ writes.row_at rows.now object }
{
    match rows.get(object as usize) {
        Some(row) => row.items(),
        None => &[],
    }
}
