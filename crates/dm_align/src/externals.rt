//! Whether the external declarations of two units agree.

ghost use Rattle.std.specs.Prelude.{◌≡◌, ◌↔◌, ℕ, IfOk, IsTrue, length, map};
ghost use Rattle.std.specs.List.{list_all};
ghost use Rattle.dm_tree.specs.TypeNumbers.{are_known, are_known_in_local, external_has_known, form_has_known};
ghost use Rattle.dm_tree.specs.Views.{declarators_of, expressions_of_locals, view, view_of_external, view_of_form, view_of_local};
ghost use Rattle.dm_meaning.specs.Replaced.{renamed_declarator, Zipped};
ghost use Rattle.dm_agree.specs.Agreement.{AllAgreeWhole};
ghost use Rattle.dm_agree.specs.Comparing.{rewriting, IsKnownAdded};
ghost use Rattle.dm_agree.specs.Moves.{moved_past};
ghost use Rattle.dm_agree.specs.Parts.{are_all_known, nows};
ghost use Rattle.dm_type.specs.Tables.{Table};
ghost use Rattle.dm_align.specs.Units.{ExternalsAgree, FormsAgree, without};

use crate::slices::around;
use dm_agree::{Block, Comparison, agrees_whole, are_same_declarators, is_moved, push_locals};
use dm_token::Memory;
use dm_tree::{Core, CoreExternal, CoreExternalForm, Local};
use std::alloc::Global;

/// Whether the new external declarations without one are the old ones, one by one.
pub(crate) fn other_externals_agree<'a>(
    alloc: Global,
    it: &Comparison<'a>,
    new: &[CoreExternal],
    added: usize,
    old: &'a [CoreExternal],
) -> Result<bool, Memory>
    requires new { IsTrue (list_all (external_has_known (length it.now.new_types.now.shapes)) new.now) }
    requires old { IsTrue (list_all (external_has_known (length it.now.old_types.now.shapes)) old.now) }
    requires added { IsKnownAdded (length it.now.new_types.now.shapes) it.now.added }
    ensures { IfOk result (λ answer. IsTrue answer ↔ Zipped (ExternalsAgree (rewriting it.now))
        (without added 1 (map (view_of_external it.now.new_types.now) new.now)) (map (view_of_external it.now.old_types.now) old.now)) }
{
    let (front, back) = around(new, added, 1);
    if old.len() < front.len() {
        return Ok(false);
    }
    let (before, behind) = old.split_at(front.len());
    if !externals_agree(alloc, it, front, before)? {
        return Ok(false);
    }
    externals_agree(alloc, it, back, behind)
}

/// Whether external declarations agree one by one.
pub(crate) fn externals_agree<'a>(
    alloc: Global,
    it: &Comparison<'a>,
    new: &[CoreExternal],
    old: &'a [CoreExternal],
) -> Result<bool, Memory>
    requires new { IsTrue (list_all (external_has_known (length it.now.new_types.now.shapes)) new.now) }
    requires old { IsTrue (list_all (external_has_known (length it.now.old_types.now.shapes)) old.now) }
    requires added { IsKnownAdded (length it.now.new_types.now.shapes) it.now.added }
    ensures { IfOk result (λ answer. IsTrue answer ↔ Zipped (ExternalsAgree (rewriting it.now))
        (map (view_of_external it.now.new_types.now) new.now) (map (view_of_external it.now.old_types.now) old.now)) }
{
    if new.len() != old.len() {
        return Ok(false);
    }
    for i in 0..new.len() {
        if !external_agrees(alloc, it, &new[i], &old[i])? {
            return Ok(false);
        }
    }
    Ok(true)
}

fn external_agrees<'a>(
    alloc: Global,
    it: &Comparison<'a>,
    new: &CoreExternal,
    old: &'a CoreExternal,
) -> Result<bool, Memory>
    requires new { IsTrue (external_has_known (length it.now.new_types.now.shapes) new.now) }
    requires old { IsTrue (external_has_known (length it.now.old_types.now.shapes) old.now) }
    requires added { IsKnownAdded (length it.now.new_types.now.shapes) it.now.added }
    ensures { IfOk result (λ answer. IsTrue answer ↔ ExternalsAgree (rewriting it.now) (view_of_external it.now.new_types.now new.now) (view_of_external it.now.old_types.now old.now)) }
{
    if !trees_agree(alloc, it, new.constants.items(), old.constants.items())? {
        return Ok(false);
    }
    forms_agree(alloc, it, &new.form, &old.form)
}

fn forms_agree<'a>(
    alloc: Global,
    it: &Comparison<'a>,
    new: &CoreExternalForm,
    old: &'a CoreExternalForm,
) -> Result<bool, Memory>
    requires new { IsTrue (form_has_known (length it.now.new_types.now.shapes) new.now) }
    requires old { IsTrue (form_has_known (length it.now.old_types.now.shapes) old.now) }
    requires added { IsKnownAdded (length it.now.new_types.now.shapes) it.now.added }
    ensures { IfOk result (λ answer. IsTrue answer ↔ FormsAgree (rewriting it.now) (view_of_form it.now.new_types.now new.now) (view_of_form it.now.old_types.now old.now)) }
{
    match (new, old) {
        (CoreExternalForm::Declaration(locals), CoreExternalForm::Declaration(others)) => {
            declarators_agree(alloc, it, locals.items(), others.items())
        }
        (
            CoreExternalForm::Function {
                function,
                parameters,
                body,
            },
            CoreExternalForm::Function {
                function: other,
                parameters: others,
                body: other_body,
            },
        ) => {
            if !is_moved(it.block, *function, *other)
                || !are_moved(it.block, parameters.items(), others.items())
            {
                return Ok(false);
            }
            agrees_whole(alloc, it, body, other_body)
        }
        _ => Ok(false),
    }
}

/// Whether numbers are the new ones of old declarations.
fn are_moved(block: Option<Block>, new: &[u32], old: &[u32]) -> bool
    ensures { IsTrue result ↔ (new.now ≡ map (moved_past block) old.now) }
{
    if new.len() != old.len() {
        return false;
    }
    for i in 0..new.len() {
        if !is_moved(block, new[i], old[i]) {
            return false;
        }
    }
    true
}

fn declarators_agree<'a>(
    alloc: Global,
    it: &Comparison<'a>,
    new: &[Local],
    old: &'a [Local],
) -> Result<bool, Memory>
    requires new { IsTrue (list_all (are_known_in_local (length it.now.new_types.now.shapes)) new.now) }
    requires old { IsTrue (list_all (are_known_in_local (length it.now.old_types.now.shapes)) old.now) }
    requires added { IsKnownAdded (length it.now.new_types.now.shapes) it.now.added }
    ensures { IfOk result (λ answer. IsTrue answer ↔
        ((declarators_of (map (view_of_local it.now.new_types.now) new.now) ≡ map (renamed_declarator (moved_past it.now.block)) (declarators_of (map (view_of_local it.now.old_types.now) old.now)))
        × AllAgreeWhole (rewriting it.now) (expressions_of_locals (map (view_of_local it.now.new_types.now) new.now)) (expressions_of_locals (map (view_of_local it.now.old_types.now) old.now)))) }
{
    if !are_same_declarators(it.block, new, old) {
        return Ok(false);
    }
    let expressions = expressions_of(alloc, new)?;
    let others = expressions_of(alloc, old)?;
    expressions_agree(alloc, it, &expressions, &others)
}

/// The expressions in the initialisers of declarators.
fn expressions_of(alloc: Global, locals: &[Local]) -> Result<Vec<&Core>, Memory>
    ensures same { IfOk result (λ found. (types : Table) → map (view types) (nows found.items) ≡ expressions_of_locals (map (view_of_local types) locals.now)) }
    ensures known { IfOk result (λ found. (n : ℕ) → IsTrue (list_all (are_known_in_local n) locals.now) → IsTrue (are_all_known n (nows found.items))) }
{
    let mut found = Vec::new(alloc);
    push_locals(locals, &mut found)?;
    Ok(found)
}

/// Whether trees agree one by one.
fn expressions_agree<'a>(
    alloc: Global,
    it: &Comparison<'a>,
    new: &[&Core],
    old: &[&'a Core],
) -> Result<bool, Memory>
    requires new { IsTrue (are_all_known (length it.now.new_types.now.shapes) (nows new.now)) }
    requires old { IsTrue (are_all_known (length it.now.old_types.now.shapes) (nows old.now)) }
    requires added { IsKnownAdded (length it.now.new_types.now.shapes) it.now.added }
    ensures { IfOk result (λ answer. IsTrue answer ↔ AllAgreeWhole (rewriting it.now) (map (view it.now.new_types.now) (nows new.now)) (map (view it.now.old_types.now) (nows old.now))) }
{
    if new.len() != old.len() {
        return Ok(false);
    }
    for i in 0..new.len() {
        if !agrees_whole(alloc, it, new[i], old[i])? {
            return Ok(false);
        }
    }
    Ok(true)
}

fn trees_agree<'a>(
    alloc: Global,
    it: &Comparison<'a>,
    new: &[Core],
    old: &'a [Core],
) -> Result<bool, Memory>
    requires new { IsTrue (list_all (are_known (length it.now.new_types.now.shapes)) new.now) }
    requires old { IsTrue (list_all (are_known (length it.now.old_types.now.shapes)) old.now) }
    requires added { IsKnownAdded (length it.now.new_types.now.shapes) it.now.added }
    ensures { IfOk result (λ answer. IsTrue answer ↔ AllAgreeWhole (rewriting it.now) (map (view it.now.new_types.now) new.now) (map (view it.now.old_types.now) old.now)) }
{
    if new.len() != old.len() {
        return Ok(false);
    }
    for i in 0..new.len() {
        if !agrees_whole(alloc, it, &new[i], &old[i])? {
            return Ok(false);
        }
    }
    Ok(true)
}
