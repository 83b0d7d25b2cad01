//! What the edit of a macro's definition adds to a unit.

ghost use Rattle.std.specs.Prelude.{◌≡◌, ◌↔◌, ℕ, [], ◌∷◌, IfNone, IfOk, IfSome, IsTrue, slice_get};
ghost use Rattle.dm_type.specs.Tables.{Table};
ghost use Rattle.dm_tree.specs.Views.{view_of_form, view_of_unit};
ghost use Rattle.dm_plain.specs.Plain.{HasPlainBody};
ghost use Rattle.dm_edit.specs.declared.change.As.TheVariants as kinds;
ghost use Rattle.dm_align.specs.Units.{Insertion};
ghost use Rattle.dm_alignment.specs.Insertions.{IsInserted};
ghost use Rattle.dm_alignment.specs.Readings as seen;
ghost use Rattle.dm_alignment.specs.Readings.{IsInsertion};

use dm_align::Inserted;
use dm_edit::{As, Change};
use dm_macro::named_count;
use dm_meanings::Named;
use dm_names::Entered;
use dm_plain::has_plain_types;
use dm_rules::Index;
use dm_runs::Run;
use dm_token::{Memory, Text};
use dm_tree::{CoreExternalForm, CoreUnit};
use std::alloc::Global;

/// How many entries a unit has behind its first external declarations.
fn entries_behind(unit: &Named, externals: u32) -> u32
    ensures { result ≡ seen.entries_behind unit.now.reading.now externals }
{
    unit.names.entries_behind(externals)
}

/// The number of the entry of a name, where an external declaration declares in file scope this name and no other.
fn number_alone(unit: &Named, external: u32, name: &Text) -> Option<u32>
    ensures found { IfSome result (λ number. seen.DeclaresAlone unit.now.reading.now external name.now number) }
    ensures none { IfNone result ((number : ℕ) → ¬ seen.DeclaresAlone unit.now.reading.now external name.now number) }
{
    number_of_only(unit.names.entered(external), name)
}

/// The number of the entry of a name, where it alone is entered.
fn number_of_only(entered: &[Entered], name: &Text) -> Option<u32>
    ensures found { IfSome result (λ number. entered.now ≡ seen.entered_alone name.now number ∷ []) }
    ensures none { IfNone result ((number : ℕ) → ¬ (entered.now ≡ seen.entered_alone name.now number ∷ [])) }
{
    match entered {
        [one] => number_of(one, name),
        _ => None,
    }
}

/// The number of an entry, if it is of this name and no tag.
fn number_of(one: &Entered, name: &Text) -> Option<u32>
    ensures found { IfSome result (λ number. one.now ≡ seen.entered_alone name.now number) }
    ensures none { IfNone result ((number : ℕ) → ¬ (one.now ≡ seen.entered_alone name.now number)) }
{
    if is_same_name(&one.name, name) && !one.tag {
        Some(one.number)
    } else {
        None
    }
}

fn is_same_name(one: &Text, other: &Text) -> bool
    ensures { IsTrue result ↔ (one.now ≡ other.now) }
{
    one == other
}

/// Whether an external declaration defines a function with so many parameters.
fn takes_so_many(count: usize, form: &CoreExternalForm) -> bool
    ensures { IsTrue result ↔ seen.TakesSoMany count form.now }
{
    match form {
        CoreExternalForm::Function {
            function: _,
            parameters,
            body: _,
        } => parameters.len() == count,
        CoreExternalForm::Declaration(_) => false,
    }
}

/// Whether what becomes of the macro takes as many arguments as the macro has parameters.
fn takes_as_many(unit: &Named, external: u32, change: &Change) -> bool
    ensures { IsTrue result ↔ seen.TakesAsMany change.now.kind change.now.definition (slice_get unit.now.reading.now.core.externals external) }
{
    match change.kind {
        As::Function => function_takes_as_many(unit, external, change),
        As::Enumerator => true,
        As::Constant => true,
    }
}

fn function_takes_as_many(unit: &Named, external: u32, change: &Change) -> bool
    ensures { IsTrue result ↔ seen.TakesAsMany kinds.Function change.now.definition (slice_get unit.now.reading.now.core.externals external) }
{
    match unit.reading.core.externals.items().get(external as usize) {
        None => false,
        Some(one) => takes_so_many(named_count(&change.definition), &one.form),
    }
}

/// Whether no type name in the body of a function names an automatic object.
fn has_plain_body(alloc: Global, unit: &CoreUnit, form: &CoreExternalForm) -> Result<bool, Memory>
    ensures { IfOk result (λ answer. (types : Table) → IsTrue answer ↔ HasPlainBody (view_of_unit types unit.now) (view_of_form types form.now)) }
{
    match form {
        CoreExternalForm::Function {
            function: _,
            parameters: _,
            body,
        } => has_plain_types(alloc, unit, body),
        CoreExternalForm::Declaration(_) => Ok(true),
    }
}

/// Whether it is so of what is added, where the macro has a run.
fn is_plain(alloc: Global, unit: &Named, external: u32, runs: &[Run]) -> Result<bool, Memory>
    ensures { IfOk result (λ answer. IsTrue answer ↔ seen.IsPlain runs.now unit.now.reading.now (slice_get unit.now.reading.now.core.externals external)) }
{
    if runs.is_empty() {
        return Ok(true);
    }
    let core = &unit.reading.core;
    match core.externals.items().get(external as usize) {
        None => Ok(true),
        Some(one) => has_plain_body(alloc, core, &one.form),
    }
}

/// What the edit adds, where the unit reads the definition. More than 4,294,967,294 external declarations count as want of memory.
pub(crate) fn added_to<'a>(
    alloc: Global,
    old: &Index,
    new: &Named,
    change: &'a Change,
) -> Result<Option<Inserted<'a>>, Memory>
    ensures found { IfOk result (λ found. IfSome found (IsInserted old.now.reading.now new.now.reading.now change.now)) }
    ensures none { IfOk result (λ found. IfNone found ((put : Insertion) → ¬ IsInsertion old.now.reading.now new.now.reading.now change.now put)) }
{
    let external = old.externals_behind(&change.definition);
    let behind = external.checked_add(1).ok_or(Memory)?;
    let first = entries_behind(new, external);
    let Some(count) = entries_behind(new, behind).checked_sub(first) else {
        return Ok(None);
    };
    let name = &change.definition.name;
    let Some(number) = number_alone(new, external, name) else {
        return Ok(None);
    };
    if !takes_as_many(new, external, change) {
        return Ok(None);
    }
    if !is_plain(alloc, new, external, old.runs_of(&change.definition))? {
        return Ok(None);
    }
    Ok(Some(Inserted {
        external: external as usize,
        first,
        count,
        name,
        number,
        kind: change.kind,
    }))
}
