//! The functions that a unit defines, by the numbers of their declarations (6.9.1).

ghost use Rattle.std.specs.Prelude.{◌≡◌, None, Some, IfOk, IfSome, MatchOption, length, map, replicate, slice_set};
ghost use Rattle.std.specs.Option.{option_to_list, option_map};
ghost use Rattle.dm_type.specs.Tables.{Table};
ghost use Rattle.dm_tree.specs.Trees as label;
ghost use Rattle.dm_tree.specs.TypeNumbers.{IsTypedUnit};
ghost use Rattle.dm_tree.specs.Views.{view, view_of_form, entries_of};
ghost use Rattle.dm_meaning.specs.Programs as programs;
ghost use Rattle.dm_meaning.specs.Steps as steps;
ghost use Rattle.dm_meaning.specs.Units as units;
ghost use Rattle.dm_program.specs.Functions.{view_of_function, FunctionFits, AreFunctions, IsItems};
ghost use Rattle.dm_program.specs.Sources.{Source, meant, IsSoundExternal};

use crate::function::Function;
use dm_token::Memory;
use dm_tree::{Core, CoreExternal, CoreExternalForm, CoreUnit, Form};
use dm_value::nth;
use std::alloc::Global;

/// By number, the function that has the definition: the first, where a unit has several, as no typed unit does.
pub(crate) fn functions<'a>(
    alloc: Global,
    unit: &'a CoreUnit,
) -> Result<Vec<Option<Function<'a>>>, Memory>
    ensures { IfOk result (λ made. (table : Table) → IsTypedUnit table unit.now → AreFunctions (record { table = table; unit = unit.now }) made.items) }
{
    let mut all = unset(alloc, unit.declared.len())?;
    let mut left = unit.externals.items();
    while let Some((external, rest)) = left.split_last() {
        if let Some(function) = function_of(external) {
            place(&mut all, function);
        }
        left = rest;
    }
    Ok(all)
}

/// No function at each of so many numbers.
fn unset<'a>(alloc: Global, count: usize) -> Result<Vec<Option<Function<'a>>>, Memory>
    ensures { IfOk result (λ made. made.items ≡ replicate count None) }
{
    let mut all = Vec::new(alloc);
    while all.len() < count {
        all.push(None)?;
    }
    Ok(all)
}

/// The function stands at its number.
fn place<'a>(all: &mut Vec<Option<Function<'a>>>, function: Function<'a>)
    ensures { all.new.items ≡ slice_set all.old.items function.entry.number (Some function.entry) }
{
    if let Some(slot) = all.get_mut(function.number as usize) {
        *slot = Some(function);
    }
}

/// The function that an external declaration defines, if it defines one.
fn function_of(external: &CoreExternal) -> Option<Function<'_>>
    ensures view { (table : Table) → units.definitions_by (view_of_form table external.now.form) ≡ option_to_list (option_map (view_of_function table) result) }
    ensures fits { (source : Source) → IsSoundExternal source external.now → IfSome result (FunctionFits source) }
{
    match &external.form {
        CoreExternalForm::Declaration(_) => None,
        CoreExternalForm::Function {
            function,
            parameters,
            body,
        } => Some(Function {
            number: *function,
            parameters: parameters.items(),
            body,
            items: items_of(body),
        }),
    }
}

/// The items of a body, which is a block in each typed unit.
fn items_of(body: &Core) -> &[Core]
    ensures { IsItems body.now result.now }
{
    match &body.form {
        Form::Block(items) => items.items(),
        _ => &[],
    }
}

/// The definition of `main`.
pub(crate) fn main_of(unit: &CoreUnit) -> Option<Function<'_>>
    ensures { (table : Table) → IsTypedUnit table unit.now → let source : Source = record { table = table; unit = unit.now } in MatchOption result (units.main_of (meant source) ≡ None)
        (λ one. (units.main_of (meant source) ≡ Some (view_of_function table one)) × FunctionFits source one) }
{
    let mut left = unit.externals.items();
    while let Some((external, rest)) = left.split_first() {
        if let Some(function) = function_of(external) {
            if is_main(unit, function.number) {
                return Some(function);
            }
        }
        left = rest;
    }
    None
}

/// Whether a declaration has the name of the function that is called at the start of a program (5.1.2.2.1p1).
fn is_main(unit: &CoreUnit, number: u32) -> bool
    ensures { (table : Table) → result ≡ steps.is_main (programs.declaration_at (entries_of table unit.now.declared) number) }
{
    match nth(unit.declared.items(), number as usize) {
        Some(entry) => entry.name.bytes() == b"main".as_slice(),
        None => false,
    }
}
