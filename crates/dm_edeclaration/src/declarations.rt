//! Declarations (6.7).

ghost use Rattle.std.specs.Prelude.{◌≡◌, ◌++◌, ◌||◌, not, List as Sequence, IfOk, map, slice_get};
ghost use Rattle.dm_type.specs.declared.shape.Shape.{Shape as OneShape};
ghost use Rattle.dm_type.specs.Tables.{Table};
ghost use Rattle.dm_syn.specs.Views as syntax;
ghost use Rattle.dm_typing.specs.Fitting.{AreNumbered};
ghost use Rattle.dm_typing.specs.Views.{known_over, view_over, source_of, setting_of};
ghost use Rattle.dm_edecl.specs.Declaring as declaring;
ghost use Rattle.dm_estanding.specs.Proceeding.{Proceeds};
ghost use Rattle.dm_edeclaration.specs.Steps.{items_over, ItemsFit, summed, are_functions_in, may_be_inline_in};

use crate::items::{TypedLocals, typed_items};
use crate::specified::{Specification, specified};
use dm_edeclarator::places::replace_constants;
use dm_edeclarator::specifiers::Where;
use dm_estanding::Standing;
use dm_estanding::redeclaring::is_function_sort;
use dm_syn::{Declaration, Specifiers};
use dm_token::{List, Memory, Stop};
use dm_tree::{Core, Local};
use dm_typing::{Known, Typer};

/// Whether a declaration is of one specifier alone, as `struct S;` (6.7.2.3p7).
fn is_alone(declaration: &Declaration) -> bool
    ensures { result ≡ declaring.is_alone (syntax.specifiers declaration.now.specifiers) (syntax.items declaration.now.items) }
{
    if !declaration.items.is_empty() {
        return false;
    }
    declaration.specifiers.words.len() == 1
}

/// Whether an entry of this number is a function.
fn is_function(known: &Known, number: u32) -> bool
    ensures { (later : Sequence OneShape) → result ≡ declaring.is_function_entry (slice_get (known_over later known.now).declared number) }
{
    match known.declared.items().get(number as usize) {
        Some(entry) => is_function_sort(entry.sort),
        None => false,
    }
}

/// Whether all that is declared is functions.
fn are_functions(known: &Known, locals: &[Local]) -> bool
    ensures { (later : Sequence OneShape) → result ≡ are_functions_in (known_over later known.now) locals.now }
{
    for local in locals {
        if !is_function(known, local.declared) {
            return false;
        }
    }
    true
}

/// Whether `inline` may stand there: in the declaration of functions alone (C3, 6.7.4p1).
fn may_be_inline(known: &Known, locals: &[Local]) -> bool
    ensures { (later : Sequence OneShape) → result ≡ may_be_inline_in (known_over later known.now) locals.now }
{
    !locals.is_empty() && are_functions(known, locals)
}

/// Whether `inline` stands there only if it may.
fn obeys_inline(known: &Known, said: &Specification, typed: &TypedLocals) -> bool
    ensures { (later : Sequence OneShape) → result ≡ (not said.now.is_inline || may_be_inline_in (known_over later known.now) typed.now.locals) }
{
    if !said.is_inline {
        return true;
    }
    may_be_inline(known, typed.locals.items())
}

/// The trees of one list in front of those of another.
fn in_front(constants: List<Core>, typed: TypedLocals) -> Result<TypedLocals, Memory>
    ensures more { IfOk result (λ made. (later : Sequence OneShape) → items_over later made ≡ record (items_over later typed) { constants = map (view_over later) constants ++ map (view_over later) typed.constants }) }
    ensures numbered { IfOk result (λ made. (types : Table) → AreNumbered types constants → ItemsFit types typed → ItemsFit types made) }
{
    let TypedLocals {
        constants: more,
        locals,
    } = typed;
    let mut constants = constants.into_vec();
    constants.append(&mut more.into_vec())?;
    Ok(TypedLocals {
        constants: List::from_vec(constants),
        locals,
    })
}

/// A declaration: what it declares, and the trees of its lengths and enumerator values.
pub fn typed_declaration(
    typer: &Typer<'_>,
    standing: &mut Standing,
    declaration: &Declaration,
) -> Result<TypedLocals, Stop>
    ensures { Proceeds ItemsFit items_over (source_of typer.now) standing.old standing.new result
        (λ later before. summed (declaring.typed_declaration (setting_of typer.now) before (syntax.declaration declaration.now))) }
{
    let alone = is_alone(declaration);
    let specifiers = &declaration.specifiers;
    let said = specified(
        typer,
        &mut standing.known,
        Where::OfDeclaration,
        alone,
        specifiers,
    )?;
    let constants = replace_constants(&mut standing.known, List::new(typer.alloc));
    let typed = typed_items(typer, standing, &said, declaration.items.items())?;
    if !obeys_inline(&standing.known, &said, &typed) {
        return Err(typer.broken(3, said.first));
    }
    let all = in_front(constants, typed)?;
    Ok(all)
}
