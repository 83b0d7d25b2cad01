//! The types that `main` may have (5.1.2.2.1p1).

ghost use Rattle.std.specs.Prelude.{◌≡◌, ◌&&◌, List as Sequence, IfOk};
ghost use Rattle.dm_int.specs.declared.Kind.TheVariants as kinds;
ghost use Rattle.dm_type.specs.declared.shape.Shape.{Shape as OneShape};
ghost use Rattle.dm_type.specs.CTypes as types;
ghost use Rattle.dm_type.specs.Tables.{IsId};
ghost use Rattle.dm_tree.specs.declared.unit.Linkage.TheVariants.{External};
ghost use Rattle.dm_tree.specs.Initialisers as initialisers;
ghost use Rattle.dm_tree.specs.Typing as typed;
ghost use Rattle.dm_typing.specs.Views.{Begins, type_over, known_over, Grows};
ghost use Rattle.dm_edecl.specs.Declaring as declaring;
ghost use Rattle.dm_edecl.specs.Linkages as linkages;
ghost use Rattle.dm_estanding.specs.Summaries.{entry_over};
ghost use Rattle.dm_edeclaration.specs.Steps.{IsTypeNumber};

use dm_estanding::storage::is_file_scope;
use dm_int::Kind;
use dm_token::{List, Memory};
use dm_tree::{Declared, Linkage, Sort};
use dm_type::{Shape, TypeId};
use dm_typing::{Known, Typer};

/// Whether the type is one of the two that `main` may have.
fn is_main_type(typer: &Typer<'_>, known: &mut Known, kind: TypeId) -> Result<bool, Memory>
    requires { IsId known.old.types kind }
    ensures main { IfOk result (λ is. (later : Sequence OneShape) → Begins known.new.types.shapes later → is ≡ typed.is_main_type (type_over later kind)) }
    ensures grows { Grows known.old known.new }
{
    let without = without_parameters(typer, known)?;
    let with = with_arguments(typer, known)?;
    if known.types.compatible(kind, without) {
        return Ok(true);
    }
    let is_with = known.types.compatible(kind, with);
    Ok(is_with)
}

/// The type `int(void)`.
fn without_parameters(typer: &Typer<'_>, known: &mut Known) -> Result<TypeId, Memory>
    ensures kind { IfOk result (IsTypeNumber known.new.types.shapes (types.function (types.integer kinds.Int) types.no_types)) }
    ensures grows { Grows known.old known.new }
{
    let int = known.intern(Shape::Integer(Kind::Int))?;
    let kind = known.intern(Shape::Function(int, List::new(typer.alloc)))?;
    Ok(kind)
}

/// The type `int(int, char **)`.
fn with_arguments(typer: &Typer<'_>, known: &mut Known) -> Result<TypeId, Memory>
    ensures kind { IfOk result (IsTypeNumber known.new.types.shapes (types.function (types.integer kinds.Int) (types.more_types (types.integer kinds.Int)
        (types.more_types (types.pointer (types.pointer (types.integer kinds.Char))) types.no_types)))) }
    ensures grows { Grows known.old known.new }
{
    let texts = texts(known)?;
    let int = known.intern(Shape::Integer(Kind::Int))?;
    let mut parameters = List::new(typer.alloc);
    parameters.push(int)?;
    parameters.push(texts)?;
    let kind = known.intern(Shape::Function(int, parameters))?;
    Ok(kind)
}

/// The type `char **`.
fn texts(known: &mut Known) -> Result<TypeId, Memory>
    ensures kind { IfOk result (IsTypeNumber known.new.types.shapes (types.pointer (types.pointer (types.integer kinds.Char)))) }
    ensures grows { Grows known.old known.new }
{
    let character = known.intern(Shape::Integer(Kind::Char))?;
    let text = known.intern(Shape::Pointer(character))?;
    let texts = known.intern(Shape::Pointer(text))?;
    Ok(texts)
}

/// Whether an entry is a function with external linkage.
fn is_external_function(entry: &Declared) -> bool
    ensures { result ≡ (initialisers.is_function_sort entry.now.sort && linkages.is_same_linkage External entry.now.linkage) }
{
    match (entry.sort, entry.linkage) {
        (Sort::Function, Linkage::External) => true,
        _ => false,
    }
}

/// Whether an entry isn't called `main`, or is such a function (C36).
pub fn fits_main(typer: &Typer<'_>, known: &mut Known, entry: &Declared) -> Result<bool, Memory>
    requires { IsId known.old.types entry.now.kind }
    ensures fits { IfOk result (λ fits. (later : Sequence OneShape) → Begins known.new.types.shapes later → fits ≡ declaring.fits_main (entry_over later entry.now)) }
    ensures grows { Grows known.old known.new }
{
    if entry.name.bytes() != b"main".as_slice() {
        return Ok(true);
    }
    if !is_external_function(entry) {
        return Ok(false);
    }
    let is_main = is_main_type(typer, known, entry.kind)?;
    Ok(is_main)
}

/// The same in file scope alone.
pub fn may_be_main(typer: &Typer<'_>, known: &mut Known, entry: &Declared) -> Result<bool, Memory>
    requires { IsId known.old.types entry.now.kind }
    ensures may { IfOk result (λ may. (later : Sequence OneShape) → Begins known.new.types.shapes later → may ≡ declaring.may_be_main (known_over later known.new) (entry_over later entry.now)) }
    ensures grows { Grows known.old known.new }
{
    if !is_file_scope(known) {
        return Ok(true);
    }
    let fits = fits_main(typer, known, entry)?;
    Ok(fits)
}
