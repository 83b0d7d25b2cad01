//! Names, constants and string literals (6.4.4, 6.4.5, 6.5.1).

ghost use Rattle.std.specs.Prelude.{◌≡◌, ℕ, true, ◌&&◌, not, nat_lt, List, [], IfOk, IfSome, IfNone, None, Some, slice_get};
ghost use Rattle.dm_type.specs.declared.shape.Shape.{Shape as OneShape};
ghost use Rattle.dm_type.specs.CTypes.{integer};
ghost use Rattle.dm_type.specs.Tables.{Table, type_of, IsId};
ghost use Rattle.dm_scope.specs.Scopes.{number_of};
ghost use Rattle.dm_tree.specs.declared.unit.Sort.TheVariants.{Function};
ghost use Rattle.dm_tree.specs.Trees as label;
ghost use Rattle.dm_tree.specs.TypeNumbers.{are_known};
ghost use Rattle.dm_tree.specs.Units.{Declaration};
ghost use Rattle.dm_tree.specs.Views.{view};
ghost use Rattle.dm_syn.specs.Sources.{spelling_at};
ghost use Rattle.dm_typing.specs.declared.extent.Extent.{Extent as OneExtent};
ghost use Rattle.dm_typing.specs.Conversions as conversions;
ghost use Rattle.dm_typing.specs.Fitting.{IsNumbered};
ghost use Rattle.dm_typing.specs.Known.{meaning_of};
ghost use Rattle.dm_enames.specs.Meanings.{referred, Says};
ghost use Rattle.dm_typing.specs.Typing as typing;
ghost use Rattle.dm_typing.specs.Views.{Begins, view_over, known_over, source_of, setting_of, Gives, Grows};

use dm_int::{Kind, from_number};
use dm_token::{Memory, Stop, Text};
use dm_tree::{Core, Form, Linkage, Sort};
use dm_type::{Shape, TypeId};
use dm_typing::{Extent, Known, Typer};

/// What an expression needs of the declaration that a name means.
#[derive(Drop)]
pub struct Entity {
    /// The position of the declaration.
    pub number: u32,
    pub sort: Sort,
    pub linkage: Linkage,
    pub kind: TypeId,
}

/// What a name means (6.2.1).
fn entity_of(known: &Known, name: &Text) -> Option<Entity>
    ensures none { IfNone result ((later : List OneShape) → meaning_of (known_over later known.now) name.now ≡ None) }
    ensures meaning { IfSome result (λ entity. (later : List OneShape) → (entry : Declaration) × (meaning_of (known_over later known.now) name.now ≡ Some entry) × Says later entity entry) }
    ensures number { IfSome result (λ entity. number_of known.now.scopes name.now ≡ Some entity.number) }
    ensures numbered { IfSome result (λ entity. IsId known.now.types entity.kind) }
{
    let number = known.scopes.resolve(name)?;
    let entry = known.declared.items().get(number as usize)?;
    Some(Entity {
        number,
        sort: entry.sort,
        linkage: entry.linkage,
        kind: entry.kind,
    })
}

/// The name of an object.
fn object(typer: &Typer<'_>, at: Extent, number: u32, kind: TypeId) -> Core
    ensures view { (types : Table) → view types result ≡ conversions.made (source_of typer.now) at (label.object number) (type_of types kind) [] }
    ensures known { (n : ℕ) → are_known n result ≡ (nat_lt kind n && true) }
{
    typer.made(at, Form::Object(number), kind)
}

/// The name of a function.
fn function(typer: &Typer<'_>, at: Extent, number: u32, kind: TypeId) -> Core
    ensures view { (types : Table) → view types result ≡ conversions.made (source_of typer.now) at (label.function number) (type_of types kind) [] }
    ensures known { (n : ℕ) → are_known n result ≡ (nat_lt kind n && true) }
{
    typer.made(at, Form::Function(number), kind)
}

/// An enumerator.
fn enumerator(typer: &Typer<'_>, at: Extent, number: u32, kind: TypeId) -> Core
    ensures view { (types : Table) → view types result ≡ conversions.made (source_of typer.now) at (label.enumerator number) (type_of types kind) [] }
    ensures known { (n : ℕ) → are_known n result ≡ (nat_lt kind n && true) }
{
    typer.made(at, Form::Enumerator(number), kind)
}

/// A constant.
fn number(typer: &Typer<'_>, at: Extent, value: i128, kind: TypeId) -> Core
    ensures view { (types : Table) → view types result ≡ conversions.made (source_of typer.now) at (label.number value) (type_of types kind) [] }
    ensures known { (n : ℕ) → are_known n result ≡ (nat_lt kind n && true) }
{
    typer.made(at, Form::Number(value), kind)
}

/// A string literal.
fn string(typer: &Typer<'_>, at: Extent, bytes: Text, kind: TypeId) -> Core
    ensures view { (types : Table) → view types result ≡ conversions.made (source_of typer.now) at (label.literal bytes 0) (type_of types kind) [] }
    ensures known { (n : ℕ) → are_known n result ≡ (nat_lt kind n && true) }
{
    typer.made(at, Form::Literal(bytes, 0), kind)
}

/// Whether the unit lacks the function of a name with this linkage.
fn is_lacking(typer: &Typer<'_>, name: &Text, linkage: Linkage) -> bool
    ensures { result ≡ (typing.is_internal linkage && (setting_of typer.now).lacks name.now) }
{
    match linkage {
        Linkage::Internal => typer.lacking.resolve(name).is_some(),
        _ => false,
    }
}

/// Whether a function may stand there: one with internal linkage that is used is defined in the unit (C37).
fn may_use(typer: &Typer<'_>, used: bool, name: &Text, linkage: Linkage) -> bool
    ensures { result ≡ not (used && (typing.is_internal linkage && (setting_of typer.now).lacks name.now)) }
{
    !(used && is_lacking(typer, name, linkage))
}

/// A name (C1, C37).
pub fn named(typer: &Typer<'_>, known: &mut Known, used: bool, at: Extent) -> Result<Core, Stop>
    ensures gives { (later : List OneShape) → Begins known.new.types.shapes later → Gives (view_over later) (source_of typer.now) (known_over later known.new) result
        (referred (setting_of typer.now) used (known_over later known.old) at) }
    ensures numbered { IfOk result (IsNumbered known.new.types) }
    ensures grows { Grows known.old known.new }
{
    let name = typer.spelling(at.inner.first)?;
    match entity_of(known, &name) {
        Some(entity) => named_as(typer, known, used, at, &name, &entity),
        None => Err(typer.broken(1, at.inner.first)),
    }
}

/// The name of an entity.
fn named_as(
    typer: &Typer<'_>,
    known: &mut Known,
    used: bool,
    at: Extent,
    name: &Text,
    entity: &Entity,
) -> Result<Core, Stop>
    requires kind { IsId known.old.types entity.now.kind }
    requires number { number_of known.old.scopes name.now ≡ Some entity.now.number }
    ensures gives { (later : List OneShape) → Begins known.new.types.shapes later → (entry : Declaration) → Says later entity.now entry
        → Gives (view_over later) (source_of typer.now) (known_over later known.new) result
        (typing.named (setting_of typer.now) used (known_over later known.old) at name.now (Some entry)) }
    ensures numbered { IfOk result (IsNumbered known.new.types) }
    ensures grows { Grows known.old known.new }
{
    match entity.sort {
        Sort::Object { fixed: _ } => Ok(object(typer, at, entity.number, entity.kind)),
        Sort::Function => named_function(typer, known, used, at, name, entity),
        Sort::Enumerator(_) => {
            let kind = known.intern(Shape::Integer(Kind::Int))?;
            Ok(enumerator(typer, at, entity.number, kind))
        }
        Sort::Typedef | Sort::Tag => Err(typer.broken(1, at.inner.first)),
    }
}

/// The name of a function, which may be lacking (C37).
fn named_function(
    typer: &Typer<'_>,
    known: &Known,
    used: bool,
    at: Extent,
    name: &Text,
    entity: &Entity,
) -> Result<Core, Stop>
    requires kind { IsId known.now.types entity.now.kind }
    requires number { number_of known.now.scopes name.now ≡ Some entity.now.number }
    requires sort { entity.now.sort ≡ Function }
    ensures gives { (later : List OneShape) → (entry : Declaration) → Says later entity.now entry
        → Gives (view_over later) (source_of typer.now) (known_over later known.now) result
        (typing.named (setting_of typer.now) used (known_over later known.now) at name.now (Some entry)) }
    ensures numbered { IfOk result (IsNumbered known.now.types) }
{
    if !may_use(typer, used, name, entity.linkage) {
        return Err(typer.broken(37, at.inner.first));
    }
    let made = function(typer, at, entity.number, entity.kind);
    Ok(made)
}

/// An integer or character constant (6.4.4).
pub fn constant(typer: &Typer<'_>, known: &mut Known, at: Extent) -> Result<Core, Memory>
    ensures value { IfOk result (λ made. (later : List OneShape) → Begins known.new.types.shapes later
        → view_over later made ≡ typing.constant_tree (setting_of typer.now) at (slice_get (source_of typer.now).tokens at.inner.first)) }
    ensures numbered { IfOk result (IsNumbered known.new.types) }
    ensures grows { Grows known.old known.new }
{
    let (value, kind) = value_at(typer, at.inner.first);
    let kind = known.intern(Shape::Integer(kind))?;
    Ok(number(typer, at, value, kind))
}

/// The value and the kind of a token.
fn value_at(typer: &Typer<'_>, at: u32) -> (i128, Kind)
    ensures { (extent : OneExtent) → typing.constant_tree (setting_of typer.now) extent (slice_get (source_of typer.now).tokens at)
        ≡ conversions.made (source_of typer.now) extent (label.number result.0) (integer result.1) [] }
{
    match typer.tokens.get(at as usize) {
        Some(token) => (token.value, from_number(token.kind).unwrap_or(Kind::Int)),
        None => (0, Kind::Int),
    }
}

/// A string literal (6.4.5).
pub fn literal(typer: &Typer<'_>, known: &mut Known, at: Extent) -> Result<Core, Memory>
    ensures value { IfOk result (λ made. (later : List OneShape) → Begins known.new.types.shapes later
        → view_over later made ≡ typing.literal_tree (setting_of typer.now) at (spelling_at (source_of typer.now) at.inner.first)) }
    ensures numbered { IfOk result (IsNumbered known.new.types) }
    ensures grows { Grows known.old known.new }
{
    let bytes = typer.spelling(at.inner.first)?;
    let char = known.intern(Shape::Integer(Kind::Char))?;
    let length = bytes.bytes().len() as u64 + 1;
    let kind = known.intern(Shape::Array(char, Some(length)))?;
    Ok(string(typer, at, bytes, kind))
}
