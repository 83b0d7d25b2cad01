//! Members of structs by name (6.5.2.3).

ghost use Rattle.std.specs.Prelude.{◌≡◌, Bool, false, List, IfOk, IfSome, option_map, option_and_then};
ghost use Rattle.dm_type.specs.declared.shape.Shape.{Shape as OneShape};
ghost use Rattle.dm_type.specs.CTypes as types_of_c;
ghost use Rattle.dm_type.specs.Naming.{member_named};
ghost use Rattle.dm_type.specs.Tables.{IsId, type_of};
ghost use Rattle.dm_typing.specs.Conversions as conversions;
ghost use Rattle.dm_typing.specs.Fitting.{IsNumbered};
ghost use Rattle.dm_enames.specs.Meanings.{member_over};
ghost use Rattle.dm_typing.specs.Rules as rules;
ghost use Rattle.dm_typing.specs.Typing as typing;
ghost use Rattle.dm_typing.specs.Views.{Begins, type_over, view_over, known_over, source_of, setting_of, Gives, Grows};

use dm_token::{Memory, Stop, Text};
use dm_tree::Core;
use dm_type::{Member, Shape, TypeId};
use dm_typing::looks::{bare, complete_target, is_array, is_const};
use dm_typing::values::is_lvalue;
use dm_typing::{Extent, Known, Typer};

/// The member of a name of a struct, const or not, with its number.
fn member_in_struct<'a>(known: &'a Known, name: &Text, id: TypeId) -> Option<(u32, &'a Member)>
    requires { IsId known.now.types id }
    ensures found { option_map (λ found. (found.0, found.1.now)) result ≡ option_and_then (member_named name.now 0) (conversions.members_in known.now.types (types_of_c.bare (type_of known.now.types id))) }
    ensures numbered { IfSome result (λ found. IsId known.now.types found.1.now.kind) }
{
    match known.types.shape(bare(&known.types, id)) {
        Shape::Struct(number) => known.types.member(*number, name),
        _ => None,
    }
}

/// A member of a struct, const or not, by its name, with its number and its type.
fn member_of_struct(known: &Known, name: &Text, id: TypeId) -> Option<(u32, TypeId)>
    requires { IsId known.now.types id }
    ensures found { (later : List OneShape) → Begins known.now.types.shapes later
        → option_map (member_over later) result ≡ rules.member_of_struct (known_over later known.now) name.now (types_of_c.bare (type_over later id)) }
    ensures numbered { IfSome result (λ one. IsId known.now.types one.1) }
{
    match member_in_struct(known, name, id) {
        Some((n, member)) => Some((n, member.kind)),
        None => None,
    }
}

/// A member of an lvalue has the const of the whole; one of a value has none (6.5.2.3p3), and is no array.
fn member_in(
    known: &mut Known,
    whole_is_lvalue: bool,
    whole_is_const: bool,
    found: (u32, TypeId),
) -> Result<Option<(u32, TypeId)>, Memory>
    requires { IsId known.old.types found.1 }
    ensures found { IfOk result (λ made. (later : List OneShape) → Begins known.new.types.shapes later
        → option_map (member_over later) made ≡ rules.member_in whole_is_lvalue whole_is_const (member_over later found)) }
    ensures numbered { IfOk result (λ made. IfSome made (λ one. IsId known.new.types one.1)) }
    ensures grows { Grows known.old known.new }
{
    let (n, kind) = found;
    if !whole_is_lvalue {
        return Ok(member_of_value(known, n, kind));
    }
    if !whole_is_const {
        return Ok(Some((n, kind)));
    }
    let kind = known.intern(Shape::Const(kind))?;
    Ok(Some((n, kind)))
}

/// A member of a value.
fn member_of_value(known: &Known, n: u32, kind: TypeId) -> Option<(u32, TypeId)>
    requires { IsId known.now.types kind }
    ensures found { (later : List OneShape) → Begins known.now.types.shapes later
        → (whole_is_const : Bool) → option_map (member_over later) result ≡ rules.member_in false whole_is_const (n, type_over later kind) }
    ensures numbered { IfSome result (λ one. IsId known.now.types one.1) }
{
    if is_array(&known.types, kind) {
        return None;
    }
    Some((n, bare(&known.types, kind)))
}

/// A member of an expression by its name.
fn member_by_name(
    known: &mut Known,
    name: &Text,
    whole: &Core,
) -> Result<Option<(u32, TypeId)>, Memory>
    requires { IsNumbered known.old.types whole.now }
    ensures found { IfOk result (λ found. (later : List OneShape) → Begins known.new.types.shapes later
        → option_map (member_over later) found ≡ rules.member_by_name (known_over later known.old) name.now (view_over later whole.now)) }
    ensures numbered { IfOk result (λ found. IfSome found (λ one. IsId known.new.types one.1)) }
    ensures grows { Grows known.old known.new }
{
    let whole_is_const = is_const(&known.types, whole.kind);
    let whole_is_lvalue = is_lvalue(whole);
    let found = member_of_struct(known, name, whole.kind);
    match found {
        Some(one) => {
            let made = member_in(known, whole_is_lvalue, whole_is_const, one)?;
            Ok(made)
        }
        None => Ok(None),
    }
}

/// `a.b` (C12).
pub fn typed_member(
    typer: &Typer<'_>,
    known: &mut Known,
    at: Extent,
    name: u32,
    whole: Core,
) -> Result<Core, Stop>
    requires { IsNumbered known.old.types whole }
    ensures gives { (later : List OneShape) → Begins known.new.types.shapes later → Gives (view_over later) (source_of typer.now) (known_over later known.new) result
        (typing.typed_member (setting_of typer.now) (known_over later known.old) at name (view_over later whole)) }
    ensures numbered { IfOk result (IsNumbered known.new.types) }
    ensures grows { Grows known.old known.new }
{
    let name = typer.spelling(name)?;
    let found = member_by_name(known, &name, &whole)?;
    match found {
        Some(one) => {
            let made = typer.member(at, one.0, whole, one.1)?;
            Ok(made)
        }
        None => Err(typer.broken(12, at.inner.first)),
    }
}

/// `a->b` (C12).
pub fn typed_arrow(
    typer: &Typer<'_>,
    known: &mut Known,
    at: Extent,
    name: u32,
    pointing: Core,
) -> Result<Core, Stop>
    requires { IsNumbered known.old.types pointing }
    ensures gives { (later : List OneShape) → Begins known.new.types.shapes later → Gives (view_over later) (source_of typer.now) (known_over later known.new) result
        (typing.typed_arrow (setting_of typer.now) (known_over later known.old) at name (view_over later pointing)) }
    ensures numbered { IfOk result (IsNumbered known.new.types) }
    ensures grows { Grows known.old known.new }
{
    match complete_target(known, pointing.kind) {
        Some(to) => {
            let whole = typer.follow(at, pointing, to)?;
            typed_member(typer, known, at, name, whole)
        }
        None => Err(typer.broken(12, at.inner.first)),
    }
}
