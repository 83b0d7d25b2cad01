//! Steps of the typing of specifiers: tags, typedef names and members.

ghost use Rattle.std.specs.Prelude.{◌≡◌, not, is_some, List, IfOk, OnOk};
ghost use Rattle.dm_type.specs.declared.shape.Shape.{Shape as OneShape};
ghost use Rattle.dm_type.specs.Tables.{IsId};
ghost use Rattle.dm_syn.specs.Scopes.{declarator_name as declarator_name_of};
ghost use Rattle.dm_syn.specs.Spans.{declarator_span};
ghost use Rattle.dm_syn.specs.Views as syntax;
ghost use Rattle.dm_typing.specs.Typing as typing;
ghost use Rattle.dm_edeclarator.specs.Steps as stages;
ghost use Rattle.dm_edeclarator.specs.Steps.{said_over, SaidFits, fields_over, FieldsFit, Follows};
ghost use Rattle.dm_typing.specs.Views.{Begins, type_over, known_over, source_of, setting_of, Gives, Grows};

use crate::specifiers::Said;
use dm_enames::tags::{enum_named, struct_named, tag_declared, tag_inside, tag_seen, type_meant};
use dm_int::Kind;
use dm_syn::{Declarator, declarator_name};
use dm_token::{Memory, Span, Stop, Text};
use dm_type::{Member, Members, Shape, TypeId};
use dm_typing::looks::is_complete;
use dm_typing::{Known, Typer};

/// A typedef name among specifiers.
pub fn typedef_said(typer: &Typer<'_>, known: &Known, said: Said, at: u32) -> Result<Said, Stop>
    requires { SaidFits known.now.types said }
    ensures { Follows SaidFits said_over (source_of typer.now) known.now known.now result (λ later. stages.typedef_said (setting_of typer.now) (known_over later known.now) (said_over later said) at) }
{
    let name = typer.spelling(at)?;
    match type_meant(known, &name) {
        Some(kind) => {
            let made = said.with_type(kind)?;
            Ok(made)
        }
        None => Err(typer.broken(1, at)),
    }
}

/// `struct` with a tag alone. In a declaration of nothing else it is one of the innermost scope (6.7.2.3p7).
pub fn tagged_struct(
    typer: &Typer<'_>,
    known: &mut Known,
    alone: bool,
    span: Span,
    tag: Option<u32>,
) -> Result<TypeId, Stop>
    ensures { Follows IsId type_over (source_of typer.now) known.old known.new result (λ later. stages.tagged_struct (setting_of typer.now) alone (known_over later known.old) span tag) }
{
    if alone {
        let meant = tag_inside(typer, known, tag)?;
        struct_named(typer, known, span, tag, meant)
    } else {
        let meant = tag_seen(typer, known, tag)?;
        struct_named(typer, known, span, tag, meant)
    }
}

/// `enum` with a tag alone (6.7.2.3p3).
pub fn tagged_enum(
    typer: &Typer<'_>,
    known: &mut Known,
    span: Span,
    tag: Option<u32>,
) -> Result<TypeId, Stop>
    ensures { Follows IsId type_over (source_of typer.now) known.old known.new result (λ later. typing.enum_named (known_over later known.old) span (typing.tag_seen (setting_of typer.now) (known_over later known.old) tag)) }
{
    let meant = tag_seen(typer, known, tag)?;
    enum_named(typer, known, span, meant)
}

/// An `enum` whose enumerators follow. Its tag is declared unless it is in this scope; whether it wasn't is given.
pub fn enum_begun(typer: &Typer<'_>, known: &mut Known, tag: Option<u32>) -> Result<bool, Memory>
    ensures new { IfOk result (λ is_new. (later : List OneShape) → Begins known.new.types.shapes later → is_new ≡ not (is_some (typing.tag_inside (setting_of typer.now) (known_over later known.old) tag))) }
    ensures behind { OnOk result ((later : List OneShape) → Begins known.new.types.shapes later → known_over later known.new ≡ stages.enum_begun_with (setting_of typer.now) (known_over later known.old) tag) }
    ensures shapes { Begins known.old.types.shapes known.new.types.shapes }
{
    match tag_inside(typer, known, tag)? {
        Some(_) => Ok(false),
        None => {
            let kind = known.intern(Shape::Integer(Kind::Int))?;
            tag_declared(typer, known, tag, kind)?;
            Ok(true)
        }
    }
}

/// An `enum` has its enumerators once in a scope (C4).
pub fn enum_ended(
    typer: &Typer<'_>,
    known: &mut Known,
    span: Span,
    is_new: bool,
) -> Result<TypeId, Stop>
    ensures gives { (later : List OneShape) → Begins known.new.types.shapes later → Gives (type_over later) (source_of typer.now) (known_over later known.new) result
        (stages.enum_ended_with (known_over later known.old) span is_new) }
    ensures numbered { IfOk result (IsId known.new.types) }
    ensures grows { Grows known.old known.new }
{
    if !is_new {
        return Err(typer.broken(4, span.first));
    }
    let kind = known.intern(Shape::Integer(Kind::Int))?;
    Ok(kind)
}

/// The name of a member, which may be none.
fn name_of(typer: &Typer<'_>, at: Option<u32>) -> Result<Text, Memory>
    ensures { IfOk result (λ name. name ≡ typing.name_of (setting_of typer.now) at) }
{
    match at {
        Some(at) => typer.spelling(at),
        None => Text::new(typer.alloc, ""),
    }
}

/// A member has a complete type (C5) and a name of its own (C6).
pub fn typed_field(
    typer: &Typer<'_>,
    known: &Known,
    fields: Members,
    kind: TypeId,
    declarator: &Declarator,
) -> Result<Members, Stop>
    requires kind { IsId known.now.types kind }
    requires fields { FieldsFit known.now.types fields }
    ensures gives { (later : List OneShape) → Begins known.now.types.shapes later → Gives (fields_over later) (source_of typer.now) (known_over later known.now) result
        (typing.typed_field (setting_of typer.now) (known_over later known.now) (declarator_span (syntax.declarator declarator.now)).first (declarator_name_of (syntax.declarator declarator.now)) (fields_over later fields) (type_over later kind)) }
    ensures numbered { IfOk result (FieldsFit known.now.types) }
{
    let here = declarator.span.first;
    if !is_complete(known, kind) {
        return Err(typer.broken(5, here));
    }
    let at = declarator_name(declarator);
    let name = name_of(typer, at)?;
    let mut fields = fields;
    let added = fields.push(Member { name, kind })?;
    if !added {
        return Err(typer.broken(6, at.unwrap_or(here)));
    }
    Ok(fields)
}
