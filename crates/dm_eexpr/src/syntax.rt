//! The typing of type names, specifiers and declarators (6.7.2, 6.7.6, 6.7.7).

ghost use Rattle.std.specs.Prelude.{false, [], map, option_map, negsuc};
ghost use Rattle.dm_type.specs.Tables.{IsId};
ghost use Rattle.dm_syn.specs.Trees as tree;
ghost use Rattle.dm_syn.specs.Views as syntax;
ghost use Rattle.dm_typing.specs.Specifiers.{nothing_said};
ghost use Rattle.dm_typing.specs.Typing as typing;
ghost use Rattle.dm_edeclarator.specs.Steps as stages;
ghost use Rattle.dm_eexpr.specs.Parts as parts;
ghost use Rattle.dm_edeclarator.specs.Steps.{where_of, said_over, SaidFits, fields_over, FieldsFit, steps_over, StepsFit, parameter_over, ParameterFits, parameters_over, ParametersFit, name_over, NameFits, Follows};
ghost use Rattle.dm_typing.specs.Views.{type_over, known_over, source_of, setting_of};

use crate::expressions::value_of;
use dm_edeclarator::declarators::{
    PlacedStep, Step, TypedParameter, derived, direct_at, length_of, parameter_at, typed_parameter,
    with_function, with_pointers, with_step,
};
use dm_edeclarator::names::TypedName;
use dm_edeclarator::places::{enter, leave, replace_constants};
use dm_edeclarator::specifiers::{Said, Where, typed_said};
use dm_edeclarator::tagged::{
    enum_begun, enum_ended, tagged_enum, tagged_struct, typed_field, typedef_said,
};
use dm_enames::tags::{enumerator_implied, enumerator_valued, struct_begun, struct_ended};
use dm_syn::{
    Declarator, Direct, EnumForm, EnumItem, Expr, MemberForm, Parameter, Specifier, Specifiers,
    StructForm, TypeName, declarator_name,
};
use dm_token::{Boxed, List, Span, Stop};
use dm_type::{Members, TypeId};
use dm_typing::{Known, Typer};

/// A type name (6.7.7). Its trees are a list of their own.
#[cycle(typing)]
pub fn typed_name(
    typer: &Typer<'_>,
    known: &mut Known,
    used: bool,
    name: &TypeName,
) -> Result<TypedName, Stop>
    ensures { Follows NameFits name_over (source_of typer.now) known.old known.new result (λ later. typing.typed_name (setting_of typer.now) used (known_over later known.old) (syntax.type_name name.now)) }
{
    let before = replace_constants(known, List::new(typer.alloc));
    let kind = typed_with(typer, known, used, &name.specifiers, &name.declarator)?;
    let constants = replace_constants(known, before);
    Ok(TypedName { kind, constants })
}

/// The type of specifiers and a declarator.
#[cycle(typing)]
fn typed_with(
    typer: &Typer<'_>,
    known: &mut Known,
    used: bool,
    specifiers: &Specifiers,
    declarator: &Declarator,
) -> Result<TypeId, Stop>
    ensures { Follows IsId type_over (source_of typer.now) known.old known.new result (λ later. parts.typed_with (setting_of typer.now) used (known_over later known.old) (syntax.specifiers specifiers.now) (syntax.declarator declarator.now)) }
{
    let base = typed_specifiers(typer, known, used, Where::Elsewhere, false, specifiers)?;
    declared_type(typer, known, used, base, declarator)
}

/// The type that a declarator makes of another (6.7.6).
#[cycle(typing)]
pub fn declared_type(
    typer: &Typer<'_>,
    known: &mut Known,
    used: bool,
    base: TypeId,
    declarator: &Declarator,
) -> Result<TypeId, Stop>
    requires { IsId known.old.types base }
    ensures { Follows IsId type_over (source_of typer.now) known.old known.new result (λ later. parts.declared_type (setting_of typer.now) used (known_over later known.old) (type_over later base) (syntax.declarator declarator.now)) }
{
    let steps = steps_of(typer, known, used, declarator)?;
    derived(typer, known, base, steps)
}

/// A list of specifiers (6.7). `alone` says that a declaration has nothing but these.
#[cycle(typing)]
pub fn typed_specifiers(
    typer: &Typer<'_>,
    known: &mut Known,
    used: bool,
    stands: Where,
    alone: bool,
    specifiers: &Specifiers,
) -> Result<TypeId, Stop>
    ensures { Follows IsId type_over (source_of typer.now) known.old known.new result (λ later. typing.typed_specifiers (setting_of typer.now) used (where_of stands) alone (known_over later known.old) (syntax.specifiers specifiers.now)) }
{
    let said = words_said(typer, known, used, alone, specifiers.words.items())?;
    typed_said(typer, known, stands, specifiers.span.first, &said)
}

/// What specifiers say.
#[cycle(typing)]
pub fn words_said(
    typer: &Typer<'_>,
    known: &mut Known,
    used: bool,
    alone: bool,
    words: &[Specifier],
) -> Result<Said, Stop>
    ensures { Follows SaidFits said_over (source_of typer.now) known.old known.new result (λ later. typing.words_said (setting_of typer.now) used alone (known_over later known.old) nothing_said (syntax.words (map syntax.specifier words.now))) }
{
    let mut said = Said::nothing(typer.alloc);
    for word in words {
        let made = word_said(typer, known, used, alone, said, word)?;
        said = made;
    }
    Ok(said)
}

/// One specifier more.
#[cycle(typing)]
fn word_said(
    typer: &Typer<'_>,
    known: &mut Known,
    used: bool,
    alone: bool,
    said: Said,
    word: &Specifier,
) -> Result<Said, Stop>
    requires { SaidFits known.old.types said }
    ensures { Follows SaidFits said_over (source_of typer.now) known.old known.new result (λ later. typing.word_said (setting_of typer.now) used alone (known_over later known.old) (said_over later said) (syntax.specifier word.now)) }
{
    match word {
        Specifier::Word(at) => {
            let row = typer.keyword(*at).unwrap_or(0);
            let made = said.with_word(row)?;
            Ok(made)
        }
        Specifier::Typedef(at) => typedef_said(typer, known, said, *at),
        Specifier::Struct(form) => {
            let kind = typed_struct(typer, known, used, alone, form)?;
            let made = said.with_type(kind)?;
            Ok(made)
        }
        Specifier::Enum(form) => {
            let kind = typed_enum(typer, known, used, form)?;
            let made = said.with_type(kind)?;
            Ok(made)
        }
    }
}

/// `struct` with a tag, members or both (6.7.2.1).
#[cycle(typing)]
fn typed_struct(
    typer: &Typer<'_>,
    known: &mut Known,
    used: bool,
    alone: bool,
    form: &StructForm,
) -> Result<TypeId, Stop>
    ensures { Follows IsId type_over (source_of typer.now) known.old known.new result (λ later. parts.type_of_specifier (setting_of typer.now) used alone (known_over later known.old) (syntax.struct_form form.now)) }
{
    match &form.members {
        None => tagged_struct(typer, known, alone, form.span, form.tag),
        Some(members) => struct_with(typer, known, used, form.span, form.tag, members.items()),
    }
}

/// `struct` with members.
#[cycle(typing)]
fn struct_with(
    typer: &Typer<'_>,
    known: &mut Known,
    used: bool,
    span: Span,
    tag: Option<u32>,
    members: &[MemberForm],
) -> Result<TypeId, Stop>
    ensures { Follows IsId type_over (source_of typer.now) known.old known.new result (λ later. parts.struct_with (setting_of typer.now) used (known_over later known.old) span tag (syntax.members (map syntax.member_form members.now))) }
{
    let begun = struct_begun(typer, known, tag)?;
    let fields = fields_of(typer, known, used, members)?;
    struct_ended(typer, known, span, begun, fields)
}

/// The members of a struct.
#[cycle(typing)]
fn fields_of(
    typer: &Typer<'_>,
    known: &mut Known,
    used: bool,
    members: &[MemberForm],
) -> Result<Members, Stop>
    ensures { Follows FieldsFit fields_over (source_of typer.now) known.old known.new result (λ later. typing.fields_of (setting_of typer.now) used (known_over later known.old) [] (syntax.members (map syntax.member_form members.now))) }
{
    let mut fields = Members::new(typer.alloc);
    for member in members {
        let made = fields_declared(typer, known, used, fields, member)?;
        fields = made;
    }
    Ok(fields)
}

/// A declaration of members.
#[cycle(typing)]
fn fields_declared(
    typer: &Typer<'_>,
    known: &mut Known,
    used: bool,
    fields: Members,
    form: &MemberForm,
) -> Result<Members, Stop>
    requires { FieldsFit known.old.types fields }
    ensures { Follows FieldsFit fields_over (source_of typer.now) known.old known.new result (λ later. typing.fields_declared (setting_of typer.now) used (known_over later known.old) (fields_over later fields) (syntax.member_form form.now)) }
{
    let base = typed_specifiers(
        typer,
        known,
        used,
        Where::Elsewhere,
        false,
        &form.specifiers,
    )?;
    fields_with(typer, known, used, base, fields, form.declarators.items())
}

/// Members of a type that specifiers say.
#[cycle(typing)]
fn fields_with(
    typer: &Typer<'_>,
    known: &mut Known,
    used: bool,
    base: TypeId,
    fields: Members,
    declarators: &[Declarator],
) -> Result<Members, Stop>
    requires base { IsId known.old.types base }
    requires fields { FieldsFit known.old.types fields }
    ensures { Follows FieldsFit fields_over (source_of typer.now) known.old known.new result (λ later. typing.fields_with (setting_of typer.now) used (known_over later known.old) (type_over later base) (fields_over later fields) (syntax.declarators (map syntax.declarator declarators.now))) }
{
    let mut fields = fields;
    for declarator in declarators {
        let made = field_with(typer, known, used, base, fields, declarator)?;
        fields = made;
    }
    Ok(fields)
}

/// One of them.
#[cycle(typing)]
fn field_with(
    typer: &Typer<'_>,
    known: &mut Known,
    used: bool,
    base: TypeId,
    fields: Members,
    declarator: &Declarator,
) -> Result<Members, Stop>
    requires base { IsId known.old.types base }
    requires fields { FieldsFit known.old.types fields }
    ensures { Follows FieldsFit fields_over (source_of typer.now) known.old known.new result (λ later. parts.field_with (setting_of typer.now) used (known_over later known.old) (type_over later base) (fields_over later fields) (syntax.declarator declarator.now)) }
{
    let kind = declared_type(typer, known, used, base, declarator)?;
    typed_field(typer, known, fields, kind, declarator)
}

/// `enum` with a tag, enumerators or both (6.7.2.2).
#[cycle(typing)]
fn typed_enum(
    typer: &Typer<'_>,
    known: &mut Known,
    used: bool,
    form: &EnumForm,
) -> Result<TypeId, Stop>
    ensures { Follows IsId type_over (source_of typer.now) known.old known.new result (λ later. parts.type_of_specifier (setting_of typer.now) used false (known_over later known.old) (syntax.enum_form form.now)) }
{
    match &form.enumerators {
        None => tagged_enum(typer, known, form.span, form.tag),
        Some(enumerators) => enum_with(
            typer,
            known,
            used,
            form.span,
            form.tag,
            enumerators.items(),
        ),
    }
}

/// `enum` with enumerators.
#[cycle(typing)]
fn enum_with(
    typer: &Typer<'_>,
    known: &mut Known,
    used: bool,
    span: Span,
    tag: Option<u32>,
    enumerators: &[EnumItem],
) -> Result<TypeId, Stop>
    ensures { Follows IsId type_over (source_of typer.now) known.old known.new result (λ later. parts.enum_with (setting_of typer.now) used (known_over later known.old) span tag (syntax.enumerators (map syntax.enum_item enumerators.now))) }
{
    let is_new = enum_begun(typer, known, tag)?;
    let _last = enumerators_of(typer, known, used, enumerators)?;
    enum_ended(typer, known, span, is_new)
}

/// The enumerators of an `enum`, and the value of the last.
#[cycle(typing)]
fn enumerators_of(
    typer: &Typer<'_>,
    known: &mut Known,
    used: bool,
    enumerators: &[EnumItem],
) -> Result<i32, Stop>
    ensures { Follows stages.Anything stages.number_itself (source_of typer.now) known.old known.new result (λ later. typing.enumerators_of (setting_of typer.now) used (known_over later known.old) (negsuc 0) (syntax.enumerators (map syntax.enum_item enumerators.now))) }
{
    let mut last = -1;
    for enumerator in enumerators {
        let value = enumerator_of(typer, known, used, last, enumerator)?;
        last = value;
    }
    Ok(last)
}

/// An enumerator, whose value is one more than the one before where it has none.
#[cycle(typing)]
fn enumerator_of(
    typer: &Typer<'_>,
    known: &mut Known,
    used: bool,
    before: i32,
    item: &EnumItem,
) -> Result<i32, Stop>
    ensures { Follows stages.Anything stages.number_itself (source_of typer.now) known.old known.new result (λ later. typing.enumerator_of (setting_of typer.now) used (known_over later known.old) before (syntax.enum_item item.now)) }
{
    match &item.value {
        None => enumerator_implied(typer, known, item.name, before),
        Some(value) => enumerator_with(typer, known, used, item.name, value),
    }
}

/// An enumerator with a value.
#[cycle(typing)]
fn enumerator_with(
    typer: &Typer<'_>,
    known: &mut Known,
    used: bool,
    name: u32,
    value: &Expr,
) -> Result<i32, Stop>
    ensures { Follows stages.Anything stages.number_itself (source_of typer.now) known.old known.new result (λ later. parts.enumerator_with (setting_of typer.now) used (known_over later known.old) name (syntax.expr value.now)) }
{
    let tree = value_of(typer, known, used, value)?;
    enumerator_valued(typer, known, name, value.span.first, tree)
}

/// The steps that a declarator takes, the last of them first.
#[cycle(typing)]
pub fn steps_of(
    typer: &Typer<'_>,
    known: &mut Known,
    used: bool,
    declarator: &Declarator,
) -> Result<List<PlacedStep>, Stop>
    ensures { Follows StepsFit steps_over (source_of typer.now) known.old known.new result (λ later. typing.steps_of (setting_of typer.now) used (known_over later known.old) (syntax.declarator declarator.now)) }
{
    let first = declarator.span.first;
    let pointers = declarator.pointers.items();
    let here = direct_at(first, pointers)?;
    let steps = direct_steps(typer, known, used, here, &declarator.direct)?;
    let made = with_pointers(typer, steps, first, pointers)?;
    Ok(made)
}

/// The steps behind the pointers.
#[cycle(typing)]
fn direct_steps(
    typer: &Typer<'_>,
    known: &mut Known,
    used: bool,
    here: u32,
    direct: &Direct,
) -> Result<List<PlacedStep>, Stop>
    ensures { Follows StepsFit steps_over (source_of typer.now) known.old known.new result (λ later. typing.direct_steps (setting_of typer.now) used (known_over later known.old) here (syntax.direct direct.now)) }
{
    match direct {
        Direct::Absent => Ok(List::new(typer.alloc)),
        Direct::Name(_) => Ok(List::new(typer.alloc)),
        Direct::Paren(enclosed) => steps_of(typer, known, used, enclosed.get()),
        Direct::Array(elements, length) => {
            array_steps(typer, known, used, here, elements.get(), length)
        }
        Direct::Function(result, parameters) => {
            function_steps(typer, known, used, here, result.get(), parameters.items())
        }
    }
}

/// An array, and what stands in front of it.
#[cycle(typing)]
fn array_steps(
    typer: &Typer<'_>,
    known: &mut Known,
    used: bool,
    here: u32,
    direct: &Direct,
    length: &Option<Boxed<Expr>>,
) -> Result<List<PlacedStep>, Stop>
    ensures { Follows StepsFit steps_over (source_of typer.now) known.old known.new result (λ later. typing.direct_steps (setting_of typer.now) used (known_over later known.old) here (syntax.array_view (syntax.direct direct.now) (option_map syntax.expr length.now))) }
{
    let steps = direct_steps(typer, known, used, here, direct)?;
    array_with(typer, known, used, here, steps, length)
}

/// An array, with a length or without one, in front of other steps.
#[cycle(typing)]
pub fn array_with(
    typer: &Typer<'_>,
    known: &mut Known,
    used: bool,
    here: u32,
    steps: List<PlacedStep>,
    length: &Option<Boxed<Expr>>,
) -> Result<List<PlacedStep>, Stop>
    requires { StepsFit known.old.types steps }
    ensures { Follows StepsFit steps_over (source_of typer.now) known.old known.new result (λ later. parts.array_steps (setting_of typer.now) used (known_over later known.old) here (steps_over later steps) (option_map syntax.expr length.now)) }
{
    match length {
        None => {
            let made = with_step(typer, steps, here, Step::Arraying(None))?;
            Ok(made)
        }
        Some(length) => sized(typer, known, used, here, steps, length.get()),
    }
}

/// A function, and what stands in front of it.
#[cycle(typing)]
fn function_steps(
    typer: &Typer<'_>,
    known: &mut Known,
    used: bool,
    here: u32,
    direct: &Direct,
    parameters: &[Parameter],
) -> Result<List<PlacedStep>, Stop>
    ensures { Follows StepsFit steps_over (source_of typer.now) known.old known.new result (λ later. typing.direct_steps (setting_of typer.now) used (known_over later known.old) here (tree.function (syntax.direct direct.now) (syntax.parameters (map syntax.parameter parameters.now)))) }
{
    let steps = direct_steps(typer, known, used, here, direct)?;
    calling(typer, known, used, here, steps, parameters)
}

/// An array of a length, in front of other steps (6.7.6.2).
#[cycle(typing)]
fn sized(
    typer: &Typer<'_>,
    known: &mut Known,
    used: bool,
    here: u32,
    steps: List<PlacedStep>,
    length: &Expr,
) -> Result<List<PlacedStep>, Stop>
    requires { StepsFit known.old.types steps }
    ensures { Follows StepsFit steps_over (source_of typer.now) known.old known.new result (λ later. parts.sized_steps (setting_of typer.now) used (known_over later known.old) here (steps_over later steps) (syntax.expr length.now)) }
{
    let tree = value_of(typer, known, used, length)?;
    let length = length_of(typer, known, length.span.first, tree)?;
    let made = with_step(typer, steps, here, Step::Arraying(Some(length)))?;
    Ok(made)
}

/// A function in front of other steps, whose parameters are declared in a scope of their own (6.2.1p4).
#[cycle(typing)]
pub fn calling(
    typer: &Typer<'_>,
    known: &mut Known,
    used: bool,
    here: u32,
    steps: List<PlacedStep>,
    parameters: &[Parameter],
) -> Result<List<PlacedStep>, Stop>
    requires { StepsFit known.old.types steps }
    ensures { Follows StepsFit steps_over (source_of typer.now) known.old known.new result (λ later. parts.calling_steps (setting_of typer.now) used (known_over later known.old) here (steps_over later steps) (syntax.parameters (map syntax.parameter parameters.now))) }
{
    enter(known)?;
    let typed = parameters_of(typer, known, used, parameters)?;
    leave(known);
    let made = with_function(typer, known, steps, here, typed)?;
    Ok(made)
}

/// The parameters of a function (6.7.6.3).
#[cycle(typing)]
pub fn parameters_of(
    typer: &Typer<'_>,
    known: &mut Known,
    used: bool,
    parameters: &[Parameter],
) -> Result<List<TypedParameter>, Stop>
    ensures { Follows ParametersFit parameters_over (source_of typer.now) known.old known.new result (λ later. typing.parameters_of (setting_of typer.now) used (known_over later known.old) (syntax.parameters (map syntax.parameter parameters.now))) }
{
    let mut typed = List::new(typer.alloc);
    for parameter in parameters {
        let one = parameter_of(typer, known, used, parameter)?;
        typed.push(one)?;
    }
    Ok(typed)
}

/// A parameter.
#[cycle(typing)]
pub fn parameter_of(
    typer: &Typer<'_>,
    known: &mut Known,
    used: bool,
    parameter: &Parameter,
) -> Result<TypedParameter, Stop>
    ensures { Follows ParameterFits parameter_over (source_of typer.now) known.old known.new result (λ later. typing.parameter_of (setting_of typer.now) used (known_over later known.old) (syntax.parameter parameter.now)) }
{
    let kind = typed_with(
        typer,
        known,
        used,
        &parameter.specifiers,
        &parameter.declarator,
    )?;
    let name = declarator_name(&parameter.declarator);
    typed_parameter(typer, known, parameter_at(parameter), kind, name)
}
