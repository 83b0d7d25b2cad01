//! The declarator of a function definition (6.9.1).

ghost use Rattle.std.specs.Prelude.{◌≡◌, false, map, option_map};
ghost use Rattle.dm_type.specs.Tables.{IsId};
ghost use Rattle.dm_syn.specs.Trees as tree;
ghost use Rattle.dm_syn.specs.Views as syntax;
ghost use Rattle.dm_typing.specs.Views.{type_over, known_over, source_of, setting_of};
ghost use Rattle.dm_edeclarator.specs.Steps.{Follows};
ghost use Rattle.dm_edecl.specs.Units as units;
ghost use Rattle.dm_eunit.specs.Bare as bare;
ghost use Rattle.dm_eunit.specs.Headings.{begun_over, BegunFits, headed_over, HeadedFits};
ghost use Rattle.dm_eunit.specs.Parts as parts;

use crate::naming::{Numbered, names_since};
use crate::parameters::{defined_parameters, numbers_of};
use dm_edeclarator::declarators::{PlacedStep, derived, direct_at, with_function, with_pointers};
use dm_edeclarator::places::{enter, leave};
use dm_eexpr::syntax::{array_with, calling};
use dm_syn::{Declarator, Direct, Expr, Parameter};
use dm_token::{Boxed, List, Memory, Stop};
use dm_type::TypeId;
use dm_typing::{Known, Typer};

/// What the parameters of a function definition declare: their numbers, and the names of their scope, which opens again at the
/// body (6.2.1p4).
#[derive(Drop)]
pub(crate) struct Own {
    pub numbers: List<u32>,
    pub names: Vec<Numbered>,
}

/// What the declarator of a function definition says: the type of the function, and its parameters.
#[derive(Drop)]
pub(crate) struct Heading {
    pub kind: TypeId,
    pub own: Own,
}

/// The steps of such a declarator, the last of them first, with the definition's own parameters.
#[derive(Drop)]
pub(crate) struct Begun {
    pub steps: List<PlacedStep>,
    pub own: Own,
}

/// The declarator of a function definition.
pub(crate) fn typed_heading(
    typer: &Typer<'_>,
    known: &mut Known,
    base: TypeId,
    declarator: &Declarator,
) -> Result<Heading, Stop>
    requires { IsId known.old.types base }
    ensures { Follows HeadedFits headed_over (source_of typer.now) known.old known.new result (λ later. parts.headed (units.typed_heading (setting_of typer.now) (known_over later known.old) (type_over later base) (syntax.declarator declarator.now))) }
{
    let begun = declarator_begun(typer, known, declarator)?;
    let Begun { steps, own } = begun;
    let kind = derived(typer, known, base, steps)?;
    Ok(Heading { kind, own })
}

/// The steps of a declarator that is that of a function.
#[cycle(heading)]
fn declarator_begun(
    typer: &Typer<'_>,
    known: &mut Known,
    declarator: &Declarator,
) -> Result<Begun, Stop>
    ensures { Follows BegunFits begun_over (source_of typer.now) known.old known.new result (λ later. parts.declarator_begun (setting_of typer.now) (known_over later known.old) (syntax.declarator declarator.now)) }
{
    let first = declarator.span.first;
    let pointers = declarator.pointers.items();
    let here = direct_at(first, pointers)?;
    let begun = direct_begun(typer, known, here, &declarator.direct)?;
    let Begun { steps, own } = begun;
    let steps = with_pointers(typer, steps, first, pointers)?;
    Ok(Begun { steps, own })
}

/// The steps behind the pointers.
#[cycle(heading)]
fn direct_begun(
    typer: &Typer<'_>,
    known: &mut Known,
    here: u32,
    direct: &Direct,
) -> Result<Begun, Stop>
    ensures { Follows BegunFits begun_over (source_of typer.now) known.old known.new result (λ later. parts.direct_begun (setting_of typer.now) (known_over later known.old) here (syntax.direct direct.now)) }
{
    match direct {
        // Never so: the declarator of a definition is that of a function (6.9.1p2).
        Direct::Absent | Direct::Name(_) => Err(Stop::from(Memory)),
        Direct::Paren(enclosed) => declarator_begun(typer, known, enclosed.get()),
        Direct::Array(elements, length) => {
            array_begun(typer, known, here, elements.get(), length)
        }
        Direct::Function(result, parameters) => {
            function_begun(typer, known, here, result.get(), parameters.items())
        }
    }
}

/// An array in front of such steps, with a length or without one.
#[cycle(heading)]
fn array_begun(
    typer: &Typer<'_>,
    known: &mut Known,
    here: u32,
    direct: &Direct,
    length: &Option<Boxed<Expr>>,
) -> Result<Begun, Stop>
    ensures { Follows BegunFits begun_over (source_of typer.now) known.old known.new result (λ later. parts.direct_begun (setting_of typer.now) (known_over later known.old) here (syntax.array_view (syntax.direct direct.now) (option_map syntax.expr length.now))) }
{
    let begun = direct_begun(typer, known, here, direct)?;
    let Begun { steps, own } = begun;
    let steps = array_with(typer, known, true, here, steps, length)?;
    Ok(Begun { steps, own })
}

/// A function: that of the definition, if nothing but the name stands in front of its parameters.
#[cycle(heading)]
fn function_begun(
    typer: &Typer<'_>,
    known: &mut Known,
    here: u32,
    direct: &Direct,
    parameters: &[Parameter],
) -> Result<Begun, Stop>
    ensures { Follows BegunFits begun_over (source_of typer.now) known.old known.new result (λ later. parts.direct_begun (setting_of typer.now) (known_over later known.old) here (tree.function (syntax.direct direct.now) (syntax.parameters (map syntax.parameter parameters.now)))) }
{
    if is_bare(direct) {
        own_begun(typer, known, here, parameters)
    } else {
        called_begun(typer, known, here, direct, parameters)
    }
}

/// A function in front of such steps.
#[cycle(heading)]
fn called_begun(
    typer: &Typer<'_>,
    known: &mut Known,
    here: u32,
    direct: &Direct,
    parameters: &[Parameter],
) -> Result<Begun, Stop>
    requires { bare.is_bare (syntax.direct direct.now) ≡ false }
    ensures { Follows BegunFits begun_over (source_of typer.now) known.old known.new result (λ later. parts.direct_begun (setting_of typer.now) (known_over later known.old) here (tree.function (syntax.direct direct.now) (syntax.parameters (map syntax.parameter parameters.now)))) }
{
    let begun = direct_begun(typer, known, here, direct)?;
    let Begun { steps, own } = begun;
    let steps = calling(typer, known, true, here, steps, parameters)?;
    Ok(Begun { steps, own })
}

/// Whether it is a name, in parentheses or not.
#[cycle(bare)]
fn is_bare(direct: &Direct) -> bool
    ensures { result ≡ bare.is_bare (syntax.direct direct.now) }
{
    match direct {
        Direct::Absent | Direct::Name(_) => true,
        Direct::Paren(enclosed) => is_bare_declarator(enclosed.get()),
        _ => false,
    }
}

#[cycle(bare)]
fn is_bare_declarator(declarator: &Declarator) -> bool
    ensures { result ≡ bare.is_bare_declarator (syntax.declarator declarator.now) }
{
    declarator.pointers.is_empty() && is_bare(&declarator.direct)
}

/// The definition's own parameters, which are declared in a scope of their own.
fn own_begun(
    typer: &Typer<'_>,
    known: &mut Known,
    here: u32,
    parameters: &[Parameter],
) -> Result<Begun, Stop>
    ensures { Follows BegunFits begun_over (source_of typer.now) known.old known.new result (λ later. parts.own_begun (setting_of typer.now) (known_over later known.old) here (syntax.parameters (map syntax.parameter parameters.now))) }
{
    let Ok(from) = u32::try_from(known.declared.len()) else {
        return Err(Stop::from(Memory));
    };
    enter(known)?;
    let typed = defined_parameters(typer, known, parameters)?;
    let names = names_since(typer, known, from)?;
    let numbers = numbers_of(typer, typed.items())?;
    leave(known);
    let steps = with_function(typer, known, List::new(typer.alloc), here, typed)?;
    let own = Own { numbers, names };
    Ok(Begun { steps, own })
}
