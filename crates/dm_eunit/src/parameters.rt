//! The parameters of a function definition (6.9.1).

ghost use Rattle.std.specs.Prelude.{◌≡◌, true, ◌&&◌, List as Sequence, [], ◌∷◌, map, IfOk};
ghost use Rattle.dm_type.specs.declared.shape.Shape.{Shape as OneShape};
ghost use Rattle.dm_syn.specs.Views as syntax;
ghost use Rattle.dm_typing.specs.Typing as typing;
ghost use Rattle.dm_typing.specs.Views.{Begins, known_over, source_of, setting_of, Gives};
ghost use Rattle.dm_edeclarator.specs.Steps.{parameter_over, ParameterFits, parameters_over, ParametersFit, Follows};
ghost use Rattle.dm_edecl.specs.Units as units;
ghost use Rattle.dm_eunit.specs.Parts as parts;

use dm_edeclarator::declarators::{TypedParameter, parameter_at};
use dm_eexpr::syntax::parameter_of;
use dm_syn::Parameter;
use dm_token::{List, Memory, Stop};
use dm_typing::looks::{is_complete, is_void};
use dm_typing::{Known, Typer};

/// The parameters of a function definition. Each has a complete type and a name, but for `(void)`, which declares none.
pub(crate) fn defined_parameters(
    typer: &Typer<'_>,
    known: &mut Known,
    parameters: &[Parameter],
) -> Result<List<TypedParameter>, Stop>
    ensures { Follows ParametersFit parameters_over (source_of typer.now) known.old known.new result (λ later. units.defined_parameters (setting_of typer.now) true (known_over later known.old) (syntax.parameters (map syntax.parameter parameters.now))) }
{
    let alone = parameters.len() == 1;
    let mut typed = List::new(typer.alloc);
    for parameter in parameters {
        let one = defined_parameter(typer, known, alone, parameter)?;
        typed.push(one)?;
    }
    Ok(typed)
}

/// One of them. `alone` says that no other stands beside it.
fn defined_parameter(
    typer: &Typer<'_>,
    known: &mut Known,
    alone: bool,
    parameter: &Parameter,
) -> Result<TypedParameter, Stop>
    ensures { Follows ParameterFits parameter_over (source_of typer.now) known.old known.new result (λ later. units.defined_parameter (setting_of typer.now) alone (known_over later known.old) (syntax.parameter parameter.now)) }
{
    let one = parameter_of(typer, known, true, parameter)?;
    may_be_defined(typer, known, alone, parameter, one)
}

/// Whether a parameter that stands alone is `void` without a name, and so is none.
fn is_none(known: &Known, alone: bool, one: TypedParameter) -> bool
    requires { ParameterFits known.now.types one }
    ensures { (later : Sequence OneShape) → Begins known.now.types.shapes later → result ≡ (alone && typing.is_no_parameters (parameter_over later one ∷ [])) }
{
    if !alone {
        return false;
    }
    if !is_void(&known.types, one.kind) {
        return false;
    }
    one.declared.is_none()
}

/// A parameter of a definition has a complete type (C5) and a name (C35), unless it is none.
fn may_be_defined(
    typer: &Typer<'_>,
    known: &Known,
    alone: bool,
    parameter: &Parameter,
    one: TypedParameter,
) -> Result<TypedParameter, Stop>
    requires { ParameterFits known.now.types one }
    ensures gives { (later : Sequence OneShape) → Begins known.now.types.shapes later → Gives (parameter_over later) (source_of typer.now) (known_over later known.now) result
        (parts.parameter_behind alone (known_over later known.now) (syntax.parameter parameter.now) (parameter_over later one)) }
    ensures same { IfOk result (λ it. it ≡ one) }
{
    if is_none(known, alone, one) {
        return Ok(one);
    }
    if !is_complete(known, one.kind) {
        return Err(typer.broken(5, parameter_at(parameter)));
    }
    if one.declared.is_none() {
        return Err(typer.broken(35, parameter.span.first));
    }
    Ok(one)
}

/// The numbers of the declarations of parameters.
pub(crate) fn numbers_of(
    typer: &Typer<'_>,
    parameters: &[TypedParameter],
) -> Result<List<u32>, Memory>
    ensures { IfOk result (λ numbers. (later : Sequence OneShape) → numbers ≡ units.numbers_of (map (parameter_over later) parameters.now)) }
{
    let mut numbers = List::new(typer.alloc);
    for parameter in parameters {
        if let Some(number) = parameter.declared {
            numbers.push(number)?;
        }
    }
    Ok(numbers)
}
