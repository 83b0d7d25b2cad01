//! Function definitions (6.9.1).

ghost use Rattle.std.specs.Prelude.{◌≡◌, ◌++◌, List as Sequence, map, IfOk};
ghost use Rattle.dm_type.specs.Tables.{IsId};
ghost use Rattle.dm_syn.specs.Trees as tree;
ghost use Rattle.dm_syn.specs.Views as syntax;
ghost use Rattle.dm_typing.specs.Fitting.{AreNumbered};
ghost use Rattle.dm_typing.specs.Views.{type_over, view_over, source_of, setting_of};
ghost use Rattle.dm_edecl.specs.Declaring as declaring;
ghost use Rattle.dm_edecl.specs.Linkages as linkages;
ghost use Rattle.dm_edecl.specs.Units as units;
ghost use Rattle.dm_estanding.specs.Proceeding.{Proceeds};
ghost use Rattle.dm_estanding.specs.Summaries.{storage_seen};
ghost use Rattle.dm_edeclaration.specs.Steps.{specified_over, SpecifiedFits};
ghost use Rattle.dm_eunit.specs.Functions as functions;
ghost use Rattle.dm_eunit.specs.Functions.{external_over, ExternalFits};
ghost use Rattle.dm_eunit.specs.Headings.{headed_over, HeadedFits};

use crate::bodies::body_of;
use crate::definable::function_declared;
use crate::heading::{Heading, Own, typed_heading};
use dm_edeclaration::specified::{Specification, specified};
use dm_edeclarator::places::replace_constants;
use dm_edeclarator::specifiers::Where;
use dm_estanding::Standing;
use dm_syn::{Declarator, Specifiers, Stmt};
use dm_token::{List, Memory, Span, Stop};
use dm_tree::{Core, CoreExternal, CoreExternalForm};
use dm_typing::Typer;

/// Trees in front of others.
fn joined(constants: List<Core>, more: List<Core>) -> Result<List<Core>, Memory>
    ensures { IfOk result (λ all. all ≡ constants ++ more) }
{
    let mut all = constants.into_vec();
    all.append(&mut more.into_vec())?;
    Ok(List::from_vec(all))
}

/// A function definition: its entry, its parameters and its body, and the trees of its lengths and enumerator values.
pub(crate) fn typed_function(
    typer: &Typer<'_>,
    standing: &mut Standing,
    span: Span,
    specifiers: &Specifiers,
    declarator: &Declarator,
    body: &Stmt,
) -> Result<CoreExternal, Stop>
    ensures { Proceeds ExternalFits external_over (source_of typer.now) standing.old standing.new result
        (λ later before. units.typed_external (setting_of typer.now) before (tree.definition span (syntax.specifiers specifiers.now) (syntax.declarator declarator.now) (syntax.stmt body.now))) }
{
    let said = specified(
        typer,
        &mut standing.known,
        Where::OfDefinition,
        false,
        specifiers,
    )?;
    let constants = replace_constants(&mut standing.known, List::new(typer.alloc));
    function_headed(typer, standing, &said, span, constants, declarator, body)
}

/// The same behind its specifiers, whose trees stand first.
fn function_headed(
    typer: &Typer<'_>,
    standing: &mut Standing,
    said: &Specification,
    span: Span,
    constants: List<Core>,
    declarator: &Declarator,
    body: &Stmt,
) -> Result<CoreExternal, Stop>
    requires said { SpecifiedFits standing.old.known.types said.now }
    requires trees { AreNumbered standing.old.known.types constants }
    ensures { Proceeds ExternalFits external_over (source_of typer.now) standing.old standing.new result
        (λ later before. functions.function_headed (setting_of typer.now) (specified_over later said.now) before span (map (view_over later) constants) (syntax.declarator declarator.now) (syntax.stmt body.now)) }
{
    let heading = typed_heading(typer, &mut standing.known, said.kind, declarator)?;
    let more = replace_constants(&mut standing.known, List::new(typer.alloc));
    let all = joined(constants, more)?;
    function_defined(typer, standing, said, span, all, declarator, body, heading)
}

/// The same behind its declarator, with all these trees.
fn function_defined(
    typer: &Typer<'_>,
    standing: &mut Standing,
    said: &Specification,
    span: Span,
    constants: List<Core>,
    declarator: &Declarator,
    body: &Stmt,
    heading: Heading,
) -> Result<CoreExternal, Stop>
    requires heading { HeadedFits standing.old.known.types heading }
    requires trees { AreNumbered standing.old.known.types constants }
    ensures { Proceeds ExternalFits external_over (source_of typer.now) standing.old standing.new result
        (λ later before. functions.function_defined (setting_of typer.now) (specified_over later said.now) before span (map (view_over later) constants) (syntax.declarator declarator.now) (syntax.stmt body.now) (headed_over later heading)
        (linkages.entry_of (setting_of typer.now) before.known (storage_seen said.now.storage) (declaring.name_at (syntax.declarator declarator.now)) (type_over later heading.kind))) }
{
    let Heading { kind, own } = heading;
    let Own { numbers, names } = own;
    let function = function_declared(typer, standing, said, declarator, kind)?;
    let made = body_of(typer, standing, kind, names.as_slice(), body)?;
    Ok(CoreExternal {
        span,
        constants,
        form: CoreExternalForm::Function {
            function,
            parameters: numbers,
            body: made,
        },
    })
}
