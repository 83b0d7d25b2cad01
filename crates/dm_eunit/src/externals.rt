//! External declarations (6.9).

ghost use Rattle.std.specs.Prelude.{map};
ghost use Rattle.dm_syn.specs.Trees as tree;
ghost use Rattle.dm_syn.specs.Views as syntax;
ghost use Rattle.dm_typing.specs.Views.{source_of, setting_of};
ghost use Rattle.dm_edecl.specs.Units as units;
ghost use Rattle.dm_estanding.specs.Proceeding.{Proceeds};
ghost use Rattle.dm_eunit.specs.Functions.{external_over, ExternalFits, externals_over, ExternalsFit};

use crate::functions::typed_function;
use dm_edeclaration::declarations::typed_declaration;
use dm_edeclaration::items::TypedLocals;
use dm_estanding::Standing;
use dm_syn::{Declaration, External, ExternalForm};
use dm_token::{List, Span, Stop};
use dm_tree::{CoreExternal, CoreExternalForm};
use dm_typing::Typer;

/// The external declarations of a unit, one after another.
pub(crate) fn typed_externals(
    typer: &Typer<'_>,
    standing: &mut Standing,
    externals: &[External],
) -> Result<List<CoreExternal>, Stop>
    ensures { Proceeds ExternalsFit externals_over (source_of typer.now) standing.old standing.new result (λ later before. units.typed_externals (setting_of typer.now) before (map syntax.external externals.now)) }
{
    let mut all = List::new(typer.alloc);
    for external in externals {
        let made = typed_external(typer, standing, external)?;
        all.push(made)?;
    }
    Ok(all)
}

/// An external declaration.
fn typed_external(
    typer: &Typer<'_>,
    standing: &mut Standing,
    external: &External,
) -> Result<CoreExternal, Stop>
    ensures { Proceeds ExternalFits external_over (source_of typer.now) standing.old standing.new result (λ later before. units.typed_external (setting_of typer.now) before (syntax.external external.now)) }
{
    let span = external.span;
    match &external.form {
        ExternalForm::Declaration(declaration) => {
            declared_outside(typer, standing, span, declaration)
        }
        ExternalForm::Function(specifiers, declarator, body) => {
            typed_function(typer, standing, span, specifiers, declarator, body)
        }
    }
}

/// A declaration outside any function.
fn declared_outside(
    typer: &Typer<'_>,
    standing: &mut Standing,
    span: Span,
    declaration: &Declaration,
) -> Result<CoreExternal, Stop>
    ensures { Proceeds ExternalFits external_over (source_of typer.now) standing.old standing.new result (λ later before. units.typed_external (setting_of typer.now) before (tree.external span (syntax.declaration declaration.now))) }
{
    let typed = typed_declaration(typer, standing, declaration)?;
    let TypedLocals { constants, locals } = typed;
    Ok(CoreExternal {
        span,
        constants,
        form: CoreExternalForm::Declaration(locals),
    })
}
