//! What the specifiers of a declaration say (6.7.1 to 6.7.4).

ghost use Rattle.dm_syn.specs.Views as syntax;
ghost use Rattle.dm_typing.specs.Views.{known_over, source_of, setting_of};
ghost use Rattle.dm_edeclarator.specs.Steps.{where_of, Follows};
ghost use Rattle.dm_edecl.specs.Declaring as declaring;
ghost use Rattle.dm_edeclaration.specs.Steps.{specified_over, SpecifiedFits};

use dm_edeclarator::specifiers::{Where, typed_said};
use dm_eexpr::syntax::words_said;
use dm_estanding::storage::{Storage, storage_of};
use dm_syn::Specifiers;
use dm_token::Stop;
use dm_type::TypeId;
use dm_typing::{Known, Typer};

/// The type, the storage-class specifier and whether `inline` stands there, and the first token.
#[derive(Clone, Copy)]
pub struct Specification {
    pub kind: TypeId,
    pub storage: Storage,
    pub is_inline: bool,
    pub first: u32,
}

/// What specifiers say. `alone` says that a declaration has nothing but these.
pub fn specified(
    typer: &Typer<'_>,
    known: &mut Known,
    stands: Where,
    alone: bool,
    specifiers: &Specifiers,
) -> Result<Specification, Stop>
    ensures { Follows SpecifiedFits specified_over (source_of typer.now) known.old known.new result (λ later. declaring.specified (setting_of typer.now) (where_of stands) alone (known_over later known.old) (syntax.specifiers specifiers.now)) }
{
    let said = words_said(typer, known, true, alone, specifiers.words.items())?;
    let first = specifiers.span.first;
    let kind = typed_said(typer, known, stands, first, &said)?;
    Ok(Specification {
        kind,
        storage: storage_of(said.storage.items()),
        is_inline: said.is_inline,
        first,
    })
}
