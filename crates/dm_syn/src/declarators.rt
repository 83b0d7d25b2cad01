//! What declarators declare, and whether there is one (6.7.6, 6.7.7).

ghost use Rattle.std.specs.Prelude.{◌≡◌};
ghost use Rattle.dm_syn.specs.Heights as height;
ghost use Rattle.dm_syn.specs.Scopes as scopes;
ghost use Rattle.dm_syn.specs.Views as view;

use crate::declaration::{Declarator, Direct};

/// The identifier that a declarator declares, if it has one.
#[cycle(naming)]
pub fn declarator_name(declarator: &Declarator) -> Option<u32>
    ensures { result ≡ scopes.declarator_name (view.declarator declarator.now) }
{
    direct_name(&declarator.direct)
}

// The identifier that stands innermost.
#[cycle(naming)]
fn direct_name(direct: &Direct) -> Option<u32>
    ensures { result ≡ scopes.direct_name (view.direct direct.now) }
{
    match direct {
        Direct::Absent => None,
        Direct::Name(name) => Some(*name),
        Direct::Paren(inner) => declarator_name(inner.get()),
        Direct::Array(inner, _) => direct_name(inner.get()),
        Direct::Function(inner, _) => direct_name(inner.get()),
    }
}

/// Whether an abstract declarator is empty.
pub fn is_absent(declarator: &Declarator) -> bool
    ensures { result ≡ height.is_absent (view.declarator declarator.now) }
{
    declarator.pointers.is_empty() && is_nothing(&declarator.direct)
}

/// Whether nothing stands behind the pointers of a declarator.
pub fn is_nothing(direct: &Direct) -> bool
    ensures { result ≡ height.is_nothing (view.direct direct.now) }
{
    matches!(direct, Direct::Absent)
}
