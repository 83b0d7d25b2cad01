//! What is open while a part of a declaration is read: a scope, or a list of trees of its own.

ghost use Rattle.std.specs.Prelude.{◌≡◌, ◌<◌, [], ◌∷◌, ◌++◌, length, drop, OnOk};
ghost use Rattle.std.specs.FinMap as finite;
ghost use Rattle.dm_typing.specs.Fitting.{IsNumbered, AreNumbered};
ghost use Rattle.dm_edeclarator.specs.Steps.{SameBesideScopes, SameBesideConstants};

use dm_token::{List, Memory};
use dm_tree::Core;
use dm_typing::Known;
use std::mem;

/// A scope inside the innermost one. After an `Err` nothing is changed.
pub fn enter(known: &mut Known) -> Result<(), Memory>
    ensures scopes { OnOk result (known.new.scopes ≡ finite.empty ∷ known.old.scopes) }
    ensures outside { OnOk result (0 < length known.old.scopes) }
    ensures rest { SameBesideScopes known.old known.new }
{
    // Never so: there is a scope at any time, which the contracts of `Scopes` don't say.
    if known.scopes.depth() == 0 {
        return Err(Memory);
    }
    known.scopes.enter()?;
    Ok(())
}

/// The innermost scope ends.
pub fn leave(known: &mut Known)
    requires { 1 < length known.old.scopes }
    ensures scopes { known.new.scopes ≡ drop 1 known.old.scopes }
    ensures rest { SameBesideScopes known.old known.new }
{
    known.scopes.leave();
}

/// Other trees in the place of those so far, which are given.
pub fn replace_constants(known: &mut Known, constants: List<Core>) -> List<Core>
    requires { AreNumbered known.old.types constants }
    ensures constants { known.new.constants ≡ constants }
    ensures before { result ≡ known.old.constants }
    ensures rest { SameBesideConstants known.old known.new }
{
    mem::replace(&mut known.constants, constants)
}

/// One tree more among those so far. After an `Err` nothing is changed.
pub fn add_constant(known: &mut Known, tree: Core) -> Result<(), Memory>
    requires { IsNumbered known.old.types tree }
    ensures constants { OnOk result (known.new.constants ≡ known.old.constants ++ tree ∷ []) }
    ensures rest { SameBesideConstants known.old known.new }
{
    known.constants.push(tree)?;
    Ok(())
}
