//! The typing of one expression where types, scopes and declarations are known.

ghost use Rattle.std.specs.Prelude.{true, List, length, IfOk, IfErr};
ghost use Rattle.dm_type.specs.declared.shape.Shape.{Shape as OneShape};
ghost use Rattle.dm_syn.specs.declared.declared.Declared.{Declared as Name};
ghost use Rattle.dm_syn.specs.Grammar.{IsExpr};
ghost use Rattle.dm_syn.specs.Spans.{expr_span};
ghost use Rattle.dm_syn.specs.Views as syntax;
ghost use Rattle.dm_typing.specs.Bounds.{AreBelow};
ghost use Rattle.dm_typing.specs.Fitting.{HaveTypes, IsNumbered};
ghost use Rattle.dm_typing.specs.Known.{given};
ghost use Rattle.dm_typing.specs.Sound.{AreSoundTokens, IsSoundKnown, GivesMore, IsSound};
ghost use Rattle.dm_typing.specs.Typing as typing;
ghost use Rattle.dm_eexpr.specs.Alone.{source_alone, setting_alone, known_alone, RefusesWithin};
ghost use Rattle.dm_typing.specs.Views.{Begins, view_over, Gives};

use crate::expressions::typed;
use dm_scope::Scopes;
use dm_syn::Expr;
use dm_token::{CToken, List, Stop};
use dm_tree::{Core, Declared};
use dm_type::Types;
use dm_typing::{Known, Typer};
use std::alloc::Global;
use std::mem;

/// The typed tree of an expression of the tokens, or the first typing rule that it breaks: a refusal 17 with the rule's
/// number at its place. What type names in it declare is added to the types, scopes and declarations. After an `Err`
/// these have part of it, and aren't to be used again.
pub fn elaborate_expr(
    alloc: Global,
    types: &mut Types,
    scopes: &mut Scopes,
    declared: &mut List<Declared>,
    tokens: &[CToken],
    tree: &Expr,
) -> Result<Core, Stop>
    requires types { HaveTypes types.old declared.old }
    requires numbers { AreBelow (length declared.old) scopes.old }
    ensures gives { (later : List OneShape) → Begins types.new.shapes later → Gives (view_over later) (source_alone tokens.now) (known_alone later types.new scopes.new declared.new) result
        (typing.typed (setting_alone tokens.now) true (known_alone later types.old scopes.old declared.old) (syntax.expr tree.now)) }
    ensures well_typed { let before = known_alone types.new.shapes types.old scopes.old declared.old in
        AreSoundTokens tokens.now → (names : List Name) → IsExpr (source_alone tokens.now) names (syntax.expr tree.now) → IsSoundKnown before →
        IfOk result (λ core. GivesMore before IsSound (given (known_alone types.new.shapes types.new scopes.new declared.new) (view_over types.new.shapes core))) }
    ensures inside { (names : List Name) → IsExpr (source_alone tokens.now) names (syntax.expr tree.now) →
        IfErr result (RefusesWithin (source_alone tokens.now) (expr_span (syntax.expr tree.now))) }
    ensures numbered { IfOk result (IsNumbered types.new) }
    ensures shapes { Begins types.old.shapes types.new.shapes }
    ensures types { HaveTypes types.new declared.new }
    ensures numbers { AreBelow (length declared.new) scopes.new }
{
    let lacking = Scopes::new(alloc)?;
    let no_types = Types::new(alloc)?;
    let no_scopes = Scopes::new(alloc)?;
    let typer = Typer {
        alloc,
        tokens,
        lacking: &lacking,
    };
    let mut known = Known {
        types: mem::replace(types, no_types),
        scopes: mem::replace(scopes, no_scopes),
        declared: mem::replace(declared, List::new(alloc)),
        begun: Vec::new(alloc),
        constants: List::new(alloc),
    };
    let result = typed(&typer, &mut known, true, tree);
    let Known {
        types: all_types,
        scopes: all_scopes,
        declared: all_declared,
        begun: _,
        constants: _,
    } = known;
    *types = all_types;
    *scopes = all_scopes;
    *declared = all_declared;
    result
}
