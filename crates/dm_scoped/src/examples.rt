//! Names in and out of scope.

ghost use Rattle.std.specs.Prelude.{false, ◌≡◌};
ghost use Rattle.std.specs.List.{list_all};
ghost use Rattle.dm_effect.specs.Scoped.{IsScopedUnit, is_scoped_external};
ghost use Rattle.dm_scoped.specs.Examples as examples;

/// A local object is in scope behind its declaration, in its block: not before it, not behind the block, and not in another
/// function.
pub fn a_local_is_in_scope_in_its_block()
    ensures own { IsScopedUnit examples.own }
    ensures early { list_all (is_scoped_external examples.early.declared) examples.early.externals ≡ false }
    ensures late { list_all (is_scoped_external examples.late.declared) examples.late.externals ≡ false }
    ensures foreign { list_all (is_scoped_external examples.foreign.declared) examples.foreign.externals ≡ false }
{}
