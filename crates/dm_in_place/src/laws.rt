ghost use Rattle.std.specs.Prelude.{◌≡◌, ℕ, true, Some};
ghost use Rattle.dm_token.specs.declared.place.Span.{Span};
ghost use Rattle.dm_type.specs.Tables.{Table};
ghost use Rattle.dm_tree.specs.Trees.{spans_of, Tree};
ghost use Rattle.dm_tree.specs.Typing.{IsWellTypedUnit};
ghost use Rattle.dm_tree.specs.Units.{TypedUnit};
ghost use Rattle.dm_meaning.specs.Units.{program_of};
ghost use Rattle.dm_effect.specs.Safe.{is_safe};
ghost use Rattle.dm_effect.specs.Scoped.{IsScopedUnit};
ghost use Rattle.dm_effect.specs.Stable.{is_pure};
ghost use Rattle.dm_initialised.specs.Once.{IsDeclaredOnce};
ghost use Rattle.dm_initialised.specs.Units.{has_first_value};
ghost use Rattle.dm_safe.specs.SafePrograms.{IsSetDeclaration};
ghost use Rattle.dm_scoped.specs.Spans.{IsLaidOutUnit};
ghost use Rattle.dm_sites.specs.Sites.{Site, site_of};
ghost use Rattle.dm_spans.specs.SameTrees.{IsSame};
ghost use Rattle.dm_in_place.specs.InPlace.{is_safe_in_place, is_set_at, tokens_of};

/// An object that the test takes for set at a place is an integer, and of static storage duration and defined in the unit, or an automatic one that has a
/// first value.
pub fn set_objects_are_declared()
    ensures { (types : Table) (one : TypedUnit) → IsWellTypedUnit types one → (tree : Tree) (d : ℕ) → is_set_at one tree d ≡ true
        → IsSetDeclaration (program_of types one) (has_first_value one) d }
{}

/// An argument that neither stores nor calls and can't be undefined is safe in place, as is the same tree whose place tells the tokens of the argument's
/// full expression: in a unit whose nodes stand in order, and each of whose automatic objects is declared once.
pub fn safe_arguments_are_safe_in_place()
    ensures { (types : Table) (one : TypedUnit) → IsWellTypedUnit types one → IsScopedUnit one → IsLaidOutUnit one → IsDeclaredOnce one
        → (span : Span) (argument : Site) → site_of one span ≡ Some argument → is_pure argument.tree ≡ true → is_safe types one argument.tree ≡ true
        → (tree : Tree) → IsSame argument.tree tree → tokens_of tree ≡ (spans_of argument.full).inner → is_safe_in_place types one tree ≡ true }
{}
