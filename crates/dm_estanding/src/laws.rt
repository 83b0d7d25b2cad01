//! What holds of declarations that come again.

ghost use Rattle.std.specs.Prelude.{◌≡◌, ℕ, Bool, true, List, length, Some, slice_get};
ghost use Rattle.std.specs.FinMap as finite;
ghost use Rattle.dm_type.specs.declared.shape.Shape.{Shape};
ghost use Rattle.dm_type.specs.CTypes.{CType};
ghost use Rattle.dm_syn.specs.Trees.{Expr, Specifiers, Declarator};
ghost use Rattle.dm_tree.specs.Trees.{Tree};
ghost use Rattle.dm_tree.specs.Units.{Declaration};
ghost use Rattle.dm_typing.specs.Bounds.{AreBelow};
ghost use Rattle.dm_typing.specs.Known.{Known, Setting, given};
ghost use Rattle.dm_typing.specs.Sound.{IsProper};
ghost use Rattle.dm_typing.specs.Specifiers.{Where};
ghost use Rattle.dm_typing.specs.Typing.{typed, typed_specifiers, Step, steps_of};
ghost use Rattle.dm_edecl.specs.Standing.{Standing, knowing, opened, known_behind};
ghost use Rattle.dm_edecl.specs.Linkages.{may_be_declared};
ghost use Rattle.dm_edecl.specs.Units.{beginning};
ghost use Rattle.dm_estanding.specs.Proceeding.{IsLawful, Remembers};
ghost use Rattle.dm_estanding.specs.Summaries.{AreSeenCompatible, IsUnited, declared_as};
ghost use Rattle.dm_estanding.specs.Undoing.{IsWithin};
ghost use Rattle.dm_estanding.specs.declared.standing.Standing.{Standing as Held};

/// Where an entry may be declared, its type is compatible with that which an earlier declaration with linkage has there.
pub fn redeclared_types_are_compatible()
    ensures { (standing : Standing) (entry : Declaration) → IsLawful standing → may_be_declared standing entry ≡ true → AreSeenCompatible standing entry }
{}

/// What can be undone from one place to the next, and from there to a third, can be undone from the first to the third.
pub fn changes_add_up()
    ensures { (first second third : Held) → IsWithin first second → IsWithin second third → IsWithin first third }
{}

/// A name that means one entry with linkage in whatever scope does so behind a declarator too.
pub fn names_stay_united()
    ensures { (standing : Standing) (entry : Declaration) (defines : Bool) → IsLawful standing → AreBelow (length standing.known.declared) standing.known.scopes
        → IsUnited (declared_as standing entry defines) }
{}

/// All declarations of an entry with linkage agree at the beginning of a unit, of which there are none.
pub fn a_unit_begins_lawfully()
    ensures { (shapes : List Shape) → IsLawful (beginning shapes) }
{}

/// They still do behind a declarator.
pub fn declarators_stay_lawful()
    ensures { (standing : Standing) (entry : Declaration) (defines : Bool) → IsLawful standing → AreBelow (length standing.known.declared) standing.known.scopes → may_be_declared standing entry ≡ true
        → ((at : ℕ) (one : Declaration) → slice_get standing.known.declared at ≡ Some one → IsProper one.kind) → IsProper entry.kind → IsLawful (declared_as standing entry defines) }
{}

/// And behind an expression, specifiers or the declarators in them, which declare nothing with linkage.
pub fn typing_stays_lawful()
    ensures expressions { (setting : Setting) (used : Bool) (expr : Expr) (standing : Standing) (behind : Known) (tree : Tree) → IsLawful standing
        → AreBelow (length standing.known.declared) standing.known.scopes → typed setting used standing.known expr ≡ given behind tree → IsLawful (knowing standing behind) }
    ensures specifiers { (setting : Setting) (used : Bool) (stands : Where) (alone : Bool) (specifiers : Specifiers) (standing : Standing) (behind : Known) (type : CType) → IsLawful standing
        → AreBelow (length standing.known.declared) standing.known.scopes → typed_specifiers setting used stands alone standing.known specifiers ≡ given behind type → IsLawful (knowing standing behind) }
    ensures declarators { (setting : Setting) (used : Bool) (declarator : Declarator) (standing : Standing) (behind : Known) (steps : List Step) → IsLawful standing
        → AreBelow (length standing.known.declared) standing.known.scopes → steps_of setting used standing.known declarator ≡ given behind steps → IsLawful (knowing standing behind) }
{}

/// So they do in a scope that opens, and behind one that closes.
pub fn scopes_stay_lawful()
    ensures opened { (standing : Standing) → IsLawful standing → IsLawful (opened finite.empty standing) }
    ensures closed { (outside inside : Standing) → Remembers outside inside → AreBelow (length outside.known.declared) outside.known.scopes → IsLawful outside → IsLawful inside
        → IsLawful (record inside { known = known_behind outside.known inside.known }) }
{}
