//! What holds of the typing of units.

ghost use Rattle.std.specs.Prelude.{ℕ, nat_eq, ℤ, Bool, false, List, [], All, Option, ◌≡◌};
ghost use Rattle.std.specs.List.{IsDistinct};
ghost use Rattle.dm_token.specs.declared.place.Span.{Span};
ghost use Rattle.dm_token.specs.declared.token.CToken.{CToken};
ghost use Rattle.dm_int.specs.declared.Kind.{Kind};
ghost use Rattle.dm_type.specs.declared.shape.Shape.{Shape};
ghost use Rattle.dm_type.specs.CTypes.{CType, bare};
ghost use Rattle.dm_syn.specs.declared.declared.Declared.{Declared};
ghost use Rattle.dm_syn.specs.Spans.{declaration_span, stmt_span, external_span};
ghost use Rattle.dm_syn.specs.Grammar.{IsExpr};
ghost use Rattle.dm_syn.specs.Statements.{IsOptional, IsInitialiser, IsDeclaration, IsStmt, IsExternal};
ghost use Rattle.dm_syn.specs.Trees.{Expr, Initialiser, Declaration, Stmt, External};
ghost use Rattle.dm_tree.specs.Typing.{IsEntry, file_scene, ExternalFits, IsWellTypedUnit, defined_functions};
ghost use Rattle.dm_tree.specs.Units.{External as TypedExternal, TypedUnit};
ghost use Rattle.dm_typing.specs.Known.{Known, Setting, given};
ghost use Rattle.dm_typing.specs.Sound.{IsProper, AreSoundTokens, IsSoundKnown, GivesMore, BreaksWithin};
ghost use Rattle.dm_edecl.specs.Standing.{Standing};
ghost use Rattle.dm_edecl.specs.Linkages.{Storage, entry_of};
ghost use Rattle.dm_edecl.specs.Initialising.{expressions_alone, typed_initialiser};
ghost use Rattle.dm_edecl.specs.Declaring.{is_misplaced_static, typed_declaration};
ghost use Rattle.dm_edecl.specs.Statements.{Within, typed_condition, typed_subject, typed_case, typed_return, typed_stmt};
ghost use Rattle.dm_edecl.specs.Units.{unit_setting, beginning, typed_external, typed_unit};
ghost use Rattle.dm_edecl.specs.Results.{DefinesResult};
ghost use Rattle.dm_edecl.specs.Settled.{IsSoundStanding, Settles};
ghost use Rattle.dm_edecl.specs.Fit.{IsSoundWithin, DeclarationFits, StmtFits};
ghost use Rattle.dm_edecl.specs.Sound.{AllSound, IsSoundInitial, IsSoundCondition, IsSoundSubject, IsSoundCase, IsSoundReturn};
ghost use Rattle.dm_edecl.specs.Placing.{StopsWithin, externals_after, AreExternals};
ghost use Rattle.dm_edecl.specs.Examples.{twice_tokens, twice};

/// A typed unit defines no function twice (6.9p3, p5).
pub fn functions_are_defined_once()
    ensures once { (shapes : List Shape) (tokens : List CToken) (externals : List External) (known : Known) (unit : TypedUnit) →
        typed_unit shapes tokens externals ≡ given known unit → IsDistinct nat_eq (defined_functions unit.externals) }
{}

/// A rule that a declaration or a statement breaks is broken at one of its own tokens, and a rule that a unit breaks at one
/// of the unit's: what is refused is refused at a place inside it.
pub fn broken_rules_are_in_units()
    ensures declarations { (setting : Setting) (standing : Standing) (names : List Declared) (declaration : Declaration) → IsDeclaration setting.source names declaration →
        StopsWithin (declaration_span declaration).first (declaration_span declaration).after (typed_declaration setting standing declaration) }
    ensures statements { (setting : Setting) (within : Within) (standing : Standing) (names : List Declared) (stmt : Stmt) → IsStmt setting.source names stmt →
        StopsWithin (stmt_span stmt).first (stmt_span stmt).after (typed_stmt setting within standing stmt) }
    ensures externals { (setting : Setting) (standing : Standing) (names : List Declared) (one : External) → IsExternal setting.source names one →
        StopsWithin (external_span one).first (external_span one).after (typed_external setting standing one) }
    ensures units { (shapes : List Shape) (tokens : List CToken) (externals : List External) → AreExternals (unit_setting tokens externals).source [] 0 externals →
        BreaksWithin 0 (externals_after 0 externals) (typed_unit shapes tokens externals) }
{}

/// An example meets the premise of the law on units: `int a; long a;`, which breaks a rule.
pub fn an_example_meets_the_premise()
    ensures { AreExternals (unit_setting twice_tokens twice).source [] 0 twice }
{}

/// The expressions of an initialiser are well typed, whatever type it initialises, and so they are where it initialises
/// nothing; what is known behind it is sound again.
pub fn initialisers_are_well_typed()
    ensures initialisers { (setting : Setting) → AreSoundTokens setting.source.tokens → (fixed : Bool) (known : Known) (names : List Declared) (type : CType) (one : Initialiser) →
        IsInitialiser setting.source names one → IsSoundKnown known → IsProper type → GivesMore known IsSoundInitial (typed_initialiser setting fixed known type one) }
    ensures alone { (setting : Setting) → AreSoundTokens setting.source.tokens → (known : Known) (names : List Declared) (one : Initialiser) →
        IsInitialiser setting.source names one → IsSoundKnown known → GivesMore known AllSound (expressions_alone setting known one) }
{}

/// What a declarator declares is an entry of a unit: its type and its linkage are such as its sort has. A function that is
/// `static` in a block has no linkage, and is none (6.7.1p7).
pub fn declarators_declare_entries()
    ensures { (setting : Setting) (known : Known) (storage : Storage) (at : ℕ) (kind : CType) →
        is_misplaced_static known storage (entry_of setting known storage at kind).sort ≡ false → IsEntry (entry_of setting known storage at kind) }
{}

/// The expressions of statements are well typed, and such as the statements want: a condition is a scalar, the operand of a
/// switch has a promoted kind, the value of a `case` is a constant of that kind, and a `return` gives a value of the type of
/// the function's result exactly where that isn't void.
pub fn expressions_fit_statements()
    ensures conditions { (setting : Setting) → AreSoundTokens setting.source.tokens → (known : Known) (names : List Declared) (expr : Expr) →
        IsExpr setting.source names expr → IsSoundKnown known → GivesMore known IsSoundCondition (typed_condition setting known expr) }
    ensures subjects { (setting : Setting) → AreSoundTokens setting.source.tokens → (known : Known) (names : List Declared) (expr : Expr) →
        IsExpr setting.source names expr → IsSoundKnown known → GivesMore known IsSoundSubject (typed_subject setting known expr) }
    ensures cases { (setting : Setting) → AreSoundTokens setting.source.tokens → (known : Known) (names : List Declared) (kind : Kind) (labels : List (Option ℤ)) (expr : Expr) →
        IsExpr setting.source names expr → IsSoundKnown known → GivesMore known (IsSoundCase kind) (typed_case setting known kind labels expr) }
    ensures returns { (setting : Setting) → AreSoundTokens setting.source.tokens → (known : Known) (names : List Declared) (result : CType) (span : Span) (at : ℕ) (expr : Option Expr) →
        result ≡ bare result → IsProper result → IsOptional setting.source names at expr → IsSoundKnown known →
        GivesMore known (IsSoundReturn result) (typed_return setting known result span expr) }
{}

/// What a declaration declares is well typed in every scene that the end of the unit makes of it: its lengths and enumerator
/// values are constants, what it defines is complete, and its initialisers fit. What is known behind it is sound again.
pub fn declarations_are_well_typed()
    ensures { (setting : Setting) → AreSoundTokens setting.source.tokens → (standing : Standing) (names : List Declared) (declaration : Declaration) →
        IsDeclaration setting.source names declaration → IsSoundStanding standing → Settles DeclarationFits standing (typed_declaration setting standing declaration) }
{}

/// A statement is well typed in every scene that the end of the unit makes of it: its expressions fit it, the labels of a
/// switch differ, `break` and `continue` stand where they may, and a `return` gives a value of the function's result.
pub fn statements_are_well_typed()
    ensures { (setting : Setting) → AreSoundTokens setting.source.tokens → (within : Within) → IsSoundWithin within → (standing : Standing) (names : List Declared) (stmt : Stmt) →
        IsStmt setting.source names stmt → IsSoundStanding standing → Settles (StmtFits within) standing (typed_stmt setting within standing stmt) }
{}

/// An external declaration is well typed in every scene that the end of the unit makes of it: a declaration as it says, and a
/// function with its parameters, which are objects of its types, and its body (6.9).
pub fn external_declarations_are_well_typed()
    ensures { (setting : Setting) → AreSoundTokens setting.source.tokens → (standing : Standing) (names : List Declared) (one : External) →
        IsExternal setting.source names one → IsSoundStanding standing → Settles ExternalFits standing (typed_external setting standing one) }
{}

/// A typed unit is well typed: its entries are such as their sorts have, each external declaration fits, and no function is
/// defined twice.
pub fn units_are_well_typed()
    ensures { (shapes : List Shape) (tokens : List CToken) (externals : List External) (known : Known) (unit : TypedUnit) → AreSoundTokens tokens →
        AreExternals (unit_setting tokens externals).source [] 0 externals → typed_unit shapes tokens externals ≡ given known unit → IsWellTypedUnit known.types unit }
{}

/// A function that a typed unit defines gives void or a complete object type other than an array (6.9.1p3); so it gives no function.
pub fn defined_functions_give_objects()
    ensures { (shapes : List Shape) (tokens : List CToken) (externals : List External) (known : Known) (unit : TypedUnit) → AreSoundTokens tokens →
        AreExternals (unit_setting tokens externals).source [] 0 externals → typed_unit shapes tokens externals ≡ given known unit →
        All (λ (one : TypedExternal). DefinesResult (file_scene known.types unit.declared) one.form) unit.externals }
{}

/// What is known at the end of a typed unit is sound: the members of its structs are complete, its structs are within one another in
/// layers, and no larger than types may be.
pub fn units_are_soundly_known()
    ensures { (shapes : List Shape) (tokens : List CToken) (externals : List External) (known : Known) (unit : TypedUnit) → AreSoundTokens tokens →
        AreExternals (unit_setting tokens externals).source [] 0 externals → typed_unit shapes tokens externals ≡ given known unit → IsSoundKnown known }
{}

/// Nothing is known at the beginning of a unit, which is sound.
pub fn a_unit_begins_soundly()
    ensures { (shapes : List Shape) → IsSoundStanding (beginning shapes) }
{}
