//! Where names and nodes of typed units stand.

ghost use Rattle.std.specs.Prelude.{ℕ, Bool, true, false, List, [], map, ◌≡◌};
ghost use Rattle.dm_token.specs.declared.token.CToken.{CToken};
ghost use Rattle.dm_type.specs.declared.shape.Shape.{Shape};
ghost use Rattle.dm_type.specs.CTypes.{CType};
ghost use Rattle.dm_syn.specs.declared.declared.Declared.{Declared};
ghost use Rattle.dm_syn.specs.Grammar.{IsExpr};
ghost use Rattle.dm_syn.specs.Spans.{expr_span, stmt_span, external_span};
ghost use Rattle.dm_syn.specs.Statements.{IsStmt};
ghost use Rattle.dm_syn.specs.Trees.{Expr, Stmt, External};
ghost use Rattle.dm_tree.specs.Trees.{Tree, spans_of};
ghost use Rattle.dm_tree.specs.Units.{External as TypedExternal, TypedUnit};
ghost use Rattle.dm_meaning.specs.Statements.{is_automatic_sort};
ghost use Rattle.dm_effect.specs.Scoped.{IsScopedUnit};
ghost use Rattle.dm_scoped.specs.Spans.{IsLaidOut, IsLaidOutUnit};
ghost use Rattle.dm_typing.specs.Known.{Known, Setting, given};
ghost use Rattle.dm_typing.specs.Conversions.{spans_at};
ghost use Rattle.dm_typing.specs.Typing.{extent, is_file_scope, typed};
ghost use Rattle.dm_edecl.specs.Linkages.{Storage, unsaid, entry_of};
ghost use Rattle.dm_edecl.specs.Placing.{AreExternals};
ghost use Rattle.dm_edecl.specs.Standing.{Standing, goes_on};
ghost use Rattle.dm_edecl.specs.Statements.{Within, typed_stmt};
ghost use Rattle.dm_edecl.specs.Units.{unit_setting, typed_unit};
ghost use Rattle.dm_scoped.specs.Bare.{bare_span};

/// An object is automatic only where it is declared in a block, without `static` and `extern`; that of the others has static
/// storage duration (6.2.4p3, p5).
pub fn automatic_objects_are_in_blocks()
    ensures { (setting : Setting) (known : Known) (storage : Storage) (at : ℕ) (kind : CType) →
        is_automatic_sort (entry_of setting known storage at kind).sort ≡ true → (storage ≡ unsaid) × (is_file_scope known.scopes ≡ false) }
{}

/// A typed unit names an automatic object only where its declarator is in scope, or in the function whose parameter it is.
pub fn units_are_scoped()
    ensures { (shapes : List Shape) (tokens : List CToken) (externals : List External) (known : Known) (unit : TypedUnit) →
        typed_unit shapes tokens externals ≡ given known unit → IsScopedUnit unit }
{}

/// The typed tree of an expression has its span, without its parentheses and with all of them, and the nodes in it stand inside one
/// another and in order.
pub fn expressions_are_laid_out()
    ensures { (setting : Setting) (names : List Declared) (expr : Expr) → IsExpr setting.source names expr → (used : Bool) (known then_known : Known) (tree : Tree) →
        typed setting used known expr ≡ given then_known tree →
        (spans_of tree ≡ spans_at setting.source (extent (bare_span expr) (expr_span expr))) × IsLaidOut tree }
{}

/// The typed tree of a statement stands at the statement's tokens, and the nodes in it inside one another and in order.
pub fn statements_are_laid_out()
    ensures { (setting : Setting) (names : List Declared) (stmt : Stmt) → IsStmt setting.source names stmt →
        (within : Within) (standing behind : Standing) (tree : Tree) → standing.known.constants ≡ [] → typed_stmt setting within standing stmt ≡ goes_on behind tree →
        ((spans_of tree).outer ≡ stmt_span stmt) × IsLaidOut tree }
{}

/// The external declarations of a typed unit stand behind one another from its first token on, and the nodes of their trees inside
/// them, inside one another and in order.
pub fn units_are_laid_out()
    ensures { (shapes : List Shape) (tokens : List CToken) (externals : List External) (known : Known) (unit : TypedUnit) →
        AreExternals (unit_setting tokens externals).source [] 0 externals → typed_unit shapes tokens externals ≡ given known unit → IsLaidOutUnit unit }
{}

/// The external declarations of a typed unit have the spans of those of its syntax, in order.
pub fn external_declarations_keep_their_spans()
    ensures { (shapes : List Shape) (tokens : List CToken) (externals : List External) (known : Known) (unit : TypedUnit) →
        typed_unit shapes tokens externals ≡ given known unit → map (λ (one : TypedExternal). one.span) unit.externals ≡ map external_span externals }
{}
