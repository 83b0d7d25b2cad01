//! What holds of the typing of expressions.

ghost use Rattle.std.specs.Prelude.{ℕ, Bool, List, [], Option, ◌≡◌, Some};
ghost use Rattle.dm_token.specs.declared.token.CToken.{CToken};
ghost use Rattle.dm_type.specs.declared.shape.Shape.{Shape};
ghost use Rattle.dm_type.specs.CTypes.{CType, bare};
ghost use Rattle.dm_scope.specs.Scopes.{Scopes};
ghost use Rattle.dm_syn.specs.declared.declared.Declared.{Declared};
ghost use Rattle.dm_syn.specs.declared.symbol.Symbol.{Symbol};
ghost use Rattle.dm_syn.specs.Grammar.{IsExpr, IsTypeName, IsSpecifiers, IsDeclarator};
ghost use Rattle.dm_syn.specs.Spans.{expr_span, type_name_span, specifiers_span, declarator_span};
ghost use Rattle.dm_syn.specs.Trees.{Expr, TypeName, Specifiers, Declarator};
ghost use Rattle.dm_tree.specs.Trees.{Tree};
ghost use Rattle.dm_tree.specs.Units.{Declaration};
ghost use Rattle.dm_typing.specs.declared.extent.Extent.{Extent};
ghost use Rattle.dm_typing.specs.Known.{Known, Setting, given, meaning_of};
ghost use Rattle.dm_typing.specs.Conversions.{as_value};
ghost use Rattle.dm_typing.specs.Specifiers.{Where};
ghost use Rattle.dm_typing.specs.Typing.{typed, typed_name, typed_specifiers, steps_of, Step, derived, named, constant_tree, literal_tree, typed_index, typed_member, typed_follow, typed_address, typed_count, typed_prefix, typed_arrow, typed_sign, typed_sizeof, typed_sizeof_name, typed_cast, typed_binary, typed_choice, typed_assignment, typed_call, comma_of};
ghost use Rattle.dm_typing.specs.Examples.{source_of, sum_tokens, sum};
ghost use Rattle.dm_typing.specs.Sound.{IsProper, IsType, IsTypedName, IsSoundKnown, AreSoundTokens, GivesMore, AreSteps, BreaksWithin, StepsWithin, AreLayered, AreEntries, IsSoundToken, IsSound, IsSoundValue, AreSound, AreConstants, Gives};

/// On well-typed values the operators that use values alone give well-typed values, or break a rule, and nothing more
/// becomes known.
pub fn operators_give_well_typed_values()
    ensures binary { (setting : Setting) (known : Known) (span : Extent) (operator : ℕ) (a b : Tree) (it : Symbol) →
        IsSoundValue known a → IsSoundValue known b → Gives known IsSoundValue (typed_binary setting known span operator a b it) }
    ensures sign { (setting : Setting) (known : Known) (span : Extent) (operator : ℕ) (operand : Tree) →
        IsSoundValue known operand → Gives known IsSoundValue (typed_sign setting known span operator operand) }
    ensures choice { (setting : Setting) (known : Known) (span : Extent) (condition a b : Tree) →
        IsSoundValue known condition → IsSoundValue known a → IsSoundValue known b → Gives known IsSoundValue (typed_choice setting known span condition a b) }
    ensures comma { (setting : Setting) (known : Known) (span : Extent) (values : List Tree) →
        AreSound known values → (one : Tree) → comma_of setting span values ≡ Some one → IsSoundValue known one }
    ensures call { (setting : Setting) (known : Known) (span : Extent) (callee : Expr) (tree : Tree) (values : List Tree) →
        IsSound known tree → AreSound known values → Gives known IsSoundValue (typed_call setting known span callee tree values) }
    ensures cast { (setting : Setting) (known : Known) (span : Extent) (type : CType) (lengths : List Tree) (operand : Tree) →
        type ≡ bare type → IsProper type → AreConstants known lengths → IsSoundValue known operand →
        Gives known IsSoundValue (typed_cast setting known span type lengths operand) }
    ensures sizes { (setting : Setting) (known : Known) (span : Extent) (operand : Tree) →
        IsSound known operand → Gives known IsSoundValue (typed_sizeof setting known span operand) }
    ensures type_sizes { (setting : Setting) (known : Known) (span : Extent) (type : CType) (lengths : List Tree) →
        AreConstants known lengths → Gives known IsSoundValue (typed_sizeof_name setting known span type lengths) }
{}

/// What designates an object is well typed, as is its value and its address.
pub fn lvalues_are_well_typed()
    ensures value { (known : Known) (tree : Tree) → IsSound known tree → IsSoundValue known (as_value tree) }
    ensures address { (setting : Setting) (known : Known) (span : Extent) (operand : Tree) →
        IsSound known operand → Gives known IsSoundValue (typed_address setting known span operand) }
    ensures target { (setting : Setting) (known : Known) (span : Extent) (operand : Tree) →
        IsSoundValue known operand → Gives known IsSound (typed_follow setting known span operand) }
    ensures subscript { (setting : Setting) (known : Known) (span : Extent) (a b : Tree) →
        IsSoundValue known a → IsSoundValue known b → Gives known IsSound (typed_index setting known span a b) }
    ensures member { (setting : Setting) (known : Known) (span : Extent) (name : ℕ) (whole : Tree) →
        IsSound known whole → Gives known IsSound (typed_member setting known span name whole) }
    ensures pointed_member { (setting : Setting) (known : Known) (span : Extent) (name : ℕ) (pointing : Tree) →
        IsSoundValue known pointing → Gives known IsSound (typed_arrow setting known span name pointing) }
{}

/// What writes an object gives a well-typed value: the object may be written, and its new value has its type. So do the
/// prefix operators, of which some write.
pub fn assignments_give_well_typed_values()
    ensures assignment { (setting : Setting) (known : Known) (span : Extent) → AreLayered known.types → (operator : ℕ) (object value : Tree) (it : Symbol) →
        IsSound known object → IsSoundValue known value → Gives known IsSoundValue (typed_assignment setting known span operator object value it) }
    ensures counting { (setting : Setting) (known : Known) (span : Extent) → AreLayered known.types → (operator : ℕ) (before : Bool) (operand : Tree) →
        IsSound known operand → Gives known IsSoundValue (typed_count setting known span operator before operand) }
    ensures prefix { (setting : Setting) (known : Known) (span : Extent) → AreLayered known.types → (operator : ℕ) (operand : Tree) (it : Symbol) →
        IsSound known operand → Gives known IsSound (typed_prefix setting known span operator operand it) }
{}

/// A whole expression is well typed: what the typing gives for an expression of the grammar is a well-typed tree where all is known
/// that its type names have declared by its end, and that is sound again. So are type names, whose lengths and enumerator values
/// are constants, and specifiers and declarators, wherever they stand.
pub fn expressions_are_well_typed()
    ensures expressions { (setting : Setting) → AreSoundTokens setting.source.tokens → (used : Bool) (known : Known) (names : List Declared) (expr : Expr) →
        IsExpr setting.source names expr → IsSoundKnown known → GivesMore known IsSound (typed setting used known expr) }
    ensures type_names { (setting : Setting) → AreSoundTokens setting.source.tokens → (used : Bool) (known : Known) (names : List Declared) (name : TypeName) →
        IsTypeName setting.source names name → IsSoundKnown known → GivesMore known IsTypedName (typed_name setting used known name) }
    ensures specifiers { (setting : Setting) → AreSoundTokens setting.source.tokens → (used : Bool) (known : Known) (names : List Declared) (stands : Where) (alone : Bool)
        (specifiers : Specifiers) → IsSpecifiers setting.source names specifiers → IsSoundKnown known → GivesMore known IsType (typed_specifiers setting used stands alone known specifiers) }
    ensures declarators { (setting : Setting) → AreSoundTokens setting.source.tokens → (used : Bool) (known : Known) (names : List Declared) (of_parameter : Bool)
        (declarator : Declarator) → IsDeclarator setting.source names of_parameter declarator → IsSoundKnown known → GivesMore known AreSteps (steps_of setting used known declarator) }
    ensures derivations { (known : Known) (type : CType) (steps : List Step) → IsSoundKnown known → IsType known type → AreSteps known steps →
        GivesMore known IsType (derived known type steps) }
    ensures start { (shapes : List Shape) (scopes : Scopes) →
        IsSoundKnown (record { types = record { shapes = shapes; structs = [] }; scopes = scopes; declared = []; begun = []; constants = [] }) }
{}

/// An example meets the premises of the laws on whole expressions: the tokens and the tree of `'a' + 1u`.
pub fn an_example_meets_the_premises()
    ensures tokens { AreSoundTokens sum_tokens }
    ensures tree { IsExpr (source_of sum_tokens) [] sum }
{}

/// A rule that an expression breaks is broken at one of its own tokens: what is refused is refused at a place inside it. So are the
/// rules of type names, specifiers and declarators.
pub fn broken_rules_are_inside()
    ensures expressions { (setting : Setting) (used : Bool) (known : Known) (names : List Declared) (expr : Expr) → IsExpr setting.source names expr →
        BreaksWithin (expr_span expr).first (expr_span expr).after (typed setting used known expr) }
    ensures type_names { (setting : Setting) (used : Bool) (known : Known) (names : List Declared) (name : TypeName) → IsTypeName setting.source names name →
        BreaksWithin (type_name_span name).first (type_name_span name).after (typed_name setting used known name) }
    ensures specifiers { (setting : Setting) (used : Bool) (known : Known) (names : List Declared) (stands : Where) (alone : Bool) (specifiers : Specifiers) →
        IsSpecifiers setting.source names specifiers →
        BreaksWithin (specifiers_span specifiers).first (specifiers_span specifiers).after (typed_specifiers setting used stands alone known specifiers) }
    ensures declarators { (setting : Setting) (used : Bool) (known : Known) (names : List Declared) (of_parameter : Bool) (declarator : Declarator) →
        IsDeclarator setting.source names of_parameter declarator →
        BreaksWithin (declarator_span declarator).first (declarator_span declarator).after (steps_of setting used known declarator) }
    ensures steps { (setting : Setting) (used : Bool) (known : Known) (names : List Declared) (of_parameter : Bool) (declarator : Declarator) →
        IsDeclarator setting.source names of_parameter declarator → (behind : Known) (steps : List Step) → steps_of setting used known declarator ≡ given behind steps →
        StepsWithin (declarator_span declarator).first (declarator_span declarator).after steps }
    ensures derivations { (known : Known) (first behind : ℕ) (type : CType) (steps : List Step) → StepsWithin first behind steps →
        BreaksWithin first behind (derived known type steps) }
{}

/// Names, constants and string literals are well typed where the declarations and tokens are such as C has.
pub fn leaves_are_well_typed()
    ensures names { (setting : Setting) (known : Known) (span : Extent) → AreEntries known → (used : Bool) (name : List ℕ) (found : Option Declaration) →
        meaning_of known name ≡ found → Gives known IsSound (named setting used known span name found) }
    ensures constants { (setting : Setting) (known : Known) (span : Extent) (token : CToken) →
        IsSoundToken token → IsSoundValue known (constant_tree setting span (Some token)) }
    ensures literals { (setting : Setting) (known : Known) (span : Extent) (bytes : List ℕ) → IsSound known (literal_tree setting span bytes) }
{}
