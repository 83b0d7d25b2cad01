//! Type names, specifiers and declarators that are put together of their parts.

ghost use Rattle.std.specs.Prelude.{◌≡◌, ◌+◌, ◌<◌, ◌≤◌, ◌++◌, [], ℕ, List, Option, Some, IfOk, OnOk, IsSome, length, map, false};
ghost use Rattle.dm_syn.specs.declared.declared.Declared.{Declared};
ghost use Rattle.dm_syn.specs.declared.symbol.Symbol.TheVariants as symbol;
ghost use Rattle.dm_syn.specs.Symbols.{is};
ghost use Rattle.dm_syn.specs.Sources.{Source, symbol_in};
ghost use Rattle.dm_syn.specs.Spans.{pointers_after};
ghost use Rattle.dm_syn.specs.Heights.{words_node, pointers_node, named_node};
ghost use Rattle.dm_syn.specs.Scopes.{declaration_of, declarator_declares, enumerator_declares};
ghost use Rattle.dm_syn.specs.Grammar.{tag_after};
ghost use Rattle.dm_syn.specs.Trees as tree;
ghost use Rattle.dm_syn.specs.Views as view;
ghost use Rattle.dm_pexpr.specs.Parsing.{span_of, type_name_with, parameter_with, specifiers_from, tag_at, struct_from, struct_tagged, prepend_declarator, member_with, prepend_enumerator, enum_with, enum_tagged, valued_from, declarator_with, enclosed_from, checked_direct, sized_from, function_from, nothing as meant_nothing, pointers as meant_pointers, consts as meant_consts, all_turns};
ghost use Rattle.dm_pexpr.specs.Shapes.{shape_of};
ghost use Rattle.dm_pexpr.specs.Counted.{most_counted};
ghost use Rattle.dm_pexpr.specs.Parts.{source_of, Passes, Gives, IsPart, an_expr, a_type_name, the_specifiers, a_specifier, a_member, an_enumerator, a_declarator, a_direct, a_parameter, words_from, members_from, enumerators_from, declarators_from, parameters_from, AreClosed, OpensSuffix};

use crate::part::{Part, above, checked, over};
use crate::reader::Reader;
use crate::scope::Scope;
use crate::shape::Shape;
use dm_syn::{
    Declarator, Direct, EnumForm, EnumItem, Expr, MemberForm, Parameter, Specifier, Specifiers,
    StructForm, Symbol, TypeName, declarator_name, is_absent,
};
use dm_token::{Boxed, List, Memory, Span};

impl Reader<'_> {
    /// A list of nothing yet.
    pub fn none_yet<T>(&self, at: u32) -> Part<List<T>>
        ensures { result ≡ record { tree = []; height = 0; after = at } }
    {
        Part {
            tree: List::new(self.alloc),
            height: 0,
            after: at,
        }
    }

    // Specifiers and a declarator, as a type name.
    pub(crate) fn name_node(
        &self,
        scope: &Scope,
        first: u32,
        specifiers: Part<Specifiers>,
        declarator: Option<Part<Declarator>>,
    ) -> Option<Part<TypeName>>
        ensures { (before names : List Declared) (read : Option tree.Specifiers) (wanted : Option tree.Declarator) → IsPart (the_specifiers (source_of self.now)) (source_of self.now) before names specifiers read
            → Gives (a_declarator (source_of self.now)) (source_of self.now) names scope.now declarator wanted
            → Gives (a_type_name (source_of self.now)) (source_of self.now) before scope.now result (type_name_with first (view.specifiers specifiers.tree) wanted) }
    {
        let declarator = declarator?;
        let after = declarator.after;
        let height = named_height(specifiers.height, &declarator);
        let tree = TypeName {
            span: Span { first, after },
            specifiers: specifiers.tree,
            declarator: declarator.tree,
        };
        Some(Part {
            tree,
            height,
            after,
        })
    }

    // Specifiers and a declarator, as a parameter, whose name is declared.
    pub(crate) fn parameter_node(
        &self,
        scope: &mut Scope,
        first: u32,
        specifiers: Part<Specifiers>,
        declarator: Option<Part<Declarator>>,
    ) -> Result<Option<Part<Parameter>>, Memory>
        ensures { (before names : List Declared) (read : Option tree.Specifiers) (wanted : Option tree.Declarator) → IsPart (the_specifiers (source_of self.now)) (source_of self.now) before names specifiers read
            → Gives (a_declarator (source_of self.now)) (source_of self.now) names scope.old declarator wanted
            → IfOk result (λ made. Gives (a_parameter (source_of self.now)) (source_of self.now) before scope.new made (parameter_with first (view.specifiers specifiers.tree) wanted)) }
    {
        let Some(declarator) = declarator else {
            return Ok(None);
        };
        let after = declarator.after;
        let height = named_height(specifiers.height, &declarator);
        self.declare(scope, declarator_name(&declarator.tree))?;
        let tree = Parameter {
            span: Span { first, after },
            specifiers: specifiers.tree,
            declarator: declarator.tree,
        };
        Ok(Some(Part {
            tree,
            height,
            after,
        }))
    }

    // Declares an identifier, if there is one, that names no type.
    fn declare(&self, scope: &mut Scope, name: Option<u32>) -> Result<(), Memory>
        ensures { OnOk result (scope.new ≡ declaration_of (source_of self.now) false name ++ scope.old) }
    {
        if let Some(name) = name {
            scope.declare(&self.spelling(name)?, false)?;
        }
        Ok(())
    }

    // Specifiers of these words, of which there is one at least.
    pub(crate) fn specifiers_node(
        &self,
        scope: &Scope,
        first: u32,
        words: Option<Part<List<Specifier>>>,
    ) -> Option<Part<Specifiers>>
        ensures { (before : List Declared) (wanted : Option tree.Words) → Gives (words_from (source_of self.now) first) (source_of self.now) before scope.now words wanted
            → Gives (the_specifiers (source_of self.now)) (source_of self.now) before scope.now result (specifiers_from first wanted) }
    {
        let words = words?;
        if words.tree.is_empty() {
            return None;
        }
        let height = words_height(words.tree.items(), words.height);
        let tree = Specifiers {
            span: Span {
                first,
                after: words.after,
            },
            words: words.tree,
        };
        checked(tree, height, words.after)
    }

    // The tag at a position, if there is one, and the position behind it.
    pub(crate) fn tag(&self, scope: &Scope, at: u32) -> (Option<u32>, u32)
        ensures tag { result.0 ≡ tag_at (source_of self.now) scope.now at }
        ensures behind { result.1 ≡ tag_after at result.0 }
        ensures within { IsSome result.0 → result.1 ≤ length self.now.tokens.now }
    {
        match self.behind_identifier(scope, at) {
            Some(behind) => (Some(at), behind),
            None => (None, at),
        }
    }

    // `struct` and its members, of which there is one at least, up to the closing brace.
    pub(crate) fn struct_node(
        &self,
        scope: &Scope,
        first: u32,
        tag: Option<u32>,
        members: Option<Part<List<MemberForm>>>,
    ) -> Option<Part<Specifier>>
        ensures { (before : List Declared) (inside : ℕ) (wanted : Option tree.Members) → Gives (members_from (source_of self.now) inside) (source_of self.now) before scope.now members wanted
            → AreClosed (source_of self.now) before inside wanted
            → Gives (a_specifier (source_of self.now) first) (source_of self.now) before scope.now result (struct_from first tag inside wanted) }
    {
        let members = members?;
        if members.tree.is_empty() {
            return None;
        }
        let after = self.behind(scope, members.after, Symbol::RightBrace)?;
        let form = StructForm {
            span: Span { first, after },
            tag,
            members: Some(members.tree),
        };
        checked(Specifier::Struct(form), over(members.height), after)
    }

    // Specifiers, declarators and `;`.
    pub(crate) fn member_node(
        &self,
        scope: &Scope,
        first: u32,
        specifiers: Part<Specifiers>,
        declarators: Option<Part<List<Declarator>>>,
    ) -> Option<Part<MemberForm>>
        ensures { (before names : List Declared) (read : Option tree.Specifiers) (start : ℕ) (head : tree.Declarator) (wanted : Option tree.Declarators) → IsPart (the_specifiers (source_of self.now)) (source_of self.now) before names specifiers read
            → Gives (declarators_from (source_of self.now) start) (source_of self.now) names scope.now declarators (prepend_declarator head wanted)
            → Gives (a_member (source_of self.now)) (source_of self.now) before scope.now result (member_with (source_of self.now) (declarator_declares (source_of self.now) head ++ names) first (view.specifiers specifiers.tree) head wanted) }
    {
        let declarators = declarators?;
        let after = self.behind(scope, declarators.after, Symbol::Semicolon)?;
        let tree = MemberForm {
            span: Span { first, after },
            specifiers: specifiers.tree,
            declarators: declarators.tree,
        };
        Some(Part {
            tree,
            height: above(specifiers.height, declarators.height),
            after,
        })
    }

    // `enum` and its enumerators, with a comma behind them or without, up to the closing brace.
    pub(crate) fn enum_node(
        &self,
        scope: &Scope,
        first: u32,
        tag: Option<u32>,
        enumerators: Option<Part<List<EnumItem>>>,
    ) -> Option<Part<Specifier>>
        ensures { (before : List Declared) (start : ℕ) (head : tree.Enumerator) (wanted : Option tree.Enumerators) → Gives (enumerators_from (source_of self.now) start) (source_of self.now) before scope.now enumerators (prepend_enumerator head wanted)
            → Gives (a_specifier (source_of self.now) first) (source_of self.now) before scope.now result (enum_with (source_of self.now) (enumerator_declares (source_of self.now) head ++ before) first tag head wanted) }
    {
        let enumerators = enumerators?;
        let comma = self.behind(scope, enumerators.after, Symbol::Comma);
        let behind = comma.unwrap_or(enumerators.after);
        let after = self.behind(scope, behind, Symbol::RightBrace)?;
        let form = EnumForm {
            span: Span { first, after },
            tag,
            enumerators: Some(enumerators.tree),
            trailing: comma.is_some(),
        };
        checked(Specifier::Enum(form), over(enumerators.height), after)
    }

    // An enumerator without a value, which is declared.
    pub(crate) fn bare_enumerator(
        &self,
        scope: &mut Scope,
        name: u32,
        after: u32,
    ) -> Result<Part<EnumItem>, Memory>
        requires inside { after ≤ length self.now.tokens.now }
        requires next { after ≡ name + 1 }
        ensures { IfOk result (λ made. IsPart (an_enumerator (source_of self.now)) (source_of self.now) scope.old scope.new made (Some (tree.bare (span_of name (name + 1)) name))) }
    {
        self.declare(scope, Some(name))?;
        Ok(Part {
            tree: EnumItem {
                span: Span { first: name, after },
                name,
                value: None,
            },
            height: 1,
            after,
        })
    }

    // An enumerator and its value. It is declared behind that.
    pub(crate) fn valued_enumerator(
        &self,
        scope: &mut Scope,
        name: u32,
        value: Option<Part<Expr>>,
    ) -> Result<Option<Part<EnumItem>>, Memory>
        ensures { (before : List Declared) (wanted : Option tree.Expr) → Gives (an_expr (source_of self.now)) (source_of self.now) before scope.old value wanted
            → IfOk result (λ made. Gives (an_enumerator (source_of self.now)) (source_of self.now) before scope.new made (valued_from name wanted)) }
    {
        let Some(value) = value else {
            return Ok(None);
        };
        self.declare(scope, Some(name))?;
        let after = value.after;
        Ok(Some(Part {
            tree: EnumItem {
                span: Span { first: name, after },
                name,
                value: Some(value.tree),
            },
            height: above(1, value.height),
            after,
        }))
    }

    // For each `*`, the number of `const` behind it, and the position behind them.
    pub(crate) fn pointers(&self, scope: &Scope, at: u32) -> Result<(List<u32>, u32), Memory>
        ensures stars { IfOk result (λ found. found.0 ≡ meant_pointers (source_of self.now) scope.now (all_turns (source_of self.now)) at) }
        ensures behind { IfOk result (λ found. found.1 ≡ pointers_after at found.0) }
        ensures within { IfOk result (λ found. at ≤ length self.now.tokens.now → found.1 ≤ length self.now.tokens.now) }
    {
        let mut pointers = List::new(self.alloc);
        let mut after = at;
        while let Some(next) = self.behind(scope, after, Symbol::Star) {
            after = self.behind_consts(scope, next);
            pointers.push(after - next)?;
        }
        Ok((pointers, after))
    }

    // The position behind the `const`s here.
    fn behind_consts(&self, scope: &Scope, at: u32) -> u32
        ensures behind { result ≡ at + meant_consts (source_of self.now) scope.now (all_turns (source_of self.now)) at }
        ensures within { at ≤ length self.now.tokens.now → result ≤ length self.now.tokens.now }
    {
        let mut after = at;
        while let Some(next) = self.behind(scope, after, Symbol::Const) {
            after = next;
        }
        after
    }

    // Pointers and what stands behind them.
    pub(crate) fn declarator_node(
        &self,
        scope: &Scope,
        first: u32,
        pointers: List<u32>,
        direct: Option<Part<Direct>>,
    ) -> Option<Part<Declarator>>
        ensures { (before : List Declared) (wanted : Option tree.Direct) → Gives (a_direct (source_of self.now) (pointers_after first pointers)) (source_of self.now) before scope.now direct wanted
            → Gives (a_declarator (source_of self.now)) (source_of self.now) before scope.now result (declarator_with first pointers wanted) }
    {
        let direct = direct?;
        let after = direct.after;
        let height = pointed_height(&pointers, direct.height);
        let tree = Declarator {
            span: Span { first, after },
            pointers,
            direct: direct.tree,
        };
        checked(tree, height, after)
    }

    // A declarator in parentheses, which isn't empty.
    pub(crate) fn enclosed_declarator(
        &self,
        scope: &Scope,
        inner: Option<Part<Declarator>>,
    ) -> Result<Option<Part<Direct>>, Memory>
        ensures { (before : List Declared) (start : ℕ) (wanted : Option tree.Declarator) → Gives (a_declarator (source_of self.now)) (source_of self.now) before scope.now inner wanted
            → IfOk result (λ made. Gives (a_direct (source_of self.now) start) (source_of self.now) before scope.now made (enclosed_from (source_of self.now) before wanted)) }
    {
        let Some(inner) = inner else {
            return Ok(None);
        };
        if is_absent(&inner.tree) {
            return Ok(None);
        }
        let Some(after) = self.behind(scope, inner.after, Symbol::RightParen) else {
            return Ok(None);
        };
        let direct = Direct::Paren(Boxed::new(self.alloc, inner.tree)?);
        Ok(checked(direct, over(inner.height), after))
    }

    // Whether `[` or `(` stands at a position: whether it is `[`, and the position behind it.
    pub(crate) fn direct_suffix(&self, scope: &Scope, at: u32) -> Option<(bool, u32)>
        ensures { OpensSuffix (symbol_in (source_of self.now) scope.now at) at (length self.now.tokens.now) result }
    {
        match self.symbol(scope, at) {
            Symbol::LeftBracket => Some((true, at + 1)),
            Symbol::LeftParen => Some((false, at + 1)),
            _ => None,
        }
    }

    // An array without a length.
    pub(crate) fn open_array(
        &self,
        scope: &Scope,
        direct: Part<Direct>,
        after: u32,
    ) -> Result<Option<Part<Direct>>, Memory>
        requires inside { after ≤ length self.now.tokens.now }
        requires next { after ≡ direct.after + 2 }
        ensures { (before : List Declared) (start : ℕ) (read : Option tree.Direct) → IsPart (a_direct (source_of self.now) start) (source_of self.now) before scope.now direct read
            → IfOk result (λ made. Gives (a_direct (source_of self.now) start) (source_of self.now) before scope.now made (checked_direct (tree.array (view.direct direct.tree)))) }
    {
        let height = over(direct.height);
        let array = Direct::Array(Boxed::new(self.alloc, direct.tree)?, None);
        Ok(checked(array, height, after))
    }

    // An array, its length and `]`.
    pub(crate) fn sized_array(
        &self,
        scope: &Scope,
        direct: Part<Direct>,
        length: Option<Part<Expr>>,
    ) -> Result<Option<Part<Direct>>, Memory>
        ensures { (before names : List Declared) (start : ℕ) (read : Option tree.Direct) (wanted : Option tree.Expr) → IsPart (a_direct (source_of self.now) start) (source_of self.now) before names direct read
            → Gives (an_expr (source_of self.now)) (source_of self.now) names scope.now length wanted
            → IfOk result (λ made. Gives (a_direct (source_of self.now) start) (source_of self.now) before scope.now made (sized_from (source_of self.now) names (view.direct direct.tree) wanted)) }
    {
        let Some(length) = length else {
            return Ok(None);
        };
        let Some(after) = self.behind(scope, length.after, Symbol::RightBracket) else {
            return Ok(None);
        };
        let height = above(direct.height, length.height);
        let direct = Boxed::new(self.alloc, direct.tree)?;
        let array = Direct::Array(direct, Some(Boxed::new(self.alloc, length.tree)?));
        Ok(checked(array, height, after))
    }

    // A function and its parameters up to the closing parenthesis, behind which their scope has ended.
    pub(crate) fn function_node(
        &self,
        scope: &Scope,
        direct: Part<Direct>,
        parameters: Part<List<Parameter>>,
        after: u32,
    ) -> Result<Option<Part<Direct>>, Memory>
        ensures { (before within : List Declared) (start at : ℕ) (read : Option tree.Direct) (wanted : Option tree.Parameters) → IsPart (a_direct (source_of self.now) start) (source_of self.now) before scope.now direct read
            → at ≡ direct.after + 1
            → IsPart (parameters_from (source_of self.now) at) (source_of self.now) scope.now within parameters wanted
            → Passes (is (symbol_in (source_of self.now) within parameters.after) symbol.RightParen) parameters.after (length self.now.tokens.now) (Some after)
            → IfOk result (λ made. Gives (a_direct (source_of self.now) start) (source_of self.now) before scope.now made (function_from (source_of self.now) scope.now at (view.direct direct.tree) wanted)) }
    {
        let height = above(direct.height, parameters.height);
        let direct = Boxed::new(self.alloc, direct.tree)?;
        let function = Direct::Function(direct, parameters.tree);
        Ok(checked(function, height, after))
    }
}

// `struct` with a tag alone.
pub(crate) fn tagged_struct(first: u32, tag: Option<u32>, after: u32) -> Option<Part<Specifier>>
    ensures { (source : Source) (names : List Declared) → after ≡ tag_after (first + 1) tag → (IsSome tag → after ≤ length source.tokens)
        → Gives (a_specifier source first) source names names result (struct_tagged first tag) }
{
    tag?;
    let form = StructForm {
        span: Span { first, after },
        tag,
        members: None,
    };
    checked(Specifier::Struct(form), 1, after)
}

// `enum` with a tag alone.
pub(crate) fn tagged_enum(first: u32, tag: Option<u32>, after: u32) -> Option<Part<Specifier>>
    ensures { (source : Source) (names : List Declared) → after ≡ tag_after (first + 1) tag → (IsSome tag → after ≤ length source.tokens)
        → Gives (a_specifier source first) source names names result (enum_tagged first tag) }
{
    tag?;
    let form = EnumForm {
        span: Span { first, after },
        tag,
        enumerators: None,
        trailing: false,
    };
    checked(Specifier::Enum(form), 1, after)
}

// The declared identifier.
pub(crate) fn named(name: u32, after: u32) -> Part<Direct>
    ensures { (source : Source) (names : List Declared) → after ≡ name + 1 → after ≤ length source.tokens
        → IsPart (a_direct source name) source names names result (Some (tree.declared name)) }
{
    Part {
        tree: Direct::Name(name),
        height: 1,
        after,
    }
}

// Nothing, where the declarator may be without a name.
pub(crate) fn nothing(shape: Shape, at: u32) -> Option<Part<Direct>>
    ensures { (source : Source) (names : List Declared) → at ≤ length source.tokens
        → Gives (a_direct source at) source names names result (meant_nothing (shape_of shape)) }
{
    match shape {
        Shape::Named => None,
        Shape::Abstract | Shape::OfParameter => Some(Part {
            tree: Direct::Absent,
            height: 0,
            after: at,
        }),
    }
}

// The height of specifiers of which the highest has that height. One alone is no node.
fn words_height(words: &[Specifier], highest: u32) -> u32
    ensures { highest < most_counted → result ≡ words_node (view.words (map view.specifier words.now)) highest }
{
    match words {
        [] => 0,
        [_] => highest,
        [_, _, ..] => over(highest),
    }
}

// The height of a declarator with these pointers. Without pointers it is no node.
fn pointed_height(pointers: &List<u32>, direct: u32) -> u32
    ensures { direct < most_counted → result ≡ pointers_node pointers.now direct }
{
    if pointers.is_empty() {
        direct
    } else {
        over(direct)
    }
}

// The height of specifiers with a declarator, which may be empty.
fn named_height(specifiers: u32, declarator: &Part<Declarator>) -> u32
    ensures { specifiers < most_counted → declarator.now.height < most_counted → result ≡ named_node specifiers (view.declarator declarator.now.tree) declarator.now.height }
{
    if is_absent(&declarator.tree) {
        specifiers
    } else {
        above(specifiers, declarator.height)
    }
}
