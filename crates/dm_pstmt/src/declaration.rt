//! Declarations (6.7), read from left to right.

ghost use Rattle.std.specs.Prelude.{◌≡◌, ◌≤◌, ◌+◌, ◌++◌, ℕ, Bool, true, List, [], Option, Some, IfOk, OnOk, length, option_map};
ghost use Rattle.dm_syn.specs.declared.declared.Declared.{Declared};
ghost use Rattle.dm_syn.specs.declared.symbol.Symbol.TheVariants.{Semicolon};
ghost use Rattle.dm_syn.specs.Sources.{Source};
ghost use Rattle.dm_syn.specs.Scopes.{declaration_of as declaration_of_name, declarator_name as meant_name, named_declares, has_typedef, defines_types as types_meant};
ghost use Rattle.dm_syn.specs.Spans.{declarator_span};
ghost use Rattle.dm_syn.specs.Trees as tree;
ghost use Rattle.dm_syn.specs.Views as view;
ghost use Rattle.dm_pexpr.specs.Parsing.{all_turns, span_of};
ghost use Rattle.dm_pexpr.specs.Parts.{source_of, Gives, IsPart, the_specifiers, a_declarator};
ghost use Rattle.dm_pstmt.specs.Kinds.{an_initialiser, an_item, items_from, a_declaration};
ghost use Rattle.dm_pstmt.specs.Parsing.{stands, within, declaration_of, declaration_with as meant_with, item_of, item_behind as meant_behind, more_items as meant_more, initialised as meant_initialised};
ghost use Rattle.dm_pstmt.specs.Steps.{with_row, with_item, declared_behind};

use crate::initialiser::initialiser;
use dm_pexpr::{Part, Reader, Scope, Shape, above, begun, checked, joined};
use dm_syn::{
    Declaration, Declarator, InitDeclarator, Initialiser, Specifier, Specifiers, Symbol,
    declarator_name,
};
use dm_token::{List, Memory, Span};

/// The declaration at a position, if there is one whose parts nest no deeper. What it declares is in scope behind it.
pub(crate) fn declaration(
    reader: &Reader,
    scope: &mut Scope,
    at: u32,
    depth: u32,
) -> Result<Option<Part<Declaration>>, Memory>
    ensures { IfOk result (λ found. Gives (a_declaration (source_of reader.now)) (source_of reader.now) scope.old scope.new found (declaration_of (source_of reader.now) (within (source_of reader.now) depth) scope.old at)) }
{
    let Some(specifiers) = reader.specifiers(scope, at, depth)? else {
        return Ok(None);
    };
    if let Some(after) = reader.behind(scope, specifiers.after, Symbol::Semicolon) {
        return Ok(bare_declaration(reader, at, specifiers, after));
    }
    let is_type = defines_types(reader, &specifiers.tree);
    let Some(item) = item(reader, scope, specifiers.after, is_type, depth)? else {
        return Ok(None);
    };
    declaration_with(reader, scope, at, specifiers, item, depth)
}

/// Specifiers and `;`, which ends at a position.
pub(crate) fn bare_declaration(
    reader: &Reader,
    first: u32,
    specifiers: Part<Specifiers>,
    after: u32,
) -> Option<Part<Declaration>>
    ensures { (before names : List Declared) (read : Option tree.Specifiers) → IsPart (the_specifiers (source_of reader.now)) (source_of reader.now) before names specifiers read
        → stands (source_of reader.now) names specifiers.after Semicolon ≡ true → after ≡ specifiers.after + 1 → after ≤ length reader.now.tokens.now
        → Gives (a_declaration (source_of reader.now)) (source_of reader.now) before names result (declared_behind (source_of reader.now) names first (view.specifiers specifiers.tree) []) }
{
    let items = reader.none_yet(specifiers.after);
    declared(first, specifiers, items, after)
}

/// What stands behind specifiers and an item.
pub(crate) fn declaration_with(
    reader: &Reader,
    scope: &mut Scope,
    first: u32,
    specifiers: Part<Specifiers>,
    item: Part<InitDeclarator>,
    depth: u32,
) -> Result<Option<Part<Declaration>>, Memory>
    ensures { (before names : List Declared) (read : Option tree.Specifiers) (seen : Option tree.Item) → IsPart (the_specifiers (source_of reader.now)) (source_of reader.now) before names specifiers read
        → IsPart (an_item (source_of reader.now) (types_meant (source_of reader.now) (view.specifiers specifiers.tree))) (source_of reader.now) names scope.old item seen
        → IfOk result (λ found. Gives (a_declaration (source_of reader.now)) (source_of reader.now) before scope.new found (meant_with (source_of reader.now) (within (source_of reader.now) depth) names first (view.specifiers specifiers.tree) (view.item item.tree))) }
{
    let is_type = defines_types(reader, &specifiers.tree);
    let items = begun(reader.alloc, item)?;
    let Some(items) = more_items(reader, scope, items, is_type, depth)? else {
        return Ok(None);
    };
    let Some(after) = reader.behind(scope, items.after, Symbol::Semicolon) else {
        return Ok(None);
    };
    Ok(declared(first, specifiers, items, after))
}

// A declarator at a position, with its initialiser if it has one.
fn item(
    reader: &Reader,
    scope: &mut Scope,
    at: u32,
    is_type: bool,
    depth: u32,
) -> Result<Option<Part<InitDeclarator>>, Memory>
    requires { at ≤ length reader.now.tokens.now }
    ensures { IfOk result (λ found. Gives (an_item (source_of reader.now) is_type) (source_of reader.now) scope.old scope.new found (item_of (source_of reader.now) (within (source_of reader.now) depth) is_type scope.old at)) }
{
    let Some(declarator) = reader.declarator(scope, at, Shape::Named, depth)? else {
        return Ok(None);
    };
    item_behind(reader, scope, at, declarator, is_type, depth)
}

/// A declarator, whose name is declared, and the initialiser behind it if there is one.
pub(crate) fn item_behind(
    reader: &Reader,
    scope: &mut Scope,
    first: u32,
    declarator: Part<Declarator>,
    is_type: bool,
    depth: u32,
) -> Result<Option<Part<InitDeclarator>>, Memory>
    ensures { (before : List Declared) (read : Option tree.Declarator) → IsPart (a_declarator (source_of reader.now)) (source_of reader.now) before scope.old declarator read
        → IfOk result (λ found. Gives (an_item (source_of reader.now) is_type) (source_of reader.now) before scope.new found (meant_behind (source_of reader.now) (within (source_of reader.now) depth) is_type before first (view.declarator declarator.tree))) }
{
    declare_name(reader, scope, &declarator.tree, is_type)?;
    let Some(next) = reader.behind(scope, declarator.after, Symbol::Equals) else {
        return Ok(Some(plain(first, declarator)));
    };
    let value = initialiser(reader, scope, next, depth)?;
    Ok(initialised(first, declarator, value))
}

// More declarators with their initialisers, each behind a comma.
fn more_items(
    reader: &Reader,
    scope: &mut Scope,
    items: Part<List<InitDeclarator>>,
    is_type: bool,
    depth: u32,
) -> Result<Option<Part<List<InitDeclarator>>>, Memory>
    ensures { (before : List Declared) (start : ℕ) (read : Option (List tree.Item)) → IsPart (items_from (source_of reader.now) is_type start) (source_of reader.now) before scope.old items read
        → IfOk result (λ found. Gives (items_from (source_of reader.now) is_type start) (source_of reader.now) before scope.new found
        (with_row with_item (view.items items.tree) (meant_more (source_of reader.now) (within (source_of reader.now) depth) is_type (all_turns (source_of reader.now)) scope.old items.after))) }
{
    let mut items = items;
    let mut turns = reader.tokens.len() + 1;
    while turns > 0 {
        let Some(next) = reader.behind(scope, items.after, Symbol::Comma) else {
            return Ok(Some(items));
        };
        let Some(item) = item(reader, scope, next, is_type, depth)? else {
            return Ok(None);
        };
        items = joined(items, item)?;
        turns -= 1;
    }
    Ok(Some(items))
}

/// Declares the name of a declarator, if it has one.
pub(crate) fn declare_name(
    reader: &Reader,
    scope: &mut Scope,
    declarator: &Declarator,
    is_type: bool,
) -> Result<(), Memory>
    ensures { OnOk result (scope.new ≡ declaration_of_name (source_of reader.now) is_type (meant_name (view.declarator declarator.now)) ++ scope.old) }
{
    match declarator_name(declarator) {
        Some(name) => scope.declare(&reader.spelling(name)?, is_type),
        None => Ok(()),
    }
}

/// Whether `typedef` stands among specifiers.
pub(crate) fn defines_types(reader: &Reader, specifiers: &Specifiers) -> bool
    ensures { result ≡ types_meant (source_of reader.now) (view.specifiers specifiers.now) }
{
    let mut found = false;
    for word in specifiers.words.items() {
        if is_typedef(reader, word) {
            found = true;
        }
    }
    found
}

// Whether a specifier is `typedef`.
fn is_typedef(reader: &Reader, word: &Specifier) -> bool
    ensures { result ≡ has_typedef (source_of reader.now) (tree.more_words (view.specifier word.now) tree.no_words) }
{
    match word {
        Specifier::Word(at) => reader.plain_symbol(*at).is(Symbol::Typedef),
        Specifier::Typedef(_) | Specifier::Struct(_) | Specifier::Enum(_) => false,
    }
}

// Specifiers, items and `;`, which ends at a position.
fn declared(
    first: u32,
    specifiers: Part<Specifiers>,
    items: Part<List<InitDeclarator>>,
    after: u32,
) -> Option<Part<Declaration>>
    ensures { (source : Source) (before names behind : List Declared) (read : Option tree.Specifiers) (seen : Option (List tree.Item)) → IsPart (the_specifiers source) source before names specifiers read
        → IsPart (items_from source (types_meant source (view.specifiers specifiers.tree)) specifiers.after) source names behind items seen
        → stands source behind items.after Semicolon ≡ true → after ≡ items.after + 1 → after ≤ length source.tokens
        → Gives (a_declaration source) source before behind result (declared_behind source behind first (view.specifiers specifiers.tree) (view.items items.tree)) }
{
    let height = above(specifiers.height, items.height);
    let tree = Declaration {
        span: Span { first, after },
        specifiers: specifiers.tree,
        items: items.tree,
    };
    checked(tree, height, after)
}

// A declarator without an initialiser.
fn plain(first: u32, declarator: Part<Declarator>) -> Part<InitDeclarator>
    ensures { (source : Source) (is_type : Bool) (before names behind : List Declared) (read : Option tree.Declarator) → IsPart (a_declarator source) source before names declarator read
        → behind ≡ named_declares source is_type (view.declarator declarator.tree) ++ before
        → IsPart (an_item source is_type) source before behind result (Some (tree.plain (span_of first (declarator_span (view.declarator declarator.tree)).after) (view.declarator declarator.tree))) }
{
    let (height, after) = (declarator.height, declarator.after);
    let tree = InitDeclarator {
        span: Span { first, after },
        declarator: declarator.tree,
        initialiser: None,
    };
    Part {
        tree,
        height,
        after,
    }
}

// A declarator with an initialiser.
fn initialised(
    first: u32,
    declarator: Part<Declarator>,
    value: Option<Part<Initialiser>>,
) -> Option<Part<InitDeclarator>>
    ensures { (source : Source) (is_type : Bool) (before names between behind : List Declared) (read : Option tree.Declarator) (wanted : Option tree.Initialiser)
        → IsPart (a_declarator source) source before names declarator read → between ≡ named_declares source is_type (view.declarator declarator.tree) ++ before
        → Gives (an_initialiser source) source between behind value wanted
        → Gives (an_item source is_type) source before behind result (option_map (meant_initialised first (view.declarator declarator.tree)) wanted) }
{
    let value = value?;
    let height = declarator.height.max(value.height);
    let after = value.after;
    let tree = InitDeclarator {
        span: Span { first, after },
        declarator: declarator.tree,
        initialiser: Some(value.tree),
    };
    Some(Part {
        tree,
        height,
        after,
    })
}
