//! External declarations (6.9), read from left to right.

ghost use Rattle.std.specs.Prelude.{◌≡◌, List, Option, IfOk};
ghost use Rattle.dm_syn.specs.declared.declared.Declared.{Declared};
ghost use Rattle.dm_syn.specs.Scopes.{defines_types as types_meant};
ghost use Rattle.dm_syn.specs.Trees as tree;
ghost use Rattle.dm_syn.specs.Views as view;
ghost use Rattle.dm_pexpr.specs.Parts.{source_of, Gives, IsPart, the_specifiers, a_declarator};
ghost use Rattle.dm_pstmt.specs.Kinds.{an_external};
ghost use Rattle.dm_pstmt.specs.Parsing.{within, external_of, external_with, definition_of};

use crate::declaration::{
    bare_declaration, declaration_with, declare_name, defines_types, item_behind,
};
use crate::declares::{declare_parameters, own_parameters};
use crate::nodes::{external_declaration, external_definition};
use crate::statement::statement;
use dm_pexpr::{Part, Reader, Scope, Shape};
use dm_syn::{Declarator, External, Specifiers, Symbol};
use dm_token::Memory;

/// The external declaration at a position, if there is one whose parts nest no deeper. What it declares in file scope is
/// in scope behind it.
pub(crate) fn external(
    reader: &Reader,
    scope: &mut Scope,
    at: u32,
    depth: u32,
) -> Result<Option<Part<External>>, Memory>
    ensures { IfOk result (λ found. Gives (an_external (source_of reader.now)) (source_of reader.now) scope.old scope.new found (external_of (source_of reader.now) (within (source_of reader.now) depth) scope.old at)) }
{
    let Some(specifiers) = reader.specifiers(scope, at, depth)? else {
        return Ok(None);
    };
    let start = specifiers.after;
    if let Some(after) = reader.behind(scope, start, Symbol::Semicolon) {
        let declaration = bare_declaration(reader, at, specifiers, after);
        return Ok(external_declaration(at, declaration));
    }
    let Some(declarator) = reader.declarator(scope, start, Shape::Named, depth)? else {
        return Ok(None);
    };
    external_behind(reader, scope, at, specifiers, declarator, depth)
}

// What stands behind specifiers and a declarator: a body, or the rest of a declaration.
fn external_behind(
    reader: &Reader,
    scope: &mut Scope,
    first: u32,
    specifiers: Part<Specifiers>,
    declarator: Part<Declarator>,
    depth: u32,
) -> Result<Option<Part<External>>, Memory>
    ensures { (before names : List Declared) (read : Option tree.Specifiers) (seen : Option tree.Declarator) → IsPart (the_specifiers (source_of reader.now)) (source_of reader.now) before names specifiers read
        → IsPart (a_declarator (source_of reader.now)) (source_of reader.now) names scope.old declarator seen
        → IfOk result (λ found. Gives (an_external (source_of reader.now)) (source_of reader.now) before scope.new found (external_with (source_of reader.now) (within (source_of reader.now) depth) names first (view.specifiers specifiers.tree) (view.declarator declarator.tree))) }
{
    let is_type = defines_types(reader, &specifiers.tree);
    if reader.symbol(scope, declarator.after).is(Symbol::LeftBrace) {
        return definition(reader, scope, first, specifiers, declarator, is_type, depth);
    }
    let start = specifiers.after;
    let Some(item) = item_behind(reader, scope, start, declarator, is_type, depth)? else {
        return Ok(None);
    };
    let declaration = declaration_with(reader, scope, first, specifiers, item, depth)?;
    Ok(external_declaration(first, declaration))
}

// The body of a function definition, which begins with the scope of the parameters (6.2.1p4).
fn definition(
    reader: &Reader,
    scope: &mut Scope,
    first: u32,
    specifiers: Part<Specifiers>,
    declarator: Part<Declarator>,
    is_type: bool,
    depth: u32,
) -> Result<Option<Part<External>>, Memory>
    requires { is_type ≡ types_meant (source_of reader.now) (view.specifiers specifiers.tree) }
    ensures { (before names : List Declared) (read : Option tree.Specifiers) (seen : Option tree.Declarator) → IsPart (the_specifiers (source_of reader.now)) (source_of reader.now) before names specifiers read
        → IsPart (a_declarator (source_of reader.now)) (source_of reader.now) names scope.old declarator seen
        → IfOk result (λ found. Gives (an_external (source_of reader.now)) (source_of reader.now) before scope.new found (definition_of (source_of reader.now) (within (source_of reader.now) depth) names first (view.specifiers specifiers.tree) (view.declarator declarator.tree))) }
{
    declare_name(reader, scope, &declarator.tree, is_type)?;
    let kept = scope.len();
    let Some(parameters) = own_parameters(None, &declarator.tree) else {
        return Ok(None);
    };
    declare_parameters(reader, scope, parameters)?;
    let body = statement(reader, scope, declarator.after, depth)?;
    scope.end(kept)?;
    Ok(external_definition(first, specifiers, declarator, body))
}
