//! Looking at a token.

ghost use Rattle.std.specs.Prelude.{◌≡◌, ◌≢◌, ◌≤◌, ◌<◌, ◌+◌, ◌&&◌, not, IfOk, length, false};
ghost use Rattle.dm_syn.specs.declared.symbol.Symbol.TheVariants.{End, Identifier, LeftParen, RightBrace, Comma};
ghost use Rattle.dm_syn.specs.Symbols.{is, is_identifier, begins_specifiers};
ghost use Rattle.dm_syn.specs.Sources.{symbol_in, symbol_at, spelling_at, names_type, seen_as as seen_meant};
ghost use Rattle.dm_pexpr.specs.Parsing.{takes_name, encloses};
ghost use Rattle.dm_pexpr.specs.Shapes.{shape_of};
ghost use Rattle.dm_pexpr.specs.Parts.{source_of, Passes};

use crate::reader::Reader;
use crate::scope::Scope;
use crate::shape::Shape;
use dm_syn::{Symbol, symbol_of};
use dm_token::{Memory, Text};

impl Reader<'_> {
    // Whether a name names a type where these declarations are in scope.
    fn names_type(&self, scope: &Scope, name: &Text) -> bool
        ensures { result ≡ names_type (source_of self.now) scope.now name.now }
    {
        match scope.get(name) {
            Some(is_type) => is_type,
            None => self.typedefs.get(name).unwrap_or(false),
        }
    }

    /// The terminal symbol of the token at a position, where an identifier counts as one that names no type.
    #[tactic(auto, unfolding(dm_syn::specs::Sources::symbol_at))]
    pub fn plain_symbol(&self, at: u32) -> Symbol
        ensures value { result ≡ symbol_at (source_of self.now) at }
        ensures within { result ≢ End → at < length self.now.tokens.now }
    {
        match self.tokens.get(at as usize) {
            Some(token) => symbol_of(token.class),
            None => Symbol::End,
        }
    }

    /// The spelling of the token at a position. That of the end is empty.
    #[tactic(auto, unfolding(dm_syn::specs::Sources::spelling_at))]
    pub fn spelling(&self, at: u32) -> Result<Text, Memory>
        ensures { IfOk result (λ text. text ≡ spelling_at (source_of self.now) at) }
    {
        match self.tokens.get(at as usize) {
            Some(token) => Ok(token.spelling.copy()?),
            None => Text::new(self.alloc, ""),
        }
    }

    // Whether the spelling of the token at a position names a type where these declarations are in scope.
    #[tactic(auto, unfolding(dm_syn::specs::Sources::spelling_at))]
    fn is_type_at(&self, scope: &Scope, at: u32) -> bool
        ensures { at < length self.now.tokens.now → result ≡ names_type (source_of self.now) scope.now (spelling_at (source_of self.now) at) }
    {
        match self.tokens.get(at as usize) {
            Some(token) => self.names_type(scope, &token.spelling),
            None => false,
        }
    }

    /// The terminal symbol of the token at a position, where these declarations are in scope.
    pub fn symbol(&self, scope: &Scope, at: u32) -> Symbol
        ensures value { result ≡ symbol_in (source_of self.now) scope.now at }
        ensures within { result ≢ End → at < length self.now.tokens.now }
    {
        let symbol = self.plain_symbol(at);
        match symbol {
            Symbol::Identifier => seen_as(self.is_type_at(scope, at)),
            _ => symbol,
        }
    }

    /// The position behind a symbol, if it stands here.
    pub fn behind(&self, scope: &Scope, at: u32, symbol: Symbol) -> Option<u32>
        requires { is symbol End ≡ false }
        ensures { Passes (is (symbol_in (source_of self.now) scope.now at) symbol) at (length self.now.tokens.now) result }
    {
        if self.symbol(scope, at).is(symbol) {
            Some(at + 1)
        } else {
            None
        }
    }

    /// The position behind an identifier, if one stands here.
    pub fn behind_identifier(&self, scope: &Scope, at: u32) -> Option<u32>
        ensures { Passes (is_identifier (symbol_in (source_of self.now) scope.now at)) at (length self.now.tokens.now) result }
    {
        if self.symbol(scope, at).is_identifier() {
            Some(at + 1)
        } else {
            None
        }
    }

    /// The position behind `(`, if it stands here and a type name behind it.
    pub fn behind_type_paren(&self, scope: &Scope, at: u32) -> Option<u32>
        ensures { Passes (is (symbol_in (source_of self.now) scope.now at) LeftParen && begins_specifiers (symbol_in (source_of self.now) scope.now (at + 1))) at (length self.now.tokens.now) result }
    {
        let inside = self.behind(scope, at, Symbol::LeftParen)?;
        if self.symbol(scope, inside).begins_specifiers() {
            Some(inside)
        } else {
            None
        }
    }

    // The position behind the declared name, if it stands here and may.
    pub(crate) fn behind_name(&self, scope: &Scope, at: u32, shape: Shape) -> Option<u32>
        ensures { Passes (takes_name (shape_of shape) && is_identifier (symbol_in (source_of self.now) scope.now at)) at (length self.now.tokens.now) result }
    {
        if shape.takes_name() {
            self.behind_identifier(scope, at)
        } else {
            None
        }
    }

    // The position behind `(`, if it stands here and encloses a declarator.
    pub(crate) fn behind_enclosing(&self, scope: &Scope, at: u32, shape: Shape) -> Option<u32>
        ensures { Passes (is (symbol_in (source_of self.now) scope.now at) LeftParen && encloses (shape_of shape) (symbol_in (source_of self.now) scope.now (at + 1))) at (length self.now.tokens.now) result }
    {
        let inside = self.behind(scope, at, Symbol::LeftParen)?;
        if shape.encloses(self.symbol(scope, inside)) {
            Some(inside)
        } else {
            None
        }
    }

    /// The position behind a comma, if it stands here and no closing brace behind it.
    pub fn behind_separator(&self, scope: &Scope, at: u32) -> Option<u32>
        ensures { Passes (is (symbol_in (source_of self.now) scope.now at) Comma && not (is (symbol_in (source_of self.now) scope.now (at + 1)) RightBrace)) at (length self.now.tokens.now) result }
    {
        let next = self.behind(scope, at, Symbol::Comma)?;
        if self.symbol(scope, next).is(Symbol::RightBrace) {
            None
        } else {
            Some(next)
        }
    }
}

// What an identifier is that names a type or not.
fn seen_as(names_type: bool) -> Symbol
    ensures { result ≡ seen_meant Identifier names_type }
{
    if names_type {
        Symbol::TypedefName
    } else {
        Symbol::Identifier
    }
}
