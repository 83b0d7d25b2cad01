//! Expressions (6.5), read from left to right.

ghost use Rattle.std.specs.Prelude.{◌≡◌, ◌≢◌, ◌+◌, ◌<◌, ◌≤◌, ℕ, List, Option, IfOk, length, map};
ghost use Rattle.dm_syn.specs.declared.declared.Declared.{Declared};
ghost use Rattle.dm_syn.specs.declared.symbol.Symbol.TheVariants.{End};
ghost use Rattle.dm_syn.specs.Symbols.{infix_level as meant_level};
ghost use Rattle.dm_syn.specs.Grammar.{prefix_level as meant_operand};
ghost use Rattle.dm_syn.specs.Sources.{symbol_in};
ghost use Rattle.dm_syn.specs.Trees as tree;
ghost use Rattle.dm_syn.specs.Views as view;
ghost use Rattle.dm_pexpr.specs.Parsing.{lower, front_of, front_kind, turn, suffix_kind, grown_from, cast_from, conditional_from, arguments as meant_arguments, more_exprs as meant_more, all_turns, enclosing, measuring, separating, type_name_of, prepend_expr};
ghost use Rattle.dm_pexpr.specs.Parts.{source_of, Gives, IsPart, an_expr, a_type_name, exprs_from, behind_all, operated_from, prefixed_from};

use crate::part::{Part, begun, joined};
use crate::reader::Reader;
use crate::scope::Scope;
use dm_syn::{Expr, ExprForm, Symbol, TypeName, infix_level};
use dm_token::{GREATEST_HEIGHT, List, Memory};

impl Reader<'_> {
    /// The expression of at least this level at a position, if there is one whose parts nest no deeper. What it declares
    /// is in scope behind it.
    #[cycle(reading)]
    pub fn expr(
        &self,
        scope: &mut Scope,
        at: u32,
        least: u8,
        depth: u32,
    ) -> Result<Option<Part<Expr>>, Memory>
        ensures { IfOk result (λ found. Gives (an_expr (source_of self.now)) (source_of self.now) scope.old scope.new found ((lower (source_of self.now) depth).expr least scope.old at)) }
    {
        if depth == 0 {
            return Ok(None);
        }
        let front = self.front(scope, at, depth - 1)?;
        self.grown(scope, least, front, depth - 1)
    }

    // What stands in front of every operator behind an operand.
    #[cycle(reading)]
    fn front(&self, scope: &mut Scope, at: u32, depth: u32) -> Result<Option<Part<Expr>>, Memory>
        ensures { IfOk result (λ found. Gives (an_expr (source_of self.now)) (source_of self.now) scope.old scope.new found (front_of (source_of self.now) (lower (source_of self.now) depth) scope.old at (front_kind (symbol_in (source_of self.now) scope.old at)))) }
    {
        match self.symbol(scope, at) {
            Symbol::Identifier => Ok(Some(self.leaf(at, at + 1, ExprForm::Name))),
            Symbol::Constant => Ok(Some(self.leaf(at, at + 1, ExprForm::Constant))),
            Symbol::Literal => Ok(Some(self.leaf(at, at + 1, ExprForm::Literal))),
            Symbol::LeftParen => self.enclosed(scope, at, depth),
            Symbol::Sizeof => self.measured(scope, at, depth),
            symbol => self.prefixed(scope, at, symbol, depth),
        }
    }

    // A prefix operator and its operand.
    #[cycle(reading)]
    fn prefixed(
        &self,
        scope: &mut Scope,
        first: u32,
        symbol: Symbol,
        depth: u32,
    ) -> Result<Option<Part<Expr>>, Memory>
        requires { symbol ≢ End → first < length self.now.tokens.now }
        ensures { IfOk result (λ found. Gives (an_expr (source_of self.now)) (source_of self.now) scope.old scope.new found (prefixed_from (lower (source_of self.now) depth) scope.old first (meant_operand symbol))) }
    {
        let Some(level) = operand_level(symbol) else {
            return Ok(None);
        };
        let operand = self.expr(scope, first + 1, level, depth)?;
        self.prefix(scope, first, operand)
    }

    // Behind `(`: a type name, `)` and an operand, or an expression and `)`.
    #[cycle(reading)]
    fn enclosed(
        &self,
        scope: &mut Scope,
        first: u32,
        depth: u32,
    ) -> Result<Option<Part<Expr>>, Memory>
        requires { first < length self.now.tokens.now }
        ensures { IfOk result (λ found. Gives (an_expr (source_of self.now)) (source_of self.now) scope.old scope.new found (front_of (source_of self.now) (lower (source_of self.now) depth) scope.old first enclosing)) }
    {
        let next = first + 1;
        if self.symbol(scope, next).begins_specifiers() {
            let name = self.type_name(scope, next, depth)?;
            self.cast_behind(scope, first, name, depth)
        } else {
            let inner = self.expr(scope, next, 0, depth)?;
            self.paren(scope, first, inner)
        }
    }

    // `)` and an operand behind `(` and a type name.
    #[cycle(reading)]
    fn cast_behind(
        &self,
        scope: &mut Scope,
        first: u32,
        name: Option<Part<TypeName>>,
        depth: u32,
    ) -> Result<Option<Part<Expr>>, Memory>
        ensures { (before : List Declared) (wanted : Option tree.TypeName) → Gives (a_type_name (source_of self.now)) (source_of self.now) before scope.old name wanted
            → IfOk result (λ found. Gives (an_expr (source_of self.now)) (source_of self.now) before scope.new found (cast_from (source_of self.now) (lower (source_of self.now) depth) before first wanted)) }
    {
        let Some(name) = name else {
            return Ok(None);
        };
        let Some(next) = self.behind(scope, name.after, Symbol::RightParen) else {
            return Ok(None);
        };
        let operand = self.expr(scope, next, 13, depth)?;
        self.cast(scope, first, name, operand)
    }

    // Behind `sizeof`: a type name in parentheses, or an operand.
    #[cycle(reading)]
    fn measured(
        &self,
        scope: &mut Scope,
        first: u32,
        depth: u32,
    ) -> Result<Option<Part<Expr>>, Memory>
        requires { first < length self.now.tokens.now }
        ensures { IfOk result (λ found. Gives (an_expr (source_of self.now)) (source_of self.now) scope.old scope.new found (front_of (source_of self.now) (lower (source_of self.now) depth) scope.old first measuring)) }
    {
        let next = first + 1;
        match self.behind_type_paren(scope, next) {
            Some(inside) => {
                let name = self.type_name(scope, inside, depth)?;
                self.sizeof_name(scope, first, name)
            }
            None => {
                let operand = self.expr(scope, next, 14, depth)?;
                self.sizeof_expr(scope, first, operand)
            }
        }
    }

    // An operand with all that goes on behind it.
    #[cycle(reading)]
    fn grown(
        &self,
        scope: &mut Scope,
        least: u8,
        front: Option<Part<Expr>>,
        depth: u32,
    ) -> Result<Option<Part<Expr>>, Memory>
        ensures { (before : List Declared) (wanted : Option tree.Expr) → Gives (an_expr (source_of self.now)) (source_of self.now) before scope.old front wanted
            → IfOk result (λ found. Gives (an_expr (source_of self.now)) (source_of self.now) before scope.new found (grown_from (source_of self.now) (lower (source_of self.now) depth) least before wanted)) }
    {
        let Some(mut left) = front else {
            return Ok(None);
        };
        if least > self.level(&left.tree) {
            return Ok(None);
        }
        let mut turns = GREATEST_HEIGHT;
        while let Some((symbol, next)) = self.suffix(scope, least, &left) {
            if turns == 0 {
                return Ok(None);
            }
            turns -= 1;
            let Some(grown) = self.turn(scope, left, symbol, next, depth)? else {
                return Ok(None);
            };
            left = grown;
        }
        Ok(Some(left))
    }

    // An operand with what goes on behind it.
    #[cycle(reading)]
    fn turn(
        &self,
        scope: &mut Scope,
        left: Part<Expr>,
        symbol: Symbol,
        next: u32,
        depth: u32,
    ) -> Result<Option<Part<Expr>>, Memory>
        requires inside { next ≤ length self.now.tokens.now }
        requires next { next ≡ left.after + 1 }
        ensures { (before : List Declared) (read : Option tree.Expr) → IsPart (an_expr (source_of self.now)) (source_of self.now) before scope.old left read
            → IfOk result (λ found. Gives (an_expr (source_of self.now)) (source_of self.now) before scope.new found (turn (source_of self.now) (lower (source_of self.now) depth) scope.old (view.expr left.tree) left.after (suffix_kind symbol))) }
    {
        match symbol {
            Symbol::LeftBracket => {
                let right = self.expr(scope, next, 0, depth)?;
                self.index(scope, left, right)
            }
            Symbol::LeftParen => {
                let arguments = self.arguments(scope, next, depth)?;
                self.call(scope, left, arguments)
            }
            Symbol::Dot => self.member(scope, left, next),
            Symbol::Arrow => self.arrow(scope, left, next),
            Symbol::Increment => self.postfix(scope, left, next),
            Symbol::Question => {
                let second = self.expr(scope, next, 0, depth)?;
                self.conditional(scope, left, second, depth)
            }
            Symbol::Equals | Symbol::Compound => {
                let operator = left.after;
                let right = self.expr(scope, next, 1, depth)?;
                self.assign(scope, left, operator, right)
            }
            Symbol::Comma => self.comma(scope, left, depth),
            _ => self.operated(scope, left, symbol, next, depth),
        }
    }

    // An operator between two operands and its right operand.
    #[cycle(reading)]
    fn operated(
        &self,
        scope: &mut Scope,
        left: Part<Expr>,
        symbol: Symbol,
        next: u32,
        depth: u32,
    ) -> Result<Option<Part<Expr>>, Memory>
        requires next { next ≡ left.after + 1 }
        ensures { (before : List Declared) (read : Option tree.Expr) → IsPart (an_expr (source_of self.now)) (source_of self.now) before scope.old left read
            → IfOk result (λ found. Gives (an_expr (source_of self.now)) (source_of self.now) before scope.new found (operated_from (lower (source_of self.now) depth) scope.old (view.expr left.tree) left.after (meant_level symbol))) }
    {
        let Some(level) = infix_level(symbol) else {
            return Ok(None);
        };
        let operator = left.after;
        let right = self.expr(scope, next, level + 1, depth)?;
        self.binary(scope, left, operator, right)
    }

    // `:` and the third operand of `?:`.
    #[cycle(reading)]
    fn conditional(
        &self,
        scope: &mut Scope,
        first: Part<Expr>,
        second: Option<Part<Expr>>,
        depth: u32,
    ) -> Result<Option<Part<Expr>>, Memory>
        ensures { (before names : List Declared) (read wanted : Option tree.Expr) → IsPart (an_expr (source_of self.now)) (source_of self.now) before names first read
            → Gives (an_expr (source_of self.now)) (source_of self.now) names scope.old second wanted
            → IfOk result (λ found. Gives (an_expr (source_of self.now)) (source_of self.now) before scope.new found (conditional_from (source_of self.now) (lower (source_of self.now) depth) names (view.expr first.tree) wanted)) }
    {
        let Some(second) = second else {
            return Ok(None);
        };
        let Some(next) = self.behind(scope, second.after, Symbol::Colon) else {
            return Ok(None);
        };
        let third = self.expr(scope, next, 2, depth)?;
        self.choose(scope, first, second, third)
    }

    // What stands behind the first part of a comma expression.
    #[cycle(reading)]
    fn comma(
        &self,
        scope: &mut Scope,
        left: Part<Expr>,
        depth: u32,
    ) -> Result<Option<Part<Expr>>, Memory>
        ensures { (before : List Declared) (read : Option tree.Expr) → IsPart (an_expr (source_of self.now)) (source_of self.now) before scope.old left read
            → IfOk result (λ found. Gives (an_expr (source_of self.now)) (source_of self.now) before scope.new found (turn (source_of self.now) (lower (source_of self.now) depth) scope.old (view.expr left.tree) left.after separating)) }
    {
        let first = left.tree.span.first;
        let parts = begun(self.alloc, left)?;
        let parts = self.more_exprs(scope, parts, depth)?;
        Ok(self.separated(scope, first, parts))
    }

    // Arguments up to the closing parenthesis.
    #[cycle(reading)]
    fn arguments(
        &self,
        scope: &mut Scope,
        at: u32,
        depth: u32,
    ) -> Result<Option<Part<List<Expr>>>, Memory>
        ensures { IfOk result (λ found. Gives (exprs_from (source_of self.now) at) (source_of self.now) scope.old scope.new found (meant_arguments (source_of self.now) (lower (source_of self.now) depth) scope.old at)) }
    {
        if self.symbol(scope, at).is(Symbol::RightParen) {
            return Ok(Some(self.none_yet(at)));
        }
        let Some(first) = self.expr(scope, at, 1, depth)? else {
            return Ok(None);
        };
        let begun = begun(self.alloc, first)?;
        self.more_exprs(scope, begun, depth)
    }

    // More expressions, each behind a comma.
    #[cycle(reading)]
    fn more_exprs(
        &self,
        scope: &mut Scope,
        parts: Part<List<Expr>>,
        depth: u32,
    ) -> Result<Option<Part<List<Expr>>>, Memory>
        ensures { (before : List Declared) (start : ℕ) (read : Option tree.Exprs) → IsPart (exprs_from (source_of self.now) start) (source_of self.now) before scope.old parts read
            → IfOk result (λ found. Gives (exprs_from (source_of self.now) start) (source_of self.now) before scope.new found (behind_all prepend_expr (map view.expr parts.tree) (meant_more (source_of self.now) (lower (source_of self.now) depth) (all_turns (source_of self.now)) scope.old parts.after))) }
    {
        let mut parts = parts;
        let mut turns = self.tokens.len() + 1;
        while turns > 0 {
            let Some(next) = self.behind(scope, parts.after, Symbol::Comma) else {
                return Ok(Some(parts));
            };
            let Some(part) = self.expr(scope, next, 1, depth)? else {
                return Ok(None);
            };
            parts = joined(parts, part)?;
            turns -= 1;
        }
        Ok(Some(parts))
    }
}

// The least level of the operand of a prefix operator, if the symbol can be one (6.5.3).
fn operand_level(symbol: Symbol) -> Option<u8>
    ensures { result ≡ meant_operand symbol }
{
    match symbol {
        Symbol::Increment => Some(14),
        Symbol::Ampersand | Symbol::Star | Symbol::Additive | Symbol::Complement => Some(13),
        _ => None,
    }
}
