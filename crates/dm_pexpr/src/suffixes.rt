//! What goes on behind an operand.

ghost use Rattle.std.specs.Prelude.{◌≡◌, ◌≤◌, ◌<◌, ◌+◌, ◌∷◌, ◌++◌, [], ℕ, List, Option, IfOk, length, max, unwrap_or};
ghost use Rattle.dm_syn.specs.declared.declared.Declared.{Declared};
ghost use Rattle.dm_syn.specs.Sources.{symbol_in};
ghost use Rattle.dm_syn.specs.Trees as tree;
ghost use Rattle.dm_syn.specs.Views as view;
ghost use Rattle.dm_syn.specs.Grammar.{level as meant_level, operator_level as meant_operator};
ghost use Rattle.dm_pexpr.specs.Parsing.{goes_on as meant_goes_on, suffix_kind};
ghost use Rattle.dm_pexpr.specs.Parts.{source_of, Gives, IsPart, an_expr, exprs_from, comma_node, GoesOn};

use crate::part::{Part, checked, over};
use crate::reader::Reader;
use crate::scope::Scope;
use dm_syn::{Expr, ExprForm, Symbol, infix_level};
use dm_token::{List, Span};

impl Reader<'_> {
    /// The level of an expression, which is that of the first production of 6.5 that derives it: 0 with commas, 1 an
    /// assignment, 2 a conditional expression, 3 to 12 operators between two operands, 13 a cast, 14 a unary, 15 a postfix
    /// and 16 a primary expression.
    pub fn level(&self, expr: &Expr) -> u8
        ensures { result ≡ meant_level (source_of self.now) (view.expr expr.now) }
    {
        match &expr.form {
            ExprForm::Name | ExprForm::Constant | ExprForm::Literal | ExprForm::Paren(_) => 16,
            ExprForm::Index(_, _)
            | ExprForm::Call(_, _)
            | ExprForm::Member(_, _)
            | ExprForm::Arrow(_, _)
            | ExprForm::Postfix(_, _) => 15,
            ExprForm::Prefix(_, _) | ExprForm::SizeofExpr(_) | ExprForm::SizeofName(_) => 14,
            ExprForm::Cast(_, _) => 13,
            ExprForm::Binary(_, operator, _) => self.operator_level(*operator),
            ExprForm::Conditional(_, _, _) => 2,
            ExprForm::Assign(_, _, _) => 1,
            ExprForm::Comma(_) => 0,
        }
    }

    // The level of an operator between two operands.
    fn operator_level(&self, operator: u32) -> u8
        ensures { result ≡ meant_operator (source_of self.now) operator }
    {
        infix_level(self.plain_symbol(operator)).unwrap_or(0)
    }

    // What goes on behind an operand, where an expression of at least this level is read, and the position behind it.
    pub(crate) fn suffix(
        &self,
        scope: &Scope,
        least: u8,
        left: &Part<Expr>,
    ) -> Option<(Symbol, u32)>
        ensures { GoesOn (meant_goes_on least (meant_level (source_of self.now) (view.expr left.now.tree)) (suffix_kind (symbol_in (source_of self.now) scope.now left.now.after)))
            (symbol_in (source_of self.now) scope.now left.now.after) left.now.after (length self.now.tokens.now) result }
    {
        let symbol = self.symbol(scope, left.after);
        if goes_on(least, self.level(&left.tree), symbol) {
            Some((symbol, left.after + 1))
        } else {
            None
        }
    }

    // The parts of a comma expression as one.
    pub(crate) fn separated(
        &self,
        scope: &Scope,
        first: u32,
        parts: Option<Part<List<Expr>>>,
    ) -> Option<Part<Expr>>
        ensures { (before : List Declared) (start : ℕ) (wanted : Option tree.Exprs) → Gives (exprs_from (source_of self.now) start) (source_of self.now) before scope.now parts wanted
            → Gives (an_expr (source_of self.now)) (source_of self.now) before scope.now result (comma_node first start wanted) }
    {
        let parts = parts?;
        let tree = Expr {
            span: Span {
                first,
                after: parts.after,
            },
            form: ExprForm::Comma(parts.tree),
        };
        checked(tree, over(parts.height), parts.after)
    }
}

// Whether a symbol goes on behind an operand of this level, where an expression of at least the other level is read.
fn goes_on(least: u8, left: u8, symbol: Symbol) -> bool
    ensures { result ≡ meant_goes_on least left (suffix_kind symbol) }
{
    match symbol {
        Symbol::LeftBracket | Symbol::LeftParen | Symbol::Dot | Symbol::Arrow | Symbol::Increment =>
            least <= 15 && 15 <= left,
        Symbol::Question => least <= 2 && 3 <= left,
        Symbol::Equals | Symbol::Compound => least <= 1 && 14 <= left,
        Symbol::Comma => least == 0 && 1 <= left,
        _ => match infix_level(symbol) {
            Some(level) => least <= level && level <= left,
            None => false,
        },
    }
}
