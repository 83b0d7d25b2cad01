//! Expressions that are put together of their parts.

ghost use Rattle.std.specs.Prelude.{◌≡◌, ◌+◌, ◌<◌, ◌≤◌, ℕ, List, Option, Some, None, IfOk, length, nat_le, true, false, if◌then◌else◌};
ghost use Rattle.dm_token.specs.Limits.{greatest_height};
ghost use Rattle.dm_syn.specs.declared.declared.Declared.{Declared};
ghost use Rattle.dm_syn.specs.Trees as tree;
ghost use Rattle.dm_syn.specs.Views as view;
ghost use Rattle.dm_syn.specs.Spans.{expr_span};
ghost use Rattle.dm_pexpr.specs.Parsing.{paren_from, cast_with, sizeof_name_from, sizeof_expr_from, prefix_from, index_from, call_from, binary_from, assign_from, conditional_with, checked_expr, span_of};
ghost use Rattle.dm_pexpr.specs.Parts.{source_of, Gives, IsPart, an_expr, a_type_name, exprs_from, member_from};

use crate::part::{Part, above, checked, over};
use crate::reader::Reader;
use crate::scope::Scope;
use dm_syn::{Expr, ExprForm, Symbol, TypeName};
use dm_token::{Boxed, List, Memory, Span};

impl Reader<'_> {
    // An expression of one token.
    pub(crate) fn leaf(&self, first: u32, after: u32, form: ExprForm) -> Part<Expr>
        ensures { result ≡ record { tree = record { span = record { first = first; after = after }; form = form }; height = 1; after = after } }
    {
        Part {
            tree: Expr {
                span: Span { first, after },
                form,
            },
            height: 1,
            after,
        }
    }

    // `(`, an expression and `)`.
    pub(crate) fn paren(
        &self,
        scope: &Scope,
        first: u32,
        inner: Option<Part<Expr>>,
    ) -> Result<Option<Part<Expr>>, Memory>
        ensures { (before : List Declared) (wanted : Option tree.Expr) → Gives (an_expr (source_of self.now)) (source_of self.now) before scope.now inner wanted
            → IfOk result (λ made. Gives (an_expr (source_of self.now)) (source_of self.now) before scope.now made (paren_from (source_of self.now) before first wanted)) }
    {
        let Some(inner) = inner else {
            return Ok(None);
        };
        let Some(after) = self.behind(scope, inner.after, Symbol::RightParen) else {
            return Ok(None);
        };
        let form = ExprForm::Paren(Boxed::new(self.alloc, inner.tree)?);
        Ok(node(first, after, over(inner.height), form))
    }

    // What stands behind `(`, a type name and `)`: an operand of a cast.
    pub(crate) fn cast(
        &self,
        scope: &Scope,
        first: u32,
        name: Part<TypeName>,
        operand: Option<Part<Expr>>,
    ) -> Result<Option<Part<Expr>>, Memory>
        ensures { (before names : List Declared) (read : Option tree.TypeName) (wanted : Option tree.Expr) → IsPart (a_type_name (source_of self.now)) (source_of self.now) before names name read
            → Gives (an_expr (source_of self.now)) (source_of self.now) names scope.now operand wanted
            → IfOk result (λ made. Gives (an_expr (source_of self.now)) (source_of self.now) before scope.now made (cast_with first (view.type_name name.tree) wanted)) }
    {
        let Some(operand) = operand else {
            return Ok(None);
        };
        let height = above(name.height, operand.height);
        let name = Boxed::new(self.alloc, name.tree)?;
        let after = operand.after;
        let form = ExprForm::Cast(name, Boxed::new(self.alloc, operand.tree)?);
        Ok(node(first, after, height, form))
    }

    // `sizeof`, `(`, a type name and `)`.
    pub(crate) fn sizeof_name(
        &self,
        scope: &Scope,
        first: u32,
        name: Option<Part<TypeName>>,
    ) -> Result<Option<Part<Expr>>, Memory>
        ensures { (before : List Declared) (wanted : Option tree.TypeName) → Gives (a_type_name (source_of self.now)) (source_of self.now) before scope.now name wanted
            → IfOk result (λ made. Gives (an_expr (source_of self.now)) (source_of self.now) before scope.now made (sizeof_name_from (source_of self.now) before first wanted)) }
    {
        let Some(name) = name else {
            return Ok(None);
        };
        let Some(after) = self.behind(scope, name.after, Symbol::RightParen) else {
            return Ok(None);
        };
        let form = ExprForm::SizeofName(Boxed::new(self.alloc, name.tree)?);
        Ok(node(first, after, over(name.height), form))
    }

    // `sizeof` and its operand.
    pub(crate) fn sizeof_expr(
        &self,
        scope: &Scope,
        first: u32,
        operand: Option<Part<Expr>>,
    ) -> Result<Option<Part<Expr>>, Memory>
        ensures { (before : List Declared) (wanted : Option tree.Expr) → Gives (an_expr (source_of self.now)) (source_of self.now) before scope.now operand wanted
            → IfOk result (λ made. Gives (an_expr (source_of self.now)) (source_of self.now) before scope.now made (sizeof_expr_from first wanted)) }
    {
        let Some(operand) = operand else {
            return Ok(None);
        };
        let after = operand.after;
        let form = ExprForm::SizeofExpr(Boxed::new(self.alloc, operand.tree)?);
        Ok(node(first, after, over(operand.height), form))
    }

    // A prefix operator and its operand.
    pub(crate) fn prefix(
        &self,
        scope: &Scope,
        first: u32,
        operand: Option<Part<Expr>>,
    ) -> Result<Option<Part<Expr>>, Memory>
        ensures { (before : List Declared) (wanted : Option tree.Expr) → Gives (an_expr (source_of self.now)) (source_of self.now) before scope.now operand wanted
            → IfOk result (λ made. Gives (an_expr (source_of self.now)) (source_of self.now) before scope.now made (prefix_from first wanted)) }
    {
        let Some(operand) = operand else {
            return Ok(None);
        };
        let after = operand.after;
        let form = ExprForm::Prefix(first, Boxed::new(self.alloc, operand.tree)?);
        Ok(node(first, after, over(operand.height), form))
    }

    // `[`, an expression and `]` behind an operand.
    pub(crate) fn index(
        &self,
        scope: &Scope,
        left: Part<Expr>,
        right: Option<Part<Expr>>,
    ) -> Result<Option<Part<Expr>>, Memory>
        ensures { (before names : List Declared) (read : Option tree.Expr) (wanted : Option tree.Expr) → IsPart (an_expr (source_of self.now)) (source_of self.now) before names left read
            → Gives (an_expr (source_of self.now)) (source_of self.now) names scope.now right wanted
            → IfOk result (λ made. Gives (an_expr (source_of self.now)) (source_of self.now) before scope.now made (index_from (source_of self.now) names (view.expr left.tree) wanted)) }
    {
        let Some(right) = right else {
            return Ok(None);
        };
        let Some(after) = self.behind(scope, right.after, Symbol::RightBracket) else {
            return Ok(None);
        };
        let first = left.tree.span.first;
        let height = above(left.height, right.height);
        let left = Boxed::new(self.alloc, left.tree)?;
        let form = ExprForm::Index(left, Boxed::new(self.alloc, right.tree)?);
        Ok(node(first, after, height, form))
    }

    // An operator and its right operand behind the left one.
    pub(crate) fn binary(
        &self,
        scope: &Scope,
        left: Part<Expr>,
        operator: u32,
        right: Option<Part<Expr>>,
    ) -> Result<Option<Part<Expr>>, Memory>
        ensures { (before names : List Declared) (read : Option tree.Expr) (wanted : Option tree.Expr) → IsPart (an_expr (source_of self.now)) (source_of self.now) before names left read
            → Gives (an_expr (source_of self.now)) (source_of self.now) names scope.now right wanted
            → IfOk result (λ made. Gives (an_expr (source_of self.now)) (source_of self.now) before scope.now made (binary_from (view.expr left.tree) operator wanted)) }
    {
        let Some(right) = right else {
            return Ok(None);
        };
        let (first, after) = (left.tree.span.first, right.after);
        let height = above(left.height, right.height);
        let left = Boxed::new(self.alloc, left.tree)?;
        let form = ExprForm::Binary(left, operator, Boxed::new(self.alloc, right.tree)?);
        Ok(node(first, after, height, form))
    }

    // An assignment operator and its right operand behind the left one.
    pub(crate) fn assign(
        &self,
        scope: &Scope,
        left: Part<Expr>,
        operator: u32,
        right: Option<Part<Expr>>,
    ) -> Result<Option<Part<Expr>>, Memory>
        ensures { (before names : List Declared) (read : Option tree.Expr) (wanted : Option tree.Expr) → IsPart (an_expr (source_of self.now)) (source_of self.now) before names left read
            → Gives (an_expr (source_of self.now)) (source_of self.now) names scope.now right wanted
            → IfOk result (λ made. Gives (an_expr (source_of self.now)) (source_of self.now) before scope.now made (assign_from (view.expr left.tree) operator wanted)) }
    {
        let Some(right) = right else {
            return Ok(None);
        };
        let (first, after) = (left.tree.span.first, right.after);
        let height = above(left.height, right.height);
        let left = Boxed::new(self.alloc, left.tree)?;
        let form = ExprForm::Assign(left, operator, Boxed::new(self.alloc, right.tree)?);
        Ok(node(first, after, height, form))
    }

    // `(`, arguments from a place on and `)` behind an operand.
    pub(crate) fn call(
        &self,
        scope: &Scope,
        left: Part<Expr>,
        arguments: Option<Part<List<Expr>>>,
    ) -> Result<Option<Part<Expr>>, Memory>
        ensures { (before names : List Declared) (read : Option tree.Expr) (at : ℕ) (wanted : Option tree.Exprs) → IsPart (an_expr (source_of self.now)) (source_of self.now) before names left read
            → Gives (exprs_from (source_of self.now) at) (source_of self.now) names scope.now arguments wanted
            → IfOk result (λ made. Gives (an_expr (source_of self.now)) (source_of self.now) before scope.now made (call_from (source_of self.now) names (view.expr left.tree) at wanted)) }
    {
        let Some(arguments) = arguments else {
            return Ok(None);
        };
        let Some(after) = self.behind(scope, arguments.after, Symbol::RightParen) else {
            return Ok(None);
        };
        let first = left.tree.span.first;
        let height = above(left.height, arguments.height);
        let left = Boxed::new(self.alloc, left.tree)?;
        Ok(node(first, after, height, ExprForm::Call(left, arguments.tree)))
    }

    // `?`, an expression, `:` and another one behind an operand.
    pub(crate) fn choose(
        &self,
        scope: &Scope,
        first: Part<Expr>,
        second: Part<Expr>,
        third: Option<Part<Expr>>,
    ) -> Result<Option<Part<Expr>>, Memory>
        ensures { (before names between : List Declared) (read seen wanted : Option tree.Expr) → IsPart (an_expr (source_of self.now)) (source_of self.now) before names first read
            → IsPart (an_expr (source_of self.now)) (source_of self.now) names between second seen
            → Gives (an_expr (source_of self.now)) (source_of self.now) between scope.now third wanted
            → IfOk result (λ made. Gives (an_expr (source_of self.now)) (source_of self.now) before scope.now made (conditional_with (view.expr first.tree) (view.expr second.tree) wanted)) }
    {
        let Some(third) = third else {
            return Ok(None);
        };
        let (begin, after) = (first.tree.span.first, third.after);
        let height = above(first.height, second.height.max(third.height));
        let first = Boxed::new(self.alloc, first.tree)?;
        let second = Boxed::new(self.alloc, second.tree)?;
        let third = Boxed::new(self.alloc, third.tree)?;
        let form = ExprForm::Conditional(first, second, third);
        Ok(node(begin, after, height, form))
    }

    // `.` and an identifier behind an operand.
    pub(crate) fn member(
        &self,
        scope: &Scope,
        left: Part<Expr>,
        name: u32,
    ) -> Result<Option<Part<Expr>>, Memory>
        ensures { (before : List Declared) (read : Option tree.Expr) → IsPart (an_expr (source_of self.now)) (source_of self.now) before scope.now left read
            → IfOk result (λ made. Gives (an_expr (source_of self.now)) (source_of self.now) before scope.now made (member_from (source_of self.now) scope.now (view.expr left.tree) name false)) }
    {
        let Some(after) = self.behind_identifier(scope, name) else {
            return Ok(None);
        };
        let (first, height) = (left.tree.span.first, over(left.height));
        let left = Boxed::new(self.alloc, left.tree)?;
        Ok(node(first, after, height, ExprForm::Member(left, name)))
    }

    // `->` and an identifier behind an operand.
    pub(crate) fn arrow(
        &self,
        scope: &Scope,
        left: Part<Expr>,
        name: u32,
    ) -> Result<Option<Part<Expr>>, Memory>
        ensures { (before : List Declared) (read : Option tree.Expr) → IsPart (an_expr (source_of self.now)) (source_of self.now) before scope.now left read
            → IfOk result (λ made. Gives (an_expr (source_of self.now)) (source_of self.now) before scope.now made (member_from (source_of self.now) scope.now (view.expr left.tree) name true)) }
    {
        let Some(after) = self.behind_identifier(scope, name) else {
            return Ok(None);
        };
        let (first, height) = (left.tree.span.first, over(left.height));
        let left = Boxed::new(self.alloc, left.tree)?;
        Ok(node(first, after, height, ExprForm::Arrow(left, name)))
    }

    // `++` or `--` behind an operand.
    pub(crate) fn postfix(
        &self,
        scope: &Scope,
        left: Part<Expr>,
        after: u32,
    ) -> Result<Option<Part<Expr>>, Memory>
        requires inside { after ≤ length self.now.tokens.now }
        requires next { after ≡ left.after + 1 }
        ensures { (before : List Declared) (read : Option tree.Expr) → IsPart (an_expr (source_of self.now)) (source_of self.now) before scope.now left read
            → IfOk result (λ made. Gives (an_expr (source_of self.now)) (source_of self.now) before scope.now made (checked_expr (tree.postfix (span_of (expr_span (view.expr left.tree)).first (left.after + 1)) (view.expr left.tree) left.after))) }
    {
        let (first, height) = (left.tree.span.first, over(left.height));
        let operator = left.after;
        let left = Boxed::new(self.alloc, left.tree)?;
        Ok(node(first, after, height, ExprForm::Postfix(left, operator)))
    }
}

// An expression of that form, unless it is too high.
fn node(first: u32, after: u32, height: u32, form: ExprForm) -> Option<Part<Expr>>
    ensures { result ≡ (if nat_le height greatest_height then Some (record { tree = record { span = record { first = first; after = after }; form = form }; height = height; after = after }) else None) }
{
    let tree = Expr {
        span: Span { first, after },
        form,
    };
    checked(tree, height, after)
}
