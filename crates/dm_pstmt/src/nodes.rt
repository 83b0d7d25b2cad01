//! Statements and external declarations that are put together of their parts.

ghost use Rattle.std.specs.Prelude.{◌≡◌, ◌+◌, ◌≤◌, ◌++◌, ℕ, true, List, Option, Some, None, IfOk, length, nat_le, option_map, if◌then◌else◌};
ghost use Rattle.dm_token.specs.Limits.{greatest_height};
ghost use Rattle.dm_syn.specs.declared.declared.Declared.{Declared};
ghost use Rattle.dm_syn.specs.declared.symbol.Symbol.TheVariants.{Semicolon};
ghost use Rattle.dm_syn.specs.Sources.{Source};
ghost use Rattle.dm_syn.specs.Scopes.{named_declares, defines_types as types_meant};
ghost use Rattle.dm_syn.specs.Trees as tree;
ghost use Rattle.dm_syn.specs.Views as view;
ghost use Rattle.dm_pexpr.specs.Parsing.{span_of, and_then};
ghost use Rattle.dm_pexpr.specs.Parts.{Gives, IsPart, an_expr, the_specifiers, a_declarator};
ghost use Rattle.dm_pstmt.specs.Kinds.{a_declaration, an_external, a_stmt, a_labelled, a_block_item, an_optional, a_start, block_items_from, switch_items_from, clauses_from, seen_clauses};
ghost use Rattle.dm_pstmt.specs.Parsing.{stands, expression_with, return_with, jump, block_with, if_only_behind, else_with, while_behind, do_behind, switch_braced, case_behind, default_behind, unlabelled_with, external_declared, definition_with};
ghost use Rattle.dm_pstmt.specs.Steps.{Clauses, with_step, looping_over};

use dm_pexpr::{Part, above, checked, over};
use dm_syn::{
    Declaration, Declarator, Expr, External, ExternalForm, ForStart, Item, Specifiers, Stmt,
    StmtForm, SwitchForm, SwitchItem,
};
use dm_token::{Boxed, List, Memory, Span};
use std::alloc::Global;

/// The clauses of a `for`: its start, its condition and its step (6.8.5.3).
#[derive(Drop)]
pub(crate) struct ForClauses {
    start: ForStart,
    condition: Option<Expr>,
    step: Option<Expr>,
}

// A statement of that form, unless it is too high. It is boxed, so that what drops it is one call.
fn node(
    alloc: Global,
    first: u32,
    after: u32,
    height: u32,
    form: StmtForm,
) -> Result<Option<Part<Boxed<Stmt>>>, Memory>
    ensures { IfOk result (λ made. made ≡ (if nat_le height greatest_height then Some (record { tree = record { span = record { first = first; after = after }; form = form }; height = height; after = after }) else None)) }
{
    let tree = Stmt {
        span: Span { first, after },
        form,
    };
    let tree = Boxed::new(alloc, tree)?;
    Ok(checked(tree, height, after))
}

// A block with these items, which ends at a place.
pub(crate) fn block(
    alloc: Global,
    first: u32,
    items: Part<List<Item>>,
    after: u32,
) -> Result<Option<Part<Boxed<Stmt>>>, Memory>
    ensures { (source : Source) (before behind : List Declared) (wanted : Option tree.BlockItems) → IsPart (block_items_from source (first + 1)) source before behind items wanted
        → after ≡ items.after + 1 → after ≤ length source.tokens
        → IfOk result (λ made. Gives (a_stmt source) source before before made (and_then (block_with first) wanted)) }
{
    node(
        alloc,
        first,
        after,
        over(items.height),
        StmtForm::Block(items.tree),
    )
}

// `while` with its condition and its body.
pub(crate) fn while_loop(
    alloc: Global,
    first: u32,
    condition: Part<Expr>,
    body: Option<Part<Boxed<Stmt>>>,
) -> Result<Option<Part<Boxed<Stmt>>>, Memory>
    ensures { (source : Source) (before names behind : List Declared) (read : Option tree.Expr) (wanted : Option tree.Stmt) → IsPart (an_expr source) source before names condition read
        → Gives (a_stmt source) source names behind body wanted
        → IfOk result (λ made. Gives (a_stmt source) source before before made (and_then (while_behind first (view.expr condition.tree)) wanted)) }
{
    let Some(body) = body else {
        return Ok(None);
    };
    let height = above(condition.height, body.height);
    let after = body.after;
    let form = StmtForm::While(condition.tree, body.tree);
    node(alloc, first, after, height, form)
}

// `if` with its condition and its body, without `else`.
pub(crate) fn if_alone(
    alloc: Global,
    first: u32,
    condition: Part<Expr>,
    body: Part<Boxed<Stmt>>,
) -> Result<Option<Part<Boxed<Stmt>>>, Memory>
    ensures { (source : Source) (before names behind : List Declared) (read : Option tree.Expr) (seen : Option tree.Stmt) → IsPart (an_expr source) source before names condition read
        → IsPart (a_stmt source) source names behind body seen
        → IfOk result (λ made. Gives (a_stmt source) source before before made (if_only_behind first (view.expr condition.tree) (view.stmt body.tree))) }
{
    let height = above(condition.height, body.height);
    let after = body.after;
    let form = StmtForm::If(condition.tree, body.tree, None);
    node(alloc, first, after, height, form)
}

// `if` with its condition, its body and what stands behind `else`.
pub(crate) fn if_else(
    alloc: Global,
    first: u32,
    condition: Part<Expr>,
    body: Part<Boxed<Stmt>>,
    other: Option<Part<Boxed<Stmt>>>,
) -> Result<Option<Part<Boxed<Stmt>>>, Memory>
    ensures { (source : Source) (before names behind last : List Declared) (read : Option tree.Expr) (seen wanted : Option tree.Stmt) → IsPart (an_expr source) source before names condition read
        → IsPart (a_stmt source) source names behind body seen → Gives (a_stmt source) source names last other wanted
        → IfOk result (λ made. Gives (a_stmt source) source before before made (and_then (else_with first (view.expr condition.tree) (view.stmt body.tree)) wanted)) }
{
    let Some(other) = other else {
        return Ok(None);
    };
    let height = above(condition.height, body.height.max(other.height));
    let after = other.after;
    let form = StmtForm::If(condition.tree, body.tree, Some(other.tree));
    node(alloc, first, after, height, form)
}

// `do` with its body and its condition, which ends at a place.
pub(crate) fn do_loop(
    alloc: Global,
    first: u32,
    body: Part<Boxed<Stmt>>,
    condition: Part<Expr>,
    after: u32,
) -> Result<Option<Part<Boxed<Stmt>>>, Memory>
    ensures { (source : Source) (before behind names : List Declared) (seen : Option tree.Stmt) (read : Option tree.Expr) → IsPart (a_stmt source) source before behind body seen
        → IsPart (an_expr source) source before names condition read → stands source before (condition.after + 1) Semicolon ≡ true → after ≡ condition.after + 2 → after ≤ length source.tokens
        → IfOk result (λ made. Gives (a_stmt source) source before before made (do_behind source before first (view.stmt body.tree) (view.expr condition.tree))) }
{
    let height = above(body.height, condition.height);
    let form = StmtForm::Do(body.tree, condition.tree);
    node(alloc, first, after, height, form)
}

// `switch` with its subject and these items, which ends at a place.
pub(crate) fn switch_on(
    alloc: Global,
    first: u32,
    subject: Part<Expr>,
    items: Part<List<SwitchItem>>,
    after: u32,
) -> Result<Option<Part<Boxed<Stmt>>>, Memory>
    ensures { (source : Source) (before names behind : List Declared) (read : Option tree.Expr) (wanted : Option tree.SwitchItems) → IsPart (an_expr source) source before names subject read
        → IsPart (switch_items_from source (subject.after + 2)) source names behind items wanted → after ≡ items.after + 1 → after ≤ length source.tokens
        → IfOk result (λ made. Gives (a_stmt source) source before before made (and_then (switch_braced first (view.expr subject.tree)) wanted)) }
{
    let inside = over(items.height);
    let height = above(subject.height, inside);
    let form = StmtForm::Switch(subject.tree, items.tree);
    node(alloc, first, after, height, form)
}

// The first clause of a `for`, boxed, so that what drops it is one call.
pub(crate) fn boxed_start(
    alloc: Global,
    start: Part<ForStart>,
) -> Result<Part<Boxed<ForStart>>, Memory>
    ensures { IfOk result (λ boxed. boxed ≡ record { tree = start.tree; height = start.height; after = start.after }) }
{
    Ok(Part {
        tree: Boxed::new(alloc, start.tree)?,
        height: start.height,
        after: start.after,
    })
}

// The clauses of a `for`, of which the last ends before a `)`, behind which they end. They are boxed too.
pub(crate) fn clauses_node(
    alloc: Global,
    start: Part<Boxed<ForStart>>,
    condition: Part<Option<Expr>>,
    step: Part<Option<Expr>>,
    after: u32,
) -> Result<Part<Boxed<ForClauses>>, Memory>
    ensures { (source : Source) (before one two three : List Declared) (at : ℕ) (begun : Option tree.ForStart) (tested stepped : Option (Option tree.Expr))
        → IsPart (a_start source at) source before one start begun → IsPart (an_optional source start.after) source one two condition tested
        → IsPart (an_optional source (condition.after + 1)) source two three step stepped → after ≡ step.after + 1 → after ≤ length source.tokens
        → IfOk result (λ made. IsPart (clauses_from source at) source before three made (option_map (with_step (view.start start.tree) (view.optional condition.tree)) stepped)) }
{
    let height = start.height.max(condition.height).max(step.height);
    let tree = ForClauses {
        start: start.tree.into_inner(),
        condition: condition.tree,
        step: step.tree,
    };
    let tree = Boxed::new(alloc, tree)?;
    Ok(Part {
        tree,
        height,
        after,
    })
}

// `for` with its clauses and its body.
pub(crate) fn for_loop(
    alloc: Global,
    first: u32,
    clauses: Part<Boxed<ForClauses>>,
    body: Option<Part<Boxed<Stmt>>>,
) -> Result<Option<Part<Boxed<Stmt>>>, Memory>
    ensures { (source : Source) (before names behind : List Declared) (at : ℕ) (read : Option Clauses) (wanted : Option tree.Stmt)
        → IsPart (clauses_from source at) source before names clauses read → Gives (a_stmt source) source names behind body wanted
        → IfOk result (λ made. Gives (a_stmt source) source before before made (and_then (looping_over first (seen_clauses clauses.tree)) wanted)) }
{
    let Some(body) = body else {
        return Ok(None);
    };
    let height = above(clauses.height, body.height);
    let after = body.after;
    let ForClauses {
        start,
        condition,
        step,
    } = clauses.tree.into_inner();
    let form = StmtForm::For(start, condition, step, body.tree);
    node(alloc, first, after, height, form)
}

// An expression statement, which ends at a place.
pub(crate) fn expression(
    alloc: Global,
    first: u32,
    value: Part<Option<Expr>>,
    after: u32,
) -> Result<Option<Part<Boxed<Stmt>>>, Memory>
    ensures { (source : Source) (before names : List Declared) (wanted : Option (Option tree.Expr)) → IsPart (an_optional source first) source before names value wanted
        → stands source names value.after Semicolon ≡ true → after ≡ value.after + 1 → after ≤ length source.tokens
        → IfOk result (λ made. Gives (a_stmt source) source before names made (and_then (expression_with source before first) wanted)) }
{
    node(
        alloc,
        first,
        after,
        over(value.height),
        StmtForm::Expression(value.tree),
    )
}

// `return`, which ends at a place.
pub(crate) fn return_of(
    alloc: Global,
    first: u32,
    value: Part<Option<Expr>>,
    after: u32,
) -> Result<Option<Part<Boxed<Stmt>>>, Memory>
    ensures { (source : Source) (before names : List Declared) (wanted : Option (Option tree.Expr)) → IsPart (an_optional source (first + 1)) source before names value wanted
        → stands source names value.after Semicolon ≡ true → after ≡ value.after + 1 → after ≤ length source.tokens
        → IfOk result (λ made. Gives (a_stmt source) source before names made (and_then (return_with source before first) wanted)) }
{
    node(
        alloc,
        first,
        after,
        over(value.height),
        StmtForm::Return(value.tree),
    )
}

// `break`, which ends at a place.
pub(crate) fn break_at(
    alloc: Global,
    first: u32,
    after: u32,
) -> Result<Option<Part<Boxed<Stmt>>>, Memory>
    ensures { (source : Source) (before : List Declared) → stands source before (first + 1) Semicolon ≡ true → after ≡ first + 2 → after ≤ length source.tokens
        → IfOk result (λ made. Gives (a_stmt source) source before before made (jump source before first (tree.break (span_of first (first + 2))))) }
{
    node(alloc, first, after, 1, StmtForm::Break)
}

// `continue`, which ends at a place.
pub(crate) fn continue_at(
    alloc: Global,
    first: u32,
    after: u32,
) -> Result<Option<Part<Boxed<Stmt>>>, Memory>
    ensures { (source : Source) (before : List Declared) → stands source before (first + 1) Semicolon ≡ true → after ≡ first + 2 → after ≤ length source.tokens
        → IfOk result (λ made. Gives (a_stmt source) source before before made (jump source before first (tree.continue (span_of first (first + 2))))) }
{
    node(alloc, first, after, 1, StmtForm::Continue)
}

// A statement with labels of that form, unless it is too high.
fn label_node(first: u32, after: u32, height: u32, form: SwitchForm) -> Option<Part<SwitchItem>>
    ensures { result ≡ (if nat_le height greatest_height then Some (record { tree = record { span = record { first = first; after = after }; form = form }; height = height; after = after }) else None) }
{
    let tree = SwitchItem {
        span: Span { first, after },
        form,
    };
    checked(tree, height, after)
}

// `case`, its label and what it labels.
pub(crate) fn case_of(
    alloc: Global,
    first: u32,
    label: Part<Expr>,
    item: Option<Part<SwitchItem>>,
) -> Result<Option<Part<SwitchItem>>, Memory>
    ensures { (source : Source) (before names now : List Declared) (read : Option tree.Expr) (wanted : Option tree.SwitchItem) → IsPart (an_expr source) source before names label read
        → Gives (a_labelled source) source names now item wanted
        → IfOk result (λ made. Gives (a_labelled source) source before now made (and_then (case_behind first (view.expr label.tree)) wanted)) }
{
    let Some(item) = item else {
        return Ok(None);
    };
    let height = above(label.height, item.height);
    let after = item.after;
    let item = Boxed::new(alloc, item.tree)?;
    let form = SwitchForm::Case(label.tree, item);
    Ok(label_node(first, after, height, form))
}

// `default` and what it labels.
pub(crate) fn default_of(
    alloc: Global,
    first: u32,
    item: Option<Part<SwitchItem>>,
) -> Result<Option<Part<SwitchItem>>, Memory>
    ensures { (source : Source) (before now : List Declared) (wanted : Option tree.SwitchItem) → Gives (a_labelled source) source before now item wanted
        → IfOk result (λ made. Gives (a_labelled source) source before now made (and_then (default_behind first) wanted)) }
{
    let Some(item) = item else {
        return Ok(None);
    };
    let height = over(item.height);
    let after = item.after;
    let item = Boxed::new(alloc, item.tree)?;
    Ok(label_node(first, after, height, SwitchForm::Default(item)))
}

// A statement without a label.
pub(crate) fn unlabelled(first: u32, stmt: Option<Part<Boxed<Stmt>>>) -> Option<Part<SwitchItem>>
    ensures { (source : Source) (before behind : List Declared) (wanted : Option tree.Stmt) → Gives (a_stmt source) source before behind stmt wanted
        → Gives (a_labelled source) source before behind result (option_map (unlabelled_with first) wanted) }
{
    let stmt = stmt?;
    let (height, after) = (stmt.height, stmt.after);
    let tree = SwitchItem {
        span: Span { first, after },
        form: SwitchForm::Statement(stmt.tree.into_inner()),
    };
    Some(Part {
        tree,
        height,
        after,
    })
}

// A declaration in a block.
pub(crate) fn declared_item(declaration: Option<Part<Declaration>>) -> Option<Part<Item>>
    ensures { (source : Source) (before behind : List Declared) (wanted : Option tree.Declaration) → Gives (a_declaration source) source before behind declaration wanted
        → Gives (a_block_item source) source before behind result (option_map tree.declared_item wanted) }
{
    let declaration = declaration?;
    Some(Part {
        tree: Item::Declaration(declaration.tree),
        height: declaration.height,
        after: declaration.after,
    })
}

// A statement in a block.
pub(crate) fn stated_item(stmt: Option<Part<Boxed<Stmt>>>) -> Option<Part<Item>>
    ensures { (source : Source) (before behind : List Declared) (wanted : Option tree.Stmt) → Gives (a_stmt source) source before behind stmt wanted
        → Gives (a_block_item source) source before behind result (option_map tree.stated_item wanted) }
{
    let stmt = stmt?;
    Some(Part {
        tree: Item::Statement(stmt.tree.into_inner()),
        height: stmt.height,
        after: stmt.after,
    })
}

// A declaration as the first clause of a `for`.
pub(crate) fn declaring(declaration: Option<Part<Declaration>>) -> Option<Part<ForStart>>
    ensures { (source : Source) (before behind : List Declared) (at : ℕ) (wanted : Option tree.Declaration) → Gives (a_declaration source) source before behind declaration wanted
        → Gives (a_start source at) source before behind result (option_map tree.declares wanted) }
{
    let declaration = declaration?;
    Some(Part {
        tree: ForStart::Declaration(declaration.tree),
        height: declaration.height,
        after: declaration.after,
    })
}

// An expression that may be absent as the first clause of a `for`, which ends at a place.
pub(crate) fn evaluated(value: Part<Option<Expr>>, after: u32) -> Part<ForStart>
    ensures { (source : Source) (before behind : List Declared) (at : ℕ) (wanted : Option (Option tree.Expr)) → IsPart (an_optional source at) source before behind value wanted
        → after ≡ value.after + 1 → after ≤ length source.tokens
        → IsPart (a_start source at) source before behind result (Some (tree.evaluates (view.optional value.tree))) }
{
    Part {
        tree: ForStart::Expression(value.tree),
        height: value.height,
        after,
    }
}

// A declaration in file scope.
pub(crate) fn external_declaration(
    first: u32,
    declaration: Option<Part<Declaration>>,
) -> Option<Part<External>>
    ensures { (source : Source) (before behind : List Declared) (wanted : Option tree.Declaration) → Gives (a_declaration source) source before behind declaration wanted
        → Gives (an_external source) source before behind result (option_map (external_declared first) wanted) }
{
    let declaration = declaration?;
    let (height, after) = (declaration.height, declaration.after);
    let tree = External {
        span: Span { first, after },
        form: ExternalForm::Declaration(declaration.tree),
    };
    Some(Part {
        tree,
        height,
        after,
    })
}

// Specifiers, a declarator and a body.
pub(crate) fn external_definition(
    first: u32,
    specifiers: Part<Specifiers>,
    declarator: Part<Declarator>,
    body: Option<Part<Boxed<Stmt>>>,
) -> Option<Part<External>>
    ensures { (source : Source) (before names between behind inside last : List Declared) (read : Option tree.Specifiers) (seen : Option tree.Declarator) (wanted : Option tree.Stmt)
        → IsPart (the_specifiers source) source before names specifiers read → IsPart (a_declarator source) source names between declarator seen
        → behind ≡ named_declares source (types_meant source (view.specifiers specifiers.tree)) (view.declarator declarator.tree) ++ names
        → Gives (a_stmt source) source inside last body wanted
        → Gives (an_external source) source before behind result (and_then (definition_with first (view.specifiers specifiers.tree) (view.declarator declarator.tree)) wanted) }
{
    let body = body?;
    let height = above(specifiers.height, declarator.height.max(body.height));
    let after = body.after;
    let tree = External {
        span: Span { first, after },
        form: ExternalForm::Function(specifiers.tree, declarator.tree, body.tree.into_inner()),
    };
    checked(tree, height, after)
}

/// The same external declaration, boxed, so that what drops it is one call.
pub(crate) fn boxed_external(
    alloc: Global,
    external: Part<External>,
) -> Result<Part<Boxed<External>>, Memory>
    ensures { IfOk result (λ boxed. boxed ≡ record { tree = external.tree; height = external.height; after = external.after }) }
{
    Ok(Part {
        tree: Boxed::new(alloc, external.tree)?,
        height: external.height,
        after: external.after,
    })
}
