//! The height of trees.

ghost use Rattle.std.specs.Prelude.{◌≡◌, ◌+◌, ◌<◌, ◌^◌, map, max, option_map, ℕ};
ghost use Rattle.dm_syn.specs.Capped.{capped};
ghost use Rattle.dm_syn.specs.Heights as height;
ghost use Rattle.dm_syn.specs.Views as view;

use crate::declaration::{
    Declaration, Declarator, Direct, EnumForm, EnumItem, InitDeclarator, InitForm, Initialiser,
    MemberForm, Parameter, Specifier, Specifiers, StructForm, TypeName,
};
use crate::declarators::is_absent;
use crate::expression::{Expr, ExprForm};
use crate::statement::{
    External, ExternalForm, ForStart, Item, Stmt, StmtForm, SwitchForm, SwitchItem,
};

// One more than the height of a part. Heights that don't fit count as the greatest number.
fn over(part: u32) -> u32
    ensures { (a : ℕ) → part ≡ capped a → result ≡ capped (a + 1) }
{
    part.saturating_add(1)
}

// The height of the highest of two parts.
fn highest(left: u32, right: u32) -> u32
    ensures value { result ≡ max left right }
    ensures capped_value { (a b : ℕ) → left ≡ capped a → right ≡ capped b → result ≡ capped (max a b) }
{
    left.max(right)
}

// One more than the height of the highest of two parts.
fn above(left: u32, right: u32) -> u32
    ensures { (a b : ℕ) → left ≡ capped a → right ≡ capped b → result ≡ capped (height.above a b) }
{
    over(highest(left, right))
}

#[tactic(auto, unfolding(crate::specs::Heights::expr_height))]
#[cycle(expression_heights)]
fn expr_height(expr: &Expr) -> u32
    ensures { result ≡ capped (height.expr_height (view.expr expr.now)) }
{
    match &expr.form {
        ExprForm::Name | ExprForm::Constant | ExprForm::Literal => 1,
        ExprForm::Paren(inner) => over(expr_height(inner.get())),
        ExprForm::Index(left, right) => above(expr_height(left.get()), expr_height(right.get())),
        ExprForm::Call(callee, arguments) => above(
            expr_height(callee.get()),
            exprs_height(arguments.items()),
        ),
        ExprForm::Member(left, _) => over(expr_height(left.get())),
        ExprForm::Arrow(left, _) => over(expr_height(left.get())),
        ExprForm::Postfix(left, _) => over(expr_height(left.get())),
        ExprForm::Prefix(_, operand) => over(expr_height(operand.get())),
        ExprForm::SizeofExpr(operand) => over(expr_height(operand.get())),
        ExprForm::SizeofName(name) => over(type_name_height(name.get())),
        ExprForm::Cast(name, operand) => above(
            type_name_height(name.get()),
            expr_height(operand.get()),
        ),
        ExprForm::Binary(left, _, right) => above(
            expr_height(left.get()),
            expr_height(right.get()),
        ),
        ExprForm::Conditional(first, second, third) => above(
            expr_height(first.get()),
            highest(expr_height(second.get()), expr_height(third.get())),
        ),
        ExprForm::Assign(left, _, right) => above(
            expr_height(left.get()),
            expr_height(right.get()),
        ),
        ExprForm::Comma(parts) => over(exprs_height(parts.items())),
    }
}

#[tactic(auto, unfolding(crate::specs::Heights::exprs_height))]
#[cycle(expression_heights)]
fn exprs_height(exprs: &[Expr]) -> u32
    ensures { result ≡ capped (height.exprs_height (view.exprs (map view.expr exprs.now))) }
{
    let mut greatest = 0;
    for expr in exprs {
        greatest = highest(greatest, expr_height(expr));
    }
    greatest
}

#[tactic(auto, unfolding(crate::specs::Heights::type_name_height))]
#[cycle(expression_heights)]
fn type_name_height(name: &TypeName) -> u32
    ensures { result ≡ capped (height.type_name_height (view.type_name name.now)) }
{
    let specifiers = specifiers_height(&name.specifiers);
    if is_absent(&name.declarator) {
        specifiers
    } else {
        above(specifiers, declarator_height(&name.declarator))
    }
}

#[tactic(auto, unfolding(crate::specs::Heights::specifiers_height, crate::specs::Heights::highest_word))]
#[cycle(expression_heights)]
fn specifiers_height(specifiers: &Specifiers) -> u32
    ensures { result ≡ capped (height.specifiers_height (view.specifiers specifiers.now)) }
{
    words_height(specifiers.words.items())
}

#[tactic(auto, unfolding(crate::specs::Heights::specifiers_height))]
#[cycle(expression_heights)]
fn words_height(words: &[Specifier]) -> u32
    ensures { result ≡ capped (height.words_node (view.words (map view.specifier words.now)) (height.highest_word (view.words (map view.specifier words.now)))) }
{
    words_node(words, highest_word(words))
}

// The height of specifiers of which the highest has that height.
fn words_node(words: &[Specifier], highest: u32) -> u32
    ensures { (a : ℕ) → highest ≡ capped a → result ≡ capped (height.words_node (view.words (map view.specifier words.now)) a) }
{
    match words {
        [] => 0,
        [_] => highest,
        [_, _, ..] => over(highest),
    }
}

#[tactic(auto, unfolding(crate::specs::Heights::highest_word))]
#[cycle(expression_heights)]
fn highest_word(words: &[Specifier]) -> u32
    ensures { result ≡ capped (height.highest_word (view.words (map view.specifier words.now))) }
{
    let mut greatest = 0;
    for word in words {
        greatest = highest(greatest, specifier_height(word));
    }
    greatest
}

#[tactic(auto, unfolding(crate::specs::Heights::specifier_height))]
#[cycle(expression_heights)]
fn specifier_height(specifier: &Specifier) -> u32
    ensures { result ≡ capped (height.specifier_height (view.specifier specifier.now)) }
{
    match specifier {
        Specifier::Word(_) | Specifier::Typedef(_) => 1,
        Specifier::Struct(form) => struct_height(form),
        Specifier::Enum(form) => enum_height(form),
    }
}

#[tactic(auto, unfolding(crate::specs::Heights::specifier_height))]
#[cycle(expression_heights)]
fn struct_height(form: &StructForm) -> u32
    ensures { result ≡ capped (height.specifier_height (view.struct_form form.now)) }
{
    match &form.members {
        None => 1,
        Some(members) => over(members_height(members.items())),
    }
}

#[tactic(auto, unfolding(crate::specs::Heights::members_height))]
#[cycle(expression_heights)]
fn members_height(members: &[MemberForm]) -> u32
    ensures { result ≡ capped (height.members_height (view.members (map view.member_form members.now))) }
{
    let mut greatest = 0;
    for member in members {
        greatest = highest(greatest, member_height(member));
    }
    greatest
}

#[tactic(auto, unfolding(crate::specs::Heights::member_height))]
#[cycle(expression_heights)]
fn member_height(member: &MemberForm) -> u32
    ensures { result ≡ capped (height.member_height (view.member_form member.now)) }
{
    above(
        specifiers_height(&member.specifiers),
        declarators_height(member.declarators.items()),
    )
}

#[tactic(auto, unfolding(crate::specs::Heights::declarators_height))]
#[cycle(expression_heights)]
fn declarators_height(declarators: &[Declarator]) -> u32
    ensures { result ≡ capped (height.declarators_height (view.declarators (map view.declarator declarators.now))) }
{
    let mut greatest = 0;
    for declarator in declarators {
        greatest = highest(greatest, declarator_height(declarator));
    }
    greatest
}

#[tactic(auto, unfolding(crate::specs::Heights::specifier_height))]
#[cycle(expression_heights)]
fn enum_height(form: &EnumForm) -> u32
    ensures { result ≡ capped (height.specifier_height (view.enum_form form.now)) }
{
    match &form.enumerators {
        None => 1,
        Some(enumerators) => over(enumerators_height(enumerators.items())),
    }
}

#[tactic(auto, unfolding(crate::specs::Heights::enumerators_height))]
#[cycle(expression_heights)]
fn enumerators_height(enumerators: &[EnumItem]) -> u32
    ensures { result ≡ capped (height.enumerators_height (view.enumerators (map view.enum_item enumerators.now))) }
{
    let mut greatest = 0;
    for enumerator in enumerators {
        greatest = highest(greatest, enumerator_height(enumerator));
    }
    greatest
}

#[tactic(auto, unfolding(crate::specs::Heights::enumerator_height))]
#[cycle(expression_heights)]
fn enumerator_height(enumerator: &EnumItem) -> u32
    ensures { result ≡ capped (height.enumerator_height (view.enum_item enumerator.now)) }
{
    match &enumerator.value {
        None => 1,
        Some(value) => above(1, expr_height(value)),
    }
}

#[tactic(auto, unfolding(crate::specs::Heights::declarator_height))]
#[cycle(expression_heights)]
fn declarator_height(declarator: &Declarator) -> u32
    ensures { result ≡ capped (height.declarator_height (view.declarator declarator.now)) }
{
    let direct = direct_height(&declarator.direct);
    match declarator.pointers.items() {
        [] => direct,
        [_, ..] => over(direct),
    }
}

#[tactic(auto, unfolding(crate::specs::Heights::direct_height))]
#[cycle(expression_heights)]
fn direct_height(direct: &Direct) -> u32
    ensures { result ≡ capped (height.direct_height (view.direct direct.now)) }
{
    match direct {
        Direct::Absent => 0,
        Direct::Name(_) => 1,
        Direct::Paren(inner) => over(declarator_height(inner.get())),
        Direct::Array(inner, None) => over(direct_height(inner.get())),
        Direct::Array(inner, Some(length)) => above(
            direct_height(inner.get()),
            expr_height(length.get()),
        ),
        Direct::Function(inner, parameters) => above(
            direct_height(inner.get()),
            parameters_height(parameters.items()),
        ),
    }
}

#[tactic(auto, unfolding(crate::specs::Heights::parameters_height))]
#[cycle(expression_heights)]
fn parameters_height(parameters: &[Parameter]) -> u32
    ensures { result ≡ capped (height.parameters_height (view.parameters (map view.parameter parameters.now))) }
{
    let mut greatest = 0;
    for parameter in parameters {
        greatest = highest(greatest, parameter_height(parameter));
    }
    greatest
}

#[tactic(auto, unfolding(crate::specs::Heights::parameter_height))]
#[cycle(expression_heights)]
fn parameter_height(parameter: &Parameter) -> u32
    ensures { result ≡ capped (height.parameter_height (view.parameter parameter.now)) }
{
    let specifiers = specifiers_height(&parameter.specifiers);
    if is_absent(&parameter.declarator) {
        specifiers
    } else {
        above(specifiers, declarator_height(&parameter.declarator))
    }
}

#[tactic(auto, unfolding(crate::specs::Heights::initialiser_height))]
#[cycle(initialisers_heights)]
fn initialiser_height(initialiser: &Initialiser) -> u32
    ensures { result ≡ capped (height.initialiser_height (view.initialiser initialiser.now)) }
{
    match &initialiser.form {
        InitForm::Value(value) => expr_height(value),
        InitForm::Braces { items, .. } => over(initialisers_height(items.items())),
    }
}

#[tactic(auto, unfolding(crate::specs::Heights::initialisers_height))]
#[cycle(initialisers_heights)]
fn initialisers_height(initialisers: &[Initialiser]) -> u32
    ensures { result ≡ capped (height.initialisers_height (view.initialisers (map view.initialiser initialisers.now))) }
{
    let mut greatest = 0;
    for initialiser in initialisers {
        greatest = highest(greatest, initialiser_height(initialiser));
    }
    greatest
}

#[tactic(auto, unfolding(crate::specs::Heights::item_height))]
fn item_height(item: &InitDeclarator) -> u32
    ensures { result ≡ capped (height.item_height (view.item item.now)) }
{
    let declarator = declarator_height(&item.declarator);
    match &item.initialiser {
        None => declarator,
        Some(initialiser) => highest(declarator, initialiser_height(initialiser)),
    }
}

#[tactic(auto, unfolding(crate::specs::Heights::items_height))]
fn items_height(items: &[InitDeclarator]) -> u32
    ensures { result ≡ capped (height.items_height ((map view.item items.now))) }
{
    let mut greatest = 0;
    for item in items {
        greatest = highest(greatest, item_height(item));
    }
    greatest
}

#[tactic(auto, unfolding(crate::specs::Heights::declaration_height))]
fn declaration_height(declaration: &Declaration) -> u32
    ensures { result ≡ capped (height.declaration_height (view.declaration declaration.now)) }
{
    above(
        specifiers_height(&declaration.specifiers),
        items_height(declaration.items.items()),
    )
}

#[tactic(auto, unfolding(crate::specs::Heights::expr_height))]
fn optional_height(expr: &Option<Expr>) -> u32
    ensures { result ≡ capped (height.optional_height (option_map view.expr expr.now)) }
{
    match expr {
        None => 0,
        Some(expr) => expr_height(expr),
    }
}

#[tactic(auto, unfolding(crate::specs::Heights::expr_height))]
fn start_height(start: &ForStart) -> u32
    ensures { result ≡ capped (height.start_height (view.start start.now)) }
{
    match start {
        ForStart::Declaration(declaration) => declaration_height(declaration),
        ForStart::Expression(expr) => optional_height(expr),
    }
}

#[tactic(auto, unfolding(crate::specs::Heights::stmt_height))]
#[cycle(statement_heights)]
fn stmt_height(stmt: &Stmt) -> u32
    ensures { result ≡ capped (height.stmt_height (view.stmt stmt.now)) }
{
    match &stmt.form {
        StmtForm::Block(items) => over(block_items_height(items.items())),
        StmtForm::Expression(expr) => over(optional_height(expr)),
        StmtForm::If(condition, body, None) => above(
            expr_height(condition),
            stmt_height(body.get()),
        ),
        StmtForm::If(condition, body, Some(other)) => above(
            expr_height(condition),
            highest(stmt_height(body.get()), stmt_height(other.get())),
        ),
        StmtForm::Switch(subject, items) => above(
            expr_height(subject),
            over(switch_items_height(items.items())),
        ),
        StmtForm::While(condition, body) => above(expr_height(condition), stmt_height(body.get())),
        StmtForm::Do(body, condition) => above(stmt_height(body.get()), expr_height(condition)),
        StmtForm::For(start, condition, step, body) => above(
            highest(start_height(start), optional_height(condition)),
            highest(optional_height(step), stmt_height(body.get())),
        ),
        StmtForm::Break | StmtForm::Continue => 1,
        StmtForm::Return(expr) => over(optional_height(expr)),
    }
}

#[tactic(auto, unfolding(crate::specs::Heights::block_items_height))]
#[cycle(statement_heights)]
fn block_items_height(items: &[Item]) -> u32
    ensures { result ≡ capped (height.block_items_height (view.block_items (map view.block_item items.now))) }
{
    let mut greatest = 0;
    for item in items {
        greatest = highest(greatest, block_item_height(item));
    }
    greatest
}

#[tactic(auto, unfolding(crate::specs::Heights::block_item_height, crate::specs::Heights::stmt_height))]
#[cycle(statement_heights)]
fn block_item_height(item: &Item) -> u32
    ensures { result ≡ capped (height.block_item_height (view.block_item item.now)) }
{
    match item {
        Item::Declaration(declaration) => declaration_height(declaration),
        Item::Statement(stmt) => stmt_height(stmt),
    }
}

#[tactic(auto, unfolding(crate::specs::Heights::switch_items_height))]
#[cycle(statement_heights)]
fn switch_items_height(items: &[SwitchItem]) -> u32
    ensures { result ≡ capped (height.switch_items_height (view.switch_items (map view.switch_item items.now))) }
{
    let mut greatest = 0;
    for item in items {
        greatest = highest(greatest, switch_item_height(item));
    }
    greatest
}

#[tactic(auto, unfolding(crate::specs::Heights::switch_item_height))]
#[cycle(statement_heights)]
fn switch_item_height(item: &SwitchItem) -> u32
    ensures { result ≡ capped (height.switch_item_height (view.switch_item item.now)) }
{
    match &item.form {
        SwitchForm::Case(label, inner) => above(
            expr_height(label),
            switch_item_height(inner.get()),
        ),
        SwitchForm::Default(inner) => over(switch_item_height(inner.get())),
        SwitchForm::Statement(stmt) => stmt_height(stmt),
    }
}

/// The height of an external declaration. A token alone has the height 1, and a node 1 more than the highest of its
/// parts; what has one part and no token of its own is no node. Where it doesn't fit it is the greatest number. It takes
/// no memory.
#[tactic(auto, unfolding(crate::specs::Heights::height_of))]
pub fn height(tree: &External) -> u32
    ensures { result ≡ capped (height.height_of (view.external tree.now)) }
{
    match &tree.form {
        ExternalForm::Declaration(declaration) => declaration_height(declaration),
        ExternalForm::Function(specifiers, declarator, body) => above(
            specifiers_height(specifiers),
            highest(declarator_height(declarator), stmt_height(body)),
        ),
    }
}
