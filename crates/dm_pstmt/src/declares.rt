//! What trees that are read declare (6.2.1): enumerators also within type names, and the names of parameters.

ghost use Rattle.std.specs.Prelude.{◌≡◌, ◌++◌, map, OnOk, option_copied};
ghost use Rattle.dm_syn.specs.Statements.{own_parameters as meant_own, own_in_direct as meant_direct};
ghost use Rattle.dm_syn.specs.Scopes as scopes;
ghost use Rattle.dm_syn.specs.Views as view;
ghost use Rattle.dm_pexpr.specs.Parts.{source_of};
ghost use Rattle.dm_pstmt.specs.Steps.{seen_parameters};

use crate::declaration::declare_name;
use dm_pexpr::{Reader, Scope};
use dm_syn::{
    Declarator, Direct, EnumForm, EnumItem, Expr, ExprForm, MemberForm, Parameter, Specifier,
    StructForm, TypeName,
};
use dm_token::Memory;

/// Declares what parameters declare, each behind its declarator.
pub(crate) fn declare_parameters(
    reader: &Reader,
    scope: &mut Scope,
    parameters: &[Parameter],
) -> Result<(), Memory>
    ensures { OnOk result (scope.new ≡ scopes.parameters_declares (source_of reader.now) (view.parameters (map view.parameter parameters.now)) ++ scope.old) }
{
    for parameter in parameters {
        in_specifiers(reader, scope, parameter.specifiers.words.items())?;
        in_declarator(reader, scope, &parameter.declarator)?;
        declare_name(reader, scope, &parameter.declarator, false)?;
    }
    Ok(())
}

// Declares the enumerators within an expression, and likewise below.
#[tactic(auto, unfolding(dm_syn::specs::Scopes::expr_declares))]
#[cycle(declaring)]
fn in_expr(reader: &Reader, scope: &mut Scope, expr: &Expr) -> Result<(), Memory>
    ensures { OnOk result (scope.new ≡ scopes.expr_declares (source_of reader.now) (view.expr expr.now) ++ scope.old) }
{
    match &expr.form {
        ExprForm::Name | ExprForm::Constant | ExprForm::Literal => Ok(()),
        ExprForm::Paren(inner) => in_expr(reader, scope, inner.get()),
        ExprForm::Index(left, right) => {
            in_expr(reader, scope, left.get())?;
            in_expr(reader, scope, right.get())
        }
        ExprForm::Call(callee, arguments) => {
            in_expr(reader, scope, callee.get())?;
            in_exprs(reader, scope, arguments.items())
        }
        ExprForm::Member(left, _) | ExprForm::Arrow(left, _) => {
            in_expr(reader, scope, left.get())
        }
        ExprForm::Postfix(operand, _) | ExprForm::Prefix(_, operand) => {
            in_expr(reader, scope, operand.get())
        }
        ExprForm::SizeofExpr(operand) => in_expr(reader, scope, operand.get()),
        ExprForm::SizeofName(name) => in_type_name(reader, scope, name.get()),
        ExprForm::Cast(name, operand) => {
            in_type_name(reader, scope, name.get())?;
            in_expr(reader, scope, operand.get())
        }
        ExprForm::Binary(left, _, right) => {
            in_expr(reader, scope, left.get())?;
            in_expr(reader, scope, right.get())
        }
        ExprForm::Conditional(first, second, third) => {
            in_expr(reader, scope, first.get())?;
            in_expr(reader, scope, second.get())?;
            in_expr(reader, scope, third.get())
        }
        ExprForm::Assign(left, _, right) => {
            in_expr(reader, scope, left.get())?;
            in_expr(reader, scope, right.get())
        }
        ExprForm::Comma(parts) => in_exprs(reader, scope, parts.items()),
    }
}

#[tactic(auto, unfolding(dm_syn::specs::Scopes::exprs_declares))]
#[cycle(declaring)]
fn in_exprs(reader: &Reader, scope: &mut Scope, exprs: &[Expr]) -> Result<(), Memory>
    ensures { OnOk result (scope.new ≡ scopes.exprs_declares (source_of reader.now) (view.exprs (map view.expr exprs.now)) ++ scope.old) }
{
    for expr in exprs {
        in_expr(reader, scope, expr)?;
    }
    Ok(())
}

#[tactic(auto, unfolding(dm_syn::specs::Scopes::type_name_declares))]
#[cycle(declaring)]
fn in_type_name(reader: &Reader, scope: &mut Scope, name: &TypeName) -> Result<(), Memory>
    ensures { OnOk result (scope.new ≡ scopes.type_name_declares (source_of reader.now) (view.type_name name.now) ++ scope.old) }
{
    in_specifiers(reader, scope, name.specifiers.words.items())?;
    in_declarator(reader, scope, &name.declarator)
}

#[tactic(auto, unfolding(dm_syn::specs::Scopes::words_declares))]
#[cycle(declaring)]
fn in_specifiers(reader: &Reader, scope: &mut Scope, words: &[Specifier]) -> Result<(), Memory>
    ensures { OnOk result (scope.new ≡ scopes.words_declares (source_of reader.now) (view.words (map view.specifier words.now)) ++ scope.old) }
{
    for word in words {
        in_specifier(reader, scope, word)?;
    }
    Ok(())
}

#[tactic(auto, unfolding(dm_syn::specs::Scopes::specifier_declares))]
#[cycle(declaring)]
fn in_specifier(reader: &Reader, scope: &mut Scope, word: &Specifier) -> Result<(), Memory>
    ensures { OnOk result (scope.new ≡ scopes.specifier_declares (source_of reader.now) (view.specifier word.now) ++ scope.old) }
{
    match word {
        Specifier::Word(_) | Specifier::Typedef(_) => Ok(()),
        Specifier::Struct(form) => in_struct(reader, scope, form),
        Specifier::Enum(form) => in_enum(reader, scope, form),
    }
}

#[tactic(auto, unfolding(dm_syn::specs::Scopes::specifier_declares))]
#[cycle(declaring)]
fn in_struct(reader: &Reader, scope: &mut Scope, form: &StructForm) -> Result<(), Memory>
    ensures { OnOk result (scope.new ≡ scopes.specifier_declares (source_of reader.now) (view.struct_form form.now) ++ scope.old) }
{
    match &form.members {
        None => Ok(()),
        Some(members) => in_members(reader, scope, members.items()),
    }
}

#[tactic(auto, unfolding(dm_syn::specs::Scopes::members_declares))]
#[cycle(declaring)]
fn in_members(reader: &Reader, scope: &mut Scope, members: &[MemberForm]) -> Result<(), Memory>
    ensures { OnOk result (scope.new ≡ scopes.members_declares (source_of reader.now) (view.members (map view.member_form members.now)) ++ scope.old) }
{
    for member in members {
        in_member(reader, scope, member)?;
    }
    Ok(())
}

#[tactic(auto, unfolding(dm_syn::specs::Scopes::member_declares))]
#[cycle(declaring)]
fn in_member(reader: &Reader, scope: &mut Scope, member: &MemberForm) -> Result<(), Memory>
    ensures { OnOk result (scope.new ≡ scopes.member_declares (source_of reader.now) (view.member_form member.now) ++ scope.old) }
{
    in_specifiers(reader, scope, member.specifiers.words.items())?;
    in_declarators(reader, scope, member.declarators.items())
}

#[tactic(auto, unfolding(dm_syn::specs::Scopes::declarators_declares))]
#[cycle(declaring)]
fn in_declarators(
    reader: &Reader,
    scope: &mut Scope,
    declarators: &[Declarator],
) -> Result<(), Memory>
    ensures { OnOk result (scope.new ≡ scopes.declarators_declares (source_of reader.now) (view.declarators (map view.declarator declarators.now)) ++ scope.old) }
{
    for declarator in declarators {
        in_declarator(reader, scope, declarator)?;
    }
    Ok(())
}

#[tactic(auto, unfolding(dm_syn::specs::Scopes::specifier_declares))]
#[cycle(declaring)]
fn in_enum(reader: &Reader, scope: &mut Scope, form: &EnumForm) -> Result<(), Memory>
    ensures { OnOk result (scope.new ≡ scopes.specifier_declares (source_of reader.now) (view.enum_form form.now) ++ scope.old) }
{
    match &form.enumerators {
        None => Ok(()),
        Some(enumerators) => in_enumerators(reader, scope, enumerators.items()),
    }
}

#[tactic(auto, unfolding(dm_syn::specs::Scopes::enumerators_declares))]
#[cycle(declaring)]
fn in_enumerators(
    reader: &Reader,
    scope: &mut Scope,
    enumerators: &[EnumItem],
) -> Result<(), Memory>
    ensures { OnOk result (scope.new ≡ scopes.enumerators_declares (source_of reader.now) (view.enumerators (map view.enum_item enumerators.now)) ++ scope.old) }
{
    for enumerator in enumerators {
        in_enumerator(reader, scope, enumerator)?;
    }
    Ok(())
}

// An enumerator is declared behind its value.
#[tactic(auto, unfolding(dm_syn::specs::Scopes::enumerator_declares))]
#[cycle(declaring)]
fn in_enumerator(reader: &Reader, scope: &mut Scope, enumerator: &EnumItem) -> Result<(), Memory>
    ensures { OnOk result (scope.new ≡ scopes.enumerator_declares (source_of reader.now) (view.enum_item enumerator.now) ++ scope.old) }
{
    if let Some(value) = &enumerator.value {
        in_expr(reader, scope, value)?;
    }
    scope.declare(&reader.spelling(enumerator.name)?, false)
}

#[tactic(auto, unfolding(dm_syn::specs::Scopes::declarator_declares))]
#[cycle(declaring)]
fn in_declarator(reader: &Reader, scope: &mut Scope, declarator: &Declarator) -> Result<(), Memory>
    ensures { OnOk result (scope.new ≡ scopes.declarator_declares (source_of reader.now) (view.declarator declarator.now) ++ scope.old) }
{
    in_direct(reader, scope, &declarator.direct)
}

// The scope of the parameters within a declarator has ended.
#[tactic(auto, unfolding(dm_syn::specs::Scopes::direct_declares))]
#[cycle(declaring)]
fn in_direct(reader: &Reader, scope: &mut Scope, direct: &Direct) -> Result<(), Memory>
    ensures { OnOk result (scope.new ≡ scopes.direct_declares (source_of reader.now) (view.direct direct.now) ++ scope.old) }
{
    match direct {
        Direct::Absent | Direct::Name(_) => Ok(()),
        Direct::Paren(inner) => in_declarator(reader, scope, inner.get()),
        Direct::Array(inner, None) => in_direct(reader, scope, inner.get()),
        Direct::Array(inner, Some(length)) => {
            in_direct(reader, scope, inner.get())?;
            in_expr(reader, scope, length.get())
        }
        Direct::Function(inner, _) => in_direct(reader, scope, inner.get()),
    }
}

/// The parameters at the declared name, where the declarator is that of a function, parentheses apart (6.9.1p2).
#[cycle(owning)]
pub(crate) fn own_parameters<'a>(
    nearest: Option<&'a [Parameter]>,
    declarator: &'a Declarator,
) -> Option<&'a [Parameter]>
    ensures { seen_parameters (option_copied result) ≡ meant_own (seen_parameters (option_copied nearest.entry)) (view.declarator declarator.now) }
{
    let nearest = if declarator.pointers.is_empty() {
        nearest
    } else {
        None
    };
    own_in_direct(nearest, &declarator.direct)
}

// And likewise behind the pointers.
#[cycle(owning)]
fn own_in_direct<'a>(
    nearest: Option<&'a [Parameter]>,
    direct: &'a Direct,
) -> Option<&'a [Parameter]>
    ensures { seen_parameters (option_copied result) ≡ meant_direct (seen_parameters (option_copied nearest.entry)) (view.direct direct.now) }
{
    match direct {
        Direct::Absent | Direct::Name(_) => nearest,
        Direct::Paren(inner) => own_parameters(nearest, inner.get()),
        Direct::Array(inner, _) => own_in_direct(None, inner.get()),
        Direct::Function(inner, parameters) => own_in_direct(Some(parameters.items()), inner.get()),
    }
}
