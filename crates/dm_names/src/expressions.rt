//! Expressions, type names, specifiers and declarators (6.5, 6.7.2, 6.7.6, 6.7.7). They hold one another no deeper than the
//! height of a tree; lists are loops.

ghost use Rattle.std.specs.Prelude.{◌≡◌, Bool, map, OnOk};
ghost use Rattle.dm_syn.specs.Views as view;
ghost use Rattle.dm_names.specs.Seen as seen;
ghost use Rattle.dm_names.specs.Walks.{source_in};

use crate::seen::Seen;
use crate::walk::{Walk, close_list};
use dm_syn::{
    Declarator, Direct, EnumForm, EnumItem, Expr, ExprForm, MemberForm, Parameter, Specifier,
    Specifiers, StructForm, TypeName, declarator_name,
};
use dm_token::Memory;

impl Walk<'_> {
    /// An expression (6.5).
    #[tactic(auto, unfolding(crate::specs::Seen::expr))]
    #[cycle(expressions)]
    pub(crate) fn expr(&self, so_far: &mut Seen, expr: &Expr) -> Result<(), Memory>
        ensures { OnOk result (so_far.new ≡ seen.expr (source_in self.now) so_far.old (view.expr expr.now)) }
    {
        match &expr.form {
            ExprForm::Name => self.mentioned(so_far, false, expr.span.first),
            ExprForm::Constant | ExprForm::Literal => Ok(()),
            ExprForm::Paren(inner) => self.expr(so_far, inner.get()),
            ExprForm::Index(left, right) => {
                self.expr(so_far, left.get())?;
                self.expr(so_far, right.get())
            }
            ExprForm::Call(callee, arguments) => {
                self.expr(so_far, callee.get())?;
                self.exprs(so_far, arguments.items())
            }
            ExprForm::Member(left, _) => self.expr(so_far, left.get()),
            ExprForm::Arrow(left, _) => self.expr(so_far, left.get()),
            ExprForm::Postfix(left, _) => self.expr(so_far, left.get()),
            ExprForm::Prefix(_, operand) => self.expr(so_far, operand.get()),
            ExprForm::SizeofExpr(operand) => self.expr(so_far, operand.get()),
            ExprForm::SizeofName(name) => self.type_name(so_far, name.get()),
            ExprForm::Cast(name, operand) => {
                self.type_name(so_far, name.get())?;
                self.expr(so_far, operand.get())
            }
            ExprForm::Binary(left, _, right) => {
                self.expr(so_far, left.get())?;
                self.expr(so_far, right.get())
            }
            ExprForm::Conditional(first, second, third) => {
                self.expr(so_far, first.get())?;
                self.expr(so_far, second.get())?;
                self.expr(so_far, third.get())
            }
            ExprForm::Assign(left, _, right) => {
                self.expr(so_far, left.get())?;
                self.expr(so_far, right.get())
            }
            ExprForm::Comma(parts) => self.exprs(so_far, parts.items()),
        }
    }

    #[tactic(auto, unfolding(crate::specs::Seen::exprs))]
    #[cycle(expressions)]
    fn exprs(&self, so_far: &mut Seen, exprs: &[Expr]) -> Result<(), Memory>
        ensures { OnOk result (so_far.new ≡ seen.exprs (source_in self.now) so_far.old (view.exprs (map view.expr exprs.now))) }
    {
        for expr in exprs {
            self.expr(so_far, expr)?;
        }
        Ok(())
    }

    /// A type name (6.7.7).
    #[tactic(auto, unfolding(crate::specs::Seen::type_name))]
    #[cycle(expressions)]
    fn type_name(&self, so_far: &mut Seen, name: &TypeName) -> Result<(), Memory>
        ensures { OnOk result (so_far.new ≡ seen.type_name (source_in self.now) so_far.old (view.type_name name.now)) }
    {
        self.specifiers(so_far, false, &name.specifiers)?;
        self.declarator(so_far, &name.declarator)
    }

    /// Specifiers, which may be all that a declaration has (6.7).
    #[tactic(auto, unfolding(crate::specs::Seen::specifiers))]
    #[cycle(expressions)]
    pub(crate) fn specifiers(
        &self,
        so_far: &mut Seen,
        alone: bool,
        specifiers: &Specifiers,
    ) -> Result<(), Memory>
        ensures { OnOk result (so_far.new ≡ seen.specifiers (source_in self.now) alone so_far.old (view.specifiers specifiers.now)) }
    {
        self.words(so_far, alone, specifiers.words.items())
    }

    #[tactic(auto, unfolding(crate::specs::Seen::words))]
    #[cycle(expressions)]
    fn words(&self, so_far: &mut Seen, alone: bool, words: &[Specifier]) -> Result<(), Memory>
        ensures { OnOk result (so_far.new ≡ seen.words (source_in self.now) alone so_far.old (view.words (map view.specifier words.now))) }
    {
        for word in words {
            self.specifier(so_far, alone, word)?;
        }
        Ok(())
    }

    #[tactic(auto, unfolding(crate::specs::Seen::specifier))]
    #[cycle(expressions)]
    fn specifier(&self, so_far: &mut Seen, alone: bool, specifier: &Specifier) -> Result<(), Memory>
        ensures { OnOk result (so_far.new ≡ seen.specifier (source_in self.now) alone so_far.old (view.specifier specifier.now)) }
    {
        match specifier {
            Specifier::Word(_) => Ok(()),
            Specifier::Typedef(at) => self.mentioned(so_far, false, *at),
            Specifier::Struct(form) => self.struct_form(so_far, alone, form),
            Specifier::Enum(form) => self.enum_form(so_far, form),
        }
    }

    /// `struct` (6.7.2.1).
    #[tactic(auto, unfolding(crate::specs::Seen::specifier))]
    #[cycle(expressions)]
    fn struct_form(&self, so_far: &mut Seen, alone: bool, form: &StructForm) -> Result<(), Memory>
        ensures { OnOk result (so_far.new ≡ seen.specifier (source_in self.now) alone so_far.old (view.struct_form form.now)) }
    {
        match &form.members {
            None => self.struct_named(so_far, alone, form.tag),
            Some(members) => {
                self.struct_named(so_far, true, form.tag)?;
                self.members(so_far, members.items())
            }
        }
    }

    #[tactic(auto, unfolding(crate::specs::Seen::members))]
    #[cycle(expressions)]
    fn members(&self, so_far: &mut Seen, members: &[MemberForm]) -> Result<(), Memory>
        ensures { OnOk result (so_far.new ≡ seen.members (source_in self.now) so_far.old (view.members (map view.member_form members.now))) }
    {
        for member in members {
            self.member(so_far, member)?;
        }
        Ok(())
    }

    #[tactic(auto, unfolding(crate::specs::Seen::member))]
    #[cycle(expressions)]
    fn member(&self, so_far: &mut Seen, member: &MemberForm) -> Result<(), Memory>
        ensures { OnOk result (so_far.new ≡ seen.member (source_in self.now) so_far.old (view.member_form member.now)) }
    {
        self.specifiers(so_far, false, &member.specifiers)?;
        self.declarators(so_far, member.declarators.items())
    }

    #[tactic(auto, unfolding(crate::specs::Seen::declarators))]
    #[cycle(expressions)]
    fn declarators(&self, so_far: &mut Seen, declarators: &[Declarator]) -> Result<(), Memory>
        ensures { OnOk result (so_far.new ≡ seen.declarators (source_in self.now) so_far.old (view.declarators (map view.declarator declarators.now))) }
    {
        for declarator in declarators {
            self.declarator(so_far, declarator)?;
        }
        Ok(())
    }

    /// `enum` (6.7.2.2).
    #[tactic(auto, unfolding(crate::specs::Seen::specifier))]
    #[cycle(expressions)]
    fn enum_form(&self, so_far: &mut Seen, form: &EnumForm) -> Result<(), Memory>
        ensures { (alone : Bool) → OnOk result (so_far.new ≡ seen.specifier (source_in self.now) alone so_far.old (view.enum_form form.now)) }
    {
        match &form.enumerators {
            None => self.enum_named(so_far, form.tag),
            Some(enumerators) => {
                self.enum_begun(so_far, form.tag)?;
                self.enumerators(so_far, enumerators.items())
            }
        }
    }

    #[tactic(auto, unfolding(crate::specs::Seen::enumerators))]
    #[cycle(expressions)]
    fn enumerators(&self, so_far: &mut Seen, enumerators: &[EnumItem]) -> Result<(), Memory>
        ensures { OnOk result (so_far.new ≡ seen.enumerators (source_in self.now) so_far.old (view.enumerators (map view.enum_item enumerators.now))) }
    {
        for enumerator in enumerators {
            self.enumerator(so_far, enumerator)?;
        }
        Ok(())
    }

    /// An enumerator, which counts from behind its value on (6.2.1p7).
    #[tactic(auto, unfolding(crate::specs::Seen::enumerator))]
    #[cycle(expressions)]
    fn enumerator(&self, so_far: &mut Seen, enumerator: &EnumItem) -> Result<(), Memory>
        ensures { OnOk result (so_far.new ≡ seen.enumerator (source_in self.now) so_far.old (view.enum_item enumerator.now)) }
    {
        match &enumerator.value {
            None => self.declaring_new(so_far, false, enumerator.name),
            Some(value) => {
                self.expr(so_far, value)?;
                self.declaring_new(so_far, false, enumerator.name)
            }
        }
    }

    /// What stands in a declarator, its own name apart (6.7.6).
    #[tactic(auto, unfolding(crate::specs::Seen::declarator))]
    #[cycle(expressions)]
    pub(crate) fn declarator(
        &self,
        so_far: &mut Seen,
        declarator: &Declarator,
    ) -> Result<(), Memory>
        ensures { OnOk result (so_far.new ≡ seen.declarator (source_in self.now) so_far.old (view.declarator declarator.now)) }
    {
        self.direct(so_far, &declarator.direct)
    }

    #[tactic(auto, unfolding(crate::specs::Seen::direct))]
    #[cycle(expressions)]
    fn direct(&self, so_far: &mut Seen, direct: &Direct) -> Result<(), Memory>
        ensures { OnOk result (so_far.new ≡ seen.direct (source_in self.now) so_far.old (view.direct direct.now)) }
    {
        match direct {
            Direct::Absent | Direct::Name(_) => Ok(()),
            Direct::Paren(inner) => self.declarator(so_far, inner.get()),
            Direct::Array(inner, None) => self.direct(so_far, inner.get()),
            Direct::Array(inner, Some(length)) => {
                self.direct(so_far, inner.get())?;
                self.expr(so_far, length.get())
            }
            Direct::Function(inner, parameters) => {
                self.direct(so_far, inner.get())?;
                self.list(so_far, parameters.items())
            }
        }
    }

    /// A parameter list, which is a scope (6.2.1p4).
    #[tactic(auto, unfolding(crate::specs::Seen::parameters))]
    #[cycle(expressions)]
    fn list(&self, so_far: &mut Seen, parameters: &[Parameter]) -> Result<(), Memory>
        ensures { OnOk result (so_far.new ≡ seen.in_list so_far.old (λ inside. seen.parameters (source_in self.now) inside (view.parameters (map view.parameter parameters.now)))) }
    {
        let before = so_far.own.take();
        self.open(so_far)?;
        self.parameters(so_far, parameters)?;
        close_list(so_far, before);
        Ok(())
    }

    #[tactic(auto, unfolding(crate::specs::Seen::parameters))]
    #[cycle(expressions)]
    fn parameters(&self, so_far: &mut Seen, parameters: &[Parameter]) -> Result<(), Memory>
        ensures { OnOk result (so_far.new ≡ seen.parameters (source_in self.now) so_far.old (view.parameters (map view.parameter parameters.now))) }
    {
        for parameter in parameters {
            self.parameter(so_far, parameter)?;
        }
        Ok(())
    }

    #[tactic(auto, unfolding(crate::specs::Seen::parameter))]
    #[cycle(expressions)]
    fn parameter(&self, so_far: &mut Seen, parameter: &Parameter) -> Result<(), Memory>
        ensures { OnOk result (so_far.new ≡ seen.parameter (source_in self.now) so_far.old (view.parameter parameter.now)) }
    {
        self.specifiers(so_far, false, &parameter.specifiers)?;
        self.declarator(so_far, &parameter.declarator)?;
        self.naming_new(so_far, declarator_name(&parameter.declarator))
    }
}
