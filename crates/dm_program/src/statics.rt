//! The objects of static storage duration that a unit defines: those of its declarations, and those of the declarations in its
//! functions, at any depth (6.2.4p3).

ghost use Rattle.std.specs.Prelude.{IfOk, OnOk, map, option_map};
ghost use Rattle.dm_type.specs.Tables.{Table};
ghost use Rattle.dm_tree.specs.TypeNumbers.{IsTypedUnit, are_known, are_known_in_form, all_pass, form_has_known, passes_if_there};
ghost use Rattle.dm_tree.specs.Views.{if_there, opened_form, view, view_of_form};
ghost use Rattle.dm_meaning.specs.Units.{locals_in, locals_of};
ghost use Rattle.dm_program.specs.Gathering.{Gathers, form_locals, locals_in_list};
ghost use Rattle.dm_program.specs.Statics.{AreStatics};

use crate::fixed::Static;
use crate::gathering::Gathering;
use dm_token::{Boxed, Memory};
use dm_tree::{Core, CoreExternal, CoreExternalForm, CoreUnit, Form};
use std::alloc::Global;

/// The objects of a unit, in order. In linear time.
pub(crate) fn statics<'a>(alloc: Global, unit: &'a CoreUnit) -> Result<Vec<Static<'a>>, Memory>
    ensures { IfOk result (λ made. (table : Table) → IsTypedUnit table unit.now → AreStatics (record { table = table; unit = unit.now }) made.items) }
{
    let mut gathering = Gathering::new(alloc, unit.declared.items())?;
    let mut left = unit.externals.items();
    while let Some((external, rest)) = left.split_first() {
        gathering.external(external)?;
        left = rest;
    }
    let Gathering {
        declared: _,
        statics,
        places: _,
    } = gathering;
    Ok(statics)
}

impl<'a> Gathering<'a> {
    /// Those of an external declaration.
    fn external(&mut self, external: &'a CoreExternal) -> Result<(), Memory>
        ensures { OnOk result (Gathers self.old (λ n. form_has_known n external.now.form) (λ table. locals_of (view_of_form table external.now.form)) self.new) }
    {
        match &external.form {
            CoreExternalForm::Declaration(locals) => {
                self.locals(locals.items())?;
                Ok(())
            }
            CoreExternalForm::Function {
                function: _,
                parameters: _,
                body,
            } => {
                self.tree(body)?;
                Ok(())
            }
        }
    }

    /// Those of the declarations in a tree.
    #[cycle(walk)]
    fn tree(&mut self, tree: &'a Core) -> Result<(), Memory>
        ensures { OnOk result (Gathers self.old (λ n. are_known n tree.now) (λ table. locals_in (view table tree.now)) self.new) }
    {
        self.form(&tree.form)
    }

    /// Those of a form: expressions have none.
    #[cycle(walk)]
    fn form(&mut self, form: &'a Form) -> Result<(), Memory>
        ensures { OnOk result (Gathers self.old (λ n. are_known_in_form n form.now) (λ table. form_locals (opened_form table form.now)) self.new) }
    {
        match form {
            Form::Declare(_, locals) => self.locals(locals.items()),
            Form::Block(items) => self.trees(items.items()),
            Form::Full(a) => self.tree(a.get()),
            Form::Default(a) => self.tree(a.get()),
            Form::Return(a) => self.optional(a),
            Form::Switch(a, items) => {
                self.tree(a.get())?;
                self.trees(items.items())
            }
            Form::Case(a, b) => {
                self.tree(a.get())?;
                self.tree(b.get())
            }
            Form::While(a, b) => {
                self.tree(a.get())?;
                self.tree(b.get())
            }
            Form::Do(a, b) => {
                self.tree(a.get())?;
                self.tree(b.get())
            }
            Form::If(a, b, c) => {
                self.tree(a.get())?;
                self.tree(b.get())?;
                self.optional(c)
            }
            Form::For(a, b, c, body) => {
                self.optional(a)?;
                self.optional(b)?;
                self.optional(c)?;
                self.tree(body.get())
            }
            _ => Ok(()),
        }
    }

    /// Those of a tree that may be absent.
    #[cycle(walk)]
    fn optional(&mut self, tree: &'a Option<Boxed<Core>>) -> Result<(), Memory>
        ensures { OnOk result (Gathers self.old (λ n. passes_if_there (option_map (are_known n) tree.now)) (λ table. locals_in_list (if_there (option_map (view table) tree.now))) self.new) }
    {
        match tree {
            Some(tree) => self.tree(tree.get()),
            None => Ok(()),
        }
    }

    /// Those of several trees, one after the other.
    #[cycle(walk)]
    fn trees(&mut self, trees: &'a [Core]) -> Result<(), Memory>
        ensures { OnOk result (Gathers self.old (λ n. all_pass (map (are_known n) trees.now)) (λ table. locals_in_list (map (view table) trees.now)) self.new) }
    {
        let mut left = trees;
        while let Some((tree, rest)) = left.split_first() {
            self.tree(tree)?;
            left = rest;
        }
        Ok(())
    }
}
