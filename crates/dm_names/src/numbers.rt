//! The numbers of the entries that the declarators of a typed unit declare, in the order of the source (6.7, 6.9). Trees hold one
//! another no deeper than their height; expressions are not looked into.

ghost use Rattle.std.specs.Prelude.{◌≡◌, ◌++◌, [], map, option_map, OnOk, IfOk};
ghost use Rattle.dm_tree.specs.Trees.{trees};
ghost use Rattle.dm_tree.specs.Views.{declarators_of, if_there, view, view_of_external, view_of_form, view_of_local};
ghost use Rattle.dm_names.specs.Declarations as declarations;

use dm_token::{Boxed, List, Memory};
use dm_tree::{Core, CoreExternal, CoreExternalForm, Form, Local};
use dm_type::Types;
use std::alloc::Global;

/// The declarators of a unit whose types have their numbers in a table.
#[derive(Drop)]
pub(crate) struct Declarators<'a> {
    pub types: &'a Types,
}

impl Declarators<'_> {
    /// The numbers of those of all external declarations.
    pub(crate) fn numbers(
        &self,
        alloc: Global,
        externals: &[CoreExternal],
    ) -> Result<List<u32>, Memory>
        ensures { IfOk result (λ all. all ≡ declarations.numbers_declared [] (map (view_of_external self.now.types.now) externals.now)) }
    {
        let mut all = List::new(alloc);
        for external in externals {
            self.in_form(&mut all, &external.form)?;
        }
        Ok(all)
    }

    fn in_form(&self, all: &mut List<u32>, form: &CoreExternalForm) -> Result<(), Memory>
        ensures { OnOk result (all.new ≡ declarations.numbers_in_form all.old (view_of_form self.now.types.now form.now)) }
    {
        match form {
            CoreExternalForm::Declaration(locals) => self.here(all, locals.items()),
            CoreExternalForm::Function { function, body, .. } => {
                all.push(*function)?;
                self.inside(all, body)
            }
        }
    }

    /// Those of one declaration.
    fn here(&self, all: &mut List<u32>, locals: &[Local]) -> Result<(), Memory>
        ensures { OnOk result (all.new ≡ all.old ++ declarations.numbers_of (declarators_of (map (view_of_local self.now.types.now) locals.now))) }
    {
        for local in locals {
            all.push(local.declared)?;
        }
        Ok(())
    }

    /// Those of the declarations in a statement.
    #[cycle(numbers)]
    fn inside(&self, all: &mut List<u32>, tree: &Core) -> Result<(), Memory>
        ensures { OnOk result (all.new ≡ declarations.numbers_in all.old (view self.now.types.now tree.now)) }
    {
        match &tree.form {
            Form::Declare(_, locals) => self.here(all, locals.items()),
            Form::Block(items) => self.inside_all(all, items.items()),
            Form::If(condition, body, other) => {
                self.inside(all, condition.get())?;
                self.inside(all, body.get())?;
                self.inside_part(all, other)
            }
            Form::Switch(subject, items) => {
                self.inside(all, subject.get())?;
                self.inside_all(all, items.items())
            }
            Form::Case(value, body) => {
                self.inside(all, value.get())?;
                self.inside(all, body.get())
            }
            Form::Default(body) => self.inside(all, body.get()),
            Form::While(condition, body) => {
                self.inside(all, condition.get())?;
                self.inside(all, body.get())
            }
            Form::Do(body, condition) => {
                self.inside(all, body.get())?;
                self.inside(all, condition.get())
            }
            Form::For(start, condition, step, body) => {
                self.inside_part(all, start)?;
                self.inside_part(all, condition)?;
                self.inside_part(all, step)?;
                self.inside(all, body.get())
            }
            _ => Ok(()),
        }
    }

    #[cycle(numbers)]
    fn inside_all(&self, all: &mut List<u32>, items: &[Core]) -> Result<(), Memory>
        ensures { OnOk result (all.new ≡ declarations.numbers_in_all all.old (trees (map (view self.now.types.now) items.now))) }
    {
        for item in items {
            self.inside(all, item)?;
        }
        Ok(())
    }

    /// Those of a part that may be absent.
    #[cycle(numbers)]
    fn inside_part(&self, all: &mut List<u32>, part: &Option<Boxed<Core>>) -> Result<(), Memory>
        ensures { OnOk result (all.new ≡ declarations.numbers_in_all all.old (trees (if_there (option_map (view self.now.types.now) part.now)))) }
    {
        match part {
            None => Ok(()),
            Some(tree) => self.inside(all, tree.get()),
        }
    }
}
