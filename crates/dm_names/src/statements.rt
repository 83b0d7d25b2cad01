//! Statements (6.8). They hold one another no deeper than the height of a tree; lists are loops.

ghost use Rattle.std.specs.Prelude.{◌≡◌, map, option_map, OnOk};
ghost use Rattle.dm_syn.specs.Views as view;
ghost use Rattle.dm_names.specs.Parts as parts;
ghost use Rattle.dm_names.specs.Seen as seen;
ghost use Rattle.dm_names.specs.Walks.{source_in};

use crate::seen::Seen;
use crate::walk::{Walk, close};
use dm_syn::{Expr, ForStart, Item, Stmt, StmtForm, SwitchForm, SwitchItem};
use dm_token::{Boxed, Memory};

impl Walk<'_> {
    fn optional(&self, so_far: &mut Seen, value: &Option<Expr>) -> Result<(), Memory>
        ensures { OnOk result (so_far.new ≡ seen.optional (source_in self.now) so_far.old (option_map view.expr value.now)) }
    {
        match value {
            None => Ok(()),
            Some(value) => self.expr(so_far, value),
        }
    }

    fn start(&self, so_far: &mut Seen, start: &ForStart) -> Result<(), Memory>
        ensures { OnOk result (so_far.new ≡ seen.start (source_in self.now) so_far.old (view.start start.now)) }
    {
        match start {
            ForStart::Declaration(declaration) => self.declaration(so_far, declaration),
            ForStart::Expression(value) => self.optional(so_far, value),
        }
    }

    /// A statement (6.8).
    #[tactic(auto, unfolding(crate::specs::Seen::stmt))]
    #[cycle(statements)]
    pub(crate) fn stmt(&self, so_far: &mut Seen, stmt: &Stmt) -> Result<(), Memory>
        ensures { OnOk result (so_far.new ≡ seen.stmt (source_in self.now) so_far.old (view.stmt stmt.now)) }
    {
        match &stmt.form {
            StmtForm::Expression(value) | StmtForm::Return(value) => self.optional(so_far, value),
            StmtForm::Break | StmtForm::Continue => Ok(()),
            _ => self.scoped(so_far, stmt),
        }
    }

    /// A statement that is a scope (6.8.2, 6.8.4p3, 6.8.5p5).
    #[tactic(auto, unfolding(crate::specs::Seen::stmt))]
    #[cycle(statements)]
    fn scoped(&self, so_far: &mut Seen, stmt: &Stmt) -> Result<(), Memory>
        ensures { OnOk result (so_far.new ≡ seen.in_block so_far.old (λ inside. parts.stmt_inside (source_in self.now) inside (view.stmt stmt.now))) }
    {
        self.open(so_far)?;
        self.inside(so_far, stmt)?;
        close(so_far);
        Ok(())
    }

    /// A statement, inside its own scope.
    #[tactic(auto, unfolding(crate::specs::Seen::stmt))]
    #[cycle(statements)]
    fn inside(&self, so_far: &mut Seen, stmt: &Stmt) -> Result<(), Memory>
        ensures { OnOk result (so_far.new ≡ parts.stmt_inside (source_in self.now) so_far.old (view.stmt stmt.now)) }
    {
        match &stmt.form {
            StmtForm::Block(items) => self.block_items(so_far, items.items()),
            StmtForm::If(condition, body, other) => {
                self.expr(so_far, condition)?;
                self.part(so_far, body.get())?;
                self.other(so_far, other)
            }
            StmtForm::Switch(subject, items) => {
                self.expr(so_far, subject)?;
                self.open(so_far)?;
                self.switch_items(so_far, items.items())?;
                close(so_far);
                Ok(())
            }
            StmtForm::While(condition, body) => {
                self.expr(so_far, condition)?;
                self.part(so_far, body.get())
            }
            StmtForm::Do(body, condition) => {
                self.part(so_far, body.get())?;
                self.expr(so_far, condition)
            }
            StmtForm::For(start, condition, step, body) => {
                self.start(so_far, start)?;
                self.optional(so_far, condition)?;
                self.optional(so_far, step)?;
                self.part(so_far, body.get())
            }
            _ => Ok(()),
        }
    }

    /// A statement that is part of another one, and a scope.
    #[tactic(auto, unfolding(crate::specs::Seen::stmt))]
    #[cycle(statements)]
    fn part(&self, so_far: &mut Seen, stmt: &Stmt) -> Result<(), Memory>
        ensures { OnOk result (so_far.new ≡ parts.part (source_in self.now) so_far.old (view.stmt stmt.now)) }
    {
        self.open(so_far)?;
        self.stmt(so_far, stmt)?;
        close(so_far);
        Ok(())
    }

    /// The statement behind `else`.
    #[tactic(auto, unfolding(crate::specs::Seen::stmt))]
    #[cycle(statements)]
    fn other(&self, so_far: &mut Seen, other: &Option<Boxed<Stmt>>) -> Result<(), Memory>
        ensures { OnOk result (so_far.new ≡ parts.other_part (source_in self.now) so_far.old (option_map view.stmt other.now)) }
    {
        match other {
            None => Ok(()),
            Some(stmt) => self.part(so_far, stmt.get()),
        }
    }

    #[tactic(auto, unfolding(crate::specs::Seen::block_items))]
    #[cycle(statements)]
    pub(crate) fn block_items(&self, so_far: &mut Seen, items: &[Item]) -> Result<(), Memory>
        ensures { OnOk result (so_far.new ≡ seen.block_items (source_in self.now) so_far.old (view.block_items (map view.block_item items.now))) }
    {
        for item in items {
            self.block_item(so_far, item)?;
        }
        Ok(())
    }

    #[tactic(auto, unfolding(crate::specs::Seen::block_item))]
    #[cycle(statements)]
    fn block_item(&self, so_far: &mut Seen, item: &Item) -> Result<(), Memory>
        ensures { OnOk result (so_far.new ≡ seen.block_item (source_in self.now) so_far.old (view.block_item item.now)) }
    {
        match item {
            Item::Declaration(declaration) => self.declaration(so_far, declaration),
            Item::Statement(stmt) => self.stmt(so_far, stmt),
        }
    }

    #[tactic(auto, unfolding(crate::specs::Seen::switch_items))]
    #[cycle(statements)]
    fn switch_items(&self, so_far: &mut Seen, items: &[SwitchItem]) -> Result<(), Memory>
        ensures { OnOk result (so_far.new ≡ seen.switch_items (source_in self.now) so_far.old (view.switch_items (map view.switch_item items.now))) }
    {
        for item in items {
            self.switch_item(so_far, item)?;
        }
        Ok(())
    }

    /// A statement with its labels (6.8.1).
    #[tactic(auto, unfolding(crate::specs::Seen::switch_item))]
    #[cycle(statements)]
    fn switch_item(&self, so_far: &mut Seen, item: &SwitchItem) -> Result<(), Memory>
        ensures { OnOk result (so_far.new ≡ seen.switch_item (source_in self.now) so_far.old (view.switch_item item.now)) }
    {
        match &item.form {
            SwitchForm::Case(label, inner) => {
                self.expr(so_far, label)?;
                self.switch_item(so_far, inner.get())
            }
            SwitchForm::Default(inner) => self.switch_item(so_far, inner.get()),
            SwitchForm::Statement(stmt) => self.stmt(so_far, stmt),
        }
    }
}
