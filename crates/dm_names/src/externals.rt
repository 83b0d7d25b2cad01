//! External declarations (6.9).

ghost use Rattle.std.specs.Prelude.{◌≡◌, map, OnOk, None};
ghost use Rattle.dm_syn.specs.Views as view;
ghost use Rattle.dm_names.specs.Seen as seen;
ghost use Rattle.dm_names.specs.Walks.{source_in};

use crate::nest::Scope;
use crate::seen::Seen;
use crate::walk::{Walk, close};
use dm_syn::{Declarator, External, ExternalForm, Item, Specifiers, Stmt, StmtForm};
use dm_token::Memory;

impl Walk<'_> {
    /// An external declaration.
    pub(crate) fn external(&self, so_far: &mut Seen, external: &External) -> Result<(), Memory>
        ensures { OnOk result (so_far.new ≡ seen.external (source_in self.now) so_far.old (view.external external.now)) }
    {
        match &external.form {
            ExternalForm::Declaration(declaration) => self.declaration(so_far, declaration),
            ExternalForm::Function(specifiers, declarator, body) => {
                self.heading(so_far, specifiers, declarator)?;
                self.body(so_far, body)
            }
        }
    }

    /// What stands before the body of a function definition (6.9.1).
    fn heading(
        &self,
        so_far: &mut Seen,
        specifiers: &Specifiers,
        declarator: &Declarator,
    ) -> Result<(), Memory>
        ensures { OnOk result (so_far.new ≡ seen.heading (source_in self.now) so_far.old (view.specifiers specifiers.now) (view.declarator declarator.now)) }
    {
        self.specifiers(so_far, false, specifiers)?;
        so_far.own = None;
        self.named(so_far, declarator)
    }

    /// The body, which is one scope with the parameters (6.2.1p4).
    fn body(&self, so_far: &mut Seen, body: &Stmt) -> Result<(), Memory>
        ensures { OnOk result (so_far.new ≡ seen.body (source_in self.now) so_far.old (view.stmt body.now)) }
    {
        match &body.form {
            StmtForm::Block(items) => self.own_block(so_far, items.items()),
            _ => self.stmt(so_far, body),
        }
    }

    fn own_block(&self, so_far: &mut Seen, items: &[Item]) -> Result<(), Memory>
        ensures { OnOk result (so_far.new ≡ seen.own_block (source_in self.now) so_far.old (view.block_items (map view.block_item items.now))) }
    {
        let scope = self.own_scope(so_far);
        so_far.scopes.enter(scope)?;
        self.block_items(so_far, items)?;
        close(so_far);
        Ok(())
    }

    /// The scope of the parameters, which is kept no longer.
    fn own_scope(&self, so_far: &mut Seen) -> Scope
        ensures scope { result ≡ seen.own_scope so_far.old.own }
        ensures kept { so_far.new ≡ seen.without_own so_far.old }
    {
        match so_far.own.take() {
            Some(scope) => scope,
            None => Scope::new(self.alloc),
        }
    }
}
