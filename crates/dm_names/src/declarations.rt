//! Initialisers and declarations (6.7, 6.7.9).

ghost use Rattle.std.specs.Prelude.{◌≡◌, map, OnOk};
ghost use Rattle.dm_syn.specs.Views as view;
ghost use Rattle.dm_names.specs.Seen as seen;
ghost use Rattle.dm_names.specs.Walks.{source_in};

use crate::seen::Seen;
use crate::walk::Walk;
use dm_syn::{
    Declaration, Declarator, InitDeclarator, InitForm, Initialiser, Specifier, Specifiers,
    declarator_name,
};
use dm_token::Memory;

impl Walk<'_> {
    /// An initialiser (6.7.9).
    #[tactic(auto, unfolding(crate::specs::Seen::initialiser))]
    #[cycle(initialisers)]
    fn initialiser(&self, so_far: &mut Seen, initialiser: &Initialiser) -> Result<(), Memory>
        ensures { OnOk result (so_far.new ≡ seen.initialiser (source_in self.now) so_far.old (view.initialiser initialiser.now)) }
    {
        match &initialiser.form {
            InitForm::Value(value) => self.expr(so_far, value),
            InitForm::Braces { items, .. } => self.initialisers(so_far, items.items()),
        }
    }

    #[tactic(auto, unfolding(crate::specs::Seen::initialisers))]
    #[cycle(initialisers)]
    fn initialisers(&self, so_far: &mut Seen, initialisers: &[Initialiser]) -> Result<(), Memory>
        ensures { OnOk result (so_far.new ≡ seen.initialisers (source_in self.now) so_far.old (view.initialisers (map view.initialiser initialisers.now))) }
    {
        for initialiser in initialisers {
            self.initialiser(so_far, initialiser)?;
        }
        Ok(())
    }

    /// A declarator, behind which its name is declared (6.2.1p7).
    pub(crate) fn named(&self, so_far: &mut Seen, declarator: &Declarator) -> Result<(), Memory>
        ensures { OnOk result (so_far.new ≡ seen.named (source_in self.now) so_far.old (view.declarator declarator.now)) }
    {
        self.declarator(so_far, declarator)?;
        self.naming(so_far, declarator_name(declarator))
    }

    fn item(&self, so_far: &mut Seen, item: &InitDeclarator) -> Result<(), Memory>
        ensures { OnOk result (so_far.new ≡ seen.item (source_in self.now) so_far.old (view.item item.now)) }
    {
        self.named(so_far, &item.declarator)?;
        match &item.initialiser {
            None => Ok(()),
            Some(initialiser) => self.initialiser(so_far, initialiser),
        }
    }

    fn items(&self, so_far: &mut Seen, items: &[InitDeclarator]) -> Result<(), Memory>
        ensures { OnOk result (so_far.new ≡ seen.items (source_in self.now) so_far.old (map view.item items.now)) }
    {
        for item in items {
            self.item(so_far, item)?;
        }
        Ok(())
    }

    /// A declaration (6.7).
    pub(crate) fn declaration(
        &self,
        so_far: &mut Seen,
        declaration: &Declaration,
    ) -> Result<(), Memory>
        ensures { OnOk result (so_far.new ≡ seen.declaration (source_in self.now) so_far.old (view.declaration declaration.now)) }
    {
        let items = declaration.items.items();
        let alone = is_alone(&declaration.specifiers, items);
        self.specifiers(so_far, alone, &declaration.specifiers)?;
        self.items(so_far, items)
    }
}

/// Whether one specifier is all that a declaration has.
fn is_alone(specifiers: &Specifiers, items: &[InitDeclarator]) -> bool
    ensures { result ≡ seen.is_alone (view.specifiers specifiers.now) (map view.item items.now) }
{
    match items {
        [] => is_one_word(specifiers.words.items()),
        [_, ..] => false,
    }
}

fn is_one_word(words: &[Specifier]) -> bool
    ensures { result ≡ seen.is_one_word (view.words (map view.specifier words.now)) }
{
    match words {
        [] => false,
        [_] => true,
        [_, _, ..] => false,
    }
}
