//! What the typed unit and its names tell of a reading.

ghost use Rattle.std.specs.Prelude.{◌≡◌, length, option_map, IfOk, IfSome, IsTrue, List as Sequence};
ghost use Rattle.dm_type.specs.CTypes as ctypes;
ghost use Rattle.dm_type.specs.Tables.{Has, IsId, type_of};
ghost use Rattle.dm_tree.specs.TypeNumbers.{are_known};
ghost use Rattle.dm_tree.specs.Trees.{kind_of};
ghost use Rattle.dm_sites.specs.Seen.{seen};
ghost use Rattle.dm_sites.specs.Sites.{Site as SeenSite};
ghost use Rattle.dm_meanings.specs.Captures as captures;
ghost use Rattle.dm_meanings.specs.Types as types;

use crate::meanings::Meanings;
use dm_names::Identifier;
use dm_sites::Site;
use dm_token::{Definition, Memory, Span, Text};
use dm_type::{TypeId, Types};
use dm_typing::looks::{bare, is_void};
use std::alloc::Global;

/// The type of the value at a place, without const.
fn kind_of_value(types: &Types, site: &Site) -> TypeId
    requires { IsTrue (are_known (length types.now.shapes) site.now.tree.now) }
    ensures { (all : Sequence SeenSite) → Has types.now result (ctypes.bare (kind_of (seen types.now all site.now).tree)) }
{
    bare(types, site.tree.kind)
}

impl<'u, 'r> Meanings<'u, 'r> {
    /// The type of the value of the expression that has these tokens, without const.
    pub fn kind_at(&self, span: Span) -> Option<TypeId>
        ensures kind { option_map (type_of self.now.index.now.reading.now.types) result ≡ types.kind_at self.now.index.now.reading.now span }
        ensures known { IfSome result (IsId self.now.index.now.reading.now.types) }
    {
        match self.sites.find(span) {
            Some(number) => match self.sites.get(number) {
                Some(site) => Some(kind_of_value(&self.index.reading.types, site)),
                None => None,
            },
            None => None,
        }
    }

    /// Whether it is void.
    pub(crate) fn is_void(&self, span: Span) -> bool
        ensures { result ≡ types.is_void_at self.now.index.now.reading.now span }
    {
        match self.kind_at(span) {
            None => false,
            Some(kind) => is_void(&self.index.reading.types, kind),
        }
    }

    /// How it is spelled where a definition stands, if it can be.
    pub(crate) fn text_at(
        &self,
        alloc: Global,
        definition: &Definition,
        span: Span,
    ) -> Result<Option<Text>, Memory>
        ensures { IfOk result (λ text. text ≡ types.text_at definition.now self.now.index.now.reading.now span) }
    {
        match self.kind_at(span) {
            None => Ok(None),
            Some(kind) => {
                let nothing = Text::new(alloc, "")?;
                let visible = self.visible(definition);
                let text = self.index.reading.types.spell(kind, &nothing, visible)?;
                Ok(text)
            }
        }
    }

    /// The numbers of the structs whose tags are in file scope at a definition.
    pub fn visible(&self, definition: &Definition) -> &[u32]
        ensures { result.now ≡ types.visible_at definition.now self.now.index.now.reading.now }
    {
        self.names.visible(self.index.externals_behind(definition))
    }

    /// What the identifier or tag at a token means.
    pub(crate) fn meaning(&self, at: u32) -> Option<Identifier>
        ensures { result ≡ captures.meaning_in self.now.index.now.reading.now at }
    {
        self.names.meaning(at)
    }

    /// Whether an entry is in file scope behind so many external declarations.
    pub(crate) fn is_visible(&self, behind: u32, number: Option<u32>) -> bool
        ensures { result ≡ captures.is_visible_behind self.now.index.now.reading.now behind number }
    {
        match number {
            None => false,
            Some(number) => self.names.is_in_file_scope(behind, number),
        }
    }
}
