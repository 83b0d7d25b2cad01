//! What the names of a typed unit mean (6.2.1).

ghost use Rattle.std.specs.Prelude.{◌≡◌, IsTrue, List as Sequence, length, map, IfOk, slice_get, take};
ghost use Rattle.std.specs.List.{list_all};
ghost use Rattle.dm_token.specs.declared.token.CToken.{CToken as OneToken};
ghost use Rattle.dm_type.specs.Tables.{Table};
ghost use Rattle.dm_syn.specs.declared.statement.External.{External as OneExternal};
ghost use Rattle.dm_syn.specs.Views as view;
ghost use Rattle.dm_tree.specs.declared.unit.CoreUnit.{CoreUnit as OneUnit};
ghost use Rattle.dm_tree.specs.TypeNumbers.{entry_has_known};
ghost use Rattle.dm_tree.specs.Views.{view_of_unit};
ghost use Rattle.dm_names.specs.Declarations.{source_of, visible_behind};
ghost use Rattle.dm_names.specs.Indexes.{AreNames};
ghost use Rattle.dm_names.specs.Meanings as meanings;

use crate::identifier::{Entered, Identifier};
use crate::listing::identifiers_of;
use crate::numbers::Declarators;
use crate::positions::Positions;
use crate::seen::Shown;
use crate::structs::{Visible, visible_in};
use crate::walk::Walk;
use dm_syn::External;
use dm_token::{CToken, List, Memory};
use dm_tree::CoreUnit;
use dm_type::Types;
use std::alloc::Global;

/// The names of a unit: what its identifiers and tags mean, and what stands in file scope behind its first external
/// declarations. It is made in a time linear in the unit, and answers without a walk.
#[derive(Drop)]
pub struct Names {
    pub(crate) shown: List<Shown>,
    pub(crate) identifiers: List<Identifier>,
    /// The identifiers by their tokens.
    pub(crate) places: Positions,
    /// The external declarations by the entries that they declare in file scope first.
    pub(crate) firsts: Positions,
    /// The structs whose tags are in file scope, and how many are before each external declaration and behind the last.
    pub(crate) structs: List<u32>,
    pub(crate) ends: List<usize>,
}

impl Names {
    /// Those of a typed unit with its tokens and its syntax.
    pub fn of(
        alloc: Global,
        tokens: &[CToken],
        syntax: &[External],
        unit: &CoreUnit,
        types: &Types,
    ) -> Result<Names, Memory>
        requires { IsTrue (list_all (entry_has_known (length types.now.shapes)) unit.now.declared) }
        ensures { IfOk result (AreNames types.now tokens.now syntax.now unit.now) }
    {
        let numbers = Declarators { types }.numbers(alloc, unit.externals.items())?;
        let walk = Walk {
            alloc,
            tokens,
            numbers: numbers.items(),
        };
        let shown = walk.shown(syntax)?;
        let identifiers = identifiers_of(alloc, shown.items())?;
        let mut places = Positions::new(alloc);
        places.note_identifiers(identifiers.items())?;
        let mut firsts = Positions::new(alloc);
        firsts.note_shown(shown.items())?;
        let Visible { structs, ends } = visible_in(alloc, types, unit, shown.items())?;
        Ok(Names {
            shown,
            identifiers,
            places,
            firsts,
            structs,
            ends,
        })
    }

    /// The identifiers and tags, external declaration by external declaration.
    pub fn identifiers(&self) -> &[Identifier]
        ensures { (types : Table) (tokens : Sequence OneToken) (syntax : Sequence OneExternal) (unit : OneUnit) → AreNames types tokens syntax unit self.now
            → result.now ≡ meanings.identifiers_of (source_of tokens (view_of_unit types unit)) (map view.external syntax) }
    {
        self.identifiers.items()
    }

    /// The identifier or tag that is a token, if it is one.
    pub fn meaning(&self, at: u32) -> Option<Identifier>
        ensures { (types : Table) (tokens : Sequence OneToken) (syntax : Sequence OneExternal) (unit : OneUnit) → AreNames types tokens syntax unit self.now
            → result ≡ meanings.meaning_at (source_of tokens (view_of_unit types unit)) (map view.external syntax) at }
    {
        match self.places.get(at) {
            Some(place) => item(self.identifiers.items(), place),
            None => None,
        }
    }

    /// What an external declaration declares in file scope that wasn't declared there before.
    pub fn entered(&self, external: u32) -> &[Entered]
        ensures { (types : Table) (tokens : Sequence OneToken) (syntax : Sequence OneExternal) (unit : OneUnit) → AreNames types tokens syntax unit self.now
            → result.now ≡ meanings.entered_by (source_of tokens (view_of_unit types unit)) (map view.external syntax) external }
    {
        match self.shown.items().get(external as usize) {
            Some(shown) => shown.entered.items(),
            None => &[],
        }
    }

    /// Whether a name means an entry in file scope behind the first external declarations.
    pub fn is_in_file_scope(&self, externals: u32, number: u32) -> bool
        ensures { (types : Table) (tokens : Sequence OneToken) (syntax : Sequence OneExternal) (unit : OneUnit) → AreNames types tokens syntax unit self.now
            → result ≡ meanings.is_in_file_scope (source_of tokens (view_of_unit types unit)) (map view.external syntax) externals number }
    {
        match self.firsts.get(number) {
            Some(first) => first < externals,
            None => false,
        }
    }

    /// How many entries the unit has behind the first external declarations.
    pub fn entries_behind(&self, externals: u32) -> u32
        ensures { (types : Table) (tokens : Sequence OneToken) (syntax : Sequence OneExternal) (unit : OneUnit) → AreNames types tokens syntax unit self.now
            → result ≡ meanings.entries_behind (source_of tokens (view_of_unit types unit)) (map view.external syntax) externals }
    {
        let shown = front(self.shown.items(), externals as usize);
        match shown.last() {
            Some(last) => last.entries,
            None => 0,
        }
    }

    /// The structs whose tags are in file scope there, in the order of their declarations.
    pub fn visible(&self, externals: u32) -> &[u32]
        ensures { (types : Table) (tokens : Sequence OneToken) (syntax : Sequence OneExternal) (unit : OneUnit) → AreNames types tokens syntax unit self.now
            → result.now ≡ visible_behind (view_of_unit types unit) tokens (map view.external syntax) externals }
    {
        match self.ends.items().get(externals as usize) {
            Some(end) => front(self.structs.items(), *end),
            None => self.structs.items(),
        }
    }
}

/// The item at a position.
fn item(items: &[Identifier], position: u32) -> Option<Identifier>
    ensures { result ≡ slice_get items.now position }
{
    items.get(position as usize).copied()
}

/// The first items.
fn front<T>(items: &[T], count: usize) -> &[T]
    ensures { result.now ≡ take count items.now }
{
    match items.split_at_checked(count) {
        Some((front, _)) => front,
        None => items,
    }
}
