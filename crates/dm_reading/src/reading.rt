//! What a reading consists of.

use dm_syn::External;
use dm_token::{CToken, List, Unit, UnitTokens};
use dm_tree::CoreUnit;
use dm_type::Types;

/// What the layers behind the preprocessor give of a unit: the tokens of phase 7, the syntax, and the typed unit with its
/// types.
#[derive(Drop)]
pub struct Layers {
    pub tokens: List<CToken>,
    pub syntax: List<External>,
    pub core: CoreUnit,
    pub types: Types,
}

/// A unit with what each layer gives of it.
#[derive(Drop)]
pub struct Reading {
    pub unit: Unit,
    pub pp: UnitTokens,
    pub tokens: List<CToken>,
    pub syntax: List<External>,
    pub core: CoreUnit,
    pub types: Types,
}
