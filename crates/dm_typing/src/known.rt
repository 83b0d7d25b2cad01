//! What is known at a place of a translation unit.

ghost use Rattle.std.specs.Prelude.{length, reverse};
ghost use Rattle.dm_typing.specs.Bounds.{AreBelow, AreOpen};
ghost use Rattle.dm_typing.specs.Fitting.{HaveTypes, AreNumbered};

use dm_scope::Scopes;
use dm_token::List;
use dm_tree::{Core, Declared};
use dm_type::Types;

/// The types, scopes and declarations so far.
#[derive(Drop)]
pub struct Known {
    pub types: Types,
    pub scopes: Scopes,
    pub declared: List<Declared>,
    /// The structs whose members are being read, the innermost last.
    pub begun: Vec<u32>,
    /// The array lengths and enumerator values so far of the type name or declaration that is being read.
    pub constants: List<Core>,
    ghost entries: { HaveTypes types declared },
    ghost trees: { AreNumbered types constants },
    ghost numbers: { AreBelow (length declared) scopes },
    ghost unfinished: { AreOpen types (reverse begun.items) },
}
