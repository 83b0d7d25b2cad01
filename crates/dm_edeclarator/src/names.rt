//! Type names that are typed.

use dm_token::List;
use dm_tree::Core;
use dm_type::TypeId;

/// A type name, and the trees of the array lengths and enumerator values in it.
#[derive(Drop)]
pub struct TypedName {
    pub kind: TypeId,
    pub constants: List<Core>,
}
