//! The types of a macro's expansion.

use dm_token::{List, Text};
use dm_type::TypeId;

/// A parameter of a macro, with the type of what is passed for it.
#[derive(Drop)]
pub struct Parameter {
    pub kind: TypeId,
    pub name: Text,
}

/// The type of what comes of an expansion, and its parameters.
#[derive(Drop)]
pub struct Signature {
    pub result: TypeId,
    pub parameters: List<Parameter>,
}
