//! What is told of names.

use dm_token::Text;

/// An identifier or a tag at a token, with the number of the entry that it means (6.2.1). Tags have a name space of their own
/// (6.2.3).
#[derive(Clone, Copy, Debug, PartialEq, Eq)]
pub struct Identifier {
    pub at: u32,
    pub tag: bool,
    /// None where no scope declares it, which no typed unit has.
    pub number: Option<u32>,
}

/// A name that is declared in file scope, or a tag, with the number of its entry.
#[derive(Debug, Drop)]
pub struct Entered {
    pub name: Text,
    pub tag: bool,
    pub number: u32,
}
