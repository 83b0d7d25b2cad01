use dm_token::{Definition, Text};

/// The kind of declaration that a macro becomes.
#[derive(Clone, Copy, Debug, PartialEq, Eq)]
pub enum As {
    /// A `static inline` function.
    Function,
    /// An enumerator of an `enum` of its own, so a constant of type `int` (6.7.2.2p3).
    Enumerator,
    /// A `static const` object.
    Constant,
}

/// What a definition becomes: a declaration with the definition's body between two new texts.
#[derive(Debug, PartialEq, Eq, Drop)]
pub struct Change {
    pub definition: Definition,
    pub kind: As,
    /// What stands before the body, in place of the directive's text up to it.
    pub head: Text,
    /// What stands directly behind the body's last token.
    pub tail: Text,
}
