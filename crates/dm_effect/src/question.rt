//! What is asked of the nodes of a tree.

/// What is asked of a node. A `u32` is the number of a declaration, unless said otherwise.
#[derive(Clone, Copy)]
pub(crate) enum Question<'a> {
    /// Whether it calls or stores.
    Acts,
    /// Whether it stores in the object by its name.
    Writes(u32),
    /// Whether it is `&` of the object's name.
    Addresses(u32),
    /// Whether it is a declaration that defines the object.
    Defines(u32),
    /// Whether it is a declaration that initialises the object, outside of whose initialiser the token stands.
    Initialises(u32, u32),
    /// Whether it stores, or calls a function that isn't quiet at the token, where it is told from which token on each function is.
    Disturbs(&'a [Option<u32>], u32),
}
