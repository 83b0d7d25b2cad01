use dm_token::Text;

/// A declaration of an identifier that is in scope.
#[derive(Debug, PartialEq, Eq, Drop)]
pub struct Declared {
    pub name: Text,
    /// Whether it names a type (6.7.8).
    pub is_type: bool,
}
