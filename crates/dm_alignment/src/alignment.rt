//! How readings compare.

/// Whether the readings of a unit before and after an edit are aligned.
#[derive(Clone, Copy, Debug, PartialEq, Eq)]
pub enum Alignment {
    /// They are the same but for what the edit adds and replaces.
    Same,
    /// Something else differs.
    Differs,
}
