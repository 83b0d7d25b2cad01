use crate::change::As;
use dm_token::{Definition, List, Place, Text};

/// What becomes of a definition.
#[derive(Clone, Copy, Debug, PartialEq, Eq)]
pub enum Fate {
    /// It is replaced by a declaration of this kind.
    Rewritten(As),
    /// It stays as it is.
    Kept {
        /// The number of the rule that it breaks.
        rule: u8,
        /// Where the rule is broken.
        place: Place,
    },
}

/// One definition of a plan.
#[derive(Debug, PartialEq, Eq, Drop)]
pub struct Entry {
    pub definition: Definition,
    pub outcome: Fate,
}

/// A file that is written.
#[derive(Debug, PartialEq, Eq, Drop)]
pub struct Changed {
    pub name: Text,
    pub bytes: List<u8>,
}

/// What is done to a project.
#[derive(Debug, PartialEq, Eq, Drop)]
pub struct Plan {
    /// The definitions in files, in the order of first reading.
    pub entries: List<Entry>,
    /// The names of files by their number.
    pub names: List<Text>,
    /// The files whose bytes change, in the order of their names.
    pub files: List<Changed>,
}
