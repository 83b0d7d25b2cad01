use dm_token::{List, Span, Trail};

/// The tokens of an expansion that come of one occurrence of a parameter in the replacement list.
#[derive(Debug, PartialEq, Eq, Drop)]
pub struct Occurrence {
    /// The parameter's position; that of `__VA_ARGS__` is the count of the others.
    pub parameter: u32,
    /// Which of the parameter's places in the replacement list, counted from 0.
    pub occurrence: u32,
    /// Tokens that aren't consecutive count as empty, at the first of them. Where there are none, it is empty where they
    /// would stand.
    pub span: Span,
}

/// What an expansion leaves in one place: the tokens whose trails begin so.
#[derive(Debug, PartialEq, Eq, Drop)]
pub struct Run {
    /// The number of the expansion in its unit.
    pub instance: u32,
    /// The marks with which the trails begin, of which the expansion's is the last.
    pub prefix: Trail,
    /// Tokens that aren't consecutive count as empty, at the first of them. Where all were joined with string literals
    /// outside, it is empty at the token that the first was joined into.
    pub span: Span,
    /// In the order of the replacement list. In an empty run all are empty where the run is.
    pub occurrences: List<Occurrence>,
}
