//! Where a piece of syntax stands.

use dm_token::Span;

/// The tokens of a piece of syntax, and its tokens with all parentheses round it.
#[derive(Clone, Copy, Debug, PartialEq, Eq)]
pub struct Extent {
    pub inner: Span,
    pub outer: Span,
}
