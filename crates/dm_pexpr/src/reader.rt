//! Tokens, and where they are looked at.

ghost use Rattle.std.specs.Prelude.{◌≤◌, length};

use crate::names::Names;
use dm_token::CToken;
use std::alloc::Global;

/// Tokens, and what is known of names that aren't declared among them. A name of which nothing is known names no type.
#[derive(Drop)]
pub struct Reader<'a> {
    pub alloc: Global,
    pub tokens: &'a [CToken],
    pub typedefs: &'a Names,
    ghost few: { length tokens.now ≤ 4294967295 },
}
