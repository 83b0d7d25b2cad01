//! What a run reads and writes.

use dm_token::List;

/// What is left of a run's input, and what it has written.
#[derive(Drop)]
pub struct Streams<'a> {
    pub input: &'a [u8],
    pub output: List<u8>,
}
