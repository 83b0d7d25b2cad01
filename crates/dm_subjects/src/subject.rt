//! What is judged.

use dm_readings::Key;
use dm_token::Definition;

/// A definition of a project as it was read first, with the key by which it is found again.
#[derive(Drop)]
pub struct Subject {
    pub key: Key,
    pub definition: Definition,
}
