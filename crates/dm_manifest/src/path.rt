//! The paths of faults.

ghost use Rattle.std.specs.Prelude.{◌≡◌, IfOk, codes};
ghost use Rattle.dm_manifest.specs.Paths.{unit_path as path_of_unit, under, item_path as path_of_item};

use dm_token::{Memory, Text};
use std::alloc::Global;

/// The path of a unit.
#[tactic(auto, unfolding(crate::specs::Paths::unit_path))]
pub fn unit_path(alloc: Global, unit: usize) -> Result<Text, Memory>
    ensures { IfOk result (λ path. path ≡ path_of_unit unit) }
{
    let path = format!(in alloc; "units/{unit}")?;
    Text::new(alloc, path.as_str())
}

/// The path of the value at a key of a unit.
#[tactic(auto, unfolding(crate::specs::Paths::unit_path, crate::specs::Paths::under))]
pub fn key_path(alloc: Global, unit: usize, key: &str) -> Result<Text, Memory>
    ensures { IfOk result (λ path. path ≡ under (path_of_unit unit) key.now) }
{
    let path = format!(in alloc; "units/{unit}/{key}")?;
    Text::new(alloc, path.as_str())
}

/// The path of an item of the list at a key of a unit.
pub fn item_path(alloc: Global, unit: usize, key: &str, item: usize) -> Result<Text, Memory>
    ensures { IfOk result (λ path. path ≡ path_of_item (under (path_of_unit unit) key.now) item) }
{
    let path = format!(in alloc; "units/{unit}/{key}/{item}")?;
    Text::new(alloc, path.as_str())
}
