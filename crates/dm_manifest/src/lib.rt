//! The manifest of a project: JSON that lists translation units, each a main file with its include folders and its
//! defines.
//! A C file alone is a unit too.
#![tactic(auto)]

ghost use Rattle.std.specs.Prelude.{◌≡◌, ◌≤◌, ◌↔◌, ℕ, List, true, length, All, IfOk, IfErr};
ghost use Rattle.serde_json.specs.View.{view};
ghost use Rattle.dm_token.specs.Limits.{most_units};
ghost use Rattle.dm_manifest.specs.Answers.{IsJson, IsManifest, IsFirstFault};
ghost use Rattle.dm_manifest.specs.Defines.{line_may_stand, HasGoodCut};
ghost use Rattle.dm_manifest.specs.Units.{IsLawful};

mod alone;
mod define;
mod fault;
mod path;
mod unit;
mod value;

pub use alone::unit_alone;
use dm_token::{List, Unit};
pub use fault::ManifestFault;
use serde_json::Value;
use std::alloc::Global;
use unit::read_units;

/// The units of a manifest, or its first fault.
pub fn manifest(alloc: Global, bytes: &[u8]) -> Result<List<Unit>, ManifestFault>
    ensures units { IfOk result (IsManifest bytes.now) }
    ensures fault { IfErr result (IsFirstFault bytes.now) }
    ensures lawful { IfOk result (All IsLawful) }
    ensures count { IfOk result (λ units. length units ≤ most_units) }
{
    let root = parse(alloc, bytes)?;
    read_units(alloc, &root)
}

// The JSON value of bytes.
fn parse(alloc: Global, bytes: &[u8]) -> Result<Value, ManifestFault>
    ensures value { IfOk result (λ value. IsJson bytes.now (view value)) }
    ensures fault { IfErr result (IsFirstFault bytes.now) }
{
    match Value::from_slice(alloc, bytes) {
        Ok(value) => Ok(value),
        Err(error) if error.is_memory() => Err(ManifestFault::Memory),
        Err(_) => Err(ManifestFault::Json),
    }
}

/// A line may stand for a define exactly where it has a cut into preprocessing tokens, blanks and comments (6.4) without
/// a quote that doesn't close and without `__VA_ARGS__`. There is at most one cut, and none where a comment is open.
pub fn good_lines()
    ensures { (line : List ℕ) → (line_may_stand line ≡ true) ↔ HasGoodCut line }
{}
