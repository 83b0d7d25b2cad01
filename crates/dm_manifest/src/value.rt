//! The tests of a single value: its type, its keys, and the form of a name.

ghost use Rattle.std.specs.Prelude.{◌≡◌, ◌∷◌, [], map, Some, codes, option_map};
ghost use Rattle.serde_json.specs.Find.{get};
ghost use Rattle.serde_json.specs.View.{view, items_view, members_view};
ghost use Rattle.dm_token.specs.Names.{is_normal_name as is_normal};
ghost use Rattle.dm_manifest.specs.Faults.{Gives};
ghost use Rattle.dm_manifest.specs.Paths.{root_path, unit_path as path_of_unit, under, item_path as path_of_item};
ghost use Rattle.dm_manifest.specs.Units.{is_folder};
ghost use Rattle.dm_manifest.specs.Values.{unknown_key as least_unknown, object_at, array_at, list_at, text_at, name_at};

use crate::fault::ManifestFault;
use crate::path::{item_path, key_path, unit_path};
use dm_token::{Text, is_normal_name};
use serde_json::{Map, Value};
use std::alloc::Global;

/// The least key that isn't among those that are known.
fn unknown_key<'a>(members: &'a Map<String, Value>, known: &[&'a str]) -> Option<&'a str>
    ensures { option_map (λ key. key.now) result
        ≡ least_unknown (map (λ key. key.now) known.now) (members_view members.now.entries) }
{
    for key in members.keys() {
        let key = key.as_str();
        if !known.contains(&key) {
            return Some(key);
        }
    }
    None
}

/// Tests that the whole value is an object without unknown keys.
#[tactic(auto, unfolding(crate::specs::Paths::root_path))]
pub fn check_root(alloc: Global, root: &Value) -> Result<(), ManifestFault>
    ensures { Gives (λ _. 0) result
        (object_at root_path (λ key. key) (codes "units" ∷ []) (view root.now)) }
{
    let Some(members) = root.as_object() else {
        return Err(ManifestFault::Shape(Text::new(alloc, "/")?));
    };
    match unknown_key(members, &["units"]) {
        None => Ok(()),
        Some(key) => Err(ManifestFault::Shape(Text::new(alloc, key)?)),
    }
}

/// Tests that a unit is an object without unknown keys.
pub fn check_unit(alloc: Global, unit: usize, value: &Value) -> Result<(), ManifestFault>
    ensures { Gives (λ _. 0) result
        (object_at (path_of_unit unit) (under (path_of_unit unit))
        (codes "file" ∷ codes "include" ∷ codes "define" ∷ []) (view value.now)) }
{
    let Some(members) = value.as_object() else {
        return Err(ManifestFault::Shape(unit_path(alloc, unit)?));
    };
    match unknown_key(members, &["file", "include", "define"]) {
        None => Ok(()),
        Some(key) => Err(ManifestFault::Shape(key_path(alloc, unit, key)?)),
    }
}

/// The units of the whole value.
pub fn root_list(alloc: Global, root: &Value) -> Result<&Vec<Value>, ManifestFault>
    ensures { Gives (λ values. items_view values.now.items) result
        (array_at (codes "units") (get (codes "units") (view root.now))) }
{
    match root.get("units").and_then(Value::as_array) {
        Some(values) => Ok(values),
        None => Err(ManifestFault::Shape(Text::new(alloc, "units")?)),
    }
}

/// The list at a key of a unit, empty where the key is absent.
pub fn unit_list<'a>(
    alloc: Global,
    unit: usize,
    value: &'a Value,
    key: &str,
) -> Result<&'a [Value], ManifestFault>
    ensures { Gives (λ values. items_view values.now) result
        (list_at (under (path_of_unit unit) key.now) (get key.now (view value.now))) }
{
    match value.get(key) {
        None => Ok(&[]),
        Some(Value::Array(values)) => Ok(values.as_slice()),
        Some(_) => Err(ManifestFault::Shape(key_path(alloc, unit, key)?)),
    }
}

/// The main file of a unit.
pub fn unit_file(alloc: Global, unit: usize, value: &Value) -> Result<Text, ManifestFault>
    ensures { Gives (λ file. file) result
        (name_at is_normal (under (path_of_unit unit) (codes "file")) (get (codes "file") (view value.now))) }
{
    let Some(file) = value.get("file").and_then(Value::as_str) else {
        return Err(ManifestFault::Shape(key_path(alloc, unit, "file")?));
    };
    if !is_normal_name(file.as_bytes()) {
        return Err(ManifestFault::Name(key_path(alloc, unit, "file")?));
    }
    Ok(Text::new(alloc, file)?)
}

/// The string that is an item of the list at a key of a unit.
pub fn item_text<'a>(
    alloc: Global,
    unit: usize,
    key: &str,
    item: usize,
    value: &'a Value,
) -> Result<&'a str, ManifestFault>
    ensures { Gives (λ text. text.now) result
        (text_at (path_of_item (under (path_of_unit unit) key.now) item) (Some (view value.now))) }
{
    match value.as_str() {
        Some(text) => Ok(text),
        None => Err(ManifestFault::Shape(item_path(alloc, unit, key, item)?)),
    }
}

/// An include folder of a unit.
pub fn item_folder(
    alloc: Global,
    unit: usize,
    item: usize,
    value: &Value,
) -> Result<Text, ManifestFault>
    ensures { Gives (λ folder. folder) result
        (name_at is_folder (path_of_item (under (path_of_unit unit) (codes "include")) item) (Some (view value.now))) }
{
    let folder = item_text(alloc, unit, "include", item, value)?;
    if !is_normal_name(folder.as_bytes()) && folder != "." {
        return Err(ManifestFault::Name(item_path(alloc, unit, "include", item)?));
    }
    Ok(Text::new(alloc, folder)?)
}
