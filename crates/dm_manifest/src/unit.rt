//! Reading units.

ghost use Rattle.std.specs.Prelude.{◌≡◌, ◌&&◌, ◌||◌, ℕ, List, [], Some, codes, IfOk, not, bytes_eq};
ghost use Rattle.std.specs.Bool.{OnTrue};
ghost use Rattle.std.specs.HashSet.{contains_by};
ghost use Rattle.serde_json.specs.View.{view, items_view};
ghost use Rattle.dm_macro.specs.Signs.{is_fixed as fixed};
ghost use Rattle.dm_manifest.specs.Defines.{name_of, is_define};
ghost use Rattle.dm_manifest.specs.Faults.{Gives};
ghost use Rattle.dm_manifest.specs.Paths.{unit_path as path_of_unit, under, item_path as path_of_item};
ghost use Rattle.dm_manifest.specs.Units.{folder_at, define_at, unit_at as read_unit, new_unit_at, units_of, manifest_of};
ghost use Rattle.dm_manifest.specs.Values.{each_of};

use crate::define::define_name;
use crate::fault::ManifestFault;
use crate::path::{item_path, unit_path};
use crate::value::{
    check_root, check_unit, item_folder, item_text, root_list, unit_file, unit_list,
};
use dm_macro::is_fixed;
use dm_token::{List, MOST_UNITS, Memory, Text, Unit};
use serde_json::Value;
use std::alloc::Global;
use std::collections::HashSet;

/// The units of the whole value.
#[tactic(auto, unfolding(crate::specs::Units::manifest_of))]
pub fn read_units(alloc: Global, root: &Value) -> Result<List<Unit>, ManifestFault>
    ensures { Gives (λ units. units) result (manifest_of (view root.now)) }
{
    check_root(alloc, root)?;
    let values = root_list(alloc, root)?;
    if values.len() > MOST_UNITS {
        return Err(ManifestFault::TooMany);
    }
    each_unit(alloc, values.as_slice())
}

fn each_unit(alloc: Global, values: &[Value]) -> Result<List<Unit>, ManifestFault>
    ensures { Gives (λ units. units) result (each_of new_unit_at [] (items_view values.now)) }
{
    let mut units = List::new(alloc);
    for value in values {
        let unit = new_unit(alloc, units.items(), value)?;
        units.push(unit)?;
    }
    Ok(units)
}

// A unit that equals none before it.
#[tactic(auto, unfolding(crate::specs::Units::new_unit_at))]
fn new_unit(alloc: Global, before: &[Unit], value: &Value) -> Result<Unit, ManifestFault>
    ensures { Gives (λ unit. unit) result (new_unit_at before.now (view value.now)) }
{
    let unit = unit_at(alloc, before.len(), value)?;
    if before.contains(&unit) {
        return Err(ManifestFault::Twice(unit_path(alloc, before.len())?));
    }
    Ok(unit)
}

#[tactic(auto, unfolding(crate::specs::Units::unit_at))]
fn unit_at(alloc: Global, unit: usize, value: &Value) -> Result<Unit, ManifestFault>
    ensures { Gives (λ unit. unit) result (read_unit (path_of_unit unit) (view value.now)) }
{
    check_unit(alloc, unit, value)?;
    let file = unit_file(alloc, unit, value)?;
    let include = each_folder(alloc, unit, unit_list(alloc, unit, value, "include")?)?;
    let define = each_define(alloc, unit, unit_list(alloc, unit, value, "define")?)?;
    Ok(Unit {
        file,
        include,
        define,
    })
}

fn each_folder(alloc: Global, unit: usize, values: &[Value]) -> Result<List<Text>, ManifestFault>
    ensures { Gives (λ folders. folders) result
        (each_of (folder_at (under (path_of_unit unit) (codes "include"))) [] (items_view values.now)) }
{
    let mut folders = List::new(alloc);
    for value in values {
        let folder = item_folder(alloc, unit, folders.len(), value)?;
        folders.push(folder)?;
    }
    Ok(folders)
}

fn each_define(alloc: Global, unit: usize, values: &[Value]) -> Result<List<Text>, ManifestFault>
    ensures { Gives (λ defines. defines) result
        (each_of (define_at (under (path_of_unit unit) (codes "define"))) [] (items_view values.now)) }
{
    let mut names = HashSet::new(alloc);
    let mut defines = List::new(alloc);
    for value in values {
        let define = item_text(alloc, unit, "define", defines.len(), value)?;
        let may = take_name(alloc, &mut names, define)?;
        if !may {
            let path = item_path(alloc, unit, "define", defines.len())?;
            return Err(ManifestFault::Define(path));
        }
        let text = Text::new(alloc, define)?;
        defines.push(text)?;
    }
    Ok(defines)
}

// Adds the name of a define to those of the defines before it, and says whether it may be defined.
fn take_name<'a>(
    alloc: Global,
    names: &mut HashSet<&'a str>,
    define: &'a str,
) -> Result<bool, Memory>
    ensures answer { IfOk result (λ may. may ≡ (is_define define.now && not (fixed (name_of define.now))
        && not (contains_by (λ name. bytes_eq (name_of define.now) name.now) names.old))) }
    ensures names { IfOk result (λ may. OnTrue may ((q : List ℕ) → contains_by (λ name. bytes_eq q name.now) names.new
        ≡ (contains_by (λ name. bytes_eq q name.now) names.old || bytes_eq q (name_of define.now)))) }
{
    let Some(name) = define_name(alloc, define)? else {
        return Ok(false);
    };
    if is_fixed(name.as_bytes()) {
        return Ok(false);
    }
    Ok(names.insert(name)?)
}
