//! First values, found and stored (6.7.9p4, p10).

ghost use Rattle.std.specs.Prelude.{◌≡◌, ◌++◌, All, map, option_map, option_to_list, IfOk, OnOk};
ghost use Rattle.dm_type.specs.Tables.{Table};
ghost use Rattle.dm_memory.specs.Blocks.{view_of_blocks, AreKnown};
ghost use Rattle.dm_program.specs.Statics.{view_of_static, StaticFits};
ghost use Rattle.dm_start.specs.Scenes.{program_in, types_in, SceneFits};
ghost use Rattle.dm_start.specs.Storing.{kept_all, kept_one, view_of_kept, with_values};

use crate::initial::first_value;
use crate::scene::Scene;
use dm_layout::ObjectType;
use dm_memory::Blocks;
use dm_program::Static;
use dm_token::Memory;
use dm_value::{At, Name, Value};
use std::alloc::Global;

/// The first value of an object, which it is to have.
#[derive(Drop)]
pub(crate) struct Kept {
    /// The number of the object.
    pub number: u64,
    pub value: Value,
}

/// The first values of the objects that have an initialiser.
pub(crate) fn first_values(alloc: Global, scene: &Scene) -> Result<Vec<Kept>, Memory>
    requires { SceneFits scene.now }
    ensures { IfOk result (λ all. map view_of_kept all.items ≡ kept_all scene.now (program_in scene.now).statics) }
{
    let all = first_values_of(alloc, scene, scene.program.statics())?;
    Ok(all)
}

/// Those of these.
fn first_values_of(alloc: Global, scene: &Scene, statics: &[Static]) -> Result<Vec<Kept>, Memory>
    requires scene { SceneFits scene.now }
    requires statics { All (StaticFits scene.now.program.now) statics.now }
    ensures { IfOk result (λ all. map view_of_kept all.items ≡ kept_all scene.now (map (view_of_static (types_in scene.now)) statics.now)) }
{
    let mut all = Vec::new(alloc);
    for one in statics {
        let kept = first_value_of(alloc, scene, one)?;
        put(&mut all, kept)?;
    }
    Ok(all)
}

/// One more first value, if there is one.
fn put(all: &mut Vec<Kept>, kept: Option<Kept>) -> Result<(), Memory>
    ensures { OnOk result (all.new.items ≡ all.old.items ++ option_to_list kept) }
{
    match kept {
        Some(kept) => {
            all.push(kept)?;
            Ok(())
        }
        None => Ok(()),
    }
}

/// That of one, if it has an initialiser.
fn first_value_of(alloc: Global, scene: &Scene, one: &Static) -> Result<Option<Kept>, Memory>
    requires scene { SceneFits scene.now }
    requires fits { StaticFits scene.now.program.now one.now }
    ensures { IfOk result (λ kept. option_to_list (option_map view_of_kept kept) ≡ kept_one scene.now (view_of_static (types_in scene.now) one.now)) }
{
    let Some(initial) = one.initial else {
        return Ok(None);
    };
    let Some(number) = scene.names.named(one.declared) else {
        return Ok(None);
    };
    let Some(entry) = scene.program.declared(one.declared) else {
        unreachable!();
    };
    let value = first_value(alloc, scene, &ObjectType::Known(entry.kind), initial)?;
    Ok(Some(Kept { number, value }))
}

/// Stores first values.
pub(crate) fn store(alloc: Global, blocks: &mut Blocks, values: &[Kept]) -> Result<(), Memory>
    ensures view { (table : Table) → OnOk result (view_of_blocks table blocks.new ≡ with_values (map view_of_kept values.now) (view_of_blocks table blocks.old)) }
    ensures known { (table : Table) → AreKnown table blocks.old → OnOk result (AreKnown table blocks.new) }
{
    let mut left = values;
    while let Some((kept, rest)) = left.split_first() {
        let at = At::whole(Name::Numbered(kept.number));
        blocks.store(alloc, &at, kept.value.copy()?)?;
        left = rest;
    }
    Ok(())
}
