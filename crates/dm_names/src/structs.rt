//! The structs whose tags stand in file scope.

ghost use Rattle.std.specs.Prelude.{◌≡◌, ◌++◌, IsTrue, length, IfOk, OnOk, filter_map};
ghost use Rattle.std.specs.List.{list_all};
ghost use Rattle.dm_type.specs.Tables.{IsId};
ghost use Rattle.dm_tree.specs.TypeNumbers.{entry_has_known};
ghost use Rattle.dm_tree.specs.Views.{view_of_unit};
ghost use Rattle.dm_names.specs.Declarations as declarations;
ghost use Rattle.dm_names.specs.Indexes as indexes;

use crate::identifier::Entered;
use crate::seen::Shown;
use dm_token::{List, Memory};
use dm_tree::{CoreUnit, Declared};
use dm_type::{Shape, Types};
use std::alloc::Global;

/// The structs that can be named, and how many of them can be before each external declaration and behind the last.
#[derive(Drop)]
pub(crate) struct Visible {
    pub structs: List<u32>,
    pub ends: List<usize>,
}

/// Those of all external declarations.
pub(crate) fn visible_in(
    alloc: Global,
    types: &Types,
    unit: &CoreUnit,
    all: &[Shown],
) -> Result<Visible, Memory>
    requires { IsTrue (list_all (entry_has_known (length types.now.shapes)) unit.now.declared) }
    ensures structs { IfOk result (λ visible. visible.structs ≡ declarations.structs_in (view_of_unit types.now unit.now) all.now) }
    ensures ends { IfOk result (λ visible. visible.ends ≡ indexes.ends_from (view_of_unit types.now unit.now) 0 all.now) }
{
    let mut structs = List::new(alloc);
    let mut ends = List::new(alloc);
    for shown in all {
        ends.push(structs.len())?;
        structs_shown(types, unit, &mut structs, shown.entered.items())?;
    }
    ends.push(structs.len())?;
    Ok(Visible { structs, ends })
}

fn structs_shown(
    types: &Types,
    unit: &CoreUnit,
    structs: &mut List<u32>,
    entered: &[Entered],
) -> Result<(), Memory>
    requires { IsTrue (list_all (entry_has_known (length types.now.shapes)) unit.now.declared) }
    ensures { OnOk result (structs.new ≡ structs.old ++ filter_map (declarations.struct_of (view_of_unit types.now unit.now)) entered.now) }
{
    for one in entered {
        if let Some(number) = struct_of(types, unit, one) {
            structs.push(number)?;
        }
    }
    Ok(())
}

/// The struct that a tag names.
fn struct_of(types: &Types, unit: &CoreUnit, entered: &Entered) -> Option<u32>
    requires { IsTrue (list_all (entry_has_known (length types.now.shapes)) unit.now.declared) }
    ensures { result ≡ declarations.struct_of (view_of_unit types.now unit.now) entered.now }
{
    if !entered.tag {
        return None;
    }
    let entry = unit.declared.items().get(entered.number as usize)?;
    struct_number(types, entry)
}

fn struct_number(types: &Types, entry: &Declared) -> Option<u32>
    requires { IsId types.now entry.now.kind }
    ensures { result ≡ declarations.number_of_struct types.now entry.now.kind }
{
    match types.shape(entry.kind) {
        Shape::Struct(number) => Some(*number),
        _ => None,
    }
}
