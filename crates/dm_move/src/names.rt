//! Names of objects and enumerators (6.5.1p2, 6.7.2.2p3).

ghost use Rattle.std.specs.Prelude.{◌≡◌, ◌++◌};
ghost use Rattle.dm_type.specs.Tables.{IsId, type_of};
ghost use Rattle.dm_meaning.specs.Operations as operations;
ghost use Rattle.dm_meaning.specs.Operations.{World};
ghost use Rattle.dm_operate.specs.Evaluations.{view_of_did};
ghost use Rattle.dm_program.specs.Sources.{meant};

use dm_frame::Stack;
use dm_operate::{Did, number};
use dm_program::Program;
use dm_state::Names;
use dm_tree::Sort;
use dm_type::TypeId;

/// The object that a declaration names: one of static storage duration, or one of the function that is running.
pub(crate) fn named(statics: &Names, objects: &Stack<(u32, u64)>, declared: u32) -> Option<u64>
    ensures { result ≡ operations.object_named (statics.now ++ objects.now) declared }
{
    match statics.named(declared) {
        Some(number) => Some(number),
        None => objects.named(declared),
    }
}

/// An enumerator gives its value.
pub(crate) fn enumerator(program: &Program, kind: TypeId, declared: u32) -> Did
    requires { IsId program.now.table kind }
    ensures { (world : World) → view_of_did world result
        ≡ operations.number_alone world (type_of program.now.table kind) (operations.enumerator_number (meant program.now) declared) }
{
    number(program.layout(), kind, enumerator_value(program, declared))
}

/// The value of an enumerator.
fn enumerator_value(program: &Program, declared: u32) -> i128
    ensures { result ≡ operations.enumerator_number (meant program.now) declared }
{
    match program.declared(declared) {
        Some(entry) => number_of_sort(&entry.sort),
        None => 0,
    }
}

fn number_of_sort(sort: &Sort) -> i128
    ensures { result ≡ operations.number_of_sort sort.now }
{
    match sort {
        Sort::Enumerator(value) => *value,
        _ => 0,
    }
}
