//! A small program that meets the premises of the laws.

ghost use Rattle.std.specs.Prelude.{[]};
ghost use Rattle.dm_type.specs.Structs.{AreSameStructs};
ghost use Rattle.dm_meaning.specs.Machines.{RunsTo};
ghost use Rattle.dm_meaning.specs.Units.{machine_of, program_of};
ghost use Rattle.dm_sound.specs.Examples.{one_table, other_table};
ghost use Rattle.dm_same.specs.Examples as examples;

/// `struct { int m; } s; int main(void) {}`, over two tables that number its types differently, meets each premise of the laws.
pub fn same_program_over_two_tables()
    ensures structs { AreSameStructs one_table other_table }
    ensures run { RunsTo (machine_of (program_of one_table examples.unit)) [] 0 examples.started }
{}
