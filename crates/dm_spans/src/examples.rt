//! A small program that meets the premises of the laws.

ghost use Rattle.std.specs.Prelude.{◌≡◌, true};
ghost use Rattle.dm_type.specs.CTypes.{void};
ghost use Rattle.dm_meaning.specs.Wholes.{is_expression};
ghost use Rattle.dm_sound.specs.Examples as sound;
ghost use Rattle.dm_sound.specs.TypedRuns.{IsTypedProgram};
ghost use Rattle.dm_sound.specs.TypedTrees.{IsTyped};
ghost use Rattle.dm_spans.specs.Examples as examples;
ghost use Rattle.dm_spans.specs.MovedPrograms.{IsMovedProgram};
ghost use Rattle.dm_spans.specs.SameTrees.{IsSame};

/// `c++`, where `int c;` stands in front, and the same at another place.
pub fn an_expression_elsewhere()
    ensures same { IsSame sound.counted examples.counted }
    ensures expression { is_expression sound.counted ≡ true }
    ensures typed { IsTyped sound.program void sound.counted }
{}

/// `int c; int main(void) {}`, and the same with its body at another place.
pub fn a_program_elsewhere()
    ensures moved { IsMovedProgram sound.running examples.moved }
    ensures typed { IsTypedProgram sound.running }
{}
