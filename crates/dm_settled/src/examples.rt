//! A small program that meets the premises of the laws.

ghost use Rattle.dm_meaning.specs.Running.{begun};
ghost use Rattle.dm_initialised.specs.Settled.{IsSettledProgram};
ghost use Rattle.dm_sound.specs.Examples as sound;
ghost use Rattle.dm_sound.specs.TypedRuns.{IsTypedProgram};
ghost use Rattle.dm_spans.specs.MovedPrograms.{StandAt};
ghost use Rattle.dm_central.specs.Standing.{StandsIn};
ghost use Rattle.dm_safe.specs.Examples as safe;
ghost use Rattle.dm_safe.specs.SafePrograms.{AreSafeTrees};
ghost use Rattle.dm_late.specs.Settled.{erased_program};
ghost use Rattle.dm_settled.specs.Apart.{IsApartTree};

/// `int c; int main(void) {}`, where each number of type int is taken for safe; and `c++`, which stands in itself.
pub fn a_settled_program()
    ensures typed { IsTypedProgram sound.running }
    ensures settled { IsSettledProgram safe.none sound.running }
    ensures safe { AreSafeTrees (erased_program sound.running) safe.none safe.takes_none safe.is_number }
    ensures apart { IsApartTree safe.none safe.takes_none sound.body }
    ensures stands_at { StandAt sound.spans sound.counted }
    ensures stands_in { StandsIn (begun sound.counted) (begun sound.counted) }
{}
