//! A small program that meets the premises of the laws.

ghost use Rattle.std.specs.Prelude.{◌≡◌, ℕ, true, Some, pos};
ghost use Rattle.dm_type.specs.CTypes.{void};
ghost use Rattle.dm_meaning.specs.Programs.{constant_of, layout};
ghost use Rattle.dm_effect.specs.Forms.{is_built};
ghost use Rattle.dm_effect.specs.Safe.{safe_rule};
ghost use Rattle.dm_initialised.specs.Settled.{IsSettledProgram};
ghost use Rattle.dm_sound.specs.Examples as sound;
ghost use Rattle.dm_sound.specs.TypedRuns.{IsTypedProgram};
ghost use Rattle.dm_sound.specs.TypedSteps.{IsTypedScope};
ghost use Rattle.dm_sound.specs.TypedTrees.{IsTyped};
ghost use Rattle.dm_sound.specs.TypedValues.{AreTyped};
ghost use Rattle.dm_spans.specs.Examples as spans;
ghost use Rattle.dm_spans.specs.MovedPrograms.{IsMovedProgram};
ghost use Rattle.dm_safe.specs.Examples as examples;
ghost use Rattle.dm_safe.specs.Numbers.{HoldsInteger};
ghost use Rattle.dm_safe.specs.SafePrograms.{AreSafeTrees};

/// 5, and the value of `c` behind `int c;`, where `c` holds 5.
pub fn safe_trees()
    ensures scope { IsTypedScope sound.program }
    ensures memory { AreTyped (layout sound.program) (sound.world_with 5).memory }
    ensures number { IsTyped sound.program void examples.five }
    ensures value { constant_of sound.program examples.five ≡ Some (pos 5) }
    ensures reading { IsTyped sound.program void examples.read_counter }
    ensures built { is_built (safe_rule examples.is_counter) examples.read_counter ≡ true }
    ensures holds { (d : ℕ) → examples.is_counter d ≡ true → HoldsInteger sound.scene (sound.world_with 5).memory d }
{}

/// `int c; int main(void) {}`, where each number of type int is taken for safe.
pub fn a_safe_program()
    ensures typed { IsTypedProgram sound.running }
    ensures settled { IsSettledProgram examples.none sound.running }
    ensures safe { AreSafeTrees sound.running examples.none examples.takes_none examples.is_number }
    ensures moved { IsMovedProgram sound.running spans.moved }
{}
