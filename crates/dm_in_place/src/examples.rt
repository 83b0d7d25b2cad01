//! A small unit that meets the premises of a law.

ghost use Rattle.std.specs.Prelude.{◌≡◌, true};
ghost use Rattle.dm_type.specs.Tables.{no_type};
ghost use Rattle.dm_tree.specs.Typing.{IsWellTypedUnit};
ghost use Rattle.dm_sound.specs.Examples as sound;
ghost use Rattle.dm_in_place.specs.InPlace.{is_set_at};

/// The object of `int c;` is set wherever it is named, which meets each premise of `set_objects_are_declared`.
pub fn a_set_object()
    ensures typed { IsWellTypedUnit no_type sound.unit }
    ensures set { is_set_at sound.unit sound.counted 0 ≡ true }
{}
