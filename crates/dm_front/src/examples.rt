//! External declarations that meet the premise of the laws.

ghost use Rattle.std.specs.Prelude.{◌≡◌, [], List};
ghost use Rattle.dm_tree.specs.Units as unit;
ghost use Rattle.dm_edecl.specs.Examples as examples;
ghost use Rattle.dm_edecl.specs.Standing.{Standing, goes_on};
ghost use Rattle.dm_edecl.specs.Units.{beginning, typed_externals, unit_setting};

use dm_edecl::declarations_of_one_object_share_an_entry;

/// So do two declarations of one array, which are typed.
pub fn two_declarations_are_typed()
    ensures { (end : Standing) × (made : List unit.External) ×
        (typed_externals (unit_setting examples.completed_tokens examples.completed) (beginning []) examples.completed ≡ goes_on end made) }
{
    // The example on which its proof rests.
    declarations_of_one_object_share_an_entry();
}
