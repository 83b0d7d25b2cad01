//! A reading that meets the premises of the laws.

ghost use Rattle.std.specs.Prelude.{Err};
ghost use Rattle.std.specs.List.{AllByRecursion};
ghost use Rattle.dm_token.specs.declared.stop.Stop.TheVariants.{Refused};
ghost use Rattle.dm_search.specs.Fresh.{fresh, StartsWithHeaders};
ghost use Rattle.dm_unit.specs.Units.{IsReadAs};
ghost use Rattle.dm_places.specs.Examples as examples;
ghost use Rattle.dm_places.specs.Places.{CanBeRead};

/// So does the refusal of a unit whose main file is absent, by a loader that holds the built-in headers alone.
pub fn refusal_of_absent_file()
    ensures reading { IsReadAs examples.setting examples.unit fresh (Err (Refused examples.refusal)) examples.behind }
    ensures headers { StartsWithHeaders fresh }
    ensures defines { AllByRecursion (CanBeRead examples.setting) examples.unit.define }
{}
