//! What follows from where the nodes of typed units stand.

ghost use Rattle.dm_type.specs.Tables.{Table};
ghost use Rattle.dm_tree.specs.Typing.{IsWellTypedUnit};
ghost use Rattle.dm_tree.specs.Units.{TypedUnit};
ghost use Rattle.dm_scoped.specs.Spans.{IsLaidOutUnit};
ghost use Rattle.dm_told.specs.Told.{ArePlacesExpressions, ArePlacesNested, ArePlacesTold};

/// In a unit that is well typed, whose nodes stand inside one another and in order as those of each reading do, the place that is found by the
/// tokens of an expression is the place of that expression.
pub fn places_are_told()
    ensures { (types : Table) (one : TypedUnit) → IsWellTypedUnit types one → IsLaidOutUnit one → ArePlacesTold one }
{}

/// And an expression whose tokens are among those of another stands in the tree of the other.
pub fn places_are_nested()
    ensures nested { (types : Table) (one : TypedUnit) → IsWellTypedUnit types one → IsLaidOutUnit one → ArePlacesNested one }
    ensures expressions { (types : Table) (one : TypedUnit) → IsWellTypedUnit types one → IsLaidOutUnit one → ArePlacesExpressions one }
{}
