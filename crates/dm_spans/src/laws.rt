ghost use Rattle.std.specs.Prelude.{◌≡◌, true};
ghost use Rattle.dm_type.specs.CTypes.{CType};
ghost use Rattle.dm_tree.specs.Trees.{Tree};
ghost use Rattle.dm_meaning.specs.Programs.{Program};
ghost use Rattle.dm_meaning.specs.Wholes.{is_expression};
ghost use Rattle.dm_sound.specs.TypedRuns.{IsTypedProgram};
ghost use Rattle.dm_sound.specs.TypedTrees.{IsTyped};
ghost use Rattle.dm_spans.specs.MovedPrograms.{IsMovedProgram};
ghost use Rattle.dm_spans.specs.SameTrees.{IsSame};

/// An expression that is the same but for where its nodes stand is typed as the other one is.
pub fn expressions_are_typed_anywhere()
    ensures { (program : Program) (result : CType) (tree other : Tree) → IsSame tree other → is_expression tree ≡ true → IsTyped program result tree
        → IsTyped program result other }
{}

/// A program that is the same as a typed one, but that the nodes of each full expression stand at one place, is typed too. An address
/// constant stays one: what tells an implied conversion, or a subscript, is that it has the place of its operand.
pub fn programs_are_typed_anywhere()
    ensures { (program other : Program) → IsMovedProgram program other → IsTypedProgram program → IsTypedProgram other }
{}
