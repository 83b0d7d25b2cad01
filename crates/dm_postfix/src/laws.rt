ghost use Rattle.std.specs.Prelude.{◌≡◌, ℕ, List, [], ◌∷◌, ◌++◌, length, map, Some, slice_get};
ghost use Rattle.dm_meaning.specs.Expressions.{lifted, moves};
ghost use Rattle.dm_meaning.specs.Operations.{World, Scene};
ghost use Rattle.dm_meaning.specs.Running.{Run, Hole, IsOpen, done, filled_in, hole_in, locks_in};
ghost use Rattle.dm_meaning.specs.Values.{At};
ghost use Rattle.dm_postfix.specs.Postfix.{Evaluated, Waiting, Item, AreUnlocked, arity, after_of, before_of, evaluated, hole_of, items, locks_of, tree_of, waiting};
ghost use Rattle.dm_postfix.specs.Reductions.{ready_count, step_at};

/// The items of a tree stand for it.
pub fn items_stand_for_their_tree()
    ensures { (run : Run) → tree_of (items run) ≡ run }
{}

/// Those in front of a part that is left out and those behind it stand for the tree without the part.
pub fn items_stand_for_their_hole()
    ensures { (hole : Hole) → hole_of (before_of hole) (after_of hole) ≡ hole }
{}

/// A part put in has its items between those in front of it and those behind it.
pub fn parts_are_put_in()
    ensures { (hole : Hole) (run : Run) → IsOpen hole → items (filled_in hole run) ≡ before_of hole ++ (items run ++ after_of hole) }
{}

/// A tree has as many moves as it has nodes that are ready.
pub fn ready_nodes_are_counted()
    ensures { (scene : Scene) (world : World) (locks : List At) (run : Run) → length (moves scene world locks run) ≡ ready_count 0 (items run) }
{}

/// A node with its operands directly in front of it has a step, and that is the move of the tree that has as many moves before it
/// as there are ready nodes in front of the node.
pub fn ready_nodes_are_moves()
    ensures { (scene : Scene) (world : World) (locks : List At) (run : Run) (before : List Item) (operands : List Evaluated) (node : Waiting) (after : List Item)
        → items run ≡ before ++ (map evaluated operands ++ waiting node ∷ after) → length operands ≡ arity node.slots
        → slice_get (moves scene world locks run) (ready_count 0 (before ++ map evaluated operands))
        ≡ Some (lifted (filled_in (hole_of before after)) (hole_in (hole_of before after)) (step_at scene world locks node operands)) }
{}

/// A tree without a node that is ready is evaluated.
pub fn what_has_no_ready_node_is_evaluated()
    ensures { (run : Run) → ready_count 0 (items run) ≡ 0 → (one : Evaluated) × (run ≡ done one.kind one.result one.locks) }
{}

/// The locks of a tree are those of its results, in their order.
pub fn locks_are_those_of_results()
    ensures { (run : Run) → AreUnlocked (items run) → locks_of (items run) ≡ locks_in run }
{}
