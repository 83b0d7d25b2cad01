ghost use Rattle.std.specs.Prelude.{◌≡◌, ℕ, ◌+◌, List, [], ◌∷◌, ◌++◌, length, map, Option, Some, slice_get};
ghost use Rattle.dm_token.specs.declared.place.Place.{Place};
ghost use Rattle.dm_type.specs.CTypes.{CType};
ghost use Rattle.dm_type.specs.Tables.{Table};
ghost use Rattle.dm_tree.specs.declared.tree.Core.{Core};
ghost use Rattle.dm_tree.specs.Views.{view};
ghost use Rattle.dm_meaning.specs.Choices.{in_order, stepped};
ghost use Rattle.dm_meaning.specs.Expressions.{Move, going_on, lifted, moves};
ghost use Rattle.dm_meaning.specs.Machines.{going};
ghost use Rattle.dm_meaning.specs.Operations.{World, Scene};
ghost use Rattle.dm_meaning.specs.Programs.{Program};
ghost use Rattle.dm_meaning.specs.Running.{Doing, Run, Hole, begun, done, every, filled_in, hole_in, locks_in, open_parts};
ghost use Rattle.dm_meaning.specs.States.{Use, Task, State, evaluates};
ghost use Rattle.dm_meaning.specs.Steps.{moved, scene_of};
ghost use Rattle.dm_meaning.specs.Values.{At};
ghost use Rattle.dm_postfix.specs.Postfix.{Evaluated, node_of, no_slots, operand};
ghost use Rattle.dm_postfix.specs.Reductions.{step_at};
ghost use Rattle.dm_row.specs.Counts.{weight_in};
ghost use Rattle.dm_row.specs.declared.item.Item.{Item};
ghost use Rattle.dm_row.specs.declared.item.Item.TheVariants.{Done, Waits};
ghost use Rattle.dm_expression.specs.declared.results.Taken.{Taken};
ghost use Rattle.dm_expression.specs.declared.waiting.Waiting.{Waiting};
ghost use Rattle.dm_expression.specs.Given.{lock_list, with_lock, without};
ghost use Rattle.dm_expression.specs.Standing.{Lacks, Stands};
ghost use Rattle.dm_expression.specs.Left.{first_locks, hole_left, last_locks, operands_left, own_locks};
ghost use Rattle.dm_expression.specs.Taken.{number_of, IsTaken};
ghost use Rattle.dm_expression.specs.Waiting.{view_of_waiting, IsPut};

/// An expression that begins stands for its tree, of which nothing is evaluated.
pub fn expressions_begin<R, L>()
    ensures { (see : R → List L → Evaluated) (types : Table) (tree : Core) (row : List (Item R Waiting) × List (Item R Waiting)) → IsPut tree ([], []) row
        → Stands see types row [] (begun (view types tree)) }
{}

/// The node that is taken out is that whose step is the move of the number, or the last.
pub fn taken_nodes_move<R, L>()
    ensures { (see : R → List L → Evaluated) (types : Table) (choice : ℕ) (old new : List (Item R Waiting) × List (Item R Waiting)) (locks : List L) (run : Run) (all : Taken R)
        → Stands see types old locks run → (taken : IsTaken choice old new all) → (scene : Scene) (world : World) (held : List At)
        → slice_get (moves scene world held run) (number_of choice (length (moves scene world held run)))
        ≡ Some (lifted (filled_in (hole_left see types locks new all)) (hole_in (hole_left see types locks new all))
        (step_at scene world held (view_of_waiting types all.node) (operands_left see locks new all taken.pairs))) }
{}

/// With a result in the node's place the expression stands for the tree with that result there, which has the locks of the
/// operands, and another one in front of them, if there is one.
pub fn results_stand_in_place<R, L>()
    ensures { (see : R → List L → Evaluated) (types : Table) (choice : ℕ) (old new : List (Item R Waiting) × List (Item R Waiting)) (locks : List L) (run : Run) (all : Taken R)
        → Stands see types old locks run → IsTaken choice old new all → (value : R) (lock : Option L)
        → let one = see value (lock_list lock ++ own_locks locks new all) in
        Stands see types (new.0 ++ Done value (all.locks + length (lock_list lock)) ∷ [], new.1) (with_lock (weight_in new.0) lock locks)
        (filled_in (hole_left see types locks new all) (done one.kind one.result one.locks)) }
{}

/// With an operand that was chosen in the node's place, for whose value the node waits, it stands for the tree that goes on with
/// that operand.
pub fn chosen_operands_stand_in_place<R, L>()
    ensures { (see : R → List L → Evaluated) (types : Table) (choice : ℕ) (old new last : List (Item R Waiting) × List (Item R Waiting)) (locks : List L) (run : Run) (all : Taken R)
        → Stands see types old locks run → IsTaken choice old new all → (outer : Waiting) (inner : Core) (doing : Doing) (kind : CType) (place : Place) → open_parts doing ≡ every
        → view_of_waiting types outer ≡ node_of doing kind place (operand no_slots) → IsPut inner (new.0, Waits outer 1 ∷ new.1) last
        → Stands see types last (without (weight_in new.0) all.locks locks) (filled_in (hole_left see types locks new all) (going_on doing kind place (begun (view types inner)))) }
{}

/// Once the locks of the operands are released, it stands for the tree without the node.
pub fn holes_stay_where_nodes_were_taken<R, L>()
    ensures { (see : R → List L → Evaluated) (types : Table) (choice : ℕ) (old new : List (Item R Waiting) × List (Item R Waiting)) (locks : List L) (run : Run) (all : Taken R)
        → Stands see types old locks run → IsTaken choice old new all
        → (without (weight_in new.0) all.locks locks ≡ first_locks locks new ++ last_locks locks new all)
        × Lacks see types new (first_locks locks new) (last_locks locks new all) (hole_left see types locks new all) }
{}

/// A result put into a tree without a node stands there, with its locks.
pub fn results_fill_holes<R, L>()
    ensures { (see : R → List L → Evaluated) (types : Table) (row : List (Item R Waiting) × List (Item R Waiting)) (first own last : List L) (hole : Hole) (value : R) (weight : ℕ)
        → Lacks see types row first last hole → weight ≡ length own
        → Stands see types (row.0 ++ Done value weight ∷ [], row.1) (first ++ (own ++ last)) (filled_in hole (done (see value own).kind (see value own).result (see value own).locks)) }
{}

/// A state in which an expression is under evaluation goes on with the move of the choice, or the last.
pub fn moves_are_chosen()
    ensures { (program : Program) (choice : ℕ) (state : State) (place : Place) (run : Run) (use_of : Use) (rest : List Task) (move : Move Run Hole)
        → state.standing ≡ going → state.frame.tasks ≡ evaluates place run use_of ∷ rest
        → slice_get (moves (scene_of program state) state.world (locks_in run) run) (number_of choice (length (moves (scene_of program state) state.world (locks_in run) run))) ≡ Some move
        → stepped program choice state ≡ moved program (in_order state.world.memory) state rest place use_of move }
{}
