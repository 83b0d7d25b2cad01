//! The first choices of some orders, computed apart by the generator's formula. Each is proved by computing.

ghost use Rattle.std.specs.Prelude.{◌≡◌, [], ◌∷◌};
ghost use Rattle.dm_exec.specs.Orders.{choices};

/// Order 0 always chooses the first step, order 1 the last one, and each other one of the first four by the numbers of the
/// generator.
#[tactic(auto, unfolding(crate::specs::Orders::turned))]
pub fn orders_choose_as_their_generator_says()
    ensures always_first { choices 0 3 ≡ 0 ∷ 0 ∷ 0 ∷ [] }
    ensures always_last { choices 1 3 ≡ 18446744073709551615 ∷ 18446744073709551615 ∷ 18446744073709551615 ∷ [] }
    ensures order_2 { choices 2 8 ≡ 0 ∷ 2 ∷ 0 ∷ 0 ∷ 3 ∷ 3 ∷ 0 ∷ 2 ∷ [] }
    ensures order_7 { choices 7 8 ≡ 2 ∷ 3 ∷ 1 ∷ 1 ∷ 1 ∷ 3 ∷ 0 ∷ 0 ∷ [] }
    ensures greatest { choices 18446744073709551615 8 ≡ 0 ∷ 3 ∷ 1 ∷ 2 ∷ 0 ∷ 3 ∷ 1 ∷ 3 ∷ [] }
{}
