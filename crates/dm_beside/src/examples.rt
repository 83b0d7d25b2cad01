//! Runs of macros in small units, and which rules they keep; each is proved by computing.

ghost use Rattle.std.specs.Prelude.{◌≡◌, true, false};
ghost use Rattle.dm_type.specs.Tables.{no_type};
ghost use Rattle.dm_beside.specs.Evaluation.{evaluates_alike};
ghost use Rattle.dm_beside.specs.Examples as examples;
ghost use Rattle.dm_beside.specs.Places.{is_subtree, is_value, may_be_constant};
ghost use Rattle.dm_beside.specs.Rules.{KeepsRules};

/// `MAX(x,y)`, whose parameters are read twice, keeps all rules; in `MAX(x,y)+g()` it does where `x` and `y` are automatic objects, which a
/// call can't write, and not where they are static ones, nor for what pointers point to.
pub fn arguments_may_be_read_twice()
    ensures alone { KeepsRules no_type (examples.returning true examples.greater) true 2 examples.run_of_max }
    ensures automatic { evaluates_alike no_type (examples.returning false examples.greater_and_call) examples.run_of_max ≡ true }
    ensures fixed { evaluates_alike no_type (examples.returning true examples.greater_and_call) examples.run_of_max ≡ false }
    ensures pointed { evaluates_alike no_type (examples.returning_at examples.pointed_and_call) examples.run_of_pointed ≡ false }
{}

/// The second operand of `&&` may be evaluated early where it is an integer that is set, and not where it may be none.
pub fn later_arguments_are_safe()
    ensures set { evaluates_alike no_type examples.set_unit examples.run_of_and ≡ true }
    ensures unset { evaluates_alike no_type examples.unset_unit examples.run_of_and ≡ false }
{}

/// `x++` may be passed where it is evaluated once, and not where it is twice.
pub fn stores_are_evaluated_once()
    ensures once { evaluates_alike no_type (examples.returning false examples.once) examples.run_of_once ≡ true }
    ensures twice { evaluates_alike no_type (examples.returning false examples.squared) examples.run_of_square ≡ false }
{}

/// `1+2` is no expression in `1+2*3`, though its arguments are; what is stored into is no value; and no constant of another type than int may
/// stand in an operand of `sizeof`, nor a function.
pub fn runs_stand_where_calls_may()
    ensures product { is_subtree (examples.returning false examples.sum_and_product) examples.run_of_sum ≡ false }
    ensures stored { is_value (examples.returning false examples.cleared) examples.run_of_clear ≡ false }
    ensures enumerator { may_be_constant no_type (examples.returning false (examples.size_of_ten examples.signed)) false examples.run_of_ten ≡ true }
    ensures object { may_be_constant no_type (examples.returning false (examples.size_of_ten examples.unsigned)) false examples.run_of_ten ≡ false }
    ensures evaluated { may_be_constant no_type (examples.returning false (examples.ten examples.unsigned)) false examples.run_of_ten ≡ true }
    ensures function { may_be_constant no_type (examples.returning false (examples.size_of_ten examples.signed)) true examples.run_of_ten ≡ false }
{}
