//! A small unit that meets the premises of the law.

ghost use Rattle.std.specs.Prelude.{[]};
ghost use Rattle.dm_type.specs.Tables.{no_type};
ghost use Rattle.dm_tree.specs.Typing.{IsWellTypedUnit};
ghost use Rattle.dm_scoped.specs.Spans.{IsLaidOutUnit};
ghost use Rattle.dm_standing.specs.Examples as calls;
ghost use Rattle.dm_standing.specs.Calls.{MayCall};

/// `int n; int f(void) { return LATEST(); }` with `#define LATEST() n`: it is well typed, its nodes stand in order, and a call may stand where the
/// run does.
pub fn a_run_may_be_a_call()
    ensures typed { IsWellTypedUnit no_type calls.old }
    ensures layout { IsLaidOutUnit calls.old }
    ensures may_call { MayCall no_type calls.old calls.run }
{}
