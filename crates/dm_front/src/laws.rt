//! What typing a front of a unit's external declarations gives.

ghost use Rattle.std.specs.Prelude.{◌≡◌, ◌++◌, List};
ghost use Rattle.dm_syn.specs.Trees.{External};
ghost use Rattle.dm_tree.specs.Units as unit;
ghost use Rattle.dm_typing.specs.Known.{Setting};
ghost use Rattle.dm_edecl.specs.Standing.{Standing, goes_on, further};
ghost use Rattle.dm_edecl.specs.Units.{typed_externals};
ghost use Rattle.dm_front.specs.Fronts.{IsFront};

/// External declarations are typed one after the other: first a front of them, then the others by what is known behind it. A rule that the
/// front breaks is the one that all break.
pub fn a_front_is_typed_first()
    ensures { (setting : Setting) (standing : Standing) (front others : List External) →
        typed_externals setting standing (front ++ others) ≡
        further (typed_externals setting standing front) (λ behind first. further (typed_externals setting behind others) (λ end more. goes_on end (first ++ more))) }
{}

/// So where all are typed a front is, and what it gives is a front of what all give.
pub fn a_front_is_typed_too()
    ensures { (setting : Setting) (standing end : Standing) (front others : List External) (made : List unit.External) →
        typed_externals setting standing (front ++ others) ≡ goes_on end made → IsFront setting standing front others end made }
{}
