//! Small units, and what their typing comes to. It is what ISO/IEC 9899:2011 says; each is proved by computing.

ghost use Rattle.std.specs.Prelude.{◌≡◌, Some, ◌∷◌, []};
ghost use Rattle.dm_int.specs.declared.Kind.TheVariants.{Int};
ghost use Rattle.dm_type.specs.CTypes.{integer, array};
ghost use Rattle.dm_edecl.specs.Examples as examples;
ghost use Rattle.dm_edecl.specs.Examples.{rule_of, kinds_of};

/// A broken rule has a number and the token at which it is broken: two types of one object (6.7p4), a `break` outside loops and
/// switches (6.8.6.3p1), more initialisers than elements (6.7.9p2).
#[tactic(auto, unfolding(crate::specs::Statements::typed_stmt, crate::specs::Initialising::typed_initialiser, crate::specs::Initialising::expressions_alone, dm_typing::specs::Typing::typed_within, dm_syn::specs::Sources::symbol_at, dm_syn::specs::Sources::spelling_at, dm_syn::specs::Symbols::symbol_of))]
pub fn the_first_broken_rule_has_a_place()
    // two types of one object (6.7p4)
    ensures twice { rule_of examples.twice_tokens examples.twice ≡ Some (2, 4) }
    // a `break` outside loops and switches (6.8.6.3p1)
    ensures loose { rule_of examples.loose_tokens examples.loose ≡ Some (33, 6) }
    // more initialisers than elements (6.7.9p2)
    ensures surplus { rule_of examples.surplus_tokens examples.surplus ≡ Some (8, 6) }
{}

/// Two declarations of one object make one entry, whose type is the composite type (6.2.7p3).
#[tactic(auto, unfolding(crate::specs::Statements::typed_stmt, crate::specs::Initialising::typed_initialiser, crate::specs::Initialising::expressions_alone, dm_typing::specs::Typing::typed_within, dm_syn::specs::Sources::symbol_at, dm_syn::specs::Sources::spelling_at, dm_syn::specs::Symbols::symbol_of))]
pub fn declarations_of_one_object_share_an_entry()
    // its type is the composite type (6.2.7p3)
    ensures completed { kinds_of examples.completed_tokens examples.completed ≡ Some (array (integer Int) (Some 2) ∷ []) }
{}
