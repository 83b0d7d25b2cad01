//! Expressions without names, and what the typing gives for them. It is what ISO/IEC 9899:2011 says; each is proved by computing.

ghost use Rattle.std.specs.Prelude.{◌≡◌, Some, pos};
ghost use Rattle.dm_int.specs.declared.Kind.TheVariants.{UInt, ULong};
ghost use Rattle.dm_type.specs.CTypes.{integer};
ghost use Rattle.dm_typing.specs.Examples as examples;
ghost use Rattle.dm_typing.specs.Examples.{type_of, value_of, rule_of};

/// Operands are converted to a common type (6.3.1.8), so `-1 < 1u` is 0.
#[tactic(auto, unfolding(crate::specs::Typing::typed_within, dm_syn::specs::Sources::symbol_at, dm_syn::specs::Sources::spelling_at, dm_syn::specs::Symbols::symbol_of))]
pub fn operands_come_to_a_common_type()
    // 6.3.1.8
    ensures sum { type_of examples.sum_tokens examples.sum ≡ Some (integer UInt) }
    // -1 becomes the greatest unsigned int
    ensures less { value_of examples.less_tokens examples.less ≡ Some (pos 0) }
{}

/// A broken rule has a number and the token at which it is broken: `&` has an lvalue (6.5.3.2p1), `*` a pointer (6.5.3.2p2).
#[tactic(auto, unfolding(crate::specs::Typing::typed_within, dm_syn::specs::Sources::symbol_at, dm_syn::specs::Sources::spelling_at, dm_syn::specs::Symbols::symbol_of))]
pub fn the_first_broken_rule_has_a_place()
    // & has an lvalue (6.5.3.2p1)
    ensures address { rule_of examples.address_tokens examples.address ≡ Some (14, 0) }
    // * has a pointer (6.5.3.2p2), and a part comes before the whole
    ensures follow { rule_of examples.follow_tokens examples.follow ≡ Some (15, 4) }
{}

/// What `sizeof` gives is an integer constant of type unsigned long.
#[tactic(auto, unfolding(crate::specs::Typing::typed_within, dm_syn::specs::Sources::symbol_at, dm_syn::specs::Sources::spelling_at, dm_syn::specs::Symbols::symbol_of))]
pub fn sizes_are_unsigned_long()
    ensures kind { type_of examples.size_tokens examples.size ≡ Some (integer ULong) }
    ensures value { value_of examples.size_tokens examples.size ≡ Some (pos 1) }
{}
