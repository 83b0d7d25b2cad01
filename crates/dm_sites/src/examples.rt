//! Small units, and where expressions stand in them; each is proved by computing.

ghost use Rattle.std.specs.Prelude.{◌≡◌, [], ◌∷◌, Some, None};
ghost use Rattle.dm_sites.specs.Examples as examples;
ghost use Rattle.dm_sites.specs.Examples.{constant, span};
ghost use Rattle.dm_sites.specs.Sites.{site_of};

/// The tokens of an expression with parentheses round it and without are those of one expression, and so are those of a value and of
/// what is converted without being written. Of a subscript the sum is none of its own, nor the first comma of two.
pub fn expressions_stand_at_tokens()
    ensures without_parentheses { site_of (examples.with_body (examples.returned (examples.sum 11) ∷ [])) (span 14 15) ≡ Some (examples.plain (examples.sum 11) (1 ∷ []) (examples.enclosed_reading 14)) }
    ensures with_parentheses { site_of (examples.with_body (examples.returned (examples.sum 11) ∷ [])) (span 13 16) ≡ Some (examples.plain (examples.sum 11) (1 ∷ []) (examples.enclosed_reading 14)) }
    ensures unbalanced { site_of (examples.with_body (examples.returned (examples.sum 11) ∷ [])) (span 13 15) ≡ None }
    ensures too_many { site_of (examples.with_body (examples.returned (examples.sum 11) ∷ [])) (span 12 17) ≡ None }
    ensures converted { site_of (examples.with_body (examples.returned (examples.converted 11) ∷ [])) (span 11 12) ≡ Some (examples.plain (examples.converted 11) (0 ∷ []) (examples.reading 11)) }
    ensures subscripted { site_of (examples.with_body (examples.returned (examples.subscripted 11) ∷ [])) (span 11 15) ≡ Some (examples.plain (examples.subscripted 11) [] (examples.subscripted 11)) }
    ensures decayed { site_of (examples.with_body (examples.returned (examples.subscripted 11) ∷ [])) (span 11 12) ≡ Some (examples.plain (examples.subscripted 11) (0 ∷ 0 ∷ 0 ∷ []) (examples.first_element 11)) }
    ensures first_comma { site_of (examples.with_body (examples.returned (examples.commas 11) ∷ [])) (span 11 14) ≡ None }
    ensures commas { site_of (examples.with_body (examples.returned (examples.commas 11) ∷ [])) (span 11 16) ≡ Some (examples.plain (examples.commas 11) [] (examples.commas 11)) }
    ensures statement { site_of (examples.with_body (examples.statement (constant 11 1) ∷ [])) (span 10 50) ≡ None }
{}

/// Array lengths and the values of `case` want constants, initialisers are those of objects with static storage duration or not, and an
/// operand of `sizeof` isn't evaluated.
pub fn places_tell_what_stands_round_them()
    ensures length { site_of (examples.with_body (examples.declared_array 0 (constant 12 2) (constant 14 1) ∷ [])) (span 12 13) ≡ Some (examples.wanting_constant (constant 12 2)) }
    ensures behind_length { site_of (examples.with_body (examples.declared_array 0 (constant 12 2) (constant 14 1) ∷ [])) (span 14 15) ≡ Some (examples.plain (constant 14 1) [] (constant 14 1)) }
    ensures case { site_of (examples.with_body (examples.labelled (constant 11 1) (constant 13 2) ∷ [])) (span 11 12) ≡ Some (examples.wanting_constant (constant 11 1)) }
    ensures behind_case { site_of (examples.with_body (examples.labelled (constant 11 1) (constant 13 2) ∷ [])) (span 13 14) ≡ Some (examples.plain (constant 13 2) [] (constant 13 2)) }
    ensures automatic { site_of (examples.with_body (examples.declared 0 (constant 14 1) ∷ [])) (span 14 15) ≡ Some (examples.plain (constant 14 1) [] (constant 14 1)) }
    ensures static_in_block { site_of (examples.with_body (examples.declared 1 (constant 14 1) ∷ [])) (span 14 15) ≡ Some (examples.initialising_static (constant 14 1)) }
    ensures in_file_scope { site_of (examples.with_external (constant 14 1)) (span 14 15) ≡ Some (examples.initialising_static (constant 14 1)) }
    ensures size { site_of (examples.with_body (examples.returned (examples.size 11) ∷ [])) (span 12 13) ≡ Some (examples.not_evaluated (examples.size 11) (0 ∷ []) (examples.reading 12)) }
{}
