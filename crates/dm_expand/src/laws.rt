ghost use Rattle.std.specs.Prelude.{◌≡◌, ◌≤◌, ◌<◌, ◌+◌, ◌∷◌, [], ℕ, List, Ok, Err, Some, true};
ghost use Rattle.std.specs.FinSet as set;
ghost use Rattle.dm_expand.specs.Items.{Item};
ghost use Rattle.dm_expand.specs.Steps.{Progress, greatest_work};
ghost use Rattle.dm_expand.specs.Expansion as expansion;
ghost use Rattle.dm_expand.specs.Expansion.{Macros, Macro, Invocation};
ghost use Rattle.dm_expand.specs.Laws.{Follows, Each, AreNoNames};
ghost use Rattle.dm_expand.specs.ListViews.{gives};

/// The complete expansion of a list, by the case at its head (6.10.3.4): a token is put out before the expansion of what
/// follows it; the replacement of a macro takes the invocation's place and is expanded with what follows that; or the
/// invocation is refused.
pub fn cases_at_the_head()
    ensures nothing { (macros : Macros) (progress : Progress) → expansion.expanded macros [] progress ≡ Ok (gives [] progress) }
    ensures puts { (macros : Macros) (item out : Item) (rest : List Item) (progress : Progress) →
        expansion.head_of macros progress item rest ≡ expansion.put out →
        expansion.expanded macros (item ∷ rest) progress ≡ expansion.token_before out (expansion.expanded macros rest progress) }
    ensures replaces { (macros : Macros) (item : Item) (rest : List Item) (invocation : Invocation) (progress : Progress) →
        progress.spent ≤ greatest_work → expansion.head_of macros progress item rest ≡ expansion.replace invocation →
        expansion.expanded macros (item ∷ rest) progress ≡ expansion.replaced (expansion.expanded macros) invocation progress }
    ensures refuses { (macros : Macros) (item : Item) (rest : List Item) (progress : Progress) →
        expansion.head_of macros progress item rest ≡ expansion.refuse →
        expansion.expanded macros (item ∷ rest) progress ≡ Err (expansion.no_arguments item.pp.place) }
{}

/// An expansion always has an answer: tokens, or refusal 9 or 10, or limit 3. Its work keeps the limit, each expansion
/// counts as work, and the expansions are numbered in order.
pub fn always_an_answer()
    ensures { (macros : Macros) (tokens : List Item) (progress : Progress) → progress.spent ≤ greatest_work →
        Each (λ output. Follows progress output.progress) (expansion.expanded macros tokens progress) }
{}

/// No expansion nests deeper than its work may be: within any depth that is great enough it is the same.
pub fn depth_is_enough()
    ensures { (macros : Macros) (depth : ℕ) (tokens : List Item) (progress : Progress) →
        progress.spent ≤ greatest_work → greatest_work < depth + progress.spent →
        expansion.expanded_within macros depth tokens progress ≡ expansion.expanded macros tokens progress }
{}

/// A token whose name is in its own hide set is put out as it is (6.10.3.4p2).
pub fn hidden_name_stays()
    ensures { (macros : Macros) (macro : Macro) (item : Item) (rest : List Item) (progress : Progress) →
        expansion.macro_of macros item.pp ≡ Some macro → set.contains item.hidden macro.number ≡ true →
        expansion.expanded macros (item ∷ rest) progress ≡ expansion.token_before item (expansion.expanded macros rest progress) }
{}

/// A text without names of macros is its own expansion.
pub fn text_without_names_stays()
    ensures { (macros : Macros) (tokens : List Item) (progress : Progress) → AreNoNames macros tokens →
        expansion.expanded macros tokens progress ≡ Ok (gives tokens progress) }
{}
