//! What holds of the words.

ghost use Rattle.std.specs.Prelude.{◌≡◌, ℕ, List};
ghost use Rattle.dm_words.specs.Requests.{AsksFor, Request};

/// Words ask for at most one request.
pub fn one_request()
    ensures { (words : List (List ℕ)) (a b : Request) → AsksFor words a → AsksFor words b → a ≡ b }
{}
