//! What holds of the texts in a report.

ghost use Rattle.std.specs.Prelude.{◌≡◌, ℕ, List};
ghost use Rattle.std.specs.Str.{IsAscii};
ghost use Rattle.std.specs.Str.Lossy.{utf8_lossy};

/// Names of ASCII bytes, as all normal names and identifiers are, are put as they are.
pub fn ascii_names_stay()
    ensures { (name : List ℕ) → IsAscii name → utf8_lossy name ≡ name }
{}
