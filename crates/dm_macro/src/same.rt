//! When two definitions are the same macro (6.10.3p1 to p2).

ghost use Rattle.std.specs.Prelude.{◌≡◌, ◌↔◌, IsTrue, map, drop};
ghost use Rattle.dm_macro.specs.Forms.{AreSame, AreIdentical};

use dm_token::{Definition, List, PpToken, Text};

/// Whether two definitions have the same form, parameters and replacement list.
pub(crate) fn are_same(one: &Definition, other: &Definition) -> bool
    ensures { IsTrue result ↔ AreSame one.now other.now }
{
    one.variadic == other.variadic
        && have_same_parameters(&one.parameters, &other.parameters)
        && are_identical(one.body.items(), other.body.items())
}

fn have_same_parameters(one: &Option<List<Text>>, other: &Option<List<Text>>) -> bool
    ensures { IsTrue result ↔ (one.now ≡ other.now) }
{
    match (one, other) {
        (None, None) => true,
        (Some(one), Some(other)) => have_same_names(one.items(), other.items()),
        _ => false,
    }
}

fn have_same_names(one: &[Text], other: &[Text]) -> bool
    ensures { IsTrue result ↔ (one.now ≡ other.now) }
{
    one == other
}

/// Whether two replacement lists have the same spellings and white space between the same tokens.
fn are_identical(one: &[PpToken], other: &[PpToken]) -> bool
    ensures { IsTrue result ↔ AreIdentical one.now other.now }
{
    have_same_spellings(one, other) && have_same_blanks(behind_first(one), behind_first(other))
}

fn behind_first(tokens: &[PpToken]) -> &[PpToken]
    ensures { result.now ≡ drop 1 tokens.now }
{
    match tokens {
        [] => tokens,
        [_, ..] => &tokens[1..],
    }
}

fn have_same_spellings(one: &[PpToken], other: &[PpToken]) -> bool
    ensures { IsTrue result ↔ (map (λ token. token.spelling) one.now ≡ map (λ token. token.spelling) other.now) }
{
    if one.len() != other.len() {
        return false;
    }
    for (index, token) in one.iter().enumerate() {
        if token.spelling != other[index].spelling {
            return false;
        }
    }
    true
}

fn have_same_blanks(one: &[PpToken], other: &[PpToken]) -> bool
    ensures { IsTrue result ↔ (map (λ token. token.blank_before) one.now ≡ map (λ token. token.blank_before) other.now) }
{
    if one.len() != other.len() {
        return false;
    }
    for (index, token) in one.iter().enumerate() {
        if token.blank_before != other[index].blank_before {
            return false;
        }
    }
    true
}
