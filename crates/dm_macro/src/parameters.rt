//! The parameter list of a function-like macro.

ghost use Rattle.std.specs.Prelude.{◌≡◌, ◌↔◌, IsTrue, IfOk};
ghost use Rattle.dm_macro.specs.Forms.{IsParameterList, names_in};
ghost use Rattle.dm_macro.specs.ParameterLists.{after as follower, may_end};

use crate::sign::{is_comma, is_ellipsis, is_identifier};
use dm_token::{Memory, PpToken, Text};
use std::alloc::Global;

/// What may come next in a parameter list.
#[derive(Clone, Copy)]
pub(crate) enum Expected {
    ItemOrEnd,
    Item,
    CommaOrEnd,
    End,
}

impl Expected {
    /// What may come behind the token, if that may come here.
    fn after(self, token: &PpToken) -> Option<Expected>
        ensures { result ≡ follower self token.now.kind }
    {
        match self {
            Expected::ItemOrEnd | Expected::Item if is_identifier(token) => {
                Some(Expected::CommaOrEnd)
            }
            Expected::ItemOrEnd | Expected::Item if is_ellipsis(token) => Some(Expected::End),
            Expected::CommaOrEnd if is_comma(token) => Some(Expected::Item),
            _ => None,
        }
    }

    fn may_end(self) -> bool
        ensures { result ≡ may_end self }
    {
        !matches!(self, Expected::Item)
    }
}

/// Whether the tokens are names and then perhaps `...`, with commas between them.
pub(crate) fn is_parameter_list(tokens: &[PpToken]) -> bool
    ensures { IsTrue result ↔ IsParameterList tokens.now }
{
    let mut expected = Expected::ItemOrEnd;
    for token in tokens {
        match expected.after(token) {
            Some(next) => expected = next,
            None => return false,
        }
    }
    expected.may_end()
}

/// The spellings of the identifiers among the tokens.
pub(crate) fn names_in_list(alloc: Global, tokens: &[PpToken]) -> Result<Vec<Text>, Memory>
    ensures { IfOk result (λ names. names.items ≡ names_in tokens.now) }
{
    let mut names = Vec::new(alloc);
    for token in tokens {
        if is_identifier(token) {
            names.push(token.spelling.copy()?)?;
        }
    }
    Ok(names)
}
