//! The tokens of translation phase 7 of C (ISO/IEC 9899:2011, 6.4): keywords, identifiers, constants, string literals
//! and punctuators, made of preprocessing tokens.
#![tactic(auto)]

ghost use Rattle.dm_token.specs.Answer.{Gives};
ghost use Rattle.dm_ctok.specs.Tokens.{ctokens_of};

mod digits;
mod escape;
mod integer;
mod joining;
mod laws;
mod token;

use dm_spell::keywords;
use dm_token::{CToken, List, Stop, Token};
pub use escape::character_constant;
pub use integer::{Constant, Suffix, integer_constant, kind_of};
use joining::Joiner;
pub use laws::{elements_in_turn, longest_common_prefix};
use std::alloc::Global;
pub use token::is_prefixed;

/// The tokens of translation phase 7 that preprocessing tokens become (6.4), with adjacent string literals joined
/// (5.1.1.2p1, phase 6).
///
/// # Errors
///
/// The first token that becomes none is refused, at its place: as 1 a stray or a header name, as 3 a lone quote, as 15 a
/// number or a character constant without a value, or a literal with an escape sequence without one, and as 18 a keyword
/// that is left out of the language, or a constant or literal with an encoding prefix.
pub fn ctokens(alloc: Global, tokens: &[Token]) -> Result<List<CToken>, Stop>
    ensures { Gives (λ given. given) result (ctokens_of tokens.now) }
{
    let keywords = keywords();
    let mut joiner = Joiner::with_room(alloc, tokens.len())?;
    for token in tokens {
        joiner.take(alloc, &keywords, token)?;
    }
    Ok(joiner.finish(alloc)?)
}
