//! The value of a condition in `#if` and `#elif` (ISO/IEC 9899:2011, 6.10.1).
#![tactic(auto)]

ghost use Rattle.std.specs.Prelude.{◌≡◌, Bool, List, IfOk, IfErr};
ghost use Rattle.dm_token.specs.Refusals as refusals;
ghost use Rattle.dm_token.specs.declared.token.Token.{Token};
ghost use Rattle.dm_token.specs.declared.stop.Stop.TheVariants.{Refused};
ghost use Rattle.dm_cond.specs.Readings.{HasTruth};
ghost use Rattle.dm_cond.specs.Answers.{Refuses};

mod frame;
mod parser;
mod symbol;
mod value;

use dm_token::{Place, Refusal, Stop, Token, refusals};
use parser::Parser;
use std::alloc::Global;
use symbol::symbol_of;
use value::is_true;

/// Whether the value of a condition is other than 0, where `defined` and macros are replaced (6.10.1p4). `at` is the
/// place of the directive's `#`.
///
/// # Errors
///
/// Refused as 13 where the tokens are no conditional expression on integers, or where evaluating it breaks a rule.
pub fn condition(alloc: Global, tokens: &[Token], at: Place) -> Result<bool, Stop>
    ensures value { IfOk result (HasTruth tokens.now) }
    ensures stop { IfErr result (Refuses tokens.now at) }
{
    let mut parser = Parser::new(alloc);
    for token in tokens {
        let Some(symbol) = symbol_of(token) else {
            return Err(no_value(at));
        };
        if !parser.take(symbol)? {
            return Err(no_value(at));
        }
    }
    match parser.number() {
        Some(number) => Ok(is_true(number)),
        None => Err(no_value(at)),
    }
}

// The refusal of a condition without a value.
fn no_value(at: Place) -> Stop
    ensures { result ≡ Refused (record { number = refusals.condition; detail = 0; place = at }) }
{
    Stop::Refused(Refusal {
        number: refusals::CONDITION,
        detail: 0,
        place: at,
    })
}

/// A condition has at most one value.
pub fn one_truth()
    ensures { (tokens : List Token) (a b : Bool) → HasTruth tokens a → HasTruth tokens b → a ≡ b }
{}
