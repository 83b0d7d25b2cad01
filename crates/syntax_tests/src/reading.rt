//! What the tests ask of `next_external`. `T` names a type at first, and no other name does.

ghost use Rattle.std.specs.Prelude.{◌≤◌, ◌<◌, length};

use dm_pexpr::Names;
use dm_pstmt::next_external;
use dm_syn::External;
use dm_token::{Boxed, CToken, List, Place, Refusal, Stop, refusals};
use std::alloc::Global;
use std::test::Fail;
use test_words::{tokens_of, type_names};

/// `T`, which names a type.
pub fn typedefs_of(alloc: Global) -> Result<Names, Fail> {
    Ok(type_names(alloc, &["T"])?)
}

/// The external declaration at a position, and the position behind it.
pub fn external_at(
    alloc: Global,
    tokens: &[CToken],
    at: u32,
    typedefs: &mut Names,
) -> Result<(Boxed<External>, u32), Stop>
    requires few { length tokens.now ≤ 4294967295 }
    requires within { at < length tokens.now }
{
    let (external, after) = next_external(alloc, tokens, at, typedefs)?;
    let external = Boxed::new(alloc, external)?;
    Ok((external, after))
}

/// Where the external declaration at a position ends. Behind the tokens it is that position.
pub fn end_at(
    alloc: Global,
    tokens: &[CToken],
    at: u32,
    typedefs: &mut Names,
) -> Result<u32, Stop> {
    if tokens.len() > u32::MAX as usize || at as usize >= tokens.len() {
        return Ok(at);
    }
    let (_, after) = external_at(alloc, tokens, at, typedefs)?;
    Ok(after)
}

/// Whether the tokens are one external declaration.
pub fn is_external(alloc: Global, tokens: &List<CToken>) -> Result<bool, Fail> {
    let mut typedefs = typedefs_of(alloc)?;
    match end_at(alloc, tokens.items(), 0, &mut typedefs) {
        Ok(after) => Ok(after as usize == tokens.len()),
        Err(_) => Ok(false),
    }
}

/// The refusal of syntax at a column.
pub fn refused_at(column: u32) -> Stop {
    Stop::Refused(Refusal {
        number: refusals::SYNTAX,
        detail: 0,
        place: Place {
            file: 0,
            byte: 0,
            line: 1,
            column,
        },
    })
}

/// Whether the first so many tokens are refused at the first one.
pub fn is_refused(alloc: Global, tokens: &List<CToken>, kept: usize) -> Result<bool, Fail> {
    let mut typedefs = typedefs_of(alloc)?;
    match tokens.items().get(..kept) {
        Some(first) => Ok(end_at(alloc, first, 0, &mut typedefs) == Err(refused_at(0))),
        None => Ok(false),
    }
}

/// How many external declarations stand one behind the other, and what stops them.
pub fn unit_of(alloc: Global, words: &str) -> Result<(u32, Option<Stop>), Fail> {
    let tokens = tokens_of(alloc, words)?;
    let mut typedefs = typedefs_of(alloc)?;
    let mut count: u32 = 0;
    let mut at: u32 = 0;
    for _ in 0..tokens.len() {
        if at as usize >= tokens.len() {
            break;
        }
        match end_at(alloc, tokens.items(), at, &mut typedefs) {
            Ok(after) => at = after,
            Err(stop) => return Ok((count, Some(stop))),
        }
        count = count.saturating_add(1);
    }
    Ok((count, None))
}
