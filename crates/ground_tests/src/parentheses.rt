//! Where arguments and parentheses end, worked out by hand, and deep inside many parentheses.

use dm_parentheses::{Ends, Sign};
use dm_token::Memory;
use std::alloc::Global;

// In each row tokens, where `end` leads from each index, their number among these, and where `closing` leads. `-` is nowhere, and `x`
// any other token.
const ROWS: &str = "\
( , x ) , | 4 1 3 3 4 - | - 3 3 3 - -
x ( ( , ) , ) , x ) | 7 7 5 3 4 5 6 7 9 9 - | 9 9 6 4 4 6 6 9 9 9 -
( , ( x , | - 1 - 4 4 - | - - - - - -
) ) ( | 0 1 - - | 0 1 - -
( ) ( ) x | - 1 - 3 - - | - 1 - 3 - -
, , ( , , ) ) , | 0 1 6 3 4 5 6 7 - | 6 6 6 5 5 5 6 - -";

fn sign_of(word: &str) -> Sign {
    match word.as_bytes() {
        [b'('] => Sign::Opening,
        [b')'] => Sign::Closing,
        [b','] => Sign::Comma,
        _ => Sign::Other,
    }
}

fn table_of(alloc: Global, tokens: &str) -> Result<Ends, Memory> {
    let mut signs = Vec::new(alloc);
    for word in tokens.split(' ') {
        signs.push(sign_of(word))?;
    }
    Ends::of(alloc, signs)
}

fn has_tokens(table: &Ends, tokens: &str) -> bool {
    for (index, word) in tokens.split(' ').enumerate() {
        if table.sign(index) != Some(sign_of(word)) {
            return false;
        }
    }
    true
}

fn ends_at(table: &Ends, places: &str) -> bool {
    for (from, word) in places.split(' ').enumerate() {
        if table.end(from) != word.parse::<usize>().ok() {
            return false;
        }
    }
    true
}

fn closes_at(table: &Ends, places: &str) -> bool {
    for (from, word) in places.split(' ').enumerate() {
        if table.closing(from) != word.parse::<usize>().ok() {
            return false;
        }
    }
    true
}

fn holds(alloc: Global, row: &str) -> Result<bool, Memory> {
    let Some((tokens, places)) = row.split_once(" | ") else {
        return Ok(false);
    };
    let Some((ends, closings)) = places.split_once(" | ") else {
        return Ok(false);
    };
    let table = table_of(alloc, tokens)?;
    Ok(has_tokens(&table, tokens) && ends_at(&table, ends) && closes_at(&table, closings))
}

#[test]
fn arguments_and_parentheses_end_where_they_should(rt: HostRuntime) {
    for row in ROWS.lines() {
        assert!(rt; holds(rt.alloc(), row) == Ok(true), "{row}");
    }
}

/// So many times `( ,` inside each other, and a `)` behind them.
fn nested(alloc: Global, depth: usize) -> Result<Ends, Memory> {
    let mut signs = Vec::new(alloc);
    for _ in 0..depth {
        signs.push(Sign::Opening)?;
        signs.push(Sign::Comma)?;
    }
    for _ in 0..depth {
        signs.push(Sign::Closing)?;
    }
    signs.push(Sign::Closing)?;
    Ends::of(alloc, signs)
}

/// Where some of a hundred thousand pairs of parentheses inside each other end.
fn deep_places(alloc: Global) -> Result<[Option<usize>; 5], Memory> {
    let table = nested(alloc, 100_000)?;
    Ok([
        table.end(0),
        table.closing(0),
        table.closing(1),
        table.end(199_998),
        table.closing(199_999),
    ])
}

#[test]
fn a_hundred_thousand_pairs_inside_each_other_end(rt: HostRuntime) {
    let wanted = [
        Some(300_000),
        Some(300_000),
        Some(299_999),
        Some(200_001),
        Some(200_000),
    ];
    assert!(rt; deep_places(rt.alloc()) == Ok(wanted));
}
