//! Conditions and their values. What holds and what doesn't agrees with `gcc -std=c11 -pedantic-errors -E` (12.2), but for
//! what gcc computes and is refused here: the shifts that 6.5.7 leaves undefined, the remainder that 6.5.5p6 does, a
//! constant with an encoding prefix, and one of two characters.

use dm_cond::condition;
use dm_token::{List, Place, PpKind, PpToken, Refusal, Stop, Text, Token, Trail};
use std::alloc::Global;
use std::process::Abort;
use std::test::Fail;

const PLACE: Place = Place {
    file: 2,
    byte: 9,
    line: 3,
    column: 1,
};

/// The kind of a word by its first byte.
fn kind_of(word: &str) -> PpKind {
    match word.as_bytes() {
        [b'0'..=b'9', ..] => PpKind::Number,
        [b'\'' | b'L', ..] => PpKind::Character,
        [b'a'..=b'z' | b'A'..=b'Z' | b'_', ..] => PpKind::Identifier,
        [b'"', ..] => PpKind::Literal,
        [b'@', ..] => PpKind::Stray,
        _ => PpKind::Punctuator(0),
    }
}

/// The tokens of words between blanks.
fn tokens_of(alloc: Global, words: &str) -> Result<List<Token>, Fail> {
    let mut tokens = List::new(alloc);
    for word in words.split(' ') {
        if word.is_empty() {
            continue;
        }
        tokens.push(Token {
            pp: PpToken {
                kind: kind_of(word),
                spelling: Text::new(alloc, word)?,
                place: PLACE,
                end: 0,
                blank_before: true,
                line_first: false,
            },
            trail: Trail::empty(alloc),
        })?;
    }
    Ok(tokens)
}

const TRUE: [&str; 34] = [
    "1 ? 2 : ( 1 / 0 )",
    "- 1 > 0u",
    "1 || 1 / 0",
    "0 ? 1 / 0 : 2",
    "1u << 63",
    "'a' == 97",
    "'\\377' < 0",
    "~ 0u == 18446744073709551615u",
    "! 0",
    "! ! 5 == 1",
    "- - 1",
    "1 - 2 - 3 == - 4",
    "2 * 3 + 4 * 5 == 26",
    "7 / - 2 == - 3",
    "7 % - 2 == 1",
    "- 7 % 2 == - 1",
    "1 + 2 << 1 == 6",
    "1 | 2 ^ 3 & 4",
    "1 < 2 < 3",
    "1 || 0 && 0",
    "1 ? 2 : 0 ? 0 : 0",
    "x == 0",
    "0x8000000000000000 > 0",
    "0xFFFFFFFFFFFFFFFF",
    "( 1 ? - 1 : 0u ) > 0",
    "( 0 ? 0u : - 1 ) > 0",
    "- 9223372036854775807 - 1 < 0",
    "- 8 >> 1 == - 4",
    "1 == 1 != 0",
    "0 ? 1 , 2 : 3",
    "0 ? ( 1 , 2 ) : 3",
    "1 & 2 == 2",
    "4 >= 4",
    "3 <= 4",
];

const FALSE: [&str; 10] = [
    "0 && 1 / 0",
    "1 ? 0 : 1 / 0",
    "3 > 2 > 1",
    "0 || 0 && 1",
    "0 ? 1 : 0 ? 1 : 0",
    "0 && ( 1 , 2 )",
    "x",
    "( 1 ? 0 : 0u ) - 1 < 0",
    "( ( ( 0 ) ) )",
    "1 != 1",
];

const WITHOUT_VALUE: [&str; 38] = [
    "",
    "1 / 0",
    "1 % 0",
    "9223372036854775807 + 1",
    "- 1 << 1",
    "1 << 63",
    "1 << 64",
    "1 >> - 1",
    "( 1 , 2 )",
    "1 , 2",
    "1 ? 1 , 2 : 3",
    "9223372036854775808",
    "18446744073709551616u",
    "( - 9223372036854775807 - 1 ) / - 1",
    "( - 9223372036854775807 - 1 ) % - 1",
    "( 1",
    "1 )",
    "1 2",
    "= 1",
    "1 = 1",
    "1 +",
    "( )",
    "1 ? 2",
    "1 ? : 2",
    "1 : 2",
    "!",
    "\"x\"",
    "1.0",
    "08",
    "++ 1",
    "a ( 1 )",
    "@",
    "L'a'",
    "'ab'",
    "0 && 08",
    "12ab",
    "1 ? 2 : 3 : 4",
    "* 1",
];

/// Each condition has this value.
fn expect(
    rt: &impl Abort,
    alloc: Global,
    conditions: &[&str],
    wanted: Result<bool, Stop>,
) -> Result<(), Fail> {
    for words in conditions {
        let tokens = tokens_of(alloc, words)?;
        assert_eq!(rt; condition(alloc, tokens.items(), PLACE), wanted, "{words}");
    }
    Ok(())
}

#[test]
fn conditions_have_the_values_that_the_standard_gives(rt: HostRuntime) -> Result<(), Fail> {
    expect(&rt, rt.alloc(), &TRUE, Ok(true))?;
    expect(&rt, rt.alloc(), &FALSE, Ok(false))?;
    let refusal = Stop::Refused(Refusal {
        number: 13,
        detail: 0,
        place: PLACE,
    });
    expect(&rt, rt.alloc(), &WITHOUT_VALUE, Err(refusal))
}

/// The token of a punctuator.
fn punctuator(alloc: Global, spelling: &str) -> Result<Token, Fail> {
    Ok(Token {
        pp: PpToken {
            kind: PpKind::Punctuator(0),
            spelling: Text::new(alloc, spelling)?,
            place: PLACE,
            end: 0,
            blank_before: true,
            line_first: false,
        },
        trail: Trail::empty(alloc),
    })
}

#[test]
fn deep_conditions_take_no_more_of_the_stack(rt: HostRuntime) -> Result<(), Fail> {
    for opening in ["(", "!", "-"] {
        let first = punctuator(rt.alloc(), opening)?;
        let mut tokens = List::new(rt.alloc());
        for _ in 0..300_000 {
            tokens.push(first.copy()?)?;
        }
        assert!(rt; condition(rt.alloc(), tokens.items(), PLACE).is_err());
    }
    Ok(())
}
