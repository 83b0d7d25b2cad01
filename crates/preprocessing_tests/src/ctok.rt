//! Worked tokens, what is refused, and gcc's answers.

mod tables;

use dm_ctok::{Constant, Suffix, character_constant, ctokens, integer_constant, kind_of};
use dm_int::Kind;
use dm_token::{
    CToken, Class, List, Mark, Place, PpKind, PpToken, Refusal, Stop, Text, Token, Trail,
};
use std::alloc::Global;
use std::fmt::Write;
use std::process::Abort;
use std::test::Fail;

/// The place of a byte of the first line.
fn place(byte: u32) -> Place {
    Place {
        file: 1,
        byte,
        line: 1,
        column: byte.saturating_add(1),
    }
}

/// A preprocessing token that begins at a byte.
fn token(alloc: Global, kind: PpKind, spelling: &[u8], byte: u32) -> Result<Token, Fail> {
    Ok(Token {
        pp: PpToken {
            kind,
            spelling: Text::from_bytes(alloc, spelling)?,
            place: place(byte),
            end: byte,
            blank_before: true,
            line_first: false,
        },
        trail: Trail::empty(alloc),
    })
}

/// A token of phase 7 that begins at a byte.
fn ctoken(alloc: Global, class: Class, spelling: &[u8], byte: u32) -> Result<CToken, Fail> {
    Ok(CToken {
        class,
        spelling: Text::from_bytes(alloc, spelling)?,
        value: 0,
        kind: 0,
        place: place(byte),
        trail: Trail::empty(alloc),
    })
}

/// Preprocessing tokens, one at each byte.
fn row(alloc: Global, spelled: &[(PpKind, &[u8])]) -> Result<Vec<Token>, Fail> {
    let mut tokens = Vec::new(alloc);
    let mut byte = 0u32;
    for (kind, spelling) in spelled {
        tokens.push(token(alloc, *kind, spelling, byte)?)?;
        byte = byte.saturating_add(1);
    }
    Ok(tokens)
}

/// Checks that preprocessing tokens become one.
fn expect_one<R: Abort + AllocGlobal>(
    rt: &R,
    spelled: &[(PpKind, &[u8])],
    wanted: CToken,
) -> Result<(), Fail> {
    let mut all = List::new(rt.alloc());
    all.push(wanted)?;
    assert_eq!(rt; ctokens(rt.alloc(), &row(rt.alloc(), spelled)?), Ok(all));
    Ok(())
}

/// Checks the value and the kind of a constant.
fn expect_constant<R: Abort + AllocGlobal>(
    rt: &R,
    kind: PpKind,
    spelling: &[u8],
    value: i128,
    of: Kind,
) -> Result<(), Fail> {
    let mut wanted = ctoken(rt.alloc(), Class::Integer, spelling, 0)?;
    wanted.value = value;
    wanted.kind = of as u8;
    expect_one(rt, &[(kind, spelling)], wanted)
}

/// Checks which of preprocessing tokens is refused, by its byte, and as which number.
fn expect_refused<R: Abort + AllocGlobal>(
    rt: &R,
    spelled: &[(PpKind, &[u8])],
    byte: u32,
    number: u8,
) -> Result<(), Fail> {
    let refusal = Refusal {
        number,
        detail: 0,
        place: place(byte),
    };
    assert_eq!(rt;
        ctokens(rt.alloc(), &row(rt.alloc(), spelled)?).err(),
        Some(Stop::Refused(refusal)),
        "in {spelled:?}"
    );
    Ok(())
}

#[test]
fn worked_tokens(rt: HostRuntime) -> Result<(), Fail> {
    expect_constant(&rt, PpKind::Number, b"2147483648", 2147483648, Kind::Long)?;
    expect_constant(&rt, PpKind::Number, b"0x80000000", 2147483648, Kind::UInt)?;
    expect_constant(&rt, PpKind::Character, br"'\377'", -1, Kind::Int)?;
    let joined = ctoken(rt.alloc(), Class::Literal, b"ab", 0)?;
    expect_one(
        &rt,
        &[(PpKind::Literal, br#""a""#), (PpKind::Literal, br#""b""#)],
        joined,
    )?;
    let name = ctoken(rt.alloc(), Class::Identifier, b"_bool", 0)?;
    expect_one(&rt, &[(PpKind::Identifier, b"_bool")], name)?;
    assert_eq!(rt; ctokens(rt.alloc(), &[]), Ok(List::new(rt.alloc())));
    Ok(())
}

#[test]
fn single_calls(rt: HostRuntime) {
    let constant = Constant {
        value: 255,
        is_decimal: false,
        suffix: Suffix::UnsignedLong,
    };
    assert_eq!(rt; integer_constant(b"0xffLu"), Some(constant));
    assert_eq!(rt; kind_of(constant), Some(Kind::ULong));
    assert_eq!(rt; character_constant(br"'\xff'"), Some(-1));
    assert_eq!(rt; character_constant(b"''"), None);
}

#[test]
fn refuses_what_has_no_value(rt: HostRuntime) -> Result<(), Fail> {
    let numbers: [&[u8]; 17] = [
        b"08",
        b"0x",
        b"0xg",
        b"1.0",
        b".5",
        b"1e3",
        b"12ab",
        b"1uu",
        b"1lul",
        b"1lL",
        b"1lll",
        b"1ulL",
        b"0b1",
        b"9223372036854775808",
        b"18446744073709551616",
        b"18446744073709551616u",
        b"0xFFFFFFFFFFFFFFFFF",
    ];
    for spelling in numbers {
        expect_refused(&rt, &[(PpKind::Number, spelling)], 0, 15)?;
    }
    let characters: [&[u8]; 9] = [
        b"'ab'",
        br"'\x'",
        br"'\xfff'",
        br"'\400'",
        br"'\777'",
        br"'\u0041'",
        br"'\q'",
        br"'\8'",
        br"'\1234'",
    ];
    for spelling in characters {
        expect_refused(&rt, &[(PpKind::Character, spelling)], 0, 15)?;
    }
    let literals: [&[u8]; 4] = [br#""\400""#, br#""\x100""#, br#""\U00000041""#, br#""a\e""#];
    for spelling in literals {
        expect_refused(&rt, &[(PpKind::Literal, spelling)], 0, 15)?;
    }
    Ok(())
}

#[test]
fn refuses_what_is_left_out(rt: HostRuntime) -> Result<(), Fail> {
    let prefixed: [(PpKind, &[u8]); 7] = [
        (PpKind::Character, b"L'a'"),
        (PpKind::Character, b"u'a'"),
        (PpKind::Character, b"U'ab'"),
        (PpKind::Literal, br#"L"x""#),
        (PpKind::Literal, br#"u"x""#),
        (PpKind::Literal, br#"U"x""#),
        (PpKind::Literal, br#"u8"\q""#),
    ];
    for spelled in prefixed {
        expect_refused(&rt, &[spelled], 0, 18)?;
    }
    expect_refused(&rt, &[(PpKind::Stray, b"@")], 0, 1)?;
    expect_refused(&rt, &[(PpKind::Stray, b"\\")], 0, 1)?;
    expect_refused(&rt, &[(PpKind::Stray, b"'")], 0, 3)?;
    expect_refused(&rt, &[(PpKind::Stray, b"\"")], 0, 3)?;
    expect_refused(&rt, &[(PpKind::Header, b"<stdio.h>")], 0, 1)
}

#[test]
fn the_first_refusal_counts(rt: HostRuntime) -> Result<(), Fail> {
    let one = (PpKind::Number, b"1".as_slice());
    let bad = (PpKind::Number, b"08".as_slice());
    let stray = (PpKind::Stray, b"@".as_slice());
    let wide = (PpKind::Literal, br#"L"x""#.as_slice());
    let plain = (PpKind::Literal, br#""x""#.as_slice());
    expect_refused(&rt, &[one, bad, stray], 1, 15)?;
    expect_refused(&rt, &[one, stray, bad], 1, 1)?;
    expect_refused(&rt, &[plain, wide, stray], 1, 18)?;
    expect_refused(&rt, &[plain, plain, stray, wide], 2, 1)
}

#[test]
fn keywords_are_read_or_left_out(rt: HostRuntime) -> Result<(), Fail> {
    let mut number = 0u16;
    for word in tables::KEYWORDS.split_whitespace() {
        let wanted = ctoken(rt.alloc(), Class::Keyword(number), word.as_bytes(), 0)?;
        expect_one(&rt, &[(PpKind::Identifier, word.as_bytes())], wanted)?;
        number = number.saturating_add(1);
    }
    for word in tables::LEFT_OUT.split_whitespace() {
        expect_refused(&rt, &[(PpKind::Identifier, word.as_bytes())], 0, 18)?;
    }
    Ok(())
}

#[test]
fn digraphs_behave_as_what_they_stand_for(rt: HostRuntime) -> Result<(), Fail> {
    let rows = [
        (0u16, 0u16),
        (46, 46),
        (47, 47),
        (48, 0),
        (49, 1),
        (50, 4),
        (51, 5),
        (52, 46),
        (53, 47),
    ];
    for (row, behaving) in rows {
        let wanted = ctoken(rt.alloc(), Class::Punctuator(behaving), b"spelling", 0)?;
        expect_one(&rt, &[(PpKind::Punctuator(row), b"spelling")], wanted)?;
    }
    Ok(())
}

#[test]
fn integers_have_gccs_types(rt: HostRuntime) -> Result<(), Fail> {
    for line in tables::INTEGERS.lines() {
        let mut words = line.split_whitespace();
        let value = words.next().ok_or("no value")?.parse::<u64>().unwrap_or(0);
        for word in words {
            let (spelling, name) = word.split_once(':').ok_or("no type")?;
            let kind = match name {
                "Int" => Kind::Int,
                "UInt" => Kind::UInt,
                "Long" => Kind::Long,
                "ULong" => Kind::ULong,
                "LLong" => Kind::LLong,
                "ULLong" => Kind::ULLong,
                _ => {
                    expect_refused(&rt, &[(PpKind::Number, spelling.as_bytes())], 0, 15)?;
                    continue;
                }
            };
            let spelling = spelling.as_bytes();
            expect_constant(&rt, PpKind::Number, spelling, i128::from(value), kind)?;
        }
    }
    Ok(())
}

#[test]
fn characters_have_gccs_values(rt: HostRuntime) -> Result<(), Fail> {
    for line in tables::CHARACTERS.lines() {
        let (spelling, value) = line.split_once(' ').ok_or("no value")?;
        let value = i128::from(value.parse::<i32>()?);
        expect_constant(
            &rt,
            PpKind::Character,
            spelling.as_bytes(),
            value,
            Kind::Int,
        )?;
    }
    Ok(())
}

#[test]
fn literals_have_gccs_bytes(rt: HostRuntime) -> Result<(), Fail> {
    for line in tables::LITERALS.lines() {
        let mut words = line.split_whitespace();
        let wanted = words.next().ok_or("no bytes")?;
        let mut tokens = Vec::new(rt.alloc());
        for word in words {
            tokens.push(token(rt.alloc(), PpKind::Literal, word.as_bytes(), 0)?)?;
        }
        let made = ctokens(rt.alloc(), &tokens)?;
        assert_eq!(rt; made.len(), 1);
        let mut shown = String::new(rt.alloc());
        for byte in made.items()[0].spelling.bytes() {
            write!(shown, "{byte:02x}")?;
        }
        assert!(rt;
            shown.as_str() == wanted.trim_matches('-'),
            "{line}: {shown}"
        );
    }
    Ok(())
}

/// A trail of expansions with these instances.
fn trail(alloc: Global, instances: &[u32]) -> Result<Trail, Fail> {
    let mut trail = Trail::empty(alloc);
    for instance in instances {
        if trail.length() < 100 {
            trail = trail.grow(Mark::Expansion {
                definition: 3,
                instance: *instance,
            })?;
        }
    }
    Ok(trail)
}

#[test]
fn a_joined_literal_keeps_what_its_parts_share(rt: HostRuntime) -> Result<(), Fail> {
    let literal = PpKind::Literal;
    let mut tokens = row(
        rt.alloc(),
        &[
            (literal, br#""a""#),
            (literal, br#""""#),
            (literal, br#""c""#),
            (PpKind::Number, b"1"),
            (literal, br#""d""#),
        ],
    )?;
    for (at, instances) in [[1u32, 2, 3].as_slice(), &[1, 2, 4, 5], &[1, 2], &[1], &[7]]
        .iter()
        .enumerate()
    {
        if at < tokens.len() {
            tokens[at].trail = trail(rt.alloc(), instances)?;
        }
    }
    let made = ctokens(rt.alloc(), &tokens)?;
    let mut first = ctoken(rt.alloc(), Class::Literal, b"ac", 0)?;
    first.trail = trail(rt.alloc(), &[1, 2])?;
    let mut last = ctoken(rt.alloc(), Class::Literal, b"d", 4)?;
    last.trail = trail(rt.alloc(), &[7])?;
    assert_eq!(rt; made.len(), 3);
    assert_eq!(rt; made.items()[0], first);
    assert_eq!(rt; made.items()[1].trail, trail(rt.alloc(), &[1])?);
    assert_eq!(rt; made.items()[2], last);
    Ok(())
}

#[test]
fn long_tokens_are_read(rt: HostRuntime) -> Result<(), Fail> {
    let nines = vec![in rt.alloc(); b'9'; 1_000_000]?;
    expect_refused(&rt, &[(PpKind::Number, &nines)], 0, 15)?;
    let mut zeros = vec![in rt.alloc(); b'0'; 1_000_000]?;
    zeros.push(b'7')?;
    expect_constant(&rt, PpKind::Number, &zeros, 7, Kind::Int)?;
    let mut tokens = Vec::new(rt.alloc());
    for byte in 0..100_000u32 {
        tokens.push(token(rt.alloc(), PpKind::Literal, br#""xy""#, byte)?)?;
    }
    let made = ctokens(rt.alloc(), &tokens)?;
    assert_eq!(rt; made.len(), 1);
    assert_eq!(rt; made.items()[0].spelling.bytes().len(), 200_000);
    Ok(())
}
