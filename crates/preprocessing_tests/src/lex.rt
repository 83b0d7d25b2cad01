//! Worked texts, and the comparison with a plain program.

mod slow;

use dm_lex::{one_token, tokens};
use dm_phase::flatten;
use dm_token::{PpKind, PpToken, Refusal, Stop, Text, source_length_limit};
use std::alloc::{AllocError, Global};
use std::process::Abort;
use std::test::Fail;

/// The letter of a kind.
fn letter(kind: PpKind) -> u8 {
    match kind {
        PpKind::Identifier => b'i',
        PpKind::Number => b'n',
        PpKind::Character => b'c',
        PpKind::Literal => b'l',
        PpKind::Punctuator(_) => b'p',
        PpKind::Header => b'h',
        PpKind::Stray => b's',
    }
}

/// The tokens of a text.
fn tokens_of<R: Abort + AllocGlobal>(rt: &R, bytes: &[u8]) -> Result<Vec<PpToken>, Stop> {
    assert!(rt; bytes.len() <= source_length_limit());
    let flat = flatten(rt.alloc(), 7, bytes)?;
    let list = tokens(rt.alloc(), 7, &flat, bytes)?;
    Ok(list.into_vec())
}

/// Each token of a text by its letter and its spelling, with a blank behind it.
fn shown<R: Abort + AllocGlobal>(rt: &R, bytes: &[u8]) -> Result<Vec<u8>, Stop> {
    let mut words = Vec::new(rt.alloc());
    for token in &tokens_of(rt, bytes)? {
        words.push(letter(token.kind))?;
        words.extend_from_slice(token.spelling.bytes())?;
        words.push(b' ')?;
    }
    Ok(words)
}

fn expect_tokens<R: Abort + AllocGlobal>(rt: &R, rows: &[(&[u8], &[u8])]) -> Result<(), Fail> {
    for (bytes, wanted) in rows {
        let words = shown(rt, bytes)?;
        assert!(rt; words.as_slice() == *wanted, "in {bytes:?}: {words:?}");
    }
    Ok(())
}

#[test]
fn takes_the_longest_token(rt: HostRuntime) -> Result<(), Fail> {
    expect_tokens(
        &rt,
        &[
            (b"", b""),
            (b"\xEF\xBB\xBF", b""),
            (b"x+++y", b"ix p++ p+ iy "),
            (b"0x1e+1", b"n0x1e+1 "),
            (b"1.e-3P+", b"n1.e-3P+ "),
            (b".5.6", b"n.5.6 "),
            (b"1+2", b"n1 p+ n2 "),
            (b"don't", b"idon s' it "),
            (b"%:%:", b"p%:%: "),
            (b"%:%", b"p%: p% "),
            (b"<::", b"p<: p: "),
            (b"<<=1", b"p<<= n1 "),
            (b"...", b"p... "),
            (b"..", b"p. p. "),
            (b"a@b", b"ia s@ ib "),
            (b"a\x0Cb\x0B", b"ia ib "),
            (b"a\rb", b"ia s\r ib "),
            (b"\x80", b"s\x80 "),
        ],
    )
}

#[test]
fn reads_literals_on_one_line(rt: HostRuntime) -> Result<(), Fail> {
    expect_tokens(
        &rt,
        &[
            (b"'a' \"b\"", b"c'a' l\"b\" "),
            (
                b"L\"x\" u8\"x\" U'x' u\"\" L'x'",
                b"lL\"x\" lu8\"x\" cU'x' lu\"\" cL'x' ",
            ),
            (b"u8'x'", b"iu8 c'x' "),
            (b"Lx\"y\"", b"iLx l\"y\" "),
            (b"''", b"s' s' "),
            (b"'''", b"s' s' s' "),
            (b"\"a\nb\"", b"s\" ia ib s\" "),
            (b"\"a\\\"b\"", b"l\"a\\\"b\" "),
            (b"\"a\\\\\" b", b"l\"a\\\\\" ib "),
            (b"'\\q' '\xFF'", b"c'\\q' c'\xFF' "),
            (b"\"\\\"\\\"\\\"", b"s\" s\\ s\" s\\ s\" s\\ s\" "),
            (b"\"\\\"'\\\"'", b"s\" s\\ s\" c'\\\"' "),
        ],
    )
}

#[test]
fn passes_over_comments(rt: HostRuntime) -> Result<(), Fail> {
    expect_tokens(
        &rt,
        &[
            (b"a/* // */b", b"ia ib "),
            (b"a/* /* */b*/", b"ia ib p* p/ "),
            (b"a//b\nc", b"ia ic "),
            (b"a//b\\\nc\nd", b"ia id "),
            (b"a/\\\n/b\nc", b"ia ic "),
            (b"a/\\\n*b*\\\n/c", b"ia ic "),
            (b"/*/ */a", b"ia "),
            (b"\"/*\" '//'", b"l\"/*\" c'//' "),
            (b"a / b", b"ia p/ ib "),
        ],
    )
}

#[test]
fn reads_through_splices_and_trigraphs(rt: HostRuntime) -> Result<(), Fail> {
    expect_tokens(
        &rt,
        &[
            (b"a\\\nb", b"iab "),
            (b"+\\\n+", b"p++ "),
            (b"a\\\r\nb", b"iab "),
            (b"\"a\\\nb\"", b"l\"ab\" "),
            (b"??=", b"p# "),
            (b"a??/\nb", b"iab "),
            (b"\"??/\"\"", b"l\"\\\"\" "),
        ],
    )
}

#[test]
fn reads_header_names_behind_include_alone(rt: HostRuntime) -> Result<(), Fail> {
    expect_tokens(
        &rt,
        &[
            (b"#include <a//b'c>", b"p# iinclude h<a//b'c> "),
            (b"#include \"a\\b\"", b"p# iinclude h\"a\\b\" "),
            (b"#include \"x\\\"y\"", b"p# iinclude l\"x\\\"y\" "),
            (b" %: /**/ include /**/ <a>", b"p%: iinclude h<a> "),
            (b"#inc\\\nlude <a>", b"p# iinclude h<a> "),
            (b"#include <a> <b>", b"p# iinclude h<a> p< ib p> "),
            (b"#include <>", b"p# iinclude p< p> "),
            (b"#include <a\nb>", b"p# iinclude p< ia ib p> "),
            (b"#include x <a>", b"p# iinclude ix p< ia p> "),
            (b"x #include <a>", b"ix p# iinclude p< ia p> "),
            (b"include <a>", b"iinclude p< ia p> "),
            (b"#include_next <a>", b"p# iinclude_next p< ia p> "),
            (b"#define <a>", b"p# idefine p< ia p> "),
            (b"#\ninclude <a>", b"p# iinclude p< ia p> "),
            (b"##include <a>", b"p## iinclude p< ia p> "),
        ],
    )
}

#[test]
fn places_tokens_in_the_file(rt: HostRuntime) -> Result<(), Fail> {
    let list = tokens_of(&rt, b"a ??=\\\n b\n/*\n*/ c+")?;
    // The byte, the line, the column, the end, whether a blank stands before it, whether it is the first of its line.
    let wanted = [
        (0, 1, 1, 1, true, true),
        (2, 1, 3, 5, true, false),
        (8, 2, 2, 9, true, false),
        (16, 4, 4, 17, true, true),
        (17, 4, 5, 18, false, false),
    ];
    assert_eq!(rt; list.len(), wanted.len());
    for (token, (byte, line, column, end, blank, first)) in list.iter().zip(&wanted) {
        assert_eq!(rt; token.place.file, 7);
        assert_eq!(rt; token.place.byte, *byte);
        assert_eq!(rt; token.place.line, *line);
        assert_eq!(rt; token.place.column, *column);
        assert_eq!(rt; token.end, *end);
        assert_eq!(rt; token.blank_before, *blank);
        assert_eq!(rt; token.line_first, *first);
    }
    Ok(())
}

#[test]
fn refuses_an_open_comment_at_its_first_byte(rt: HostRuntime) {
    for (bytes, byte, line, column) in [
        (b"/* x".as_slice(), 0, 1, 1),
        (b"a\n /*/".as_slice(), 3, 2, 2),
        (b"/**/ /*\n*".as_slice(), 5, 1, 6),
    ] {
        match tokens_of(&rt, bytes) {
            Err(
                Stop::Refused(
                    Refusal {
                        number,
                        detail,
                        place,
                    },
                ),
            ) => {
                assert_eq!(rt; (number, detail), (2, 0));
                assert_eq!(rt; (place.file, place.byte), (7, byte));
                assert_eq!(rt; (place.line, place.column), (line, column));
            }
            _ => assert!(rt; false, "{bytes:?} is not refused"),
        }
    }
}

#[test]
fn cuts_a_file_of_the_greatest_length(rt: HostRuntime) -> Result<(), Fail> {
    let mut bytes = Vec::new(rt.alloc());
    for _ in 0..source_length_limit() {
        bytes.push(b';')?;
    }
    let list = tokens_of(&rt, bytes.as_slice())?;
    assert_eq!(rt; list.len(), source_length_limit());
    Ok(())
}

#[test]
fn says_which_token_a_spelling_is(rt: HostRuntime) -> Result<(), Fail> {
    for (spelling, wanted) in [
        (b"<<=".as_slice(), Some(PpKind::Punctuator(40))),
        (b"+x".as_slice(), None),
        (b"".as_slice(), None),
        (b"@".as_slice(), None),
        (b" ".as_slice(), None),
        (b"/**/".as_slice(), None),
        (b"<a>".as_slice(), None),
        (b"x1".as_slice(), Some(PpKind::Identifier)),
        (b"1x".as_slice(), Some(PpKind::Number)),
        (b"L'x'".as_slice(), Some(PpKind::Character)),
        (b"u8\"x\"".as_slice(), Some(PpKind::Literal)),
    ] {
        let text = Text::from_bytes(rt.alloc(), spelling)?;
        let kind = one_token(rt.alloc(), &text)?;
        assert!(rt; kind == wanted, "{spelling:?}");
    }
    Ok(())
}

/// Whether the plain program finds the same kinds and spellings, or an open comment where the text is refused.
fn agrees<R: Abort + AllocGlobal>(rt: &R, bytes: &[u8]) -> Result<bool, Fail> {
    assert!(rt; bytes.len() <= source_length_limit());
    let Ok(flat) = flatten(rt.alloc(), 7, bytes) else {
        return Ok(true);
    };
    let plain = slow::cut(rt.alloc(), flat.bytes())?;
    match (tokens(rt.alloc(), 7, &flat, bytes), plain) {
        (Ok(found), Some(wanted)) => Ok(same(found.items(), wanted.as_slice())),
        (Err(_), None) => Ok(true),
        _ => Ok(false),
    }
}

/// Whether tokens have these kinds and spellings.
fn same(found: &[PpToken], wanted: &[(PpKind, Vec<u8>)]) -> bool {
    found.len() == wanted.len()
        && found.iter().zip(wanted).all(|(token, (kind, spelling))| token.kind == *kind
            && token.spelling.bytes() == spelling.as_slice())
}

/// Compares all texts of a front and so many letters of an alphabet.
fn expect_agreement<R: Abort + AllocGlobal>(
    rt: &R,
    front: &[u8],
    alphabet: &[u8],
    letters: u32,
    texts: usize,
) -> Result<(), Fail> {
    assert!(rt; !alphabet.is_empty());
    for number in 0..texts {
        let mut bytes = Vec::from_slice(rt.alloc(), front)?;
        let mut left = number;
        for _ in 0..letters {
            bytes.push(alphabet[left % alphabet.len()])?;
            left /= alphabet.len();
        }
        assert!(rt; agrees(rt, bytes.as_slice())?, "in {bytes:?}");
    }
    Ok(())
}

#[test]
fn agrees_with_a_plain_program(rt: HostRuntime) -> Result<(), Fail> {
    expect_agreement(&rt, b"", b"/*\n\"", 5, 1024)?;
    expect_agreement(&rt, b"", b"\"'\\\nLu8", 4, 2401)?;
    expect_agreement(&rt, b"", b".1e+-a", 4, 1296)?;
    expect_agreement(&rt, b"#include ", b"<>\"\\\n a", 4, 2401)
}
