//! Worked texts, and the comparison with a plain program.

mod slow;

use dm_phase::{Character, flatten};
use dm_token::{Place, Refusal, Stop, source_length_limit};
use std::alloc::{AllocError, Global};
use std::process::Abort;
use std::test::Fail;

/// Checks the characters of a text, each given by its byte, its offset and its width.
fn expect_text<R: Abort + AllocGlobal>(
    rt: &R,
    bytes: &[u8],
    expected: &[(u8, u32, u32)],
) -> Result<(), Fail> {
    assert!(rt; bytes.len() <= source_length_limit());
    let flat = flatten(rt.alloc(), 0, bytes)?;
    let list = flat.characters(rt.alloc())?;
    let characters = list.items();
    assert_eq!(rt; characters.len(), expected.len(), "in {bytes:?}");
    for (character, (byte, at, width)) in characters.iter().zip(expected) {
        let wanted = Character {
            byte: *byte,
            at: *at,
            width: *width,
        };
        assert_eq!(rt; *character, wanted, "in {bytes:?}");
    }
    Ok(())
}

/// Checks where a text is refused.
fn expect_refusal<R: Abort + AllocGlobal>(rt: &R, bytes: &[u8], byte: u32, line: u32, column: u32) {
    assert!(rt; bytes.len() <= source_length_limit());
    let refusal = Refusal {
        number: 8,
        detail: 0,
        place: Place {
            file: 5,
            byte,
            line,
            column,
        },
    };
    assert_eq!(rt;
        flatten(rt.alloc(), 5, bytes).err(),
        Some(Stop::Refused(refusal)),
        "in {bytes:?}"
    );
}

#[test]
fn an_empty_text_stays_empty(rt: HostRuntime) -> Result<(), Fail> {
    expect_text(&rt, b"", &[])?;
    expect_text(&rt, &[0xEF, 0xBB, 0xBF], &[])
}

#[test]
fn a_mark_is_dropped_once_and_at_the_front_alone(rt: HostRuntime) -> Result<(), Fail> {
    let mark = [(0xEF, 3, 1), (0xBB, 4, 1), (0xBF, 5, 1), (b'\n', 6, 0)];
    expect_text(
        &rt,
        &[0xEF, 0xBB, 0xBF, b'a', b'\n'],
        &[(b'a', 3, 1), (b'\n', 4, 1)],
    )?;
    expect_text(&rt, &[0xEF, 0xBB, 0xBF, 0xEF, 0xBB, 0xBF], &mark)?;
    expect_text(
        &rt,
        &[0xEF, 0xBB, b'\n'],
        &[(0xEF, 0, 1), (0xBB, 1, 1), (b'\n', 2, 1)],
    )
}

#[test]
fn a_last_newline_is_added_where_it_lacks(rt: HostRuntime) -> Result<(), Fail> {
    expect_text(&rt, b"a", &[(b'a', 0, 1), (b'\n', 1, 0)])?;
    expect_text(&rt, b"a\n", &[(b'a', 0, 1), (b'\n', 1, 1)])?;
    expect_text(
        &rt,
        &[0x80, 0xFF],
        &[(0x80, 0, 1), (0xFF, 1, 1), (b'\n', 2, 0)],
    )
}

#[test]
fn a_carriage_return_belongs_to_the_newline_behind_it(rt: HostRuntime) -> Result<(), Fail> {
    expect_text(
        &rt,
        b"a\r\nb\r",
        &[(b'a', 0, 1), (b'\n', 1, 2), (b'b', 3, 1), (b'\n', 4, 1)],
    )?;
    expect_text(&rt, b"\r\r\n", &[(b'\r', 0, 1), (b'\n', 1, 2)])?;
    expect_text(&rt, b"\ra\n", &[(b'\r', 0, 1), (b'a', 1, 1), (b'\n', 2, 1)])?;
    expect_text(
        &rt,
        b"a\\\r\nb\n",
        &[(b'a', 0, 1), (b'b', 4, 1), (b'\n', 5, 1)],
    )
}

#[test]
fn each_trigraph_is_one_character(rt: HostRuntime) -> Result<(), Fail> {
    for (third, byte) in b"=(/)'<!>-".iter().zip(b"#[\\]^{|}~") {
        let bytes = [b'a', b'?', b'?', *third, b'b', b'\n'];
        expect_text(
            &rt,
            &bytes,
            &[(b'a', 0, 1), (*byte, 1, 3), (b'b', 4, 1), (b'\n', 5, 1)],
        )?;
    }
    expect_text(&rt, b"???=\n", &[(b'?', 0, 1), (b'#', 1, 3), (b'\n', 4, 1)])?;
    expect_text(
        &rt,
        b"??a?\n",
        &[
            (b'?', 0, 1),
            (b'?', 1, 1),
            (b'a', 2, 1),
            (b'?', 3, 1),
            (b'\n', 4, 1),
        ],
    )?;
    expect_text(&rt, b"??", &[(b'?', 0, 1), (b'?', 1, 1), (b'\n', 2, 0)])
}

#[test]
fn spliced_lines_are_one(rt: HostRuntime) -> Result<(), Fail> {
    expect_text(
        &rt,
        b"a\\\nb??=",
        &[(b'a', 0, 1), (b'b', 3, 1), (b'#', 4, 3), (b'\n', 7, 0)],
    )?;
    expect_text(
        &rt,
        b"a\\\n\\\nb\n",
        &[(b'a', 0, 1), (b'b', 5, 1), (b'\n', 6, 1)],
    )?;
    expect_text(
        &rt,
        b"a??/\nb\n",
        &[(b'a', 0, 1), (b'b', 5, 1), (b'\n', 6, 1)],
    )?;
    expect_text(
        &rt,
        b"?\\\n?=\n",
        &[(b'?', 0, 1), (b'?', 3, 1), (b'=', 4, 1), (b'\n', 5, 1)],
    )?;
    expect_text(&rt, b"\\a\n", &[(b'\\', 0, 1), (b'a', 1, 1), (b'\n', 2, 1)])?;
    expect_text(&rt, b"\\\\\n\n", &[(b'\\', 0, 1), (b'\n', 3, 1)])
}

#[test]
fn a_splice_at_the_end_is_refused_at_its_backslash(rt: HostRuntime) {
    expect_refusal(&rt, b"a\\\n", 1, 1, 2);
    expect_refusal(&rt, b"\\", 0, 1, 1);
    expect_refusal(&rt, b"a\r\nbc??/\n", 5, 2, 3);
    expect_refusal(&rt, b"a\\\n\\\r\n", 3, 2, 1);
    expect_refusal(&rt, b"\\\\\n", 1, 1, 2);
}

#[test]
fn reads_a_file_of_the_greatest_length(rt: HostRuntime) -> Result<(), Fail> {
    let mut bytes = Vec::new(rt.alloc());
    for _ in 1..source_length_limit() {
        bytes.push(b'a')?;
    }
    bytes.push(b'\n')?;
    assert!(rt; bytes.len() <= source_length_limit());
    let flat = flatten(rt.alloc(), 0, bytes.as_slice())?;
    assert!(rt; flat.bytes() == bytes.as_slice());
    Ok(())
}

/// Compares the answer for one text with the plain program's.
fn expect_plain<R: Abort + AllocGlobal>(rt: &R, bytes: &[u8]) -> Result<(), Fail> {
    assert!(rt; bytes.len() <= source_length_limit());
    match (
        flatten(rt.alloc(), 0, bytes),
        slow::flat(rt.alloc(), bytes)?,
    ) {
        (Ok(flat), Ok(text)) => {
            let characters = flat.characters(rt.alloc())?;
            assert_eq!(rt; characters.items(), text.as_slice(), "in {bytes:?}")
        }
        (Err(Stop::Refused(refusal)), Err(at)) => {
            assert_eq!(rt; refusal.place.byte, at, "in {bytes:?}")
        }
        _ => assert!(rt; false, "in {bytes:?}"),
    }
    Ok(())
}

/// The text of this length and number among those of six bytes.
fn small_text(alloc: Global, length: usize, number: u32) -> Result<Vec<u8>, AllocError> {
    let alphabet = [b'?', b'/', b'\\', b'\r', b'\n', b'a'];
    let mut text = Vec::new(alloc);
    let mut digits = number;
    for _ in 0..length {
        text.push(alphabet[digits as usize % 6])?;
        digits /= 6;
    }
    Ok(text)
}

#[test]
fn small_texts_are_as_the_plain_program_says(rt: HostRuntime) -> Result<(), Fail> {
    for (length, count) in [1u32, 6, 36, 216, 1296, 7776, 46656].iter().enumerate() {
        for number in 0..*count {
            let text = small_text(rt.alloc(), length, number)?;
            let mut marked = Vec::from_slice(rt.alloc(), &[0xEF, 0xBB, 0xBF])?;
            marked.extend_from_slice(&text)?;
            expect_plain(&rt, &text)?;
            expect_plain(&rt, &marked)?;
        }
    }
    Ok(())
}
