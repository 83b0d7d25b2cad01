//! Worked edits.

ghost use Rattle.std.specs.Prelude.{◌≡◌};
ghost use Rattle.dm_edit.specs.Cuts.{is_blank, LiesIn};

use dm_edit::{As, Change, edit};
use dm_token::{Definition, List, Origin, Place, PpKind, PpToken, Text};
use std::process::Abort;
use std::test::Fail;

/// A place of which only the byte counts.
fn place(byte: u32) -> Place {
    Place {
        file: 0,
        byte,
        line: 1,
        column: 1,
    }
}

/// A definition by the offsets of its `#`, of the end of its head, of its last token, and of that token's end.
fn definition<R: AllocGlobal>(rt: &R, offsets: [u32; 4]) -> Result<Definition, Fail> {
    let [hash, head_end, last, end] = offsets;
    let mut body = List::new(rt.alloc());
    body.push(PpToken {
        kind: PpKind::Number,
        spelling: Text::new(rt.alloc(), "")?,
        place: place(last),
        end,
        blank_before: true,
        line_first: false,
    })?;
    Ok(Definition {
        name: Text::new(rt.alloc(), "N")?,
        parameters: None,
        variadic: false,
        body,
        origin: Origin::File,
        place: place(hash),
        hash,
        head_end,
        head_plain: true,
    })
}

/// The bytes after the change of the definition at these offsets.
fn edited<R: Abort + AllocGlobal>(
    rt: &R,
    bytes: &[u8],
    offsets: [u32; 4],
    head: &str,
    tail: &str,
) -> Result<List<u8>, Fail> {
    let change = Change {
        definition: definition(rt, offsets)?,
        kind: As::Enumerator,
        head: Text::new(rt.alloc(), head)?,
        tail: Text::new(rt.alloc(), tail)?,
    };
    expect_definition(rt, bytes, &change.definition);
    Ok(edit(rt.alloc(), bytes, &change)?)
}

/// Whether a byte is a space or a tab.
fn is_blank(byte: u8) -> bool
    ensures { result ≡ is_blank byte }
{
    byte == b' ' || byte == b'\t'
}

/// Checks that a definition lies in the bytes.
fn expect_definition<R: Abort>(rt: &R, bytes: &[u8], definition: &Definition)
    ensures { LiesIn bytes.now definition.now }
{
    let Some(last) = definition.body.items().last() else {
        panic!(rt; "there is a body");
    };
    let Some(byte) = bytes.get(last.place.byte as usize) else {
        panic!(rt; "the body lies in the bytes");
    };
    assert!(rt; !is_blank(*byte));
    assert!(rt; definition.hash <= definition.head_end);
    assert!(rt; definition.head_end <= last.place.byte);
    assert!(rt; last.place.byte < last.end);
    assert!(rt; last.end as usize <= bytes.len());
}

/// Checks the bytes after a change.
fn expect_edited<R: Abort + AllocGlobal>(
    rt: &R,
    bytes: &str,
    offsets: [u32; 4],
    head: &str,
    tail: &str,
    wanted: &str,
) -> Result<(), Fail> {
    let bytes = edited(rt, bytes.as_bytes(), offsets, head, tail)?;
    assert_eq!(rt; bytes.items(), wanted.as_bytes());
    Ok(())
}

#[test]
fn functions_enumerators_and_constants_stand_in_place(rt: HostRuntime) -> Result<(), Fail> {
    expect_edited(
        &rt,
        "int x;\n#define SQ(x) ((x)*(x))\nint y;\n",
        [7, 20, 29, 30],
        "static inline int SQ(int x) { return ",
        "; }",
        "int x;\nstatic inline int SQ(int x) { return ((x)*(x)); }\nint y;\n",
    )?;
    expect_edited(
        &rt,
        "int putchar(int c);\n#define N 65\nint main",
        [20, 29, 30, 32],
        "enum { N = ",
        " };",
        "int putchar(int c);\nenum { N = 65 };\nint main",
    )?;
    expect_edited(
        &rt,
        "#define U 10u\n",
        [0, 9, 10, 13],
        "static const unsigned int U = ",
        ";",
        "static const unsigned int U = 10u;\n",
    )?;
    Ok(())
}

#[test]
fn blanks_behind_the_head_go(rt: HostRuntime) -> Result<(), Fail> {
    expect_edited(
        &rt,
        "#define N \t \t65\n",
        [0, 9, 13, 15],
        "enum { N = ",
        " };",
        "enum { N = 65 };\n",
    )?;
    expect_edited(
        &rt,
        "#define  ADD(  a  ,\t b  )((a) + (b))\n",
        [0, 25, 35, 36],
        "static inline int ADD(int a, int b) { return ",
        "; }",
        "static inline int ADD(int a, int b) { return ((a) + (b)); }\n",
    )?;
    expect_edited(
        &rt,
        "%:define N\t65 /* why */\n",
        [0, 10, 11, 13],
        "enum { N = ",
        " };",
        "enum { N = 65 }; /* why */\n",
    )?;
    Ok(())
}

#[test]
fn comments_splices_and_returns_stay(rt: HostRuntime) -> Result<(), Fail> {
    expect_edited(
        &rt,
        "#define C(x) ((x) < 0 ? \\\n  0 : ??/\n  (x)) // keep\n",
        [0, 12, 41, 42],
        "static inline int C(int x) { return ",
        "; }",
        "static inline int C(int x) { return ((x) < 0 ? \\\n  0 : ??/\n  (x)); } // keep\n",
    )?;
    expect_edited(
        &rt,
        "#define N /* from */ 6 /* on */ + /* to */ 5 // end\n",
        [0, 9, 43, 44],
        "enum { N = ",
        " };",
        "enum { N = /* from */ 6 /* on */ + /* to */ 5 }; // end\n",
    )?;
    expect_edited(
        &rt,
        "int a;\r\n#define N 65\r\nint b;\r\n",
        [8, 17, 18, 20],
        "enum { N = ",
        " };",
        "int a;\r\nenum { N = 65 };\r\nint b;\r\n",
    )?;
    expect_edited(
        &rt,
        "# \tdefine M(x) \\\n  ((x) + \\\n\t1)\t //\n",
        [0, 14, 30, 31],
        "static inline int M(int x) { return ",
        "; }",
        "static inline int M(int x) { return \\\n  ((x) + \\\n\t1); }\t //\n",
    )?;
    expect_edited(
        &rt,
        "int a;\n#define K 1u",
        [7, 16, 17, 19],
        "static const unsigned int K = ",
        ";",
        "int a;\nstatic const unsigned int K = 1u;",
    )?;
    Ok(())
}

#[test]
fn the_greatest_file_is_edited(rt: HostRuntime) -> Result<(), Fail> {
    let mut bytes = vec![in rt.alloc(); b'\n'; 1_048_565]?;
    bytes.extend_from_slice(b"#define N 1")?;
    let offsets = [1_048_565, 1_048_574, 1_048_575, 1_048_576];
    let bytes = edited(&rt, &bytes, offsets, "enum { N = ", " };")?;
    assert_eq!(rt; bytes.len(), 1_048_580);
    Ok(())
}
