//! Worked manifests, and one table for each fault. In the texts a backquote stands for a quotation mark.

use dm_manifest::{ManifestFault, manifest};
use dm_token::{List, Memory, Text, Unit};
use std::alloc::{AllocError, Global};
use std::process::Abort;
use std::test::Fail;

/// The bytes of a text, with its backquotes replaced.
fn quoted(alloc: Global, text: &str) -> Result<Vec<u8>, AllocError> {
    let mut bytes = Vec::new(alloc);
    for byte in text.as_bytes() {
        bytes.push(if *byte == b'`' { b'"' } else { *byte })?;
    }
    Ok(bytes)
}

#[derive(Clone, Copy)]
enum Kind {
    Shape,
    Name,
    Define,
    Twice,
}

/// The fault of a kind at a path.
fn fault_at(alloc: Global, kind: Kind, path: &str) -> Result<ManifestFault, Memory> {
    let path = Text::new(alloc, path)?;
    Ok(match kind {
        Kind::Shape => ManifestFault::Shape(path),
        Kind::Name => ManifestFault::Name(path),
        Kind::Define => ManifestFault::Define(path),
        Kind::Twice => ManifestFault::Twice(path),
    })
}

/// Checks the paths of manifests with a fault of one kind.
fn expect_paths<R: Abort + AllocGlobal>(
    rt: &R,
    kind: Kind,
    cases: &[(&str, &str)],
) -> Result<(), Fail> {
    for (text, path) in cases {
        let bytes = quoted(rt.alloc(), *text)?;
        let wanted = fault_at(rt.alloc(), kind, *path)?;
        assert_eq!(rt;
            manifest(rt.alloc(), &bytes).err(),
            Some(wanted),
            "in {text}"
        );
    }
    Ok(())
}

/// Checks manifests of one unit whose one list is at fault in its last item, or isn't one.
fn expect_defines<R: Abort + AllocGlobal>(
    rt: &R,
    kind: Kind,
    cases: &[(&str, &str)],
) -> Result<(), Fail> {
    for (list, item) in cases {
        let text = format!(in rt.alloc(); "{{`units`:[{{`file`:`a.c`,`define`:{list}}}]}}")?;
        let path = format!(in rt.alloc(); "units/0/define{item}")?;
        expect_paths(rt, kind, &[(text.as_str(), path.as_str())])?;
    }
    Ok(())
}

/// A list of texts.
fn texts(alloc: Global, words: &[&str]) -> Result<List<Text>, Memory> {
    let mut texts = List::new(alloc);
    for word in words {
        texts.push(Text::new(alloc, *word)?)?;
    }
    Ok(texts)
}

/// Checks a manifest of one unit.
fn expect_unit<R: Abort + AllocGlobal>(
    rt: &R,
    text: &str,
    file: &str,
    include: &[&str],
    define: &[&str],
) -> Result<(), Fail> {
    let unit = Unit {
        file: Text::new(rt.alloc(), file)?,
        include: texts(rt.alloc(), include)?,
        define: texts(rt.alloc(), define)?,
    };
    let bytes = quoted(rt.alloc(), text)?;
    let units = manifest(rt.alloc(), &bytes)?;
    assert_eq!(rt; units.len(), 1, "in {text}");
    assert_eq!(rt; units.items().first(), Some(&unit), "in {text}");
    Ok(())
}

/// A manifest of units with one file and different defines.
fn many_units(alloc: Global, count: u32) -> Result<Vec<u8>, AllocError> {
    let mut text = String::from_str(alloc, "{`units`:[")?;
    for number in 0..count {
        let unit = format!(in alloc; "{{`file`:`a.c`,`define`:[`N={number}`]}},")?;
        text.push_str(unit.as_str())?;
    }
    text.push_str("{`file`:`a.c`}]}")?;
    quoted(alloc, text.as_str())
}

/// Arrays within each other.
fn nested(alloc: Global, depth: usize) -> Result<Vec<u8>, AllocError> {
    let mut text = Vec::new(alloc);
    for _ in 0..depth {
        text.push(b'[')?;
    }
    for _ in 0..depth {
        text.push(b']')?;
    }
    Ok(text)
}

#[test]
fn units_are_read(rt: HostRuntime) -> Result<(), Fail> {
    expect_unit(
        &rt,
        "{`units`:[{`file`:`a.c`,`include`:[`inc`],`define`:[`N=3`,`D`]}]}",
        "a.c",
        &["inc"],
        &["N=3", "D"],
    )?;
    expect_unit(
        &rt,
        "{`units`:7,`\\u0075nits`:[{`define`:[`1=`],`fil\\u0065`:`s\\u0072c/a.c`,`include`:[`.`],`define`:[`N=`]}]}",
        "src/a.c",
        &["."],
        &["N="],
    )?;
    expect_unit(
        &rt,
        " {`units`:[{`file`:`a.c`,`define`:[`_1=/* x */ 'a' // \\` '`,`B=1__VA_ARGS__ '\\\\''`,`C=??`]}]}\n",
        "a.c",
        &[],
        &["_1=/* x */ 'a' // \" '", "B=1__VA_ARGS__ '\\''", "C=??"],
    )
}

#[test]
fn what_is_no_json_is_refused(rt: HostRuntime) -> Result<(), Fail> {
    let deep = nested(rt.alloc(), 128)?;
    assert_eq!(rt;
        manifest(rt.alloc(), &deep).err(),
        Some(ManifestFault::Json)
    );
    let root = fault_at(rt.alloc(), Kind::Shape, "/")?;
    let shallow = nested(rt.alloc(), 127)?;
    assert_eq!(rt; manifest(rt.alloc(), &shallow).err(), Some(root));
    for text in [
        "",
        "{",
        "{`units`:[]} x",
        "{`units`:[`\\ud800`]}",
        "{`units`:[1e999]}",
        "{`units`:[],}",
        "{`units`:[`\t`]}",
    ] {
        let bytes = quoted(rt.alloc(), text)?;
        assert_eq!(rt;
            manifest(rt.alloc(), &bytes).err(),
            Some(ManifestFault::Json),
            "in {text}"
        );
    }
    assert_eq!(rt;
        manifest(rt.alloc(), &[b'"', 0xFF, b'"']).err(),
        Some(ManifestFault::Json)
    );
    Ok(())
}

#[test]
fn types_and_keys_are_tested(rt: HostRuntime) -> Result<(), Fail> {
    expect_paths(
        &rt,
        Kind::Shape,
        &[
            ("[]", "/"),
            ("null", "/"),
            ("{}", "units"),
            ("{`units`:{}}", "units"),
            ("{`x`:1,`b/c`:2,`units`:3}", "b/c"),
            ("{``:1,`units`:[]}", ""),
            ("{`units`:[1]}", "units/0"),
            ("{`units`:[{`x`:1,`b`:2,`B`:3}]}", "units/0/B"),
            ("{`units`:[{``:1}]}", "units/0/"),
            ("{`units`:[{}]}", "units/0/file"),
            ("{`units`:[{`file`:3}]}", "units/0/file"),
            ("{`units`:[{`file`:`../a.c`,`y`:1}]}", "units/0/y"),
            (
                "{`units`:[{`file`:`a.c`,`include`:null}]}",
                "units/0/include",
            ),
            (
                "{`units`:[{`file`:`a.c`,`include`:[`x`,3,`/`]}]}",
                "units/0/include/1",
            ),
            (
                "{`units`:[{`file`:`a.c`},{`file`:`a.c`,`file`:null}]}",
                "units/1/file",
            ),
        ],
    )?;
    expect_defines(&rt, Kind::Shape, &[("{}", ""), ("[`N`,true,`1=`]", "/1")])
}

#[test]
fn names_are_tested(rt: HostRuntime) -> Result<(), Fail> {
    expect_paths(
        &rt,
        Kind::Name,
        &[
            ("{`units`:[{`file`:`../a.c`,`define`:[3]}]}", "units/0/file"),
            ("{`units`:[{`file`:`.`}]}", "units/0/file"),
            (
                "{`units`:[{`file`:`a.c`,`include`:[``]}]}",
                "units/0/include/0",
            ),
            (
                "{`units`:[{`file`:`a.c`,`include`:[`.`,`/`,3],`define`:3}]}",
                "units/0/include/1",
            ),
        ],
    )
}

#[test]
fn defines_are_tested(rt: HostRuntime) -> Result<(), Fail> {
    expect_defines(
        &rt,
        Kind::Define,
        &[
            ("[`1=2`,3]", "/0"),
            ("[``]", "/0"),
            ("[`=1`]", "/0"),
            ("[`N =1`]", "/0"),
            ("[`defined`]", "/0"),
            ("[`__VA_ARGS__`]", "/0"),
            ("[`__LINE__=3`]", "/0"),
            ("[`N=1`,`N`]", "/1"),
            ("[`A=1`,`B`,`A=1`]", "/2"),
            ("[`A=/*`]", "/0"),
            ("[`A=\\\\`]", "/0"),
            ("[`A=a##b`]", "/0"),
            ("[`A=%:%:`]", "/0"),
            ("[`A=??=`]", "/0"),
            ("[`A=(__VA_ARGS__)`]", "/0"),
            ("[`A=''`]", "/0"),
            ("[`A=\\``]", "/0"),
            ("[`A=#include <it's>`]", "/0"),
            ("[`A=\\t`]", "/0"),
            ("[`A=\\u00e9`]", "/0"),
            ("[`\\u00e9`]", "/0"),
        ],
    )
}

#[test]
fn units_are_counted_and_compared(rt: HostRuntime) -> Result<(), Fail> {
    expect_paths(
        &rt,
        Kind::Twice,
        &[
            ("{`units`:[{`file`:`a.c`},{`file`:`a.c`}]}", "units/1"),
            (
                "{`units`:[{`file`:`a.c`,`define`:[]},{`file`:`b.c`},{`file`:`a.c`,`include`:[]},3]}",
                "units/2",
            ),
        ],
    )?;
    let most = many_units(rt.alloc(), 255)?;
    assert_eq!(rt; manifest(rt.alloc(), &most)?.len(), 256);
    let more = many_units(rt.alloc(), 256)?;
    assert_eq!(rt;
        manifest(rt.alloc(), &more).err(),
        Some(ManifestFault::TooMany)
    );
    let mut long = quoted(rt.alloc(), "{`units`:[]}")?;
    for _ in long.len()..1_048_576 {
        long.push(b' ')?;
    }
    assert_eq!(rt; manifest(rt.alloc(), &long)?.len(), 0);
    long.push(b' ')?;
    assert_eq!(rt; manifest(rt.alloc(), &long)?.len(), 0);
    Ok(())
}
