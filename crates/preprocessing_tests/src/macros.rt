//! Lines that are made by hand. In a line the tokens stand behind a blank, or behind a backquote where no white
//! space stands before them, and the place of a token is its number.

use dm_macro::MacroTable;
use dm_spell::punctuators;
use dm_token::{Memory, Origin, Place, PpKind, PpToken, Refusal, Stop, Text};
use std::alloc::Global;
use std::process::Abort;
use std::test::Fail;

fn place(byte: u32) -> Place {
    Place {
        file: 0,
        byte,
        line: 1,
        column: 1,
    }
}

fn refused(number: u8, byte: u32) -> Result<u32, Stop> {
    Err(Stop::Refused(Refusal {
        number,
        detail: 0,
        place: place(byte),
    }))
}

fn kind_of(spelling: &str) -> PpKind {
    match punctuators().find(spelling.as_bytes()) {
        Some(row) => PpKind::Punctuator(row),
        None => match spelling.as_bytes() {
            [b'0'..=b'9', ..] => PpKind::Number,
            [b'a'..=b'z' | b'A'..=b'Z' | b'_', ..] => PpKind::Identifier,
            _ => PpKind::Stray,
        },
    }
}

fn token_of(
    alloc: Global,
    spelling: &str,
    byte: u32,
    blank_before: bool,
) -> Result<PpToken, Memory> {
    Ok(PpToken {
        kind: kind_of(spelling),
        spelling: Text::new(alloc, spelling)?,
        place: place(byte),
        end: byte.saturating_add(1),
        blank_before,
        line_first: byte == 0,
    })
}

fn line_of(alloc: Global, text: &str) -> Result<Vec<PpToken>, Memory> {
    let mut line = Vec::new(alloc);
    let mut byte = 0u32;
    for part in text.split(' ') {
        let mut blank_before = true;
        for spelling in part.split('`') {
            line.push(token_of(alloc, spelling, byte, blank_before)?)?;
            byte = byte.saturating_add(1);
            blank_before = false;
        }
    }
    Ok(line)
}

fn define(
    rt: &impl Abort,
    alloc: Global,
    table: &mut MacroTable,
    text: &str,
) -> Result<Result<u32, Stop>, Memory> {
    let line = line_of(alloc, text)?;
    assert!(rt; !line.is_empty() && table.definitions().len() < 1000);
    Ok(table.define(&line, Origin::File, true))
}

fn number_of(alloc: Global, table: &MacroTable, name: &str) -> Result<Option<u32>, Memory> {
    Ok(table.get(&Text::new(alloc, name)?))
}

#[test]
fn names_are_defined_and_undefined(rt: HostRuntime) -> Result<(), Fail> {
    let alloc = rt.alloc();
    let mut table = MacroTable::new(alloc)?;
    assert_eq!(rt; define(&rt, alloc, &mut table, "# define N # N")?, Ok(0));
    assert_eq!(rt; define(&rt, alloc, &mut table, "# define E")?, Ok(1));
    assert_eq!(rt; number_of(alloc, &table, "E")?, Some(1));
    let name = Text::new(alloc, "N")?;
    assert!(rt; table.undefine(&name));
    assert!(rt; !table.undefine(&name));
    assert_eq!(rt; number_of(alloc, &table, "N")?, None);
    assert_eq!(rt; table.definitions().len(), 2);
    Ok(())
}

#[test]
fn a_definition_keeps_what_its_line_gives(rt: HostRuntime) -> Result<(), Fail> {
    let alloc = rt.alloc();
    let mut table = MacroTable::new(alloc)?;
    let line = "# define F`(`a`, b`,`...`) a #`b`##`__VA_ARGS__";
    assert_eq!(rt; define(&rt, alloc, &mut table, line)?, Ok(0));
    let first = table.definitions().first().ok_or("one")?;
    let parameters = first.parameters.as_ref().ok_or("function-like")?;
    assert_eq!(rt; parameters.len(), 2);
    assert!(rt; first.variadic);
    assert_eq!(rt; first.body.len(), 5);
    assert_eq!(rt; first.place, place(2));
    assert_eq!(rt; (first.hash, first.head_end), (0, 10));
    Ok(())
}

#[test]
fn what_has_not_the_form_is_refused_at_its_hash(rt: HostRuntime) -> Result<(), Fail> {
    let alloc = rt.alloc();
    let mut table = MacroTable::new(alloc)?;
    for line in [
        "# define",
        "# define 3",
        "# define F`(",
        "# define F`(`a",
        "# define F`(`a`,",
        "# define F`(`a a`)",
        "# define F`(`a`,`)",
        "# define F`(`...`,`a`)",
        "# define F`(`a`,`a`) a",
        "# define F`(`__VA_ARGS__`)",
        "# define F`(`a`) ## a",
        "# define N a %:%:",
        "# define N __VA_ARGS__",
        "# define X`+`1",
        "# define defined",
        "# define __FILE__ 1",
        "# define F`(`a`,`a`) #`b",
    ] {
        assert_eq!(rt;
            define(&rt, alloc, &mut table, line)?,
            refused(5, 0),
            "{line}"
        );
        assert!(rt; table.definitions().is_empty());
    }
    Ok(())
}

#[test]
fn a_hash_is_followed_by_a_parameter(rt: HostRuntime) -> Result<(), Fail> {
    let alloc = rt.alloc();
    let mut table = MacroTable::new(alloc)?;
    for (line, wanted) in [
        ("# define G`(`a`) #`b", refused(11, 6)),
        ("# define G`(`a`) #`a #`b", refused(11, 8)),
        ("# define G`(`) %:", refused(11, 5)),
        ("# define G`(`defined`) # defined", Ok(0)),
        ("# define G`(`a`) #`b", refused(11, 6)),
    ] {
        assert_eq!(rt; define(&rt, alloc, &mut table, line)?, wanted, "{line}");
    }
    Ok(())
}

#[test]
fn a_name_keeps_its_first_definition(rt: HostRuntime) -> Result<(), Fail> {
    let alloc = rt.alloc();
    let mut table = MacroTable::new(alloc)?;
    for (line, wanted) in [
        ("# define F`(`a`) a +`b", Ok(0)),
        ("# define F`( a )`a +`b", Ok(1)),
        ("# define F`(`a`) a`+`b", refused(12, 2)),
        ("# define F`(`b`) a +`b", refused(12, 2)),
        ("# define F`(`a`,`...`) a +`b", refused(12, 2)),
        ("# define F a +`b", refused(12, 2)),
        ("# define F`(`a`) a +", refused(12, 2)),
    ] {
        assert_eq!(rt; define(&rt, alloc, &mut table, line)?, wanted, "{line}");
        assert_eq!(rt; number_of(alloc, &table, "F")?, Some(0));
    }
    assert_eq!(rt; table.definitions().len(), 2);
    Ok(())
}
