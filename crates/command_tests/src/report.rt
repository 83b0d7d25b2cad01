//! Worked reports.

use dm_edit::{As, Entry, Fate, Plan};
use dm_report::{json, text};
use dm_token::{Definition, List, Origin, Place, Text};
use std::process::Abort;
use std::test::Fail;

/// A place of which file, line and column count.
fn place(file: u32, line: u32, column: u32) -> Place {
    Place {
        file,
        byte: 0,
        line,
        column,
    }
}

/// A definition of this name at a place, and what becomes of it.
fn entry<R: AllocGlobal>(rt: &R, name: &str, place: Place, outcome: Fate) -> Result<Entry, Fail> {
    let definition = Definition {
        name: Text::new(rt.alloc(), name)?,
        parameters: None,
        variadic: false,
        body: List::new(rt.alloc()),
        origin: Origin::File,
        place,
        hash: 0,
        head_end: 0,
        head_plain: true,
    };
    Ok(Entry {
        definition,
        outcome,
    })
}

fn plan<R: AllocGlobal>(rt: &R, names: &[&str], entries: Vec<Entry>) -> Result<Plan, Fail> {
    let mut files = List::new(rt.alloc());
    for name in names {
        files.push(Text::new(rt.alloc(), name)?)?;
    }
    Ok(Plan {
        entries: List::from_vec(entries),
        names: files,
        files: List::new(rt.alloc()),
    })
}

/// Checks both reports of a plan.
fn expect_reports<R: Abort + AllocGlobal>(
    rt: &R,
    plan: &Plan,
    wanted_text: &str,
    wanted_json: &str,
) -> Result<(), Fail> {
    assert_eq!(rt; text(rt.alloc(), plan)?.bytes(), wanted_text.as_bytes());
    assert_eq!(rt; json(rt.alloc(), plan)?.bytes(), wanted_json.as_bytes());
    Ok(())
}

#[test]
fn a_plan_without_definitions_is_one_line(rt: HostRuntime) -> Result<(), Fail> {
    let plan = plan(&rt, &[], Vec::new(rt.alloc()))?;
    expect_reports(
        &rt,
        &plan,
        "rewritten 0 kept 0\n",
        "{\"definitions\":[],\"kept\":0,\"rewritten\":0}\n",
    )
}

#[test]
fn each_outcome_has_its_line(rt: HostRuntime) -> Result<(), Fail> {
    let kept = Fate::Kept {
        rule: 14,
        place: place(0, 3, 29),
    };
    let mut entries = Vec::new(rt.alloc());
    entries.push(entry(&rt, "SQ", place(0, 2, 9), Fate::Rewritten(As::Function))?)?;
    entries.push(entry(&rt, "N", place(1, 3, 9), Fate::Rewritten(As::Enumerator))?)?;
    entries.push(entry(&rt, "U", place(0, 4, 9), Fate::Rewritten(As::Constant))?)?;
    entries.push(entry(&rt, "AND", place(1, 2, 9), kept)?)?;
    let plan = plan(&rt, &["a.c", "inc/h.h"], entries)?;
    expect_reports(&rt, &plan, OUTCOMES, OUTCOMES_AS_JSON)
}

const OUTCOMES: &str = "rewritten a.c:2 SQ function
rewritten inc/h.h:3 N enumerator
rewritten a.c:4 U constant
kept inc/h.h:2 AND rule 14 Evaluation a.c:3:29
rewritten 3 kept 1
";

const OUTCOMES_AS_JSON: &str = "{\"definitions\":[\
{\"as\":\"function\",\"file\":\"a.c\",\"line\":2,\"name\":\"SQ\",\"outcome\":\"rewritten\"},\
{\"as\":\"enumerator\",\"file\":\"inc/h.h\",\"line\":3,\"name\":\"N\",\"outcome\":\"rewritten\"},\
{\"as\":\"constant\",\"file\":\"a.c\",\"line\":4,\"name\":\"U\",\"outcome\":\"rewritten\"},\
{\"file\":\"inc/h.h\",\"line\":2,\"name\":\"AND\",\"outcome\":\"kept\",\
\"place\":{\"column\":29,\"file\":\"a.c\",\"line\":3},\"rule\":14,\"title\":\"Evaluation\"}\
],\"kept\":1,\"rewritten\":3}
";

#[test]
fn an_argument_with_side_effects_is_reported(rt: HostRuntime) -> Result<(), Fail> {
    let kept = Fate::Kept {
        rule: 14,
        place: place(0, 2, 36),
    };
    let mut entries = Vec::new(rt.alloc());
    entries.push(entry(&rt, "SQ", place(0, 1, 9), kept)?)?;
    let plan = plan(&rt, &["a.c"], entries)?;
    expect_reports(
        &rt,
        &plan,
        "kept a.c:1 SQ rule 14 Evaluation a.c:2:36\nrewritten 0 kept 1\n",
        "{\"definitions\":[{\"file\":\"a.c\",\"line\":1,\"name\":\"SQ\",\"outcome\":\"kept\",\"place\":{\"column\":36,\"file\":\"a.c\",\"line\":2},\"rule\":14,\"title\":\"Evaluation\"}],\"kept\":1,\"rewritten\":0}\n",
    )
}

#[test]
fn bytes_that_json_escapes_are_escaped(rt: HostRuntime) -> Result<(), Fail> {
    let mut entries = Vec::new(rt.alloc());
    entries.push(entry(&rt, "N", place(0, 1, 9), Fate::Rewritten(As::Enumerator))?)?;
    let plan = plan(&rt, &["q\"\\/\x01\x1f\t\n\r.c"], entries)?;
    expect_reports(
        &rt,
        &plan,
        "rewritten q\"\\/\x01\x1f\t\n\r.c:1 N enumerator\nrewritten 1 kept 0\n",
        "{\"definitions\":[{\"as\":\"enumerator\",\"file\":\"q\\\"\\\\/\\u0001\\u001f\\t\\n\\r.c\",\"line\":1,\"name\":\"N\",\"outcome\":\"rewritten\"}],\"kept\":0,\"rewritten\":1}\n",
    )
}

#[test]
fn what_has_no_name_is_reported_without_one(rt: HostRuntime) -> Result<(), Fail> {
    let kept = Fate::Kept {
        rule: 16,
        place: place(7, 2, 3),
    };
    let mut entries = Vec::new(rt.alloc());
    entries.push(entry(&rt, "N", place(0, 1, 9), kept)?)?;
    let plan = plan(&rt, &["a.c"], entries)?;
    expect_reports(
        &rt,
        &plan,
        "kept a.c:1 N rule 16  :2:3\nrewritten 0 kept 1\n",
        "{\"definitions\":[{\"file\":\"a.c\",\"line\":1,\"name\":\"N\",\"outcome\":\"kept\",\"place\":{\"column\":3,\"file\":\"\",\"line\":2},\"rule\":16,\"title\":\"\"}],\"kept\":1,\"rewritten\":0}\n",
    )
}

#[test]
fn bytes_that_are_no_text_are_replaced_in_json(rt: HostRuntime) -> Result<(), Fail> {
    let mut plan = plan(&rt, &[], Vec::new(rt.alloc()))?;
    plan.names
        .push(Text::from_bytes(rt.alloc(), b"a\xff\xc3\xa9.c")?)?;
    let rewritten = Fate::Rewritten(As::Enumerator);
    plan.entries
        .push(entry(&rt, "N", place(0, 1, 9), rewritten)?)?;
    assert_eq!(rt;
        text(rt.alloc(), &plan)?.bytes(),
        b"rewritten a\xff\xc3\xa9.c:1 N enumerator\nrewritten 1 kept 0\n".as_slice()
    );
    assert_eq!(rt;
        json(rt.alloc(), &plan)?.bytes(),
        "{\"definitions\":[{\"as\":\"enumerator\",\"file\":\"a\u{fffd}\u{e9}.c\",\"line\":1,\"name\":\"N\",\"outcome\":\"rewritten\"}],\"kept\":0,\"rewritten\":1}\n".as_bytes()
    );
    Ok(())
}

#[test]
fn each_rule_has_its_title(rt: HostRuntime) -> Result<(), Fail> {
    let mut entries = Vec::new(rt.alloc());
    for rule in 1..16 {
        let kept = Fate::Kept {
            rule,
            place: place(0, u32::from(rule), 7),
        };
        entries.push(entry(&rt, "R", place(0, 1, 9), kept)?)?;
    }
    let plan = plan(&rt, &["a.c"], entries)?;
    assert_eq!(rt; text(rt.alloc(), &plan)?.bytes(), TITLED.as_bytes());
    Ok(())
}

const TITLED: &str = "kept a.c:1 R rule 1 Body a.c:1:7
kept a.c:1 R rule 2 Again a.c:2:7
kept a.c:1 R rule 3 Directive a.c:3:7
kept a.c:1 R rule 4 Unused a.c:4:7
kept a.c:1 R rule 5 Gone a.c:5:7
kept a.c:1 R rule 6 Place a.c:6:7
kept a.c:1 R rule 7 Name a.c:7:7
kept a.c:1 R rule 8 Parameter a.c:8:7
kept a.c:1 R rule 9 Subtree a.c:9:7
kept a.c:1 R rule 10 Constant a.c:10:7
kept a.c:1 R rule 11 Lvalue a.c:11:7
kept a.c:1 R rule 12 Type a.c:12:7
kept a.c:1 R rule 13 Capture a.c:13:7
kept a.c:1 R rule 14 Evaluation a.c:14:7
kept a.c:1 R rule 15 Reread a.c:15:7
rewritten 0 kept 15
";

#[test]
fn the_greatest_plan_is_reported(rt: HostRuntime) -> Result<(), Fail> {
    let mut entries = Vec::new(rt.alloc());
    for line in 1..4097 {
        let kept = Fate::Kept {
            rule: 15,
            place: place(0, line, 9),
        };
        entries.push(entry(&rt, "MM", place(0, line, 9), kept)?)?;
    }
    let plan = plan(&rt, &["a.c"], entries)?;
    assert_eq!(rt; text(rt.alloc(), &plan)?.bytes().len(), 173936);
    assert_eq!(rt; json(rt.alloc(), &plan)?.bytes().len(), 526214);
    Ok(())
}
