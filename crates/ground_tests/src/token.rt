//! Each public call of `dm_token` once, those that take memory at a great size, and a type that holds itself.

ghost use Rattle.std.specs.Prelude.{◌≡◌, [], ◌∷◌, IfOk};

use dm_token::{
    Boxed, Buffer, List, Mark, Memory, Place, PpKind, PpToken, Span, Text, Token, Trail,
    greatest_int, is_digit, is_normal_name, place_at, source_length_limit,
};
use std::alloc::Global;
use std::collections::{BTreeMap, HashMap};
use std::process::Abort;
use std::test::Fail;

/// A tree that holds itself both ways.
#[derive(Debug, PartialEq, Eq, Drop)]
enum Tree {
    Leaf(u8),
    Negation(Boxed<Tree>),
    Sum(List<Tree>),
}

/// How many leaves a tree has.
fn leaves(tree: &Tree) -> usize {
    match tree {
        Tree::Leaf(_) => 1,
        Tree::Negation(child) => leaves(child.get()),
        Tree::Sum(children) => {
            let mut count = 0usize;
            for child in children.items() {
                count = count.saturating_add(leaves(child));
            }
            count
        }
    }
}

/// The tree below one more node.
fn negation(alloc: Global, tree: Tree) -> Result<Tree, Memory>
    ensures { IfOk result (λ made. made ≡ Tree.Negation tree) }
{
    Ok(Tree::Negation(Boxed::new(alloc, tree)?))
}

/// The two trees below one more node.
fn sum(alloc: Global, left: Tree, right: Tree) -> Result<Tree, Memory>
    ensures { IfOk result (λ made. made ≡ Tree.Sum (left ∷ right ∷ [])) }
{
    let mut children = List::new(alloc);
    children.push(left)?;
    children.push(right)?;
    Ok(Tree::Sum(children))
}

#[test]
fn texts_hold_the_bytes_given(rt: HostRuntime) -> Result<(), Fail> {
    let words = Text::new(rt.alloc(), "a\u{F1}")?;
    let bytes = Text::from_bytes(rt.alloc(), &[b'a', 0xC3, 0xB1])?;
    assert_eq!(rt; words.bytes(), [b'a', 0xC3, 0xB1].as_slice());
    assert_eq!(rt; words, bytes);
    assert_eq!(rt; words.copy()?, bytes);
    assert_eq!(rt; Text::new(rt.alloc(), "")?.bytes().len(), 0);
    Ok(())
}

#[test]
fn texts_are_cut_from_a_buffer(rt: HostRuntime) -> Result<(), Fail> {
    let buffer = Buffer::new(rt.alloc(), b"int x;".to_vec(rt.alloc())?)?;
    assert_eq!(rt; buffer.bytes(), b"int x;".as_slice());
    assert_eq!(rt; buffer.bytes().len(), 6);
    let word = buffer.text(0, 3)?;
    let rest = buffer.text(3, 6)?;
    drop(buffer);
    assert_eq!(rt; word, Text::new(rt.alloc(), "int")?);
    assert_eq!(rt; rest, Text::new(rt.alloc(), " x;")?);
    assert_ne!(rt; word, rest);
    Ok(())
}

#[test]
fn texts_come_in_the_order_of_their_bytes(rt: HostRuntime) -> Result<(), Fail> {
    let mut names = BTreeMap::new(rt.alloc());
    for name in ["b", "a\u{F1}", "", "a", "az"] {
        names.insert(Text::new(rt.alloc(), name)?, name)?;
    }
    let mut wanted = ["", "a", "az", "a\u{F1}", "b"].iter();
    for name in names.values() {
        assert_eq!(rt; Some(name), wanted.next());
    }
    assert_eq!(rt; wanted.next(), None);
    Ok(())
}

#[test]
fn texts_are_keys_of_hash_maps(rt: HostRuntime) -> Result<(), Fail> {
    let mut numbers = HashMap::new(rt.alloc());
    numbers.insert(Text::new(rt.alloc(), "N")?, 7)?;
    numbers.insert(Text::new(rt.alloc(), "M")?, 8)?;
    let buffer = Buffer::new(rt.alloc(), b"MN".to_vec(rt.alloc())?)?;
    assert_eq!(rt; buffer.bytes().len(), 2);
    assert_eq!(rt; numbers.get(&buffer.text(1, 2)?).copied(), Some(7));
    assert_eq!(rt; numbers.get(&buffer.text(0, 2)?).copied(), None);
    Ok(())
}

#[test]
fn a_text_has_a_mebibyte(rt: HostRuntime) -> Result<(), Fail> {
    let mut bytes = Vec::new(rt.alloc());
    for number in 0..1_048_576u32 {
        bytes.push((number % 251) as u8)?;
    }
    let copied = Text::from_bytes(rt.alloc(), &bytes)?;
    assert_eq!(rt; copied.bytes(), bytes.as_slice());
    let moved = Text::from_vec(rt.alloc(), bytes)?;
    assert_eq!(rt; moved.copy()?, copied);
    Ok(())
}

#[test]
fn lists_hold_the_items_given(rt: HostRuntime) -> Result<(), Fail> {
    let mut list = List::new(rt.alloc());
    assert!(rt; list.is_empty());
    list.push(7u16)?;
    list.push(8)?;
    assert!(rt; !list.is_empty());
    assert_eq!(rt; list.len(), 2);
    assert_eq!(rt; list.items(), [7, 8].as_slice());
    let mut roomy = Vec::with_capacity(rt.alloc(), 64)?;
    roomy.push(7u16)?;
    assert_ne!(rt; List::from_vec(roomy.clone()?), list);
    roomy.push(8)?;
    assert_eq!(rt; List::from_vec(roomy), list);
    assert_eq!(rt; list.into_vec().as_slice(), [7, 8].as_slice());
    Ok(())
}

#[test]
fn a_list_has_a_mebibyte_of_items(rt: HostRuntime) -> Result<(), Fail> {
    let mut list = List::new(rt.alloc());
    for number in 0..1_048_576u32 {
        list.push(number)?;
    }
    assert_eq!(rt; list.len(), 1_048_576);
    assert_eq!(rt; list.items().last().copied(), Some(1_048_575));
    Ok(())
}

/// The mark of an argument's place.
fn argument(occurrence: u32) -> Mark {
    Mark::Argument {
        parameter: 0,
        occurrence,
    }
}

/// A trail of arguments' marks.
fn trail(alloc: Global, occurrences: &[u32]) -> Result<Trail, Memory> {
    let mut trail = Trail::empty(alloc);
    for occurrence in occurrences {
        if trail.length() < u32::MAX {
            trail = trail.grow(argument(*occurrence))?;
        }
    }
    Ok(trail)
}

#[test]
fn trails_grow_from_a_shared_one(rt: HostRuntime) -> Result<(), Fail> {
    let alloc = rt.alloc();
    let shared = trail(alloc, &[1, 2])?;
    assert_eq!(rt; shared.length(), 2);
    let left = shared.grow(argument(3))?;
    let right = shared.copy()?.grow(argument(4))?;
    drop(shared);
    assert_eq!(rt; left.last(), Some(argument(3)));
    assert_eq!(rt; left.parent().and_then(Trail::last), Some(argument(2)));
    assert_eq!(rt; left.parent(), right.parent());
    assert_eq!(rt;
        left.marks()?.items(),
        [argument(1), argument(2), argument(3)].as_slice()
    );
    assert_eq!(rt; right, trail(alloc, &[1, 2, 4])?);
    assert_ne!(rt; left, right);
    assert_eq!(rt; Trail::empty(alloc).last(), None);
    assert_eq!(rt; Trail::empty(alloc).parent(), None);
    Ok(())
}

#[test]
fn trails_begin_alike_up_to_the_first_mark_that_differs(rt: HostRuntime) -> Result<(), Fail> {
    let alloc = rt.alloc();
    let left = trail(alloc, &[1, 2, 3])?;
    let right = trail(alloc, &[1, 2, 4, 3])?;
    let both = trail(alloc, &[1, 2])?;
    assert_eq!(rt; *left.common(&right), both);
    assert_eq!(rt; *right.common(&left), both);
    assert_eq!(rt; *left.common(&both), both);
    assert_eq!(rt; left.common(&trail(alloc, &[2, 2, 3])?).length(), 0);
    assert!(rt; both.begins(&right));
    assert!(rt; right.begins(&right));
    assert!(rt; Trail::empty(alloc).begins(&left));
    assert!(rt; !left.begins(&right));
    assert!(rt; !left.begins(&both));
    Ok(())
}

#[test]
fn a_trail_of_a_million_marks_is_dropped(rt: HostRuntime) -> Result<(), Fail> {
    let alloc = rt.alloc();
    let mut long = Trail::empty(alloc);
    for number in 0..1_000_000u32 {
        if long.length() < u32::MAX {
            long = long.grow(argument(number))?;
        }
    }
    let copy = long.copy()?;
    assert_eq!(rt; long.length(), 1_000_000);
    assert!(rt; copy.begins(&long));
    assert_eq!(rt; copy.common(&long).length(), 1_000_000);
    assert_eq!(rt;
        copy.marks()?.items().last().copied(),
        Some(argument(999_999))
    );
    drop(long);
    assert_eq!(rt; copy.last(), Some(argument(999_999)));
    Ok(())
}

#[test]
fn tokens_are_copied(rt: HostRuntime) -> Result<(), Fail> {
    let alloc = rt.alloc();
    let pp = PpToken {
        kind: PpKind::Identifier,
        spelling: Text::new(alloc, "N")?,
        place: Place {
            file: 0,
            byte: 4,
            line: 1,
            column: 5,
        },
        end: 7,
        blank_before: true,
        line_first: false,
    };
    assert_eq!(rt; pp.copy()?, pp);
    let token = Token {
        pp,
        trail: trail(alloc, &[1, 2])?,
    };
    assert_eq!(rt; token.copy()?, token);
    Ok(())
}

#[test]
fn digits_and_limits_are_those_of_c_and_the_tool(rt: HostRuntime) {
    for byte in 0..=u8::MAX {
        assert_eq!(rt; is_digit(byte), b"0123456789".contains(&byte));
    }
    assert_eq!(rt; greatest_int(), i32::MAX as u32);
    assert_eq!(rt; source_length_limit(), 1 << 20);
}

#[test]
fn a_type_holds_itself_through_lists_and_boxes(rt: HostRuntime) -> Result<(), Fail> {
    let alloc = rt.alloc();
    let inner = negation(alloc, Tree::Leaf(2))?;
    let tree = sum(alloc, Tree::Leaf(1), inner)?;
    assert_eq!(rt; leaves(&tree), 2);
    let equal = sum(alloc, Tree::Leaf(1), negation(alloc, Tree::Leaf(2))?)?;
    assert_eq!(rt; tree, equal);
    assert_ne!(rt; tree, negation(alloc, equal)?);
    assert_eq!(rt; Boxed::new(alloc, 7)?.into_inner(), 7);
    Ok(())
}

/// Checks the line and the column of each offset into the bytes.
fn expect_places(rt: &impl Abort, bytes: &[u8], expected: &[(u32, u32)]) {
    assert!(rt; bytes.len() < 100);
    assert_eq!(rt; expected.len(), bytes.len() + 1);
    for (offset, (line, column)) in expected.iter().enumerate() {
        assert!(rt; offset <= bytes.len());
        let wanted = Place {
            file: 3,
            byte: offset as u32,
            line: *line,
            column: *column,
        };
        assert_eq!(rt; place_at(3, bytes, offset), wanted, "at {offset}");
    }
}

#[test]
fn places_count_lines_and_columns_from_1(rt: HostRuntime) {
    expect_places(&rt, b"", &[(1, 1)]);
    expect_places(&rt, b"a\n", &[(1, 1), (1, 2), (2, 1)]);
    expect_places(
        &rt,
        b"ab\n\n\xC3\xB1",
        &[(1, 1), (1, 2), (1, 3), (2, 1), (3, 1), (3, 2), (3, 3)],
    );
}

#[test]
fn places_come_in_the_order_of_files_and_then_of_bytes(rt: HostRuntime) {
    let place = |file, byte| Place {
        file,
        byte,
        line: 1,
        column: 1,
    };
    assert!(rt; place(0, 4).before(place(0, 5)));
    assert!(rt; place(0, 9).before(place(1, 5)));
    assert!(rt; !place(0, 5).before(place(0, 5)));
    assert!(rt; !place(1, 4).before(place(0, 5)));
}

#[test]
fn a_span_lies_within_itself_and_wider_ones(rt: HostRuntime) {
    let outer = Span { first: 2, after: 5 };
    let table = [
        (2, 5, true),
        (3, 4, true),
        (3, 3, true),
        (1, 5, false),
        (2, 6, false),
    ];
    for (first, after, wanted) in table {
        assert_eq!(rt;
            Span { first, after }.within(outer),
            wanted,
            "{first} to {after}"
        );
    }
}

#[test]
fn normal_names_lead_below_the_current_folder(rt: HostRuntime) -> Result<(), Fail> {
    for name in ["a.c", "a/b-c+d_e.h", "...", "A/..b/9", ".a"] {
        assert!(rt; is_normal_name(name.as_bytes()), "{name}");
    }
    for name in [
        "", "../a.c", "a/../b.c", "/a.c", "a//b.c", "a/", ".", "..", "./a.c", "a b.c", "a\\b.c",
        "\u{80}.c",
    ] {
        assert!(rt; !is_normal_name(name.as_bytes()), "{name}");
    }
    let mut name = Vec::new(rt.alloc());
    for _ in 0..255 {
        name.push(b'a')?;
    }
    assert!(rt; is_normal_name(&name));
    name.push(b'a')?;
    assert!(rt; !is_normal_name(&name));
    Ok(())
}
