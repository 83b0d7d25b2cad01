//! Worked expansions.

use dm_expand::{Expanded, Work, expand};
use dm_lex::tokens;
use dm_macro::MacroTable;
use dm_phase::flatten;
use dm_token::{
    Expansion, List, Mark, Origin, PpToken, Stop, Text, Token, Trail, source_length_limit,
};
use std::process::Abort;
use std::test::Fail;

/// The tokens of a text.
fn tokens_of<R: Abort + AllocGlobal>(rt: &R, text: &[u8]) -> Result<List<PpToken>, Stop> {
    assert!(rt; text.len() <= source_length_limit());
    let flat = flatten(rt.alloc(), 0, text)?;
    tokens(rt.alloc(), 0, &flat, text)
}

/// Adds the macro of a line.
fn define<R: Abort + AllocGlobal>(rt: &R, table: &mut MacroTable, line: &str) -> Result<(), Stop> {
    let list = tokens_of(rt, line.as_bytes())?;
    assert!(rt; !list.is_empty());
    assert!(rt; table.definitions().len() < 1_000);
    table.define(list.items(), Origin::File, true)?;
    Ok(())
}

/// The macros that lines define.
fn table_of<R: Abort + AllocGlobal>(rt: &R, lines: &str) -> Result<MacroTable, Stop> {
    let mut table = MacroTable::new(rt.alloc())?;
    for line in lines.split('\n') {
        define(rt, &mut table, line)?;
    }
    Ok(table)
}

/// What a text expands to, where lines define the macros and the next expansion has the number 5.
fn expanded<R: Abort + AllocGlobal>(rt: &R, lines: &str, text: &str) -> Result<Expanded, Stop> {
    let table = table_of(rt, lines)?;
    let group = tokens_of(rt, text.as_bytes())?;
    let files = [Text::new(rt.alloc(), "a.c")?];
    let mut work = Work { spent: 10 };
    expand(rt.alloc(), &table, &files, group.items(), 5, &mut work)
}

/// Each token by its spelling, with a space before it where a blank stands there.
fn spelled<R: Abort + AllocGlobal>(rt: &R, tokens: &[Token]) -> Result<Vec<u8>, Stop> {
    let mut spelled = Vec::new(rt.alloc());
    for token in tokens {
        if token.pp.blank_before {
            spelled.push(b' ')?;
        }
        spelled.extend_from_slice(token.pp.spelling.bytes())?;
    }
    Ok(spelled)
}

/// What a text expands to, by its tokens' spellings.
fn shown<R: Abort + AllocGlobal>(rt: &R, lines: &str, text: &str) -> Result<Vec<u8>, Stop> {
    let expanded = expanded(rt, lines, text)?;
    spelled(rt, expanded.tokens.items())
}

/// Checks a row, which is a text and, behind an arrow on a new line, what it expands to.
fn expect_row<R: Abort + AllocGlobal>(rt: &R, lines: &str, row: &str) -> Result<(), Fail> {
    let Some((text, wanted)) = row.split_once("\n=>") else {
        panic!(rt; "no arrow in {row}");
    };
    let spelled = shown(rt, lines, text)?;
    assert!(rt; spelled.as_slice() == wanted.as_bytes(), "{text}");
    Ok(())
}

/// Checks an example: the definitions of its macros, and rows, each behind an empty line.
fn expect_shown<R: Abort + AllocGlobal>(rt: &R, example: &str) -> Result<(), Fail> {
    let Some((lines, rows)) = example.split_once("\n\n") else {
        panic!(rt; "no row in {example}");
    };
    for row in rows.split("\n\n") {
        expect_row(rt, lines, row)?;
    }
    Ok(())
}

/// 6.10.3.5p5, with the second definition of x.
const RESCANNED: &str = r#"#define x 2
#define f(a) f(x * (a))
#define g f
#define z z[0]
#define h g(~
#define m(a) a(w)
#define w 0,1
#define t(a) a
#define p() int
#define q(x) x
#define r(x,y) x ## y
#define str(x) # x

f(y+1) + f(f(z)) % t(t(g)(0) + t)(1);
=> f(2 * (y+1)) + f(2 * (f(2 * (z[0])))) % f(2 * (0)) + t(1);

g(x+(3,4)-w) | h 5) & m(f)^m(m);
=> f(2 * (2+(3,4)-0,1)) | f(2 * (~ 5)) & f(2 * (0,1))^m(0,1);

p() i[q()] = { q(1), r(2,3), r(4,), r(,5), r(,) };
=> int i[] = { 1, 23, 4, 5, };

char c[2][6] = { str(hello), str() };
=> char c[2][6] = { "hello", "" };"#;

/// 6.10.3.5p6.
const OPERATORS: &str = r#"#define str(s) # s
#define xstr(s) str(s)
#define debug(s, t) printf("x" # s "= %d, x" # t "= %s", x ## s, x ## t)
#define INCFILE(n) vers ## n
#define glue(a, b) a ## b
#define xglue(a, b) glue(a, b)
#define HIGHLOW "hello"
#define LOW LOW ", world"

debug(1, 2);
=> printf("x" "1" "= %d, x" "2" "= %s", x1, x2);

fputs(str(strncmp("abc\0d", "abc", '\4') // this goes away
== 0) str(: @\n), s);
=> fputs("strncmp(\"abc\\0d\", \"abc\", '\\4') == 0" ": @\n", s);

xstr(INCFILE(2).h)
=> "vers2.h"

glue(HIGH, LOW);
=> "hello";

xglue(HIGH, LOW)
=> "hello" ", world""#;

/// 6.10.3.5p7 and p9.
const COUNTS: &str = r#"#define t(x,y,z) x ## y ## z
#define debug(...) fprintf(stderr, __VA_ARGS__)
#define showlist(...) puts(#__VA_ARGS__)
#define report(test, ...) ((test)?puts(#test): printf(__VA_ARGS__))

int j[] = { t(1,2,3), t(,4,5), t(6,,7), t(8,9,), t(10,,), t(,11,), t(,,12), t(,,) };
=> int j[] = { 123, 45, 67, 89, 10, 11, 12, };

debug("Flag");
=> fprintf(stderr, "Flag");

showlist(The first, second, and third items.);
=> puts("The first, second, and third items.");

report(x>y, "x is %d but y is %d", x, y);
=> ((x>y)?puts("x>y"): printf("x is %d but y is %d", x, y));"#;

/// 6.10.3.3p4.
const HASHES: &str = r#"#define hash_hash # ## #
#define mkstr(a) # a
#define in_between(a) mkstr(a)
#define join(c, d) in_between(c hash_hash d)

char p[] = join(x, y);
=> char p[] = "x ## y";

a hash_hash b
=> a ## b"#;

#[test]
fn expands_the_examples_of_the_standard(rt: HostRuntime) -> Result<(), Fail> {
    expect_shown(&rt, RESCANNED)?;
    expect_shown(&rt, OPERATORS)?;
    expect_shown(&rt, COUNTS)?;
    expect_shown(&rt, HASHES)
}

/// Names that are hidden, parentheses behind the replacement, and arguments.
const HIDDEN: &str = r#"#define f(a) a*g
#define g(a) f(a)
#define A B
#define B C
#define C A
#define ID(x) x
#define LATER(x) ID
#define G(x) x
#define V(...) <__VA_ARGS__>
#define W(a,...) <a|__VA_ARGS__>
#define P(a,b) a##b
#define S(a) #a
#define N

f(2)(9)
=> 2*9*g

A B C
=> A B C

ID(ID)(1)
=> ID(1)

G(LATER(2))(3)
=> 3

V() V(a,b) W(1) W(1,) W(1,2,3)
=> <> <a,b> <1|> <1|> <1|2,3>

P(1,2) P(,x) P(x,) P(,) P(N,N)
=> 12 x x NN

S( a  "b\n" 'c' ) S() S(N)
=> "a \"b\\n\" 'c'" "" "N"

ID(1
+ 2)
=> 1 + 2"#;

#[test]
fn hides_names_and_finds_parentheses_in_the_rescan(rt: HostRuntime) -> Result<(), Fail> {
    expect_shown(&rt, HIDDEN)
}

/// Parameters of which there are many, or that stand in more than one place.
const PARAMETERS: &str = r#"#define NINE(a,b,c,d,e,f,g,h,i) i h g f e d c b a i
#define MANY(a,b,c,d,e,f,g,h,i,...) i __VA_ARGS__ #a #__VA_ARGS__ b##i
#define TWICE(x,y) x y x
#define ID(x) x
#define EACH(x) x #x x##x x

NINE(1,2,3,4,5,6,7,8,9)
=> 9 8 7 6 5 4 3 2 1 9

MANY(1,2,3,4,5,6,7,8,9,10,11)
=> 9 10,11 "1" "10,11" 29

TWICE(ID(ID(1)),ID(2))
=> 1 2 1

TWICE(TWICE(a,b),TWICE(c,d))
=> a b a c d c a b a

EACH(n)
=> n "n" nn n

ID(TWICE(ID(1),ID(TWICE(2,3))))
=> 1 2 3 2 1"#;

#[test]
fn puts_arguments_in_each_place_of_their_parameters(rt: HostRuntime) -> Result<(), Fail> {
    expect_shown(&rt, PARAMETERS)
}

/// Macros with parameters.
const REFUSING: &str = "#define P(a,b) a##b\n\
#define T(a,b) a b\n\
#define Z() z\n\
#define V(a,b,...) a";

/// The number and the column of a refusal, or zeros.
fn refused<R: Abort + AllocGlobal>(rt: &R, text: &str) -> Result<(u8, u32), Stop> {
    match expanded(rt, REFUSING, text) {
        Ok(_) => Ok((0, 0)),
        Err(Stop::Refused(refusal)) => Ok((refusal.number, refusal.place.column)),
        Err(stop) => Err(stop),
    }
}

/// Checks the number and the column of a refusal.
fn expect_refused<R: Abort + AllocGlobal>(
    rt: &R,
    text: &str,
    wanted: (u8, u32),
) -> Result<(), Fail> {
    let answer = refused(rt, text)?;
    assert_eq!(rt; answer, wanted, "{text}");
    Ok(())
}

#[test]
fn refuses_at_the_name(rt: HostRuntime) -> Result<(), Fail> {
    expect_refused(&rt, "x P(+,x)", (10, 3))?;
    expect_refused(&rt, " T(1", (9, 2))?;
    expect_refused(&rt, "T(1,2,3)", (9, 1))?;
    expect_refused(&rt, "Z(1)", (9, 1))?;
    expect_refused(&rt, "Z( )", (0, 0))?;
    expect_refused(&rt, "V(1)", (9, 1))?;
    expect_refused(&rt, "V(1,2)", (0, 0))?;
    expect_refused(&rt, "T(P(+,x),T(1))", (10, 3))
}

/// A trail of these marks.
fn trail_of<R: Abort + AllocGlobal>(rt: &R, marks: &[Mark]) -> Result<Trail, Stop> {
    let mut trail = Trail::empty(rt.alloc());
    for mark in marks {
        assert!(rt; trail.length() < u32::MAX);
        trail = trail.grow(*mark)?;
    }
    Ok(trail)
}

const OUTER: Mark = Mark::Expansion {
    definition: 0,
    instance: 5,
};

const INNER: Mark = Mark::Expansion {
    definition: 1,
    instance: 6,
};

const ARGUMENT: Mark = Mark::Argument {
    parameter: 0,
    occurrence: 0,
};

/// Checks the marks of a trail.
fn expect_trail<R: Abort + AllocGlobal>(rt: &R, trail: &Trail, marks: &[Mark]) -> Result<(), Fail> {
    let wanted = trail_of(rt, marks)?;
    assert!(rt; *trail == wanted);
    Ok(())
}

/// Checks the trails and the spellings of the tokens.
fn expect_tokens<R: Abort + AllocGlobal>(rt: &R, tokens: &[Token]) -> Result<(), Fail> {
    let [first, second, third, fourth] = tokens else {
        panic!(rt; "there are {} tokens", tokens.len());
    };
    expect_trail(rt, &first.trail, &[OUTER, INNER, ARGUMENT, ARGUMENT])?;
    expect_trail(rt, &second.trail, &[OUTER])?;
    assert!(rt; third.pp.spelling.bytes() == b"2".as_slice());
    assert!(rt; fourth.pp.spelling.bytes() == b"\"G\"".as_slice());
    Ok(())
}

/// Checks the numbers and the trails of the expansions.
fn expect_expansions<R: Abort + AllocGlobal>(rt: &R, made: &[Expansion]) -> Result<(), Fail> {
    let [first, second, third] = made else {
        panic!(rt; "there are {} expansions", made.len());
    };
    expect_trail(rt, &second.trail, &[OUTER])?;
    assert!(rt; third.instance == 7 && third.name.column == 6);
    assert!(rt; !first.taken && !second.foreign);
    Ok(())
}

/// Macros of which one calls another, and one that makes a string.
const CALLING: &str = "#define F(x) G(x)+__LINE__\n\
#define G(y) y\n\
#define S(z) #z";

#[test]
fn numbers_expansions_and_keeps_trails(rt: HostRuntime) -> Result<(), Fail> {
    let expanded = expanded(&rt, CALLING, "\nF(1) S(G)")?;
    expect_tokens(&rt, expanded.tokens.items())?;
    expect_expansions(&rt, expanded.expansions.items())
}

/// Puts a text behind another, so many times.
fn put_often(text: &mut Vec<u8>, part: &str, count: usize) -> Result<(), Stop> {
    for _ in 0..count {
        text.extend_from_slice(part.as_bytes())?;
    }
    Ok(())
}

/// An opening so often, then a token, and then as many closings.
fn nested<R: Abort + AllocGlobal>(rt: &R, opening: &str, count: usize) -> Result<Vec<u8>, Stop> {
    let mut text = Vec::new(rt.alloc());
    put_often(&mut text, opening, count)?;
    put_often(&mut text, "1", 1)?;
    put_often(&mut text, ")", count)?;
    Ok(text)
}

/// How many tokens a text of tokens gives.
fn count_of<R: Abort + AllocGlobal>(
    rt: &R,
    table: &MacroTable,
    group: &[PpToken],
) -> Result<usize, Stop> {
    let mut work = Work { spent: 10 };
    let expanded = expand(rt.alloc(), table, &[], group, 5, &mut work)?;
    Ok(expanded.tokens.len())
}

/// Checks how many tokens a nested text gives.
fn expect_count<R: Abort + AllocGlobal>(
    rt: &R,
    opening: &str,
    count: usize,
    wanted: usize,
) -> Result<(), Fail> {
    let text = nested(rt, opening, count)?;
    let table = table_of(rt, "#define ID(x) x")?;
    let group = tokens_of(rt, &text)?;
    assert_eq!(rt; count_of(rt, &table, group.items())?, wanted, "{opening}");
    Ok(())
}

#[test]
fn nesting_takes_no_stack(rt: HostRuntime) -> Result<(), Fail> {
    expect_count(&rt, "(", 10_000, 20_001)?;
    expect_count(&rt, "ID(", 20_000, 1)
}

/// Checks that a text gives another one, where both stand so many times.
fn expect_often<R: Abort + AllocGlobal>(
    rt: &R,
    part: &str,
    wanted: &str,
    count: usize,
) -> Result<(), Fail> {
    let mut text = Vec::new(rt.alloc());
    put_often(&mut text, part, count)?;
    let group = tokens_of(rt, &text)?;
    let table = table_of(rt, "#define ID(x) x")?;
    let mut work = Work { spent: 10 };
    let expanded = expand(rt.alloc(), &table, &[], group.items(), 5, &mut work)?;
    let mut whole = Vec::new(rt.alloc());
    put_often(&mut whole, wanted, count)?;
    let spelled = spelled(rt, expanded.tokens.items())?;
    assert!(rt; spelled.as_slice() == whole.as_slice(), "{part}");
    Ok(())
}

#[test]
fn long_texts_come_in_order(rt: HostRuntime) -> Result<(), Fail> {
    expect_often(&rt, "ID(a) b\n", " a b", 300)?;
    expect_often(&rt, "ID(a ID(b) c)\n", " a b c", 300)
}
