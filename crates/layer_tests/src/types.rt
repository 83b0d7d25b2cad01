//! Types in postfix notation. `b c a u s t i j l m L M` are `_Bool`, `char`, `signed char`, `unsigned char`, `short`,
//! `unsigned short`, `int`, `unsigned int`, `long`, `unsigned long`, `long long`, `unsigned long long`, and `v` is `void`.
//! `P` is a pointer to the type before it and `K` its const version, `A3` an array of 3 of it, `A` one without a length, and
//! `F2` the function of the two types before it that gives the one before these. `#4` is the struct of line 4, from 0.

ghost use Rattle.std.specs.Prelude.{IsTrue, All};
ghost use Rattle.dm_type.specs.Tables as tables;

use crate::known_types::KnownTypes;
use dm_int::Kind;
use dm_token::{List, Memory, Text};
use dm_type::{Member, Members, Shape, TypeId};
use std::alloc::Global;
use std::process::Abort;
use std::test::Fail;

/// Structs by their members, and behind the `=` the size and the alignment: random members, and what
/// gcc 12.2 prints of `sizeof` and `_Alignof`.
const STRUCTS: &str = "s, j, L = 16 8\n\
L, s, t, M A5, u, #0 = 80 8\n\
#0, M A5 = 56 8\n\
t A5, c = 12 2\n\
l, m A5, s A2 = 56 8\n\
#0, a, t, c, j, b A8, #3 = 48 8\n\
v P, m, L, a, i A6, b, i A6 = 80 8\n\
v P, c A4, M, c = 32 8\n\
L, c = 16 8\n\
v P A7, L, u A3, u A9, c, a = 80 8\n\
b, M, s = 24 8\n\
M = 8 8\n\
s, #8 = 24 8\n\
i, s A2, a, #3, i, u, t = 32 4\n\
a, #3, #7, c, #12 A3, u A9 = 144 8\n\
m, a, c, L A2, t A1, v P = 48 8\n\
b A9, a, t, i = 16 4\n\
j = 4 4\n\
L A1, i = 16 8\n\
b A5, #0, L, #7, L A9 = 136 8\n\
#8, v P A9, #15, M, M, #3 = 168 8\n\
#9 A1 = 80 8\n\
m, M A2 = 24 8\n\
#7, c A3, #14, a, M, v P A4 = 232 8\n\
t, i, c, m A4 = 48 8\n\
t A7, u, #6 A4 = 336 8\n\
u, M, t A1, i, L, u, #5 = 88 8\n\
i, M A8, b A3, #0 = 96 8\n\
s A7, #0 = 32 8\n\
l, a, m, l, a, s A7, M = 56 8\n\
#19, L, #14 A3, L, s, #18 A1, t = 616 8\n\
j, v P, b, b = 24 8\n\
c, a A4, #26, s, #0, i = 128 8\n\
v P, L, M, l, b = 40 8\n\
c, #17, j, b, #16, #21 = 112 8\n\
u, s A3, a, M = 24 8\n\
#9, a, #26 = 176 8\n\
#18 A3, t A7, u = 64 8\n\
b, j, #26, #5 = 144 8\n\
u, b, u, b, a, #15 = 56 8";

/// Random pairs for which `__builtin_types_compatible_p` of gcc 12.2 gives 1.
const COMPATIBLE: &str = "b K A P ~ b K A2 P\n\
b F0 P P ~ b F0 P P\n\
b A3 A3 P ~ b A3 A P\n\
c P P K P ~ c P P K P\n\
u K P P P ~ u K P P P\n\
j P P K P ~ j P P K P\n\
b K P A P ~ b K P A2 P\n\
b K P F0 P ~ b K P F0 P\n\
i K A3 A P ~ i K A3 A2 P\n\
l K A2 A2 P ~ l K A2 A2 P\n\
j P j F1 P ~ j P j K F1 P\n\
l b u F2 P ~ l b K u F2 P\n\
v P P K A P ~ v P P K A2 P\n\
i P F0 P P P ~ i P F0 P P P\n\
v P P A2 A2 P ~ v P P A2 A P\n\
c P A3 P F0 P ~ c P A3 P F0 P\n\
b l F1 P A P ~ b l K F1 P A2 P\n\
v v P v P F2 P ~ v v P v P F2 P\n\
i A2 P u F1 P ~ i A2 P u K F1 P\n\
i v P b P F2 P ~ i v P b P F2 P\n\
v P v P u K F2 P ~ v P v P u K F2 P\n\
b P b K F1 P P P ~ b P b K F1 P P P\n\
l c A2 P b F2 P ~ l c A2 P K b F2 P\n\
j P b K P v P F2 P ~ j P b K P v P F2 P\n\
b u P P b P i F3 P ~ b u P P b P i F3 P\n\
l b j K P P j F3 P ~ l b j K P P K j F3 P\n\
c l c b F3 P A3 A P ~ c l c b F3 P A3 A P\n\
l A P i P v K P F2 P ~ l A P i P v K P F2 P\n\
i l P K b P P l P F3 P P ~ i l P K b P P l P F3 P P\n\
b A2 P c K j K P P F2 P ~ b A2 P c K j K P P K F2 P";

/// And for which it gives 0.
const APART: &str = "c A3 P ~ i A3 P\n\
v K P P ~ i K P P\n\
b A2 P P ~ i A2 P P\n\
v P P K P ~ i P P P\n\
b K P P K P ~ b P P K P\n\
u A2 P P P ~ i A2 P P P\n\
l P K P K P ~ l P K P P\n\
c P K A3 P ~ c P K A2 P\n\
c K A3 P K P ~ c A3 P P\n\
v b P F1 P ~ v i P F1 P\n\
c K P F0 P ~ i K P F0 P\n\
j A2 P P K P ~ j A3 P P P\n\
v P P P A2 P ~ v P P P A3 P\n\
l A2 P P K P ~ i A3 P P K P\n\
b A2 A2 P P P ~ i A2 A2 P P P\n\
i A3 P P b F1 P ~ i A2 P P b F1 P\n\
c l i F2 P K A2 P ~ c l i F2 P K A3 P\n\
c K P u P P F1 P P ~ i K P u P P F1 P P\n\
v c u i F3 P F0 P P ~ i c u i F3 P F0 P P\n\
v c j K A P j P K F3 P ~ i c K j K A P j P K F3 P";

/// Random types, spelled with the declarator `p`: gcc 12.2 reads each spelling as the declaration of the type, made there of
/// a `typedef` for each part.
const SPELLED: &str = "i P P j i F2 P P = int **(**p)(unsigned int, int)\n\
v P c F1 P P A3 = void *(**p[3])(char)\n\
l P P P A2 A2 = long ***p[2][2]\n\
b K P K A2 = const _Bool *const p[2]\n\
b l v b F1 P K b F3 = _Bool p(long, void (*const)(_Bool), _Bool)\n\
b K P v P j j F3 P P = const _Bool *(**p)(void *, unsigned int, unsigned int)\n\
v v P K F1 P = void (*p)(void *const)\n\
b j u K F2 = _Bool p(unsigned int, const unsigned char)\n\
i A2 P P P A2 = int (***p[2])[2]\n\
c i K b F2 P P = char (**p)(const int, _Bool)\n\
u K P P F0 P = const unsigned char **(*p)(void)\n\
i P P u K P b F2 = int **p(const unsigned char *, _Bool)\n\
u P A2 P K = unsigned char *(*const p)[2]\n\
b A P P F0 P = _Bool (**(*p)(void))[]\n\
i v K P u P K F2 P P = int (**p)(const void *, unsigned char *const)\n\
v v P P j P F2 P P = void (**p)(void **, unsigned int *)\n\
b A3 P P F0 P = _Bool (**(*p)(void))[3]\n\
i K P P c F1 = const int **p(char)\n\
v F0 P P F0 = void (**p(void))(void)\n\
b K A3 A3 A P = const _Bool (*p)[][3][3]\n\
j v P F1 P K P = unsigned int (*const *p)(void *)\n\
u j l v P u P F1 P F3 = unsigned char p(unsigned int, long, void *(*)(unsigned char *))\n\
j P P P K P = unsigned int ***const *p\n\
c c c A P j F3 = char p(char, char (*)[], unsigned int)\n\
b P P l K P c K P F2 P A P = _Bool **(*(*p)[])(const long *, const char *)\n\
v u c K c A2 P F3 P P = void (**p)(unsigned char, const char, char (*)[2])";

/// Pairs with their composite types. gcc 12.2 says that the type of `1 ? (A *)0 : (B *)0` is compatible with a pointer to the
/// type behind the `=`, and with none in which a length is another. The one but last is that of 6.2.7p5, with `long` for
/// `double` and with prototypes.
const COMPOSITES: &str = "i A ~ i A3 = i A3\n\
i A3 ~ i A = i A3\n\
i A3 ~ i A3 = i A3\n\
i A ~ i A = i A\n\
i A P ~ i A3 P = i A3 P\n\
i A2 P A ~ i A P A4 = i A2 P A4\n\
i K A P ~ i K A3 P = i K A3 P\n\
c A K P ~ c K A5 P = c K A5 P\n\
i A P K ~ i A3 P K = i A3 P K\n\
v i K F1 ~ v i F1 = v i F1\n\
v i F1 ~ v i K F1 = v i F1\n\
v i K F1 P ~ v i K F1 P = v i F1 P\n\
v i A P K l A2 P F2 P ~ v i A3 P l A P K F2 P = v i A3 P l A2 P F2 P\n\
i A P F0 P ~ i A3 P F0 P = i A3 P F0 P\n\
i i c P F1 P l A3 P F2 ~ i i c P F1 P l A P F2 = i i c P F1 P l A3 P F2\n\
v v i A P F1 P K F1 P A ~ v v i A7 P F1 P F1 P A2 = v v i A7 P F1 P F1 P A2";

/// Whether the types have those that the shape is made of.
fn is_shape(types: &KnownTypes, shape: &Shape) -> bool
    ensures { IsTrue result → tables.IsShape types.now shape.now }
{
    match shape {
        Shape::Void | Shape::Integer(_) => true,
        Shape::Pointer(id) | Shape::Const(id) => types.knows(*id),
        Shape::Array(id, length) => types.knows(*id) && *length != Some(0),
        Shape::Struct(number) => (*number as usize) < types.struct_count(),
        Shape::Function(first, parameters) => {
            types.knows(*first) && parameters.items().iter().all(|id| types.knows(*id))
        }
    }
}

/// The type of a shape.
fn made(rt: &impl Abort, types: &mut KnownTypes, shape: Shape) -> Result<TypeId, Memory> {
    assert!(rt; is_shape(types, &shape));
    types.intern(shape)
}

/// The type on top of the others.
fn top(rt: &impl Abort, stack: &mut Vec<TypeId>) -> TypeId {
    let Some(id) = stack.pop() else {
        panic!(rt; "no type is left");
    };
    id
}

/// The type of a letter.
fn plain(letter: u8) -> Shape {
    match letter {
        b'b' => Shape::Integer(Kind::Bool),
        b'c' => Shape::Integer(Kind::Char),
        b'a' => Shape::Integer(Kind::SChar),
        b'u' => Shape::Integer(Kind::UChar),
        b's' => Shape::Integer(Kind::Short),
        b't' => Shape::Integer(Kind::UShort),
        b'i' => Shape::Integer(Kind::Int),
        b'j' => Shape::Integer(Kind::UInt),
        b'l' => Shape::Integer(Kind::Long),
        b'm' => Shape::Integer(Kind::ULong),
        b'L' => Shape::Integer(Kind::LLong),
        b'M' => Shape::Integer(Kind::ULLong),
        _ => Shape::Void,
    }
}

/// The number that digits write, if there are any.
fn number_of(digits: &[u8]) -> Option<u64> {
    let mut number = None;
    for digit in digits {
        let value = u64::from(digit.wrapping_sub(b'0'));
        number = Some(number.unwrap_or(0u64).wrapping_mul(10).wrapping_add(value));
    }
    number
}

/// The function type of the types on top.
fn function(
    rt: &impl Abort,
    alloc: Global,
    stack: &mut Vec<TypeId>,
    count: u64,
) -> Result<Shape, Memory> {
    let mut parameters = Vec::new(alloc);
    for _ in 0..count {
        parameters.push(top(rt, stack))?;
    }
    parameters.as_mut_slice().reverse();
    Ok(Shape::Function(top(rt, stack), List::from_vec(parameters)))
}

/// What a word makes of the types on top.
fn shape_of(
    rt: &impl Abort,
    alloc: Global,
    stack: &mut Vec<TypeId>,
    word: &[u8],
) -> Result<Shape, Memory> {
    let Some((letter, digits)) = word.split_first() else {
        return Ok(Shape::Void);
    };
    match *letter {
        b'P' => Ok(Shape::Pointer(top(rt, stack))),
        b'K' => Ok(Shape::Const(top(rt, stack))),
        b'A' => Ok(Shape::Array(top(rt, stack), number_of(digits))),
        b'#' => Ok(Shape::Struct((number_of(digits).unwrap_or(0) % 1000) as u32)),
        b'F' => function(rt, alloc, stack, number_of(digits).unwrap_or(0)),
        letter => Ok(plain(letter)),
    }
}

/// The type in postfix notation.
fn type_of(
    rt: &impl Abort,
    alloc: Global,
    types: &mut KnownTypes,
    text: &str,
) -> Result<TypeId, Memory> {
    let mut stack = Vec::new(alloc);
    for word in text.split(' ') {
        let shape = shape_of(rt, alloc, &mut stack, word.as_bytes())?;
        stack.push(made(rt, types, shape)?)?;
    }
    Ok(top(rt, &mut stack))
}

/// Whether the types have those of the members.
fn are_known(types: &KnownTypes, members: &[Member]) -> bool
    ensures { IsTrue result → All (λ member. tables.IsId types.now member.kind) members.now }
{
    members.iter().all(|member| types.knows(member.kind))
}

/// The size of a type.
fn size_of(rt: &impl Abort, types: &KnownTypes, id: TypeId) -> Option<u64> {
    assert!(rt; types.knows(id));
    types.size(id)
}

/// Whether all members have sizes.
fn are_sized(rt: &impl Abort, types: &KnownTypes, members: &[Member]) -> bool {
    for member in members {
        if size_of(rt, types, member.kind).is_none() {
            return false;
        }
    }
    true
}

/// A new struct with these members.
fn struct_with(
    rt: &impl Abort,
    types: &mut KnownTypes,
    tag: Option<Text>,
    members: Members,
) -> Result<u32, Memory> {
    assert!(rt; types.struct_count() < 1_000_000);
    let number = types.new_struct(tag)?;
    assert!(rt; (number as usize) < types.struct_count() && types.members(number).is_none());
    assert!(rt;
        !members.is_empty()
            && are_known(types, members.items())
            && are_sized(rt, types, members.items())
    );
    types.set_members(number, members)?;
    Ok(number)
}

/// One member more of the type, whose name says its number.
fn put_member(
    rt: &impl Abort,
    alloc: Global,
    members: &mut Members,
    kind: TypeId,
) -> Result<(), Memory> {
    let name = format!(in alloc; "m{}", members.items().len())?;
    let name = Text::new(alloc, name.as_str())?;
    assert!(rt; members.push(Member { name, kind })?);
    Ok(())
}

/// The members in postfix notation.
fn members_of(
    rt: &impl Abort,
    alloc: Global,
    types: &mut KnownTypes,
    text: &str,
) -> Result<Members, Memory> {
    let mut members = Members::new(alloc);
    for word in text.split(", ") {
        let kind = type_of(rt, alloc, types, word)?;
        put_member(rt, alloc, &mut members, kind)?;
    }
    Ok(members)
}

/// Sizes by the standard and the greatest size, 0 for none.
const SIZES: &str = "v = 0\n\
v F0 = 0\n\
i A = 0\n\
i A A3 = 0\n\
v A3 = 0\n\
i A3 K = 12\n\
v F0 P A2 = 16\n\
c A1073741824 = 1073741824\n\
c A1073741825 = 0\n\
l A134217728 = 1073741824\n\
l A134217729 = 0\n\
i A268435456 A1 A1 = 1073741824\n\
i A1 A268435456 A2 = 0\n\
i A4294967296 A4294967296 A4 = 0\n\
i A18446744073709551615 = 0";

/// Pairs of one type, by 6.7.3p5 and p9.
const EQUAL: &str = "i P ~ i P\n\
i A3 K ~ i K A3\n\
i K K ~ i K";

/// What a line says of its types.
#[derive(Clone, Copy)]
enum Claim {
    Layout,
    Size,
    Spelling,
    Compatible,
    Apart,
    Equal,
    Composite,
}

/// The two parts of a line.
fn parts<'a>(rt: &impl Abort, line: &'a str, between: &str) -> (&'a str, &'a str) {
    let Some(parts) = line.split_once(between) else {
        panic!(rt; "a part is missing in {line}");
    };
    parts
}

/// The type of a new struct with members in postfix notation.
fn struct_of(
    rt: &impl Abort,
    alloc: Global,
    types: &mut KnownTypes,
    text: &str,
) -> Result<TypeId, Memory> {
    let members = members_of(rt, alloc, types, text)?;
    let number = struct_with(rt, types, None, members)?;
    made(rt, types, Shape::Struct(number))
}

/// The size and the alignment of a type, 0 for none.
fn layout_of(
    rt: &impl Abort,
    alloc: Global,
    types: &KnownTypes,
    id: TypeId,
) -> Result<String, Memory> {
    assert!(rt; types.knows(id));
    let size = types.size(id).unwrap_or(0);
    let alignment = types.alignment(id).unwrap_or(0);
    Ok(format!(in alloc; "{size} {alignment}")?)
}

/// Checks the layout of the struct of a line.
fn expect_layout(
    rt: &impl Abort,
    alloc: Global,
    types: &mut KnownTypes,
    line: &str,
) -> Result<(), Fail> {
    let (members, wanted) = parts(rt, line, " = ");
    let id = struct_of(rt, alloc, types, members)?;
    let layout = layout_of(rt, alloc, types, id)?;
    assert_eq!(rt; layout.as_str(), wanted, "{line}");
    Ok(())
}

/// Checks the size of the type of a line.
fn expect_size(
    rt: &impl Abort,
    alloc: Global,
    types: &mut KnownTypes,
    line: &str,
) -> Result<(), Fail> {
    let (written, wanted) = parts(rt, line, " = ");
    let id = type_of(rt, alloc, types, written)?;
    let size = size_of(rt, types, id).unwrap_or(0);
    let size = format!(in alloc; "{size}")?;
    assert_eq!(rt; size.as_str(), wanted, "{line}");
    Ok(())
}

/// The spelling of a type round the declarator `p`.
fn spelling_of(
    rt: &impl Abort,
    alloc: Global,
    types: &KnownTypes,
    id: TypeId,
    visible: &[u32],
) -> Result<Option<Text>, Memory> {
    let name = Text::new(alloc, "p")?;
    assert!(rt; types.knows(id));
    types.spell(id, &name, visible)
}

/// Checks the spelling of the type of a line.
fn expect_spelling(
    rt: &impl Abort,
    alloc: Global,
    types: &mut KnownTypes,
    line: &str,
) -> Result<(), Fail> {
    let (written, wanted) = parts(rt, line, " = ");
    let id = type_of(rt, alloc, types, written)?;
    let spelling = spelling_of(rt, alloc, types, id, &[])?;
    let wanted = Text::new(alloc, wanted)?;
    assert_eq!(rt; spelling, Some(wanted), "{line}");
    Ok(())
}

/// The two types of a line.
fn pair_of(
    rt: &impl Abort,
    alloc: Global,
    types: &mut KnownTypes,
    line: &str,
) -> Result<(TypeId, TypeId), Memory> {
    let (one, other) = parts(rt, line, " ~ ");
    let one = type_of(rt, alloc, types, one)?;
    Ok((one, type_of(rt, alloc, types, other)?))
}

/// Whether two types are compatible.
fn agree(rt: &impl Abort, types: &KnownTypes, a: TypeId, b: TypeId) -> bool {
    assert!(rt; types.knows(a) && types.knows(b));
    types.compatible(a, b)
}

/// Checks whether the two types of a line are compatible, one way and the other.
fn expect_agreement(
    rt: &impl Abort,
    alloc: Global,
    types: &mut KnownTypes,
    line: &str,
    wanted: bool,
) -> Result<(), Fail> {
    let (a, b) = pair_of(rt, alloc, types, line)?;
    let answer = agree(rt, types, a, b);
    assert!(rt; agree(rt, types, b, a) == answer);
    assert_eq!(rt; answer, wanted, "{line}");
    Ok(())
}

/// Checks that the two types of a line have one number.
fn expect_equal(
    rt: &impl Abort,
    alloc: Global,
    types: &mut KnownTypes,
    line: &str,
) -> Result<(), Fail> {
    let (a, b) = pair_of(rt, alloc, types, line)?;
    assert!(rt; a == b, "{line}");
    Ok(())
}

/// The composite type of two types.
fn composed(
    rt: &impl Abort,
    types: &mut KnownTypes,
    a: TypeId,
    b: TypeId,
) -> Result<TypeId, Memory> {
    assert!(rt; types.knows(a) && types.knows(b));
    assert!(rt; types.compatible(a, b));
    types.composite(a, b)
}

/// Checks the composite type of the two types of a line.
fn expect_composite(
    rt: &impl Abort,
    alloc: Global,
    types: &mut KnownTypes,
    line: &str,
) -> Result<(), Fail> {
    let (pair, wanted) = parts(rt, line, " = ");
    let (a, b) = pair_of(rt, alloc, types, pair)?;
    let wanted = type_of(rt, alloc, types, wanted)?;
    let composite = composed(rt, types, a, b)?;
    assert_eq!(rt; composite == wanted, true, "{line}");
    Ok(())
}

/// Checks what a line says.
fn expect_line(
    rt: &impl Abort,
    alloc: Global,
    types: &mut KnownTypes,
    claim: Claim,
    line: &str,
) -> Result<(), Fail> {
    match claim {
        Claim::Layout => expect_layout(rt, alloc, types, line),
        Claim::Size => expect_size(rt, alloc, types, line),
        Claim::Spelling => expect_spelling(rt, alloc, types, line),
        Claim::Compatible => expect_agreement(rt, alloc, types, line, true),
        Claim::Apart => expect_agreement(rt, alloc, types, line, false),
        Claim::Equal => expect_equal(rt, alloc, types, line),
        Claim::Composite => expect_composite(rt, alloc, types, line),
    }
}

/// Checks what each line of a text says.
fn expect_lines(rt: &impl Abort, alloc: Global, claim: Claim, lines: &str) -> Result<(), Fail> {
    let mut types = KnownTypes::new(alloc)?;
    for line in lines.split('\n') {
        expect_line(rt, alloc, &mut types, claim, line)?;
    }
    Ok(())
}

#[test]
fn structs_take_as_much_as_gcc_says(rt: HostRuntime) -> Result<(), Fail> {
    expect_lines(&rt, rt.alloc(), Claim::Layout, STRUCTS)
}

#[test]
fn types_are_compatible_where_gcc_says_so(rt: HostRuntime) -> Result<(), Fail> {
    expect_lines(&rt, rt.alloc(), Claim::Compatible, COMPATIBLE)?;
    expect_lines(&rt, rt.alloc(), Claim::Apart, APART)
}

#[test]
fn composite_types_have_the_lengths_that_are_known(rt: HostRuntime) -> Result<(), Fail> {
    expect_lines(&rt, rt.alloc(), Claim::Composite, COMPOSITES)
}

#[test]
fn types_are_spelled_as_gcc_reads_them(rt: HostRuntime) -> Result<(), Fail> {
    expect_lines(&rt, rt.alloc(), Claim::Spelling, SPELLED)
}

#[test]
fn sizes_end_where_types_do(rt: HostRuntime) -> Result<(), Fail> {
    expect_lines(&rt, rt.alloc(), Claim::Size, SIZES)
}

#[test]
fn equal_types_have_one_number(rt: HostRuntime) -> Result<(), Fail> {
    expect_lines(&rt, rt.alloc(), Claim::Equal, EQUAL)
}

/// Adds a struct with one member and such a tag or none.
fn add_tagged(
    rt: &impl Abort,
    alloc: Global,
    types: &mut KnownTypes,
    tag: Option<Text>,
) -> Result<(), Memory> {
    let members = members_of(rt, alloc, types, "i")?;
    struct_with(rt, types, tag, members)?;
    Ok(())
}

/// Adds two structs of one tag.
fn add_two(
    rt: &impl Abort,
    alloc: Global,
    types: &mut KnownTypes,
    tag: Text,
) -> Result<(), Memory> {
    let copy = tag.copy()?;
    add_tagged(rt, alloc, types, Some(copy))?;
    add_tagged(rt, alloc, types, Some(tag))
}

/// Checks that a type has no spelling where these structs are visible.
fn expect_hidden(
    rt: &impl Abort,
    alloc: Global,
    types: &mut KnownTypes,
    written: &str,
    visible: &[u32],
) -> Result<(), Fail> {
    let id = type_of(rt, alloc, types, written)?;
    let spelling = spelling_of(rt, alloc, types, id, visible)?;
    assert_eq!(rt; spelling, None, "{written}");
    Ok(())
}

/// Checks the spelling of a pointer to the first struct.
fn expect_visible(rt: &impl Abort, alloc: Global, types: &mut KnownTypes) -> Result<(), Fail> {
    let id = type_of(rt, alloc, types, "#0 K P")?;
    let spelling = spelling_of(rt, alloc, types, id, &[1, 0])?;
    let wanted = Text::new(alloc, "const struct s *p")?;
    assert_eq!(rt; spelling, Some(wanted));
    Ok(())
}

/// Checks that there are three structs, the first with a tag.
fn expect_three(rt: &impl Abort, types: &KnownTypes) {
    assert_eq!(rt; types.struct_count(), 3);
    assert!(rt; types.tag(0).is_some());
}

#[test]
fn structs_of_one_tag_are_apart_and_hidden_ones_have_no_spelling(
    rt: HostRuntime,
) -> Result<(), Fail> {
    let mut types = KnownTypes::new(rt.alloc())?;
    add_two(&rt, rt.alloc(), &mut types, Text::new(rt.alloc(), "s")?)?;
    add_tagged(&rt, rt.alloc(), &mut types, None)?;
    expect_agreement(&rt, rt.alloc(), &mut types, "#0 K P ~ #1 K P", false)?;
    expect_visible(&rt, rt.alloc(), &mut types)?;
    expect_hidden(&rt, rt.alloc(), &mut types, "#1 K P", &[0, 2])?;
    expect_hidden(&rt, rt.alloc(), &mut types, "i #2 P F1", &[0, 1, 2])?;
    expect_three(&rt, &types);
    Ok(())
}

/// A struct that has one that has one and so on.
fn nested(rt: &impl Abort, alloc: Global, types: &mut KnownTypes) -> Result<TypeId, Memory> {
    let mut id = type_of(rt, alloc, types, "i")?;
    for _ in 0..100_000 {
        let mut members = Members::new(alloc);
        put_member(rt, alloc, &mut members, id)?;
        let number = struct_with(rt, types, None, members)?;
        id = made(rt, types, Shape::Struct(number))?;
    }
    Ok(id)
}

/// A type inside so many pointers, or so many functions that take a pointer to the one before and give that too.
fn deep(
    rt: &impl Abort,
    alloc: Global,
    types: &mut KnownTypes,
    innermost: &str,
    functions: bool,
) -> Result<TypeId, Memory> {
    let mut id = type_of(rt, alloc, types, innermost)?;
    for _ in 0..100_000 {
        if functions {
            let mut parameters = List::new(alloc);
            parameters.push(id)?;
            let empty = made(rt, types, Shape::Void)?;
            id = made(rt, types, Shape::Function(empty, parameters))?;
        }
        id = made(rt, types, Shape::Pointer(id))?;
    }
    Ok(id)
}

/// Checks what deep types are.
fn expect_deep(rt: &impl Abort, alloc: Global, functions: bool) -> Result<(), Fail> {
    let mut types = KnownTypes::new(alloc)?;
    let a = deep(rt, alloc, &mut types, "i A3 P", functions)?;
    let b = deep(rt, alloc, &mut types, "i A P", functions)?;
    let c = deep(rt, alloc, &mut types, "i A4 P", functions)?;
    assert_eq!(rt; agree(rt, &types, a, b), true);
    assert_eq!(rt; agree(rt, &types, a, c), false);
    assert_eq!(rt; size_of(rt, &types, a), Some(8));
    assert_eq!(rt; composed(rt, &mut types, b, a)?, a);
    Ok(())
}

#[test]
fn deep_types_take_no_more_of_the_stack(rt: HostRuntime) -> Result<(), Fail> {
    expect_deep(&rt, rt.alloc(), false)?;
    expect_deep(&rt, rt.alloc(), true)
}

#[test]
fn a_hundred_thousand_pointers_are_spelled(rt: HostRuntime) -> Result<(), Fail> {
    let mut types = KnownTypes::new(rt.alloc())?;
    let a = deep(&rt, rt.alloc(), &mut types, "i A3 P", false)?;
    let Some(text) = spelling_of(&rt, rt.alloc(), &types, a, &[])? else {
        panic!(rt; "no spelling");
    };
    assert_eq!(rt; text.bytes().len(), 100_011);
    Ok(())
}

#[test]
fn a_hundred_thousand_structs_inside_each_other_have_sizes(rt: HostRuntime) -> Result<(), Fail> {
    let mut types = KnownTypes::new(rt.alloc())?;
    let id = nested(&rt, rt.alloc(), &mut types)?;
    assert_eq!(rt; size_of(&rt, &types, id), Some(4));
    Ok(())
}

/// The number and the type of the member of a name.
fn found(
    rt: &impl Abort,
    alloc: Global,
    types: &KnownTypes,
    number: u32,
    name: &str,
) -> Result<Option<(u32, TypeId)>, Memory> {
    let name = Text::new(alloc, name)?;
    assert!(rt; (number as usize) < types.struct_count());
    match types.member(number, &name) {
        Some((at, member)) => Ok(Some((at, member.kind))),
        None => Ok(None),
    }
}

#[test]
fn members_are_found_by_their_names(rt: HostRuntime) -> Result<(), Fail> {
    let mut types = KnownTypes::new(rt.alloc())?;
    let members = members_of(&rt, rt.alloc(), &mut types, "i, c, l")?;
    let number = struct_with(&rt, &mut types, None, members)?;
    let wanted = type_of(&rt, rt.alloc(), &mut types, "c")?;
    assert!(rt; found(&rt, rt.alloc(), &types, number, "m3")?.is_none());
    assert_eq!(rt;
        found(&rt, rt.alloc(), &types, number, "m1")?,
        Some((1, wanted))
    );
    Ok(())
}

#[test]
fn a_name_is_taken_once(rt: HostRuntime) -> Result<(), Fail> {
    let mut types = KnownTypes::new(rt.alloc())?;
    let mut members = members_of(&rt, rt.alloc(), &mut types, "i, c, l")?;
    let name = Text::new(rt.alloc(), "m2")?;
    let kind = type_of(&rt, rt.alloc(), &mut types, "i")?;
    assert_eq!(rt; members.push(Member { name, kind })?, false);
    assert_eq!(rt; members.items().len(), 3);
    Ok(())
}
