//! Places of expressions in units that are made by hand.

use dm_int::{Kind, Op};
use dm_sites::Sites;
use dm_token::{Boxed, List, Memory, Place, Span, Text};
use dm_tree::{
    Core, CoreExternal, CoreExternalForm, CoreUnit, Declared, Form, Initial, Linkage, Local, Sort,
};
use dm_type::{Shape, TypeId, Types};
use std::alloc::Global;
use std::process::Abort;

/// Some tokens.
fn tokens(first: u32, after: u32) -> Span {
    Span { first, after }
}

/// A token of the only line of a file.
fn place_of(token: u32) -> Place {
    Place {
        file: 0,
        byte: token,
        line: 1,
        column: 1,
    }
}

/// A node at some tokens.
fn node(form: Form, kind: TypeId, first: u32, after: u32) -> Core {
    Core {
        form,
        kind,
        inner: tokens(first, after),
        outer: tokens(first, after),
        place: place_of(first),
    }
}

/// The value of the object 0 at a token, in parentheses that stand at two other ones.
fn enclosed_read(
    alloc: Global,
    int: TypeId,
    token: u32,
    parentheses: Span,
) -> Result<Core, Memory> {
    let mut object = node(Form::Object(0), int, token, token.saturating_add(1));
    object.outer = parentheses;
    let object = Boxed::new(alloc, object)?;
    let mut read = node(Form::Read(object), int, token, token.saturating_add(1));
    read.outer = parentheses;
    Ok(read)
}

/// An object with static storage duration or without.
fn object(alloc: Global, int: TypeId, fixed: bool) -> Result<Declared, Memory> {
    Ok(Declared {
        name: Text::new(alloc, "x")?,
        sort: Sort::Object { fixed },
        kind: int,
        linkage: Linkage::Absent,
        place: place_of(0),
    })
}

/// The declaration of the object 1 with an initialiser.
fn declaration(alloc: Global, value: Core) -> Result<CoreExternal, Memory> {
    let mut locals = List::new(alloc);
    locals.push(Local {
        declared: 1,
        defines: true,
        initial: Some(Initial::Value(Boxed::new(alloc, value)?)),
    })?;
    Ok(CoreExternal {
        span: tokens(0, 5),
        constants: List::new(alloc),
        form: CoreExternalForm::Declaration(locals),
    })
}

/// A function whose body returns a value.
fn function(alloc: Global, int: TypeId, value: Core) -> Result<CoreExternal, Memory> {
    let value = Boxed::new(alloc, value)?;
    let mut items = List::new(alloc);
    items.push(node(Form::Return(Some(value)), int, 10, 40))?;
    Ok(CoreExternal {
        span: tokens(5, 41),
        constants: List::new(alloc),
        form: CoreExternalForm::Function {
            function: 2,
            parameters: List::new(alloc),
            body: node(Form::Block(items), int, 9, 41),
        },
    })
}

/// An automatic object and a static one.
fn objects(alloc: Global, int: TypeId) -> Result<List<Declared>, Memory> {
    let mut declared = List::new(alloc);
    declared.push(object(alloc, int, false)?)?;
    declared.push(object(alloc, int, true)?)?;
    Ok(declared)
}

/// Two external declarations.
fn pair(
    alloc: Global,
    first: CoreExternal,
    second: CoreExternal,
) -> Result<List<CoreExternal>, Memory> {
    let mut externals = List::new(alloc);
    externals.push(first)?;
    externals.push(second)?;
    Ok(externals)
}

/// The declaration of a static object, whose initialiser is 7, and a function.
fn externals(
    alloc: Global,
    int: TypeId,
    function: CoreExternal,
) -> Result<List<CoreExternal>, Memory> {
    let static_object = declaration(alloc, node(Form::Number(7), int, 3, 4))?;
    pair(alloc, static_object, function)
}

/// A unit with a static object, whose initialiser is 7, and a function that returns a value.
fn unit(alloc: Global, int: TypeId, value: Core) -> Result<CoreUnit, Memory> {
    let function = function(alloc, int, value)?;
    let externals = externals(alloc, int, function)?;
    let declared = objects(alloc, int)?;
    Ok(CoreUnit {
        argv: int,
        declared,
        externals,
    })
}

/// `1 + (x)`, where `1` is the token 11 and `x` the token 14 inside its parentheses.
fn one_and_object(alloc: Global, int: TypeId) -> Result<Core, Memory> {
    let read = enclosed_read(alloc, int, 14, tokens(13, 16))?;
    let read = Boxed::new(alloc, read)?;
    let one = Boxed::new(alloc, node(Form::Number(1), int, 11, 12))?;
    Ok(node(Form::Binary(Op::Add, one, read), int, 11, 16))
}

/// The number of the type `int`.
fn int_of(alloc: Global) -> Result<TypeId, Memory> {
    let mut types = Types::new(alloc)?;
    types.intern(Shape::Integer(Kind::Int))
}

/// A unit whose function returns that sum.
fn sum(alloc: Global) -> Result<CoreUnit, Memory> {
    let int = int_of(alloc)?;
    let sum = one_and_object(alloc, int)?;
    unit(alloc, int, sum)
}

/// Checks the way to a place.
fn expect_way<R: Abort + AllocGlobal>(
    rt: &R,
    sites: &Sites,
    number: usize,
    wanted: &[usize],
) -> Result<(), Memory> {
    let way = sites.path(rt.alloc(), number)?;
    assert!(rt; way.items() == wanted);
    Ok(())
}

/// Checks the length of the way to a place.
fn expect_length<R: Abort + AllocGlobal>(
    rt: &R,
    sites: &Sites,
    number: usize,
    wanted: usize,
) -> Result<(), Memory> {
    let way = sites.path(rt.alloc(), number)?;
    assert_eq!(rt; way.items().len(), wanted);
    Ok(())
}

/// Checks which places are found by which tokens.
fn expect_found<R: Abort>(rt: &R, sites: &Sites) {
    let rows = [
        (tokens(3, 4), Some(0)),
        (tokens(11, 16), Some(1)),
        (tokens(11, 12), Some(2)),
        (tokens(14, 15), Some(3)),
        (tokens(13, 16), Some(3)),
        (tokens(13, 15), None),
    ];
    for (span, wanted) in rows {
        assert_eq!(rt; sites.find(span), wanted);
    }
}

/// Checks what stands round the first place, and that there are five.
fn expect_initialiser<R: Abort>(rt: &R, sites: &Sites) {
    let Some(site) = sites.get(0) else {
        panic!(rt; "no place");
    };
    assert!(rt; site.fixed && !site.constant && !site.unevaluated);
    assert!(rt; sites.get(5).is_none());
}

#[test]
fn places_are_found_by_their_tokens(rt: HostRuntime) -> Result<(), Memory> {
    let unit = sum(rt.alloc())?;
    let sites = Sites::of(rt.alloc(), &unit)?;
    expect_found(&rt, &sites);
    expect_initialiser(&rt, &sites);
    expect_way(&rt, &sites, 4, &[1, 0])
}

/// 100,001 numbers behind one another, with commas between them.
fn numbers(alloc: Global, int: TypeId) -> Result<Core, Memory> {
    let mut tree = node(Form::Number(0), int, 20, 21);
    for _part in 0..100000u32 {
        tree = followed(alloc, int, tree)?;
    }
    Ok(tree)
}

/// A tree with a comma and one number behind it.
fn followed(alloc: Global, int: TypeId, tree: Core) -> Result<Core, Memory> {
    let first = Boxed::new(alloc, tree)?;
    let last = Boxed::new(alloc, node(Form::Number(1), int, 22, 23))?;
    Ok(node(Form::Comma(first, last), int, 20, 30))
}

/// A unit whose function returns these.
fn commas(alloc: Global) -> Result<CoreUnit, Memory> {
    let int = int_of(alloc)?;
    let tree = numbers(alloc, int)?;
    unit(alloc, int, tree)
}

/// Checks where the whole and its first number are found.
fn expect_ends<R: Abort>(rt: &R, sites: &Sites) {
    assert_eq!(rt; sites.find(tokens(20, 30)), Some(1));
    assert_eq!(rt; sites.find(tokens(20, 21)), Some(100001));
}

#[test]
fn a_hundred_thousand_commas_are_walked_over(rt: HostRuntime) -> Result<(), Memory> {
    let unit = commas(rt.alloc())?;
    let sites = Sites::of(rt.alloc(), &unit)?;
    expect_ends(&rt, &sites);
    expect_length(&rt, &sites, 100001, 100000)
}
