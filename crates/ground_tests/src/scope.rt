//! Scopes as in 6.2.1, and many of them.

use dm_scope::Scopes;
use dm_token::{Memory, Text};
use std::alloc::Global;
use std::test::Fail;

#[test]
fn an_inner_declaration_hides_an_outer_one_until_its_scope_ends(
    rt: HostRuntime,
) -> Result<(), Fail> {
    let a = Text::new(rt.alloc(), "a")?;
    let b = Text::new(rt.alloc(), "b")?;
    let mut scopes = Scopes::new(rt.alloc())?;
    assert_eq!(rt; scopes.declare(&a, 1)?, true);
    assert_eq!(rt; scopes.declare(&a, 2)?, false);
    assert_eq!(rt; scopes.resolve(&b), None);
    scopes.enter()?;
    assert_eq!(rt; scopes.declare(&a, 3)?, true);
    assert_eq!(rt; scopes.declare(&b, 4)?, true);
    assert_eq!(rt; scopes.resolve(&a), Some(3));
    assert_eq!(rt; scopes.resolve(&b), Some(4));
    scopes.leave();
    assert_eq!(rt; scopes.resolve(&a), Some(1));
    assert_eq!(rt; scopes.resolve(&b), None);
    Ok(())
}

/// The name of a number in decimal digits, last first.
fn name_of(alloc: Global, number: u32) -> Result<Text, Memory> {
    let mut bytes = Vec::new(alloc);
    let mut left = number;
    for _ in 0..8 {
        bytes.push(b'0' + (left % 10) as u8)?;
        left /= 10;
    }
    Text::from_vec(alloc, bytes)
}

#[test]
fn a_hundred_thousand_names_and_ten_thousand_scopes_are_kept(rt: HostRuntime) -> Result<(), Fail> {
    let mut scopes = Scopes::new(rt.alloc())?;
    for number in 0..100_000 {
        assert_eq!(rt;
            scopes.declare(&name_of(rt.alloc(), number)?, number)?,
            true
        );
    }
    for number in 0..10_000 {
        scopes.enter()?;
        assert_eq!(rt;
            scopes.declare(&name_of(rt.alloc(), 99_999)?, number)?,
            true
        );
    }
    assert_eq!(rt; scopes.resolve(&name_of(rt.alloc(), 99_999)?), Some(9_999));
    assert_eq!(rt; scopes.resolve(&name_of(rt.alloc(), 99_998)?), Some(99_998));
    Ok(())
}
