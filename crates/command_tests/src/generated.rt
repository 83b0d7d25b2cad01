//! Worked units.

ghost use Rattle.std.specs.Prelude.{◌≤◌};
ghost use Rattle.dm_gen.specs.Generated.{greatest_count};

use dm_gen::generated;
use dm_token::Text;
use std::process::Abort;
use std::test::Fail;

/// Checks the file of the folder with so many macros.
fn expect_unit<R: Abort + AllocGlobal>(rt: &R, n: u32, wanted: &str) -> Result<(), Fail>
    requires { n ≤ greatest_count }
{
    let folder = generated(rt.alloc(), n)?;
    let name = Text::new(rt.alloc(), "g.c")?;
    assert_eq!(rt; folder.file(&name), Some(wanted.as_bytes()));
    Ok(())
}

/// Checks the length of that file.
fn expect_length<R: Abort + AllocGlobal>(rt: &R, n: u32, wanted: usize) -> Result<(), Fail>
    requires { n ≤ greatest_count }
{
    let folder = generated(rt.alloc(), n)?;
    let name = Text::new(rt.alloc(), "g.c")?;
    let length = folder.file(&name).map_or(0, |bytes| bytes.len());
    assert_eq!(rt; length, wanted);
    Ok(())
}

#[test]
fn no_macros_leave_two_functions(rt: HostRuntime) -> Result<(), Fail> {
    expect_unit(
        &rt,
        0,
        "static int next(void) { return 1; }
int main(void) {
    int t = 0;
    return t & 127;
}
",
    )
}

#[test]
fn four_macros_have_four_forms(rt: HostRuntime) -> Result<(), Fail> {
    expect_unit(
        &rt,
        4,
        "static int next(void) { return 1; }
#define C0 0
#define F1(x) ((x)+1)
#define S2(x) ((x)*(x))
#define U3 3u
static int h0(int a) { return a + C0; }
static int h1(int a) { return F1(a); }
static int h2(int a) { return a + S2(next()); }
static int h3(int a) { return a + (int)U3; }
int main(void) {
    int t = 0;
    t = h0(t);
    t = h1(t);
    t = h2(t);
    t = h3(t);
    return t & 127;
}
",
    )
}

#[test]
fn units_have_their_lengths(rt: HostRuntime) -> Result<(), Fail> {
    expect_length(&rt, 0, 90)?;
    expect_length(&rt, 1, 158)?;
    expect_length(&rt, 4, 395)?;
    expect_length(&rt, 100, 8_142)?;
    expect_length(&rt, 1_000, 85_317)
}
