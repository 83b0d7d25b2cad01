//! Calls by words of every bad kind.

use super::USAGE;
use super::cases::check_call;
use std::test::Fail;

/// The first line has no word.
const WORDS: &str = r#"
frob
frob a.c
apply
plan
gen
gen 1001
gen -1
apply a.c a.c
apply a.c --json --json
plan a.c --order 1
gen 1 --json
apply --
apply a.c --help
plan -j a.c
expand
expand a.c
expand a.c a.c a.c
expand -a.c a.c
expand a.c --
expand  a.c
Expand a.c a.c
run
run a.c
run a.c a.c a.c
run a.c -a.c
run a.c a.c --order
run a.c a.c --order=
run a.c a.c --order x
run a.c a.c --order -1
run a.c a.c --order 1 --order 1
run a.c a.c --steps 000000000000000000001
run a.c a.c --steps 18446744073709551616
run a.c a.c --steps=1 --steps=2
run a.c a.c --input
run a.c a.c --input=
run a.c a.c --input -
run a.c a.c --in a.c
run a.c a.c --
run a.c a.c --help
run  a.c a.c
Run a.c a.c"#;

#[test]
fn other_words_are_refused(rt: HostRuntime) -> Result<(), Fail> {
    for line in WORDS.split('\n') {
        let call = format!(in rt.alloc(); "{line} => 1, folder 0 1\n{USAGE}")?;
        check_call(&rt, "a.c\nint main(void) { return 0; }\n", call.as_str())?;
    }
    Ok(())
}
