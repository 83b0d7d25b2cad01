//! Words and punctuators by the tables of C, and what is no table.

use dm_spell::{Spellings, directives, keywords, punctuators};

#[test]
fn finds_the_longest_punctuator(rt: HostRuntime) {
    let rows: [(&[u8], usize, Option<u16>); 8] = [
        (b"<<=1", 0, Some(40)),
        (b"<<=1", 1, Some(22)),
        (b"%:%", 0, Some(52)),
        (b"%:%:", 0, Some(53)),
        (b"..", 0, Some(6)),
        (b"a", 0, None),
        (b"a+", 1, Some(12)),
        (b"+", 1, None),
    ];
    let table = punctuators();
    for (bytes, at, want) in rows {
        let found = if at <= bytes.len() {
            table.longest(bytes, at)
        } else {
            None
        };
        assert!(rt; found == want, "at {at}");
    }
}

#[test]
fn numbers_words_by_the_tables(rt: HostRuntime) {
    assert!(rt; keywords().find(b"break") == Some(0));
    assert!(rt; keywords().find(b"_Bool") == Some(26));
    assert!(rt; keywords().find(b"_Thread_local") == Some(43));
    assert!(rt; keywords().find(b"boo") == None);
    assert!(rt; directives().find(b"line") == Some(11));
    assert!(rt; directives().find(b"lin") == None);
}

#[test]
fn refuses_what_is_no_table(rt: HostRuntime) {
    assert!(rt; Spellings::new(b"", &[]).is_some());
    assert!(rt; Spellings::new(b"abc", &[1, 3]).is_some());
    assert!(rt; Spellings::new(b"abc", &[1, 2]).is_none());
    assert!(rt; Spellings::new(b"abc", &[0, 3]).is_none());
    assert!(rt; Spellings::new(b"abc", &[2, 2, 3]).is_none());
    assert!(rt; Spellings::new(b"abab", &[2, 4]).is_none());
    assert!(rt; Spellings::new(b"ab", &[1, 3]).is_none());
}
