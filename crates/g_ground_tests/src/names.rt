//! Names, good and bad, with the bad places derived manually from the grammar.
use g_name::{BadName, Full, Lang, Local, Path, Text, User, parse_path};
use std::process::Abort;

/// A good path: its text, user, local name, generation, language.
type Good = (
    &'static [u8],
    Option<&'static [u8]>,
    &'static [u8],
    Option<u16>,
    Option<&'static [u8]>,
);

static GOOD: [Good; 15] = [
    (b"F", None, b"F", None, None),
    (b"F(2)", None, b"F", Some(2), None),
    (b"F(/ABC)", None, b"F", None, Some(b"ABC")),
    (b"F(2/ABC)", None, b"F", Some(2), Some(b"ABC")),
    (b"F(2/)", None, b"F", Some(2), Some(b"")),
    (b"F(/)", None, b"F", None, Some(b"")),
    (b":A.F", Some(b"A"), b"F", None, None),
    (b":MASTER.F(1/)", Some(b"MASTER"), b"F", Some(1), Some(b"")),
    (b"ABCDEFGHIJKL", None, b"ABCDEFGHIJKL", None, None),
    (b"Z9-", None, b"Z9-", None, None),
    (
        b":ABCDEFGHIJKL.A-1",
        Some(b"ABCDEFGHIJKL"),
        b"A-1",
        None,
        None,
    ),
    (
        b":A-9.B(4095/A-9Z)",
        Some(b"A-9"),
        b"B",
        Some(4095),
        Some(b"A-9Z"),
    ),
    (b"F(4095)", None, b"F", Some(4095), None),
    (b"F(10)", None, b"F", Some(10), None),
    (b"F(/1)", None, b"F", None, Some(b"1")),
];

/// A bad path, and the place in it.
static BAD: [(&[u8], usize); 36] = [
    (b"", 0),
    (b"f", 0),
    (b"1A", 0),
    (b"-A", 0),
    (b" F", 0),
    (b"A_B", 1),
    (b"F ", 1),
    (b"F)", 1),
    (b"F/", 1),
    (b"ABCDEFGHIJKLM", 12),
    (b":", 1),
    (b":.F", 1),
    (b":1.F", 1),
    (b"::A.F", 1),
    (b":A", 2),
    (b":A.", 3),
    (b":A.B.C", 4),
    (b":ABCDEFGHIJKLM.F", 13),
    (b"A.B", 1),
    (b"A:B", 1),
    (b"F(", 2),
    (b"F()", 2),
    (b"F(0)", 2),
    (b"F(01)", 2),
    (b"F(+2)", 2),
    (b"F(2", 3),
    (b"F(/ab)", 3),
    (b"F(2)X", 4),
    (b"F(2//)", 4),
    (b"F(4096)", 5),
    (b"F(9999)", 5),
    (b"F(2/)X", 5),
    (b"F(12345)", 6),
    (b"F(2/AB", 6),
    (b"F(/AB)(1)", 6),
    (b"F(2/ABCDE)", 8),
];

/// Texts that are no user and no local name.
static NO_USERS: [(&[u8], usize); 7] = [
    (b"", 0),
    (b"A", 0),
    (b":", 1),
    (b":1", 1),
    (b":A.", 2),
    (b":A B", 2),
    (b":ABCDEFGHIJKLM", 13),
];

static NO_LOCALS: [(&[u8], usize); 5] = [
    (b"", 0),
    (b"9", 0),
    (b":A", 0),
    (b"A.", 1),
    (b"ABCDEFGHIJKLM", 12),
];

/// Whether a name is the expected one.
fn is_name(name: &[u8], wanted: Option<&[u8]>) -> bool {
    match wanted {
        Some(wanted) => name == wanted,
        None => false,
    }
}

#[test]
fn good_names(rt: HostRuntime) {
    for (text, user, local, generation, lang) in &GOOD {
        let path = parse_path(text).expect(&rt, "a path");
        let user_is = match &path.user {
            Some(name) => is_name(name.as_slice(), *user),
            None => user.is_none(),
        };
        let lang_is = match &path.lang {
            Some(name) => is_name(name.as_slice(), *lang),
            None => lang.is_none(),
        };
        assert!(rt; user_is && path.local.as_slice() == *local, "{text:?}");
        assert!(rt; path.generation == *generation && lang_is, "{text:?}");
    }
    assert!(rt; User::parse(b":MASTER") == Ok(User::master()));
    assert!(rt; User::parse(b":MACROS") == Ok(User::macros()));
    let local = Local::parse(b"A-1").expect(&rt, "a local name");
    assert!(rt; local.as_slice() == b"A-1".as_slice());
}

#[test]
fn bad_names(rt: HostRuntime) {
    for (text, place) in &BAD {
        let place = *place;
        assert!(rt;
            parse_path(text).err() == Some(BadName { place }),
            "{text:?}"
        );
    }
    for (text, place) in &NO_USERS {
        let place = *place;
        assert!(rt;
            User::parse(text).err() == Some(BadName { place }),
            "{text:?}"
        );
    }
    for (text, place) in &NO_LOCALS {
        let place = *place;
        assert!(rt;
            Local::parse(text).err() == Some(BadName { place }),
            "{text:?}"
        );
    }
}

/// The full name of a text with user and generation.
fn full_of(rt: &impl Abort, text: &[u8]) -> Full {
    let Path {
        user,
        local,
        generation,
        lang,
    } = parse_path(text).expect(rt, "a path");
    Full {
        user: user.expect(rt, "a user"),
        local,
        generation: generation.expect(rt, "a generation"),
        lang: lang.unwrap_or(Lang::spaces()),
    }
}

/// Full names in their order.
static ORDERED: [&[u8]; 8] = [
    b":A.F(1/)",
    b":A.F(1/A)",
    b":A.F(2/)",
    b":A.F(10/)",
    b":A.FA(1/)",
    b":A.G(1/)",
    b":AA.F(1/)",
    b":B.A(1/)",
];

#[test]
fn order_of_full_names(rt: HostRuntime) {
    for i in 0..8usize {
        let one = full_of(&rt, ORDERED[i]);
        for j in 0..8usize {
            let other = full_of(&rt, ORDERED[j]);
            assert!(rt; one.cmp(&other) == i.cmp(&j), "{i} and {j}");
        }
    }
}

#[test]
fn ample(rt: HostRuntime) {
    let full = full_of(&rt, b":MASTER.F(1)");
    let text = full.print(rt.alloc()).expect(&rt, "memory");
    assert!(rt; text.as_slice() == b":MASTER.F(1/)".as_slice());
    assert!(rt; full_of(&rt, text.as_slice()) == full);
    let mut longer = Text::from_slice(rt.alloc(), b"AB").expect(&rt, "memory");
    assert!(rt; longer.push(b'C') == Ok(()));
    assert!(rt; longer.extend(b"DE") == Ok(()));
    assert!(rt; longer.as_slice() == b"ABCDE".as_slice());
    let same = Vec::from_slice(rt.alloc(), b"ABCDE").expect(&rt, "memory");
    assert!(rt; longer == Text::from(same));
}
