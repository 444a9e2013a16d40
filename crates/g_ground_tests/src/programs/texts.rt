//! Orders with a text, and files that are no program.
use super::{loaded, put, steps, word};
use g_mill::Event;

/// Program files with their first bad line.
pub static BAD: [(&[u8], usize); 9] = [
    (b"", 1),
    (b"\n", 1),
    (b"0000040\n", 1),
    (b"00000048\n", 1),
    (b"00000037\n", 1),
    (b"00100001\n", 1),
    (b"00000040\n00000000\n000000000\n", 3),
    (b"00000040\n00000000\n\n00000000", 3),
    (b"00000040\r\n", 1),
];

/// DISTY 24 and DELTY 26, whose areas name the words 28 and 29.
static TEXTS: &[u8] =
    b"00000040\n00000000\n00000000\n00000000\n00000000\n00000000\n00000000\n00000000\n00000000\n00000000\n00000000\n00000000\n00000000\n00000000\n00000000\n00000000\n00000000\n00000000\n00000000\n00000000\n00000000\n17000030\n27000032\n00000000\n00000000\n00000002\n00000034\n00000002\n00000035\n50512020\n57532020";

/// Two texts, and then SUSTY 30 with a text of no characters, of 41, of 8 that begin at the last word, and of 4: its count,
/// its first word and whether the program halts.
#[test]
fn texts(rt: HostRuntime) {
    let mut program = loaded(&rt, TEXTS);
    assert!(rt; program.size() == 32);
    program.enter(0);
    let Event::Displayed(shown) = program.step() else {
        panic!(rt; "displayed");
    };
    assert!(rt; shown.as_slice() == b"HI".as_slice());
    assert!(rt; shown.copy() == shown);
    let Event::Deleted(last) = program.step() else {
        panic!(rt; "deleted");
    };
    assert!(rt; last.as_slice() == b"OK".as_slice());
    for (count, from, halts) in [
        (0, 0o77777777, true),
        (41, 0, false),
        (8, 31, false),
        (4, 31, true),
    ] {
        put(
            &rt,
            &mut program,
            &[(20, 0o07000036), (30, count), (31, from)],
        );
        program.enter(0);
        if halts {
            let Event::Halted(text) = program.step() else {
                panic!(rt; "halted");
            };
            assert!(rt; text.as_slice().len() as u32 == count && program.next() == 21);
        } else {
            let word = word(&rt, 0o07000036);
            steps(&rt, &mut program, &Event::Illegal { word, at: 20 }, 20);
        }
    }
}
