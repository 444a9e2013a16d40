//! The worked rows of tables by number.
ghost use Rattle.std.specs.Prelude.{◌≡◌};

use g_entry::{BoxedRec, FileRec};
use g_name::{Lang, Local};
use g_table::{FileTable, NumberTable};
use g_trap::Traps;
use std::process::Abort;

/// A file of this number, whose owner is the user of number 1.
fn file(rt: &impl Abort, number: u16) -> FileRec
    ensures { result.number ≡ number }
{
    FileRec {
        number,
        owner: 1,
        local: Local::new(b"F").expect(rt, "a name"),
        generation: 1,
        lang: Lang::spaces(),
        stamp: 1,
        len: 0,
        traps: Traps::fresh(),
        tape: None,
    }
}

/// Two groups of numbers that are full, and a third: the least free number is in the second, then after it.
#[test]
fn ample(rt: HostRuntime) {
    let mut table = NumberTable::new(rt.alloc()).expect(&rt, "memory");
    assert!(rt; table.free() == Some(0));
    for number in 0..65 {
        assert!(rt; table.put(number, number).is_none());
    }
    assert!(rt; table.free() == Some(65));
    assert!(rt; table.take(40) == Some(40));
    assert!(rt; table.free() == Some(40));
    assert!(rt; table.get(40).is_none());
    assert!(rt; table.take(40).is_none());
    assert!(rt; table.put(1_023, 7).is_none());
    assert!(rt; table.len() == 65);
    assert!(rt; table.iter().next_back() == Some(&7));
    assert!(rt; table.put(1_023, 8) == Some(7));
    assert!(rt; table.take(1_023) == Some(8));
    assert!(rt; table.iter().next_back() == Some(&64));
    for number in 0..1_024 {
        table.put(number, number);
    }
    assert!(rt; table.free().is_none());
    assert!(rt; table.len() == 1_024);
}

/// Files are visited by number, for any order in which they were added.
#[test]
fn files(rt: HostRuntime) {
    let mut table = FileTable::new(rt.alloc()).expect(&rt, "memory");
    for number in [9, 2, 700] {
        let boxed = BoxedRec::new(rt.alloc(), file(&rt, number)).expect(&rt, "memory");
        assert!(rt; table.put(boxed).is_none());
    }
    let mut walk = table.iter();
    for number in [2, 9, 700] {
        assert!(rt; walk.next().expect(&rt, "a file").number == number);
    }
    assert!(rt; walk.next().is_none());
    assert!(rt; table.take(9).is_some());
    assert!(rt; table.get(9).is_none());
    assert!(rt; table.len() == 2);
    assert!(rt; table.free() == Some(0));
}
