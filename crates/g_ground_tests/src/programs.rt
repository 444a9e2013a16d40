//! Steps of small programs, program files and transfers. Every expected word was computed manually, in octal.

mod rows;
mod texts;
mod transfers;

use crate::numbers::numbers;
use g_mill::{Event, LoadFault, Program, load};
use g_order::{Order, encode};
use g_word::Word;
use std::process::Abort;

/// A program of a file.
fn loaded(rt: &(impl Abort + AllocGlobal), file: &[u8]) -> Program {
    load(rt.alloc(), file).expect(rt, "a program")
}

fn word(rt: &impl Abort, bits: u32) -> Word {
    Word::new(bits).expect(rt, "24 bits")
}

/// Writes words to addresses.
fn put(rt: &impl Abort, program: &mut Program, words: &[(u32, u32)]) {
    for (address, bits) in words {
        assert!(rt; *address < program.size());
        program.set_word(*address as u16, word(rt, *bits));
    }
}

/// Compares words at addresses.
fn shows(rt: &impl Abort, program: &Program, words: &[(u32, u32)]) {
    for (address, bits) in words {
        assert!(rt; *address < 65_536);
        assert!(rt;
            program.word(*address as u16) == Some(word(rt, *bits)),
            "at {address}"
        );
    }
}

/// Executes an order, which has this event and continues at this address.
fn steps(rt: &impl Abort, program: &mut Program, event: &Event, next: u32) {
    assert!(rt; program.step() == *event);
    assert!(rt; u32::from(program.next()) == next, "at {next}");
}

/// The word of an order by its X, F, M and N.
fn order(rt: &impl Abort, x: u32, f: u32, m: u32, n: u32) -> Word {
    assert!(rt; x < 8 && f < 128 && m < 4 && n < 32_768);
    let order = Order::new(x as u8, f as u8, m as u8, n as u16);
    encode(&order.expect(rt, "an order"))
}

/// Executes the order of a row at word 21 of a program of 32 words, after one that sets overflow or doesn't, and compares the state after it. An
/// order that leaves the next address at 21 must be illegal.
fn check(rt: &(impl Abort + AllocGlobal), row: &str) {
    let [
        x,
        f,
        m,
        n,
        overflow,
        a,
        b,
        c,
        d,
        next,
        overflow_after,
        e,
        g,
        h,
        i,
        _,
    ] = numbers(rt, 8, row);
    let order = order(rt, x, f, m, n);
    // ADN 7 1 on the greatest number, or NULL.
    let first = if overflow == 1 {
        0o74040001
    } else {
        0o05140000
    };
    let words = [
        (7, 0o37777777),
        (20, first),
        (21, order.value()),
        (a, b),
        (c, d),
    ];
    let mut program = loaded(rt, b"00000040\n");
    put(rt, &mut program, &words);
    program.enter(0);
    steps(rt, &mut program, &Event::Ran, 21);
    if next == 21 {
        let told = Event::Illegal {
            word: order,
            at: 21,
        };
        steps(rt, &mut program, &told, next);
    } else {
        steps(rt, &mut program, &Event::Ran, next);
    }
    shows(rt, &program, &[(e, g), (h, i)]);
    assert!(rt; program.overflow() == (overflow_after == 1), "{row}");
}

#[test]
fn orders(rt: HostRuntime) {
    for row in rows::ROWS.lines() {
        if !row.starts_with('#') {
            check(&rt, row);
        }
    }
}

/// MOVE of two words from 100 to 101.
static MOVED: [(u32, u32); 6] = [
    (1, 100),
    (2, 101),
    (100, 1),
    (101, 2),
    (102, 3),
    (20, 0o15300002),
];

/// CALL 1 30 at word 22, EXIT 1 0, and PERI 100; a word that is no order.
static CALLED: [(u32, u32); 4] = [
    (22, 0o13400036),
    (30, 0o13500000),
    (23, 0o06740144),
    (24, 0o00200000),
];

/// Both, a branch, and an address without a word.
#[test]
fn worked_rows(rt: HostRuntime) {
    let mut program = loaded(&rt, b"00000200\n");
    put(&rt, &mut program, &MOVED);
    program.enter(0);
    steps(&rt, &mut program, &Event::Ran, 21);
    shows(&rt, &program, &[(100, 1), (101, 1), (102, 1)]);
    put(&rt, &mut program, &CALLED);
    program.enter(2);
    steps(&rt, &mut program, &Event::Ran, 30);
    shows(&rt, &program, &[(1, 23)]);
    steps(&rt, &mut program, &Event::Ran, 23);
    steps(&rt, &mut program, &Event::Peri { area: 100 }, 24);
    let none = word(&rt, 0o00200000);
    steps(
        &rt,
        &mut program,
        &Event::Illegal { word: none, at: 24 },
        24,
    );
    put(&rt, &mut program, &[(24, 0o03600200)]);
    steps(&rt, &mut program, &Event::Ran, 128);
    let past = Word::ZERO;
    steps(
        &rt,
        &mut program,
        &Event::Illegal {
            word: past,
            at: 128,
        },
        128,
    );
}

/// At its entry 0 it subtracts 1 from its first accumulator, which is 2, until it is 0, and then requests a transfer.
static COUNTING: &[u8] = b"00000040\n00000002\n\
    00000000\n00000000\n00000000\n00000000\n00000000\n00000000\n00000000\n00000000\n\
    00000000\n00000000\n00000000\n00000000\n00000000\n00000000\n00000000\n00000000\n\
    00000000\n00000000\n00000000\n04140001\n02500024\n06740010\n";

/// Many orders in one run; and PERI with an address that wraps: 100 and 32,766 are 98.
#[test]
fn stretches(rt: HostRuntime) {
    let mut program = loaded(&rt, COUNTING);
    program.enter(0);
    assert!(rt; program.run(3) == 3 && program.next() == 21);
    assert!(rt; program.run(64) == 1 && program.next() == 22);
    shows(&rt, &program, &[(0, 0)]);
    steps(&rt, &mut program, &Event::Peri { area: 8 }, 23);
    let peri = order(&rt, 0, 0o157, 2, 100);
    put(&rt, &mut program, &[(2, 0o77776), (20, peri.value())]);
    program.enter(0);
    steps(&rt, &mut program, &Event::Peri { area: 98 }, 21);
}

/// A program of 32,768 words, loaded and stepped once; its first word is no order, so a run executes nothing. And files that aren't programs, with
/// their first bad line, the last of them of 32 words with a line after the last one.
#[test]
fn ample(rt: HostRuntime) {
    let mut program = loaded(&rt, b"00100000\n12345670\n77777777\n");
    assert!(rt; program.size() == 32768);
    shows(
        &rt,
        &program,
        &[(0, 0o12345670), (1, 0o77777777), (32767, 0)],
    );
    assert!(rt; program.word(32768) == None);
    assert!(rt; program.next() == 0 && !program.overflow());
    // No order has the function 047.
    assert!(rt; program.run(64) == 0 && program.next() == 0);
    let none = word(&rt, 0o12345670);
    steps(&rt, &mut program, &Event::Illegal { word: none, at: 0 }, 0);
    let mut long = Vec::from_slice(rt.alloc(), b"00000040\n").expect(&rt, "memory");
    for _ in 0..33 {
        long.extend_from_slice(b"00000000\n").expect(&rt, "memory");
    }
    assert!(rt; load(rt.alloc(), long.as_slice()).err() == Some(LoadFault::BadProgram(34)));
    for (text, line) in &texts::BAD {
        assert!(rt;
            load(rt.alloc(), text).err() == Some(LoadFault::BadProgram(*line)),
            "{text:?}"
        );
    }
}
