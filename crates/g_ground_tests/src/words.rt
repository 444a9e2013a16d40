//! Worked values, computed manually: words, characters and the orders of words, in octal.
use crate::numbers::numbers;
use g_order::{Condition, Function, Illegal, Operation, Order, decode, encode};
use g_word::{Word, byte_of, code_of};
use std::process::Abort;

fn word(rt: &impl Abort, bits: u32) -> Word {
    Word::new(bits).expect(rt, "24 bits")
}

/// Left, right; their sum, and whether it is out of range; their difference, and the same of it.
static SUMS: &str = "3 4  7 0  77777777 0
37777777 1  40000000 1  37777776 0
40000000 1  40000001 0  37777777 1
40000000 40000000  0 1  0 0
0 40000000  40000000 0  40000000 1";

/// Left, right; the high part of their product, its low 23 bits, and whether it is out of range.
static PRODUCTS: &str = "3 77777776  77777777 37777772 0
10000 10000  2 0 0
40000000 40000000  40000000 0 1
40000000 1  77777777 0 0
37777777 37777777  37777776 1 0";

/// A word, whether to the left, how many places; the word rotated, and shifted.
static SHIFTS: &str = "40000001 1 1  3 2
40000001 0 1  60000000 20000000
40000001 1 0  40000001 40000001
40000001 1 30  40000001 0
12345670 1 1777  67012345 0
12345670 0 6  70123456 123456";

#[test]
fn words(rt: HostRuntime) {
    for row in SUMS.lines() {
        let [left, right, sum, sum_out, difference, difference_out, ..] = numbers(&rt, 8, row);
        let (left, right) = (word(&rt, left), word(&rt, right));
        let (got, out) = left.add(right);
        assert!(rt; got.value() == sum && out == (sum_out == 1), "{row}");
        let (got, out) = left.sub(right);
        assert!(rt;
            got.value() == difference && out == (difference_out == 1),
            "{row}"
        );
    }
    for row in PRODUCTS.lines() {
        let [left, right, high, low, is_out, ..] = numbers(&rt, 8, row);
        let (got_high, got_low, out) = word(&rt, left).mul_parts(word(&rt, right));
        assert!(rt; got_high.value() == high && got_low.value() == low, "{row}");
        assert!(rt; out == (is_out == 1), "{row}");
    }
    for row in SHIFTS.lines() {
        let [bits, left, places, rotated, shifted, ..] = numbers(&rt, 8, row);
        let (word, left) = (word(&rt, bits), left == 1);
        assert!(rt; word.rotate(left, places).value() == rotated, "{row}");
        assert!(rt; word.shift(left, places).value() == shifted, "{row}");
    }
}

/// A byte, its code, and the byte of that code: for `0`, `?`, ` `, `/`, `@`, `H`, `_`, `h`, `~`, and for bytes that have no code.
static CODES: &str = "60 0 60
77 17 77
40 20 40
57 37 57
100 40 100
110 50 110
137 77 137
150 50 110
176 76 136
177 17 77
12 17 77
377 17 77";

#[test]
fn characters(rt: HostRuntime) {
    assert!(rt; Word::new(0o100000000) == None);
    assert!(rt; word(&rt, 0o77777776).signed() == -2);
    let (least, out) = word(&rt, 0o40000000).neg();
    assert!(rt; least.value() == 0o40000000 && out);
    let (seven, out) = Word::from(7).neg();
    assert!(rt; seven.value() == 0o77777771 && !out);
    let (one, other) = (word(&rt, 0o11), word(&rt, 0o14));
    assert!(rt; one.and(other).value() == 0o10 && one.or(other).value() == 0o15);
    assert!(rt; one.xor(other).value() == 0o05);
    let text = word(&rt, 0o50512021);
    assert!(rt; text.char_at(0) == 0o50 && text.char_at(1) == 0o51);
    assert!(rt; text.char_at(2) == 0o20 && text.char_at(3) == 0o21);
    assert!(rt; text.with_char(0, 0o77).value() == 0o77512021);
    assert!(rt; text.with_char(3, 0).value() == 0o50512000);
    for row in CODES.lines() {
        let [byte, code, out, ..] = numbers(&rt, 8, row);
        assert!(rt; byte < 256);
        let told = code_of(byte as u8);
        assert!(rt;
            u32::from(told) == code && u32::from(byte_of(told)) == out,
            "{row}"
        );
    }
}

/// A word, the X, F, M and N of its order, and its function.
static ORDERS: [(u32, u8, u8, u8, u16, Function); 9] = [
    (0o10020024, 1, 0o000, 2, 20, Function::Load(Operation::Take)),
    (
        0o03600024,
        0,
        0o074,
        0,
        20,
        Function::Branch(Condition::Always),
    ),
    (
        0o43600024,
        4,
        0o074,
        0,
        20,
        Function::Branch(Condition::NoOverflowReset),
    ),
    (
        0o02477777,
        0,
        0o050,
        0,
        0o77777,
        Function::Branch(Condition::Zero),
    ),
    (0o73440000, 7, 0o070, 0, 0o40000, Function::Call),
    (0o75176543, 7, 0o123, 3, 0o6543, Function::Null),
    (0o14504000, 1, 0o112, 0, 0o4000, Function::ShiftRight),
    (0o07000030, 0, 0o160, 0, 0o30, Function::Halt),
    (0o27000032, 2, 0o160, 0, 0o32, Function::Delete),
];

#[test]
fn orders(rt: HostRuntime) {
    for (bits, x, f, m, n, function) in &ORDERS {
        let word = word(&rt, *bits);
        let order = decode(word).expect(&rt, "an order");
        assert!(rt;
            order.x == *x && order.f == *f && order.m == *m && order.n == *n,
            "{bits}"
        );
        assert!(rt;
            order.function() == *function && encode(&order) == word,
            "{bits}"
        );
    }
    // Words without an order: 004, 060, 074 with X 5, 077, 160 with X 3, 177.
    for bits in [
        0o00200000, 0o03000000, 0o53600000, 0o03760000, 0o37000000, 0o07740000,
    ] {
        let word = word(&rt, bits);
        assert!(rt; decode(word) == Err(Illegal(word)), "{bits}");
    }
    assert!(rt; Order::new(0, 0o074, 1, 0) == None);
    assert!(rt; Order::new(0, 0o000, 0, 0x1000) == None);
}
