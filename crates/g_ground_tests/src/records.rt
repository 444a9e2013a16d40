//! One record of each kind in each format, compared with bytes that were written out manually.
use g_base::{Block, BlockList};
use g_entry::{
    FileRec, Format, Head, Intent, TapeCopy, UserRec, decode_file_in, decode_head_in,
    decode_user_held, decode_user_in, empty_block, encode_file_in, encode_head_in,
    encode_user_held, encode_user_in, files_keep, users_keep,
};
use g_name::{Lang, Local, User};
use g_trap::{Modes, Traps};

/// A user's block up to its last field; in the first format the last 8 bytes are zero.
static USER: [u8; 36] =
    *b"\x01\x02AB\0\0\0\0\0\0\0\0\0\0\x01\0\0\xff\xff\0\0\0\0\0\x0f\x42\x40\0\0\0\0\0\0\x0f\x42\x40";

/// A file's block up to its block numbers.
static FILE: [u8; 61] =
    *b"\x01\x02\x01F\0\0\0\0\0\0\0\0\0\0\0\x01\x02A1  \x01\x02\x03\x04\x05\x06\x07\x08\0\0\x02\x01\x1f\x02\x00\x10\x01\x02\0\0\0\0\0\0\0\0\0\0\0\0\x01\x00\x0f\x42\x3f\x01\x02\x03\x04\x01";

/// A head's block in the second format, with an intent.
static HEAD: [u8; 39] =
    *b"G3SL\x00\x02\x01\x02\x03\x04\x05\x06\x07\x08\0\0\0\0\0\0\0\x07\x01\x00\x0f\x42\x3f\x01\x02\x03\x04\0\0\0\0\0\0\0\x08";

/// The pieces in order, filled up with zeros.
fn block_of(pieces: [&[u8]; 2]) -> Block {
    let mut block = [0; 512];
    let mut at = 0;
    for piece in pieces {
        for byte in piece {
            if at < 512 {
                block[at] = *byte;
                at += 1;
            }
        }
    }
    block
}

fn with_byte(block: &Block, at: usize, byte: u8) -> Block {
    let mut changed = *block;
    if at < 512 {
        changed[at] = byte;
    }
    changed
}

/// A byte that makes a user's block invalid: its place, and the byte.
static BAD_USERS: [(usize, u8); 10] = [
    (0, 0),
    (1, 0),
    (1, 13),
    (1, 1),
    (2, b'a'),
    (13, b'A'),
    (16, 1),
    (19, 1),
    (27, 1),
    (511, 1),
];

#[test]
fn users(rt: HostRuntime) {
    let block = block_of([&USER, b""]);
    let user = decode_user_in(Format::Two, &block, 2).expect(&rt, "a user");
    let same = UserRec {
        number: 2,
        user: User::parse(b":AB").expect(&rt, "a name"),
        superior: 1,
        space: 65_535,
        time: 1_000_000,
        money: 1_000_000,
    };
    assert!(rt; user == same);
    assert!(rt; encode_user_in(Format::Two, &user) == block);
    let first = block_of([&USER[..28], b""]);
    let user = decode_user_in(Format::One, &first, 2).expect(&rt, "a user");
    assert!(rt; user == same);
    assert!(rt; encode_user_in(Format::One, &user) == first);
    for (at, byte) in &BAD_USERS {
        assert!(rt;
            decode_user_in(Format::Two, &with_byte(&block, *at, *byte), 2) == None,
            "byte {at} {byte}"
        );
    }
    assert!(rt; decode_user_in(Format::One, &block, 2) == None);
    assert!(rt; decode_user_in(Format::Two, &empty_block(), 2) == None);
}

#[test]
fn users_in_a_dump(rt: HostRuntime) {
    let block = block_of([&USER, b""]);
    // The byte that says whether the user is held, and the result.
    for (byte, want) in [(0, Some(false)), (1, Some(true)), (2, None), (255, None)] {
        let written = with_byte(&block, 27, byte);
        let found = decode_user_held(Format::Two, &written, 2);
        assert!(rt; found.is_some() == want.is_some());
        if let Some((user, held)) = found {
            assert!(rt; Some(held) == want);
            assert!(rt; encode_user_held(Format::Two, &user, held) == written);
        }
    }
    let first = with_byte(&block_of([&USER[..28], b""]), 27, 1);
    let (user, held) = decode_user_held(Format::One, &first, 2).expect(&rt, "a user");
    assert!(rt; held && user.money == 1_000_000);
}

fn first_user(number: u8, user: User) -> UserRec {
    UserRec {
        number,
        user,
        superior: 0,
        space: 0,
        time: 0,
        money: 0,
    }
}

/// The same for a file.
static BAD_FILES: [(usize, u8); 20] = [
    (0, 2),
    (2, 2),
    (3, b'1'),
    (14, b'A'),
    (15, 16),
    (17, b' '),
    (20, b'a'),
    (21, 64),
    (30, 1),
    (33, 32),
    (34, 1),
    (34, 9),
    (35, 2),
    (36, 0),
    (37, 0),
    (50, 1),
    (51, 0),
    (53, 16),
    (60, 0),
    (67, 1),
];

#[test]
fn files(rt: HostRuntime) {
    let block = block_of([&FILE, b"\x00\x08\x81\x00\xff\xff"]);
    let (file, online) = decode_file_in(Format::Two, &block, 5).expect(&rt, "a file");
    let read = Modes::from_bits(16).expect(&rt, "READ");
    let execute = Modes::from_bits(2).expect(&rt, "EXECUTE");
    let same = FileRec {
        number: 5,
        owner: 2,
        local: Local::parse(b"F").expect(&rt, "a name"),
        generation: 258,
        lang: Lang::new(b"A1").expect(&rt, "a language"),
        stamp: 0x0102_0304_0506_0708,
        len: 513,
        traps: Traps::of(Modes::all(), &[(0, read), (1, execute)]).expect(&rt, "traps"),
        tape: Some(TapeCopy {
            serial: 999_999,
            first: 0x0102_0304,
        }),
    };
    assert!(rt; file == same);
    assert!(rt; online == BlockList::from_slice(&[2_177, 65_535]));
    assert!(rt; encode_file_in(Format::Two, &file, online.as_ref()) == block);
    let first = block_of([&FILE, b"\x08\x81\xff\xff"]);
    let (file, online) = decode_file_in(Format::One, &first, 5).expect(&rt, "a file");
    assert!(rt; file == same);
    assert!(rt; online == BlockList::from_slice(&[2_177, 65_535]));
    assert!(rt; encode_file_in(Format::One, &file, online.as_ref()) == first);
    for (at, byte) in &BAD_FILES {
        assert!(rt;
            decode_file_in(Format::Two, &with_byte(&block, *at, *byte), 5).is_none(),
            "byte {at} {byte}"
        );
    }
    assert!(rt; decode_file_in(Format::Two, &empty_block(), 5).is_none());
}

/// The same for a head.
static BAD_HEADS: [(usize, u8); 9] = [
    (0, 0),
    (4, 1),
    (6, 64),
    (21, 6),
    (22, 0),
    (22, 2),
    (24, 16),
    (38, 7),
    (39, 1),
];

#[test]
fn heads(rt: HostRuntime) {
    let block = block_of([&HEAD, b""]);
    let head = decode_head_in(Format::Two, &block).expect(&rt, "a head");
    let same = Head {
        next_stamp: 0x0102_0304_0506_0708,
        last_dump: 7,
        intent: Some(Intent {
            serial: 999_999,
            place: 0x0102_0304,
            number: 8,
        }),
    };
    assert!(rt; head == same);
    assert!(rt; encode_head_in(Format::Two, &head) == block);
    let first = with_byte(&block, 5, 1);
    let head = decode_head_in(Format::One, &first).expect(&rt, "a head");
    assert!(rt; head == same);
    assert!(rt; encode_head_in(Format::One, &head) == first);
    assert!(rt; decode_head_in(Format::Two, &first) == None);
    assert!(rt; decode_head_in(Format::One, &block) == None);
    for (at, byte) in &BAD_HEADS {
        assert!(rt;
            decode_head_in(Format::Two, &with_byte(&block, *at, *byte)) == None,
            "byte {at} {byte}"
        );
    }
}

#[test]
fn ample(rt: HostRuntime) {
    let user = decode_user_in(Format::Two, &block_of([&USER, b""]), 3).expect(&rt, "a user");
    assert!(rt; user.copy() == user);
    let block = block_of([&FILE, b"\x00\x08\x81\x00\x08\x82"]);
    let (file, _online) = decode_file_in(Format::Two, &block, 6).expect(&rt, "a file");
    assert!(rt; file.copy() == file);
    let users = [first_user(0, User::master()), first_user(1, User::macros())];
    assert!(rt; users_keep(rt.alloc(), &users) == Ok(true));
    let swapped = [first_user(0, User::macros()), first_user(1, User::master())];
    assert!(rt; users_keep(rt.alloc(), &swapped) == Ok(false));
    // Its owner is user 2, and users 0 and 1 are trapped.
    let files = [file];
    assert!(rt; files_keep(rt.alloc(), 3, &files) == Ok(true));
    assert!(rt; files_keep(rt.alloc(), 2, &files) == Ok(false));
}
