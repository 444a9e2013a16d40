//! Transfers of small programs with their units. Expected words and bytes are written out by hand.
use super::{loaded, put, shows, word};
use g_mill::Program;
use g_name::{Local, Path, Text};
use g_peri::{Kind, OrderEvent, PeriFault, Unit, UnitFault, Units};
use std::process::Abort;

const READER: Unit = Unit {
    kind: Kind::Cr,
    number: 0,
};

const PRINTER: Unit = Unit {
    kind: Kind::Lp,
    number: 1,
};

const PUNCH: Unit = Unit {
    kind: Kind::Tp,
    number: 1,
};

/// A program of 128 words.
const FILE: &[u8] = b"00000200\n";

fn path(rt: &impl Abort) -> Path {
    Path {
        user: None,
        local: Local::new(b"F").expect(rt, "a local name"),
        generation: None,
        lang: None,
    }
}

/// Units with only the punch assigned.
fn with_punch(rt: &(impl Abort + AllocGlobal)) -> Units {
    let mut units = Units::new(rt.alloc()).expect(rt, "memory");
    units.assign_output(PUNCH, path(rt)).expect(rt, "a punch");
    units
}

/// Makes the transfer of a control area at word 40: the unit, the count and the buffer. Its reply is this.
fn transfer(rt: &impl Abort, units: &mut Units, program: &mut Program, area: [u32; 3], reply: u32) {
    let [unit, count, buffer] = area;
    put(
        rt,
        program,
        &[(40, unit), (41, 7), (42, count), (43, buffer)],
    );
    assert!(rt; units.peri(program, 40) == Ok(()));
    shows(rt, program, &[(41, reply)]);
}

/// The output that a unit returns.
fn output(rt: &impl Abort, units: &mut Units, unit: Unit) -> Text {
    match units.release(unit) {
        Ok(Some((_path, text))) => text,
        _ => panic!(rt; "no output"),
    }
}

/// Transfers of a reader whose cards are those of `readers`: the count, the reply and two words of the buffer, line by
/// line.
static READ: [(u32, u32, u32, u32); 4] = [
    (4, 0, 0o41422020, 0),
    (5, 3, 0o43444546, 0o47202020),
    (7, 0, 0o70712020, 0o20202020),
    (7, 1, 0o70712020, 0o20202020),
];

#[test]
fn readers(rt: HostRuntime) {
    let mut program = loaded(&rt, FILE);
    let mut units = Units::new(rt.alloc()).expect(&rt, "memory");
    transfer(&rt, &mut units, &mut program, [0, 4, 100], 2);
    let cards = Text::from_slice(rt.alloc(), b"AB\nCDEFGH\nxy").expect(&rt, "memory");
    assert!(rt; units.assign_input(READER, path(&rt), cards) == Ok(()));
    let more = Text::from_slice(rt.alloc(), b"").expect(&rt, "memory");
    assert!(rt; units.assign_input(READER, path(&rt), more) == Err(UnitFault::InUse));
    for (count, reply, first, second) in READ {
        transfer(&rt, &mut units, &mut program, [0, count, 100], reply);
        shows(&rt, &program, &[(100, first), (101, second)]);
    }
    assert!(rt; units.release(READER) == Ok(None));
}

/// A line, and one of spaces only, printed; then 409 times 160 characters and 96 more, which fill a punch.
#[test]
fn writers(rt: HostRuntime) {
    let mut program = loaded(&rt, FILE);
    let mut units = with_punch(&rt);
    units
        .assign_output(PRINTER, path(&rt))
        .expect(&rt, "a printer");
    put(&rt, &mut program, &[(100, 0o41202020), (101, 0o20202020)]);
    transfer(&rt, &mut units, &mut program, [9, 3, 100], 0);
    transfer(&rt, &mut units, &mut program, [9, 2, 101], 0);
    assert!(rt; output(&rt, &mut units, PRINTER).as_slice() == b"A\n\n".as_slice());
    for _ in 0..409 {
        transfer(&rt, &mut units, &mut program, [17, 160, 60], 0);
    }
    for (count, reply) in [(97, 4), (96, 0), (1, 4)] {
        transfer(&rt, &mut units, &mut program, [17, count, 60], reply);
    }
    assert!(rt; output(&rt, &mut units, PUNCH).as_slice().len() == 65_536);
}

/// Illegal control areas: the unit, the count, the buffer and the area. Each steps back.
static ILLEGAL: [(u32, u32, u32, u16); 6] = [
    (24, 4, 100, 40),
    (0, 0, 100, 40),
    (0, 161, 60, 40),
    (0, 5, 127, 40),
    (0, 4, 0o77777777, 40),
    (0, 4, 100, 125),
];

#[test]
fn illegal_areas(rt: HostRuntime) {
    let mut program = loaded(&rt, FILE);
    let mut units = Units::new(rt.alloc()).expect(&rt, "memory");
    program.enter(5);
    for (unit, count, buffer, at) in ILLEGAL {
        put(
            &rt,
            &mut program,
            &[(40, unit), (41, 7), (42, count), (43, buffer)],
        );
        let next = program.next();
        assert!(rt; units.peri(&mut program, at) == Err(PeriFault::Illegal));
        assert!(rt; program.next() + 1 == next);
        shows(&rt, &program, &[(41, 7)]);
    }
}

/// Executes an order, which has this event and continues at this address.
fn goes(rt: &impl Abort, units: &mut Units, program: &mut Program, event: OrderEvent, next: u16) {
    assert!(rt; units.one_order(program) == Ok(event));
    assert!(rt; program.next() == next);
}

/// Two characters at 100 and their area at 40; PERI 40, NULL, PERI 125 whose area passes the end, tried twice, and the text
/// of SUSTY 42: the two characters.
#[test]
fn orders_with_transfers(rt: HostRuntime) {
    let mut program = loaded(&rt, FILE);
    let mut units = with_punch(&rt);
    put(
        &rt,
        &mut program,
        &[(100, 0o41422020), (40, 17), (41, 7), (42, 2), (43, 100)],
    );
    let orders = [
        (20, 0o06740050),
        (21, 0o05140000),
        (22, 0o06740175),
        (29, 0o07000052),
    ];
    put(&rt, &mut program, &orders);
    program.enter(0);
    goes(&rt, &mut units, &mut program, OrderEvent::Ran, 21);
    shows(&rt, &program, &[(41, 0)]);
    goes(&rt, &mut units, &mut program, OrderEvent::Ran, 22);
    for _ in 0..2 {
        let word = word(&rt, 0o06740175);
        goes(
            &rt,
            &mut units,
            &mut program,
            OrderEvent::Illegal { word, at: 22 },
            22,
        );
    }
    program.enter(9);
    let Ok(OrderEvent::Halted(told)) = units.one_order(&mut program) else {
        panic!(rt; "halted");
    };
    assert!(rt; told.as_slice() == b"AB".as_slice());
    assert!(rt; output(&rt, &mut units, PUNCH).as_slice() == b"AB".as_slice());
}

/// A transfer to the punch, and the same by PERI 40.
#[test]
fn ample(rt: HostRuntime) {
    let mut program = loaded(&rt, FILE);
    assert!(rt; !Units::new(rt.alloc()).expect(&rt, "memory").assigned(PUNCH));
    let mut units = with_punch(&rt);
    assert!(rt; units.assigned(PUNCH));
    put(&rt, &mut program, &[(100, 0o41202020), (20, 0o06740050)]);
    transfer(&rt, &mut units, &mut program, [17, 3, 100], 0);
    program.enter(0);
    goes(&rt, &mut units, &mut program, OrderEvent::Ran, 21);
    assert!(rt; output(&rt, &mut units, PUNCH).as_slice() == b"A  A  ".as_slice());
    assert!(rt; units.release(PUNCH).err() == Some(UnitFault::NotAssigned));
}
