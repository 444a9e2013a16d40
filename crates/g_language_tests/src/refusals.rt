//! Number and text of every refusal.
ghost use Rattle.std.specs.Prelude.{IfSome};
ghost use Rattle.g_monitor.specs.Refusals.{IsPrinted};

use g_monitor::{CommandError, fault_text, push_error};
use g_name::{Full, Lang, Local, Text, User};
use g_plain::StoreFault;
use g_trap::Mode;
use std::test::Fail;

/// The file `:A.F(3/ALGO)`.
fn full() -> Option<Full> {
    Some(Full {
        user: User::new(b"A")?,
        local: Local::new(b"F")?,
        generation: 3,
        lang: Lang::new(b"ALGO")?,
    })
}

/// The fault of a number, of those below 19.
fn fault_of_jobs(number: u8) -> Option<StoreFault>
    ensures { IfSome result IsPrinted }
{
    match number {
        1 => Some(StoreFault::NoUser),
        2 => Some(StoreFault::NoFile),
        3 => Some(StoreFault::Exists),
        5 => Some(StoreFault::NoGeneration),
        6 => Some(StoreFault::OverSpace { need: 128, left: 0 }),
        7 => Some(StoreFault::TooLong(65537)),
        8 => Some(StoreFault::DirectoryFull),
        9 => Some(StoreFault::UsersFull),
        10 => Some(StoreFault::TrapsFull),
        13 => Some(StoreFault::DiscFull { need: 3, room: 1 }),
        14 => Some(StoreFault::DiscReadFault),
        15 => Some(StoreFault::TapeReadFault),
        18 => Some(StoreFault::NotOwner),
        _ => None,
    }
}

/// The fault of a number from 19 on.
fn fault_of_operators(number: u8) -> Option<StoreFault>
    ensures { IfSome result IsPrinted }
{
    match number {
        19 => Some(StoreFault::CountersSpent),
        20 => Some(StoreFault::NotStarted),
        21 => Some(StoreFault::NotMounted),
        22 => Some(StoreFault::TapeFull { need: 7, room: 1 }),
        23 => Some(StoreFault::DumpOpen(4611686018427387903)),
        24 => Some(StoreFault::NoTape),
        25 => Some(StoreFault::NoFilestore),
        26 => Some(StoreFault::NoDump),
        27 => Some(StoreFault::RackNotMounted(2)),
        28 => Some(StoreFault::MountFirst(1)),
        29 => Some(StoreFault::TapeBusy),
        31 => Some(StoreFault::NotDumped),
        32 => Some(StoreFault::Offline),
        33 => Some(StoreFault::Running),
        34 => Some(StoreFault::RackNotEmpty(4294967295)),
        36 => Some(StoreFault::ReelNotFree(1)),
        _ => None,
    }
}

static JOBS: [(u8, &[u8]); 13] = [
    (1, b"1 NO USER"),
    (2, b"2 NO FILE"),
    (3, b"3 EXISTS"),
    (5, b"5 NO GENERATION"),
    (6, b"6 OVER SPACE 128 0"),
    (7, b"7 TOO LONG 65537"),
    (8, b"8 DIRECTORY FULL"),
    (9, b"9 USERS FULL"),
    (10, b"10 TRAPS FULL"),
    (13, b"13 DISC FULL 3 1"),
    (14, b"14 DISC READ"),
    (15, b"15 TAPE READ"),
    (18, b"18 NOT OWNER"),
];

static OPERATORS: [(u8, &[u8]); 16] = [
    (19, b"19 COUNTERS SPENT"),
    (20, b"20 NOT STARTED"),
    (21, b"21 NOT MOUNTED"),
    (22, b"22 TAPE FULL 7 1"),
    (23, b"23 DUMP OPEN 4611686018427387903"),
    (24, b"24 NO TAPE"),
    (25, b"25 NO FILESTORE"),
    (26, b"26 NO DUMP"),
    (27, b"27 RACK NOT MOUNTED 2"),
    (28, b"28 MOUNT FIRST 1"),
    (29, b"29 TAPE BUSY"),
    (31, b"31 NOT DUMPED"),
    (32, b"32 OFFLINE"),
    (33, b"33 RUNNING"),
    (34, b"34 RACK NOT EMPTY 4294967295"),
    (36, b"36 REEL NOT FREE 1"),
];

#[test]
fn of_jobs(rt: HostRuntime) -> Result<(), Fail> {
    for (number, text) in JOBS.iter() {
        let fault = fault_of_jobs(*number).ok_or("a fault")?;
        let told = fault_text(rt.alloc(), &fault)?;
        assert!(rt; told.as_slice() == *text, "fault {number}");
    }
    Ok(())
}

#[test]
fn of_operators(rt: HostRuntime) -> Result<(), Fail> {
    for (number, text) in OPERATORS.iter() {
        let fault = fault_of_operators(*number).ok_or("a fault")?;
        let told = fault_text(rt.alloc(), &fault)?;
        assert!(rt; told.as_slice() == *text, "fault {number}");
    }
    Ok(())
}

static TRAPPED: [(Mode, &[u8]); 5] = [
    (Mode::Read, b"4 TRAPPED READ"),
    (Mode::Write, b"4 TRAPPED WRITE"),
    (Mode::Append, b"4 TRAPPED APPEND"),
    (Mode::Execute, b"4 TRAPPED EXECUTE"),
    (Mode::Erase, b"4 TRAPPED ERASE"),
];

#[test]
fn trapped(rt: HostRuntime) -> Result<(), Fail> {
    for (mode, text) in TRAPPED.iter() {
        let told = fault_text(rt.alloc(), &StoreFault::Trapped(*mode))?;
        assert!(rt; told.as_slice() == *text);
    }
    Ok(())
}

#[test]
fn no_copy(rt: HostRuntime) -> Result<(), Fail> {
    let fault = StoreFault::NoCopy(full().ok_or("a file")?, 12);
    let told = fault_text(rt.alloc(), &fault)?;
    assert!(rt; told.as_slice() == b"12 NO COPY :A.F(3/ALGO) 12".as_slice());
    Ok(())
}

#[test]
fn lost_copy(rt: HostRuntime) -> Result<(), Fail> {
    let fault = StoreFault::LostCopy(full().ok_or("a file")?, 7);
    let told = fault_text(rt.alloc(), &fault)?;
    assert!(rt; told.as_slice() == b"30 LOST COPY :A.F(3/ALGO) 7".as_slice());
    Ok(())
}

#[test]
fn lost_directory(rt: HostRuntime) -> Result<(), Fail> {
    let told = fault_text(rt.alloc(), &StoreFault::LostDirectory(User::macros()))?;
    assert!(rt; told.as_slice() == b"35 LOST DIRECTORY :MACROS".as_slice());
    Ok(())
}

/// Errors of commands, with their texts.
static ERRORS: [(CommandError, &[u8]); 12] = [
    (CommandError::BadLine(240), b"50 BAD LINE 240"),
    (CommandError::UnknownVerb, b"51 UNKNOWN VERB"),
    (CommandError::TooDeep, b"52 TOO DEEP"),
    (CommandError::NoLabel, b"53 NO LABEL"),
    (CommandError::NoProgram, b"54 NO PROGRAM"),
    (CommandError::NotHalted, b"55 NOT HALTED"),
    (CommandError::BadProgram(1), b"56 BAD PROGRAM 1"),
    (CommandError::NotAssigned, b"57 NOT ASSIGNED"),
    (CommandError::InUse, b"58 IN USE"),
    (CommandError::BadParameter(25), b"59 BAD PARAMETER 25"),
    (CommandError::WheneversFull, b"60 WHENEVERS FULL"),
    (CommandError::BadPlan(65536), b"61 BAD PLAN 65536"),
];

#[test]
fn errors(rt: HostRuntime) -> Result<(), Fail> {
    for (error, text) in ERRORS.iter() {
        let mut told = Text::new(rt.alloc());
        push_error(&mut told, *error)?;
        assert!(rt; told.as_slice() == *text, "{error:?}");
    }
    Ok(())
}
