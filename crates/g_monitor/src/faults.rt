//! The texts of a store's faults.
ghost use Rattle.std.specs.Prelude.{◌≡◌, ◌++◌, IfOk, OnOk};
ghost use Rattle.g_monitor.specs.Refusals.{IsPrinted, fault_line};

use crate::parts::{mode_word, push_copy, push_number, push_numbers, push_words};
use g_base::NoMemory;
use g_name::Text;
use g_plain::StoreFault;
use std::alloc::Global;

/// Appends number and text of a fault, without a byte 10. If memory runs out, a prefix of it may have been appended.
pub fn push_fault(text: &mut Text, fault: &StoreFault) -> Result<(), NoMemory>
    requires printed { IsPrinted fault.now }
    ensures { OnOk result (text.new ≡ text.old ++ fault_line fault.now) }
{
    match fault {
        StoreFault::NoUser => text.extend(b"1 NO USER"),
        StoreFault::NoFile => text.extend(b"2 NO FILE"),
        StoreFault::Exists => text.extend(b"3 EXISTS"),
        StoreFault::Trapped(mode) => push_words(text, b"4 TRAPPED ", mode_word(*mode)),
        StoreFault::NoGeneration => text.extend(b"5 NO GENERATION"),
        StoreFault::OverSpace { need, left } => push_numbers(
            text,
            b"6 OVER SPACE ",
            u64::from(*need),
            u64::from(*left),
        ),
        StoreFault::TooLong(len) => push_number(text, b"7 TOO LONG ", *len),
        StoreFault::DirectoryFull => text.extend(b"8 DIRECTORY FULL"),
        StoreFault::UsersFull => text.extend(b"9 USERS FULL"),
        StoreFault::TrapsFull => text.extend(b"10 TRAPS FULL"),
        StoreFault::NoCopy(full, serial) => push_copy(
            text,
            b"12 NO COPY ",
            full,
            u64::from(*serial),
        ),
        StoreFault::DiscFull { need, room } => push_numbers(
            text,
            b"13 DISC FULL ",
            u64::from(*need),
            u64::from(*room),
        ),
        StoreFault::DiscReadFault => text.extend(b"14 DISC READ"),
        StoreFault::TapeReadFault => text.extend(b"15 TAPE READ"),
        StoreFault::NotOwner => text.extend(b"18 NOT OWNER"),
        StoreFault::CountersSpent => text.extend(b"19 COUNTERS SPENT"),
        StoreFault::NotStarted => text.extend(b"20 NOT STARTED"),
        StoreFault::NotMounted => text.extend(b"21 NOT MOUNTED"),
        StoreFault::TapeFull { need, room } => push_numbers(
            text,
            b"22 TAPE FULL ",
            u64::from(*need),
            u64::from(*room),
        ),
        StoreFault::DumpOpen(number) => push_number(text, b"23 DUMP OPEN ", *number),
        StoreFault::NoTape => text.extend(b"24 NO TAPE"),
        StoreFault::NoFilestore => text.extend(b"25 NO FILESTORE"),
        StoreFault::NoDump => text.extend(b"26 NO DUMP"),
        StoreFault::RackNotMounted(serial) => push_number(
            text,
            b"27 RACK NOT MOUNTED ",
            u64::from(*serial),
        ),
        StoreFault::MountFirst(serial) => push_number(text, b"28 MOUNT FIRST ", u64::from(*serial)),
        StoreFault::TapeBusy => text.extend(b"29 TAPE BUSY"),
        StoreFault::LostCopy(full, serial) => push_copy(
            text,
            b"30 LOST COPY ",
            full,
            u64::from(*serial),
        ),
        StoreFault::NotDumped => text.extend(b"31 NOT DUMPED"),
        StoreFault::Offline => text.extend(b"32 OFFLINE"),
        StoreFault::Running => text.extend(b"33 RUNNING"),
        StoreFault::RackNotEmpty(serial) => push_number(
            text,
            b"34 RACK NOT EMPTY ",
            u64::from(*serial),
        ),
        StoreFault::LostDirectory(user) => push_words(
            text,
            b"35 LOST DIRECTORY :",
            user.as_slice(),
        ),
        StoreFault::ReelNotFree(serial) => push_number(
            text,
            b"36 REEL NOT FREE ",
            u64::from(*serial),
        ),
        StoreFault::WaitTape(_) | StoreFault::Stopped | StoreFault::NoMemory => unreachable!(),
    }
}

/// Number and text of a fault, as `ERROR` and `REFUSED` print them (`docs/MANUAL.md`, "Texts of jobs and refusals").
pub fn fault_text(alloc: Global, fault: &StoreFault) -> Result<Text, NoMemory>
    requires printed { IsPrinted fault.now }
    ensures { IfOk result (λ text. text ≡ fault_line fault.now) }
{
    let mut text = Text::new(alloc);
    push_fault(&mut text, fault)?;
    Ok(text)
}
