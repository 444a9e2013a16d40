//! One of the operator's lines.
ghost use Rattle.std.specs.Prelude.{◌≡◌, ◌+◌, ◌<◌};
ghost use Rattle.g_day.specs.BeginningAnew.{AnewLine};
ghost use Rattle.g_day.specs.Parts.{DidLine, IsReady, IsWithin};

use crate::arming::{stop_disc_line, stop_tape_line};
use crate::dumping::{dump_line, migrate_line, process_line};
use crate::jobs::{job_line, shut_line};
use crate::reels::{mount_line, unmount_line};
use crate::rising::{Rise, rise_line};
use crate::terminals::{login_line, logout_line, type_line};
use g_day::{Day, Ended};
use g_disc::Disc;
use g_io::Sink;
use g_job_table::{NewJob, NewLogin};
use g_script::Operator;
use g_tape::Tapes;
use std::alloc::Global;

/// Does what the operator's line says, and prints the result (docs/MANUAL.md, "The operator's lines").
pub fn operator_line<K: Sink, D: Disc, T: Tapes>(
    alloc: Global,
    day: Day<D, T>,
    what: Operator,
    out: &mut K,
) -> Ended<D, T>
    requires ready { IsReady day.system day.crew }
    requires within { IsWithin what }
    requires numbers { day.crew.next_job + 1 < 18446744073709551616 }
    ensures line { DidLine what day result.failure result.day (K.written out.old) (K.written out.new) (K.faults out.old) (K.faults out.new) }
    // For starting over: lines of a system that is down, with a new disc.
    ensures anew { AnewLine what day result.failure result.day (K.written out.old) (K.written out.new) (K.faults out.old) (K.faults out.new) }
{
    match what {
        Operator::Format => rise_line(alloc, day, Rise::Format, out),
        Operator::Start => rise_line(alloc, day, Rise::Start, out),
        Operator::Restore => rise_line(alloc, day, Rise::Restore, out),
        Operator::Shut => shut_line(alloc, day, out),
        Operator::Job {
            name,
            user,
            time,
            money,
            lines,
        } => {
            let job = NewJob {
                name,
                user,
                time,
                money,
                lines,
            };
            job_line(alloc, day, job, out)
        }
        Operator::Mount(serial) => mount_line(alloc, day, serial, out),
        Operator::Unmount(serial) => unmount_line(alloc, day, serial, out),
        Operator::Dump(serial) => dump_line(alloc, day, serial, out),
        Operator::Process(serial) => process_line(alloc, day, serial, out),
        Operator::Migrate(path) => migrate_line(alloc, day, &path, out),
        Operator::StopDisc(k) => stop_disc_line(alloc, day, k, out),
        Operator::StopTape(k) => stop_tape_line(alloc, day, k, out),
        Operator::Login { t, user, time } => {
            let login = NewLogin {
                terminal: t,
                user,
                time,
            };
            login_line(alloc, day, login, out)
        }
        Operator::Typed { t, text } => type_line(alloc, day, t, text, out),
        Operator::Logout(t) => logout_line(alloc, day, t, out),
    }
}
