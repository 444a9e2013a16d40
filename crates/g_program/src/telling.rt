//! Messages on standard error, about the reels of two racks and about an image or a rack that can't be used: standard output has only
//! the text of a run. A message that can't be printed is dropped.

use crate::answer::{IMAGE, RACK, SECOND_RACK};
use crate::unusable::Unusable;
use g_devices::{PairFault, is_there};
use g_duplex::Twin;
use g_forks::Fork;
use std::io::ErrorKind;

/// How the program is used.
const USAGE: [&str; 6] = [
    "usage: george console [LOG]    answer what is typed, line by line; write it to the new file LOG as a script",
    "       george run < SCRIPT     run a script, in which each line has a time",
    "       george check < SCRIPT   say what is wrong with a script, and run nothing",
    "       george demo NUMBER N    run a generated script in memory, and print a summary",
    "console and run use george.disc and george.tapes in this folder, and make them if they are missing.",
    "To begin, type FORMAT, then JOB ONE,:MASTER,TIME 10 and a document up to a line ****. See docs/MANUAL.md.",
];

/// Prints how the program is used.
pub(crate) fn tell_usage(rt: &HostRuntime) {
    for line in USAGE {
        let _told = eprintln!(rt; "{line}");
    }
}

/// Reports which of image and rack are missing, before they are made. A missing rack of an image that is there may have been moved away.
pub(crate) fn tell_missing(rt: &HostRuntime) {
    let note = match (is_there(rt, IMAGE), is_there(rt, RACK)) {
        (Ok(false), Ok(false)) => "no george.disc and no george.tapes here; making new ones",
        (Ok(false), Ok(true)) => "no george.disc here; making a new one",
        (Ok(true), Ok(false)) => {
            "george.disc is here, but no george.tapes; making a new one. If the rack was moved away, its dumps are missing"
        }
        _ => return,
    };
    let _told = eprintln!(rt; "george: {note}");
}

/// Reports which reels were rebuilt from the other rack's before the run.
pub(crate) fn tell_rebuilt(rt: &HostRuntime, rebuilt: &[(u32, Twin)]) {
    for entry in rebuilt {
        let serial = entry.0;
        let twin = name_of(entry.1);
        let _told = eprintln!(rt; "george: tape {serial}: the {twin} reel was rebuilt");
    }
}

/// Reports which reels were lost in the run: later writes are only on the other rack.
pub(crate) fn tell_lost(rt: &HostRuntime, lost: &[(u32, Twin)]) {
    for entry in lost {
        let serial = entry.0;
        let twin = name_of(entry.1);
        let _told = eprintln!(rt; "george: tape {serial}: the {twin} reel is lost");
    }
}

/// Reports why image and rack can't be used.
pub(crate) fn tell_unusable(rt: &HostRuntime, fault: &Unusable) {
    match fault {
        Unusable::Racks(fault) => tell_closed(rt, fault),
        Unusable::Forked(fork) => tell_forked(rt, fork),
    }
}

/// Reports which number the two racks have given to two dumps.
fn tell_forked(rt: &HostRuntime, fork: &Fork) {
    let number = fork.first.number;
    let (first, second) = (fork.first.serial, fork.second.serial);
    let _told = eprintln!(rt;
        "george: the two racks have different histories, and one would be lost"
    );
    let _told = eprintln!(rt;
        "george: dump {number} is on reel {first} of {RACK} and on reel {second} of {SECOND_RACK}, and isn't the same; move one of the racks away"
    );
}

/// Reports why image and racks can't be opened or made; and if that lies in a reel of one of two racks, which it is and what to do.
fn tell_closed(rt: &HostRuntime, fault: &PairFault) {
    let cause = cause_of(fault.kind());
    let _told = eprintln!(rt; "george: {cause}");
    match fault {
        PairFault::Racks(_) => {}
        PairFault::Reel(serial, twin, _) => tell_broken(rt, *serial, *twin),
        PairFault::OnlyReel(serial, twin, _) => tell_only(rt, *serial, *twin),
        PairFault::NotRebuilt(serial, twin, _) => tell_not_rebuilt(rt, *serial, *twin),
    }
}

/// Reports which reel can't be opened or read, and that the other one can't replace it.
fn tell_only(rt: &HostRuntime, serial: u32, twin: Twin) {
    let (folder, name, other) = places_of(twin);
    let _told = eprintln!(rt;
        "george: tape {serial}: the cause is the {name} reel, {folder}/{serial}.tape; the {other} is missing, empty or not whole, so keep this file"
    );
}

/// Reports which reel can't be opened or read, whose other one may be whole.
fn tell_broken(rt: &HostRuntime, serial: u32, twin: Twin) {
    let (folder, name, other) = places_of(twin);
    let _told = eprintln!(rt;
        "george: tape {serial}: the cause is the {name} reel, {folder}/{serial}.tape; if the {other} is whole, move this file away and the next run rebuilds it"
    );
}

/// Reports which reel can't be rebuilt from the other one.
fn tell_not_rebuilt(rt: &HostRuntime, serial: u32, twin: Twin) {
    let (folder, name, other) = places_of(twin);
    let _told = eprintln!(rt;
        "george: tape {serial}: the {name} reel, {folder}/{serial}.tape, can't be rebuilt from the {other}; see that it can be written and that there is room"
    );
}

/// The folder of a reel, and its name and its twin's.
fn places_of(twin: Twin) -> (&'static str, &'static str, &'static str) {
    match twin {
        Twin::First => (RACK, "first", "second"),
        Twin::Second => (SECOND_RACK, "second", "first"),
    }
}

/// Reports that the log of a session can't be created.
pub(crate) fn tell_no_log(rt: &HostRuntime) {
    let _told = eprintln!(rt; "george: the log is there, or can't be made");
}

/// The cause of an error of `open_image`, `open_rack` and `open_duplex`, in words.
fn cause_of(kind: ErrorKind) -> &'static str {
    match kind {
        ErrorKind::WouldBlock => {
            "another run has the image, the rack or a reel, or two of them are one file"
        }
        ErrorKind::InvalidInput => "the image or a reel is no plain file",
        ErrorKind::NotADirectory => "the rack is no folder",
        ErrorKind::InvalidData => {
            "the image or a reel isn't as long as it may be, or there are too many reels"
        }
        ErrorKind::AlreadyExists => {
            "the image or the rack is a link to nowhere, or the name that it has in its making is another's"
        }
        ErrorKind::PermissionDenied => "the image, the rack or a reel may not be read and written",
        ErrorKind::Unsupported => "a standard stream is closed",
        _ => "the image or the rack can't be opened or made",
    }
}

/// Which of the two reels of a serial it is, in a word.
fn name_of(twin: Twin) -> &'static str {
    match twin {
        Twin::First => "first",
        Twin::Second => "second",
    }
}
