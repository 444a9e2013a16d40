//! What each refusal means, and what to do: the table of docs/MANUAL.md, "Texts of jobs and refusals".

/// The refusals by number, each with its text, when it is given and what to do.
const MEANINGS: [(u64, &str); 50] = [
    (
        1,
        "1 NO USER
a named user doesn't exist
check the name; a missing user is created by NEWUSER, in a job that has ended before this line is executed",
    ),
    (
        2,
        "2 NO FILE
the path names no file
LISTDIR prints the names, with generation and language",
    ),
    (
        3,
        "3 EXISTS
the new user, or the file under its new name, exists
choose another name; or ERASE the file first",
    ),
    (
        4,
        "4 TRAPPED mode
the caller doesn't have this mode: READ, WRITE, APPEND, EXECUTE or ERASE
request a TRAPGO from the owner; the owner opens the owner's own modes by TRAPGO too",
    ),
    (
        5,
        "5 NO GENERATION
generation 4,095 exists, and is the last possible
RENAME or ERASE that generation, or put under another name",
    ),
    (
        6,
        "6 OVER SPACE need left
the owner has fewer blocks of SPACE left than are needed
ERASE old generations; or the superior sets more by BUDGET, which takes effect at once",
    ),
    (
        7,
        "7 TOO LONG len
the file would have len bytes, more than 65,536
split it into several files",
    ),
    (
        8,
        "8 DIRECTORY FULL
it would be the 1,025th file
ERASE files",
    ),
    (
        9,
        "9 USERS FULL
it would be the 64th user
work as an existing user, because none is ever removed",
    ),
    (
        10,
        "10 TRAPS FULL
it would be the ninth other user of a file
close another user's modes by TRAPSTOP",
    ),
    (
        12,
        "12 NO COPY full s
the reel doesn't have the file's copy; for a PROCESS the first such file, by owner and number, of those that aren't on disc
check that reel s is the one that was dumped on; without it the file can only be erased",
    ),
    (
        13,
        "13 DISC FULL need room
the disc has room for fewer blocks than are needed
DUMP, and the system makes room itself; or ERASE; or enlarge the image",
    ),
    (
        14,
        "14 DISC READ
a read of the device failed; at START and RESTORE also: the gate, or a reel, couldn't be made durable. It may be any reel of the rack, mounted or not
check the device and the file of the image or the reel; then repeat the line
To find the reel, read each file N.tape to its end (cat N.tape > /dev/null)
Copy what can be read (dd bs=512 conv=noerror,sync), put the copy in its place, and START again
If only the reel's last block couldn't be read, at most its last dump is lost
Other blocks that couldn't be read are zeros in the copy: run look check",
    ),
    (
        15,
        "15 TAPE READ
a read of the device failed; at START and RESTORE also: the gate, or a reel, couldn't be made durable. It may be any reel of the rack, mounted or not
check the device and the file of the image or the reel; then repeat the line
To find the reel, read each file N.tape to its end (cat N.tape > /dev/null)
Copy what can be read (dd bs=512 conv=noerror,sync), put the copy in its place, and START again
If only the reel's last block couldn't be read, at most its last dump is lost
Other blocks that couldn't be read are zeros in the copy: run look check",
    ),
    (
        18,
        "18 NOT OWNER
the caller doesn't have the right
let the owner do it, or, for a budget, the superior",
    ),
    (
        19,
        "19 COUNTERS SPENT
no number is left for a version or a dump
start over; it takes 2^62 versions or dumps to get here",
    ),
    (
        20,
        "20 NOT STARTED
the system is down
START, on the first day FORMAT, on a new disc RESTORE",
    ),
    (
        21,
        "21 NOT MOUNTED
the reel isn't mounted
MOUNT s",
    ),
    (
        22,
        "22 TAPE FULL need room
the reel has room for fewer blocks than the dump, or the PROCESS, needs
dump on another reel, preferably an empty one; or PROCESS onto an empty one, which releases this one",
    ),
    (
        23,
        "23 DUMP OPEN n
dump n is open
give the line a time at which the dump is completed",
    ),
    (
        24,
        "24 NO TAPE
there is no such reel
create the reel before the run, touch george.tapes/s.tape",
    ),
    (
        25,
        "25 NO FILESTORE
the disc has no directory
RESTORE, if there are dumps, otherwise FORMAT",
    ),
    (
        26,
        "26 NO DUMP
no reel has a completed dump
START, or on a new disc FORMAT",
    ),
    (
        27,
        "27 RACK NOT MOUNTED s
reel s has to be mounted: RESTORE and PROCESS need all reels, START the one of the interrupted dump
MOUNT s, and then the same line",
    ),
    (
        28,
        "28 MOUNT FIRST s
reel s has to be mounted: RESTORE and PROCESS need all reels, START the one of the interrupted dump
MOUNT s, and then the same line",
    ),
    (
        29,
        "29 TAPE BUSY
the reel has the open dump
UNMOUNT once the dump is completed",
    ),
    (
        30,
        "30 LOST COPY full s
the dump names a place on reel s that no completed dump has
put back the reel that is lost or was swapped; without it START, if the disc exists",
    ),
    (
        31,
        "31 NOT DUMPED
the file has no copy on tape
DUMP first",
    ),
    (
        32,
        "32 OFFLINE
the file isn't on disc
nothing, it is off the disc",
    ),
    (
        33,
        "33 RUNNING
the system is up
SHUT first",
    ),
    (
        34,
        "34 RACK NOT EMPTY s
reel s is the first that has a block
START or RESTORE; to start over move george.tapes away, with two racks both folders",
    ),
    (
        35,
        "35 LOST DIRECTORY :USER
no completed dump has this user's directory
put back the reel that is lost or was swapped; without it START, if the disc exists",
    ),
    (
        36,
        "36 REEL NOT FREE s
the target reel of a PROCESS has a completed dump
use an empty or a released reel; a PROCESS onto another reel releases this one",
    ),
    (
        40,
        "40 NO TIME ask left
the user's account has less TIME, or MONEY, left than the JOB or the LOGIN requests; a LOGIN, or a JOB without MONEY, requests 1,000
request less; or wait until the user's other jobs end; or the superior sets a greater budget, and the system comes up again",
    ),
    (
        41,
        "41 JOBS FULL
64 jobs are unfinished
give the line a later time",
    ),
    (
        42,
        "42 NO MONEY ask left
the user's account has less TIME, or MONEY, left than the JOB or the LOGIN requests; a LOGIN, or a JOB without MONEY, requests 1,000
request less; or wait until the user's other jobs end; or the superior sets a greater budget, and the system comes up again",
    ),
    (
        43,
        "43 TERMINAL BUSY t
the job of terminal t isn't over
use another terminal; or LOGOUT, and LOGIN at a time at which the job is over",
    ),
    (
        44,
        "44 NO TERMINAL t
terminal t has no unfinished job, or was logged out
LOGIN; or check whether its job ended, by ENDJOB or because its TIME was used up",
    ),
    (
        50,
        "50 BAD LINE place
the line isn't in the language; place is the length of its longest prefix that begins a valid line, or 240 for a line longer than that
examine the line after its first place characters
At 0 no verb or label begins: are they capitals?",
    ),
    (
        51,
        "51 UNKNOWN VERB
the verb isn't in the language, and there is no macro of this name. For a JOB line, the **** before it is missing
check the verbs, and the macro's name and language",
    ),
    (
        52,
        "52 TOO DEEP
a macro was called in the eighth level
let the macro loop by GOTO instead of calling itself",
    ),
    (
        53,
        "53 NO LABEL
no line of the level has the label
write the label in the document or macro that has the GOTO",
    ),
    (
        54,
        "54 NO PROGRAM
the job has no program
LOAD first",
    ),
    (
        55,
        "55 NOT HALTED
the program's last event wasn't a halt
ENTER instead of RESUME",
    ),
    (
        56,
        "56 BAD PROGRAM line
the first bad line of the program file
correct that line of the file, and LOAD again",
    ),
    (
        57,
        "57 NOT ASSIGNED
the unit isn't assigned
ASSIGN it first",
    ),
    (
        58,
        "58 IN USE
the unit is assigned
RELEASE it first, or use another digit",
    ),
    (
        59,
        "59 BAD PARAMETER index
the first parameter that doesn't have the verb's form, is superfluous, or is missing; a file's NAME has at most 12 letters, digits and hyphens
compare with the row of the verb",
    ),
    (
        60,
        "60 WHENEVERS FULL
a seventeenth command would wait in the level
use fewer conditions; a stored one may get another command",
    ),
    (
        61,
        "61 BAD PLAN line
the first bad line of the source, from 1
compare that line with the forms, and check whether its label, or the address of its words, was used before; correct it, and PLAN again",
    ),
];

/// Of a number that no refusal has.
const NONE: &str = "no refusal has this number";

/// What the refusal of this number means, in lines.
pub(crate) fn meaning(number: u64) -> &'static str {
    for entry in &MEANINGS {
        if entry.0 == number {
            return entry.1;
        }
    }
    NONE
}
