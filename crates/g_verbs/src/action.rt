//! The action that a verb with its parameters requests.
use g_lang::{Param, Params, Rest};
use g_name::{Local, Path, User};
use g_peri::Unit;
use g_plain::BudgetKind;
use g_trap::Modes;

/// The action that a verb with its parameters requests; one variant for each verb, and one for macros.
///
/// What each does, and what it prints, is in `docs/MANUAL.md`, "Verbs".
#[derive(Drop)]
pub enum Action {
    /// Writes the lines after this one, up to `////`, to a file.
    Input {
        file: Path,
    },
    /// Copies the bytes of one file to another.
    Copy {
        from: Path,
        to: Path,
    },
    /// Appends the bytes of one file to another.
    Append {
        from: Path,
        to: Path,
    },
    /// Erases a file.
    Erase {
        file: Path,
    },
    /// Gives a file another local name.
    Rename {
        file: Path,
        to: Local,
    },
    /// Prints the lines of a file.
    ListFile {
        file: Path,
    },
    /// Prints the files of a user, or of the caller if no user is named.
    ListDir {
        user: Option<User>,
    },
    /// Opens modes of a file to a user.
    TrapGo {
        file: Path,
        user: User,
        modes: Modes,
    },
    /// Closes modes of a file to a user.
    TrapStop {
        file: Path,
        user: User,
        modes: Modes,
    },
    /// Prints what a user, or the caller if no user is named, may do with a file.
    TrapCheck {
        file: Path,
        user: Option<User>,
    },
    /// Makes a user: SPACE in blocks of 512 bytes, up to 65,535; TIME and MONEY in their units, up to 1,000,000,000.
    NewUser {
        user: User,
        space: u64,
        time: u64,
        money: Option<u64>,
    },
    /// Sets one budget of a user, within the limit of its kind.
    Budget {
        user: User,
        kind: BudgetKind,
        amount: u64,
    },
    /// Brings a file back from tape.
    Retrieve {
        file: Path,
    },
    /// Loads a program from a file.
    Load {
        file: Path,
    },
    /// Assembles a source and writes the program's file.
    Plan {
        from: Path,
        to: Path,
    },
    /// Runs the program from its entry n, 0 to 9.
    Enter {
        n: u64,
    },
    /// Continues the program after a halt.
    Resume,
    /// Assigns a unit to a file.
    Assign {
        unit: Unit,
        file: Path,
    },
    /// Releases a unit, with its output.
    Release {
        unit: Unit,
    },
    /// Drops the program and releases all units.
    Delete,
    /// Sets a parameter of the level, `A` to `X`; to the empty text if none is given.
    SetParam {
        letter: u8,
        text: Param,
    },
    /// Prints a text: the parameters, unchanged.
    Display {
        text: Rest,
    },
    /// Ends the job.
    EndJob,
    /// Continues with the lines of a macro; it gets up to 24 parameters.
    Macro {
        name: Local,
        params: Params,
    },
}
