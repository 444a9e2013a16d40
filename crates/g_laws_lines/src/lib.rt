//! The laws of a run's lines: each is whole, and none begins with `?`, the mark of the console's own lines. Its functions do nothing.
#![tactic(auto)]

ghost use Rattle.g_laws_lines.specs.Laws.{LinesAreWhole, NoLineBeginsSo};
ghost use Rattle.g_laws_lines.specs.SessionLaws.{EndedSessionsAreFiltered, SessionsAreFiltered};

use g_laws_sessions::own_lines_are_marked;
use g_rules::{Charge, Standing, Usage};

/// No line that a run prints begins with `?`: a line of a session's text that begins so is the console's own.
pub fn no_line_of_a_run_begins_so<F: Fn(&Usage) -> Charge, U: Fn(&Standing) -> u64>()
    ensures { (tariff : F) (rule : U) → NoLineBeginsSo F.Fn tariff U.Fn rule }
{}

/// After each move of a run its text consists of whole lines: each part that is printed between two moves begins and ends with a line.
pub fn lines_of_a_run_are_whole<F: Fn(&Usage) -> Charge, U: Fn(&Standing) -> u64>()
    ensures { (tariff : F) (rule : U) → LinesAreWhole F.Fn tariff U.Fn rule }
{}

/// The lines of a session's text that don't begin with `?` are exactly those of its run.
pub fn sessions_are_filtered<F: Fn(&Usage) -> Charge, U: Fn(&Standing) -> u64>()
    ensures { (tariff : F) (rule : U) → SessionsAreFiltered F.Fn tariff U.Fn rule }
{
    own_lines_are_marked();
}

/// The same of a session that is over, including what its run prints at the end.
pub fn ended_sessions_are_filtered<F: Fn(&Usage) -> Charge, U: Fn(&Standing) -> u64>()
    ensures { (tariff : F) (rule : U) → EndedSessionsAreFiltered F.Fn tariff U.Fn rule }
{
    own_lines_are_marked();
}
