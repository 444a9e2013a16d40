//! Laws of sessions: a session is a run of the items that were taken, a run of its script replays it, a script may be typed as a session, and the
//! console's own lines are marked. Its functions do nothing.
#![tactic(auto)]

ghost use Rattle.g_laws_sessions.specs.Laws.{OwnLinesAreMarked, ScriptsAreSessions, SessionsAreReplayed, SessionsAreRuns};

use g_rules::{Charge, Standing, Usage};
use g_run_model::text_is_one;

/// A session is a run of its script, to the same world, whose text is what was printed without the console's own lines.
#[tactic(auto, using(crate::proofs::SessionLemmas::sessions_are_runs))]
pub fn sessions_are_runs<F: Fn(&Usage) -> Charge, U: Fn(&Standing) -> u64>()
    ensures { (tariff : F) (rule : U) → SessionsAreRuns F.Fn tariff U.Fn rule }
{}

/// If no event failed and turns were charged alike, a run of its script prints what a session printed, without the
/// console's own lines.
pub fn sessions_are_replayed<F: Fn(&Usage) -> Charge, U: Fn(&Standing) -> u64>()
    ensures { (tariff : F) (rule : U) → SessionsAreReplayed F.Fn tariff U.Fn rule }
{
    text_is_one::<F, U>();
}

/// A script that is typed at a console, each item with its time, is the run of that script: with the same moves, to the same world.
#[tactic(auto, using(crate::proofs::ScriptLemmas::scripts_are_sessions))]
pub fn scripts_are_sessions<F: Fn(&Usage) -> Charge, U: Fn(&Standing) -> u64>()
    ensures { (tariff : F) (rule : U) → ScriptsAreSessions F.Fn tariff U.Fn rule }
{}

/// What is in a session's text and not in that of its run consists of lines that begin with `?` and a space: they can be taken out by that.
#[tactic(auto, using(crate::proofs::MarkLemmas::own_lines_are_marked))]
pub fn own_lines_are_marked()
    ensures { OwnLinesAreMarked }
{}
