//! A run of the program as a definition: the world that it changes, its moves, and what holds after them. The functions do
//! nothing; their clauses are laws of every run.
#![tactic(auto)]

ghost use Rattle.g_run_model.specs.Laws.{
  AllOrNothing,
  AnswersArePlain,
  DumpedIsOpened,
  DumpsEnd,
  NothingBehindOver,
  OneText,
  RisesOn,
  RunsEnd,
  StartHasTheTree,
};
ghost use Rattle.g_run_model.specs.Terminals.{TerminalsPrint, TerminalsRead, TypesTellNothing};

use g_rules::{Charge, Standing, Usage};
use g_store_model::{step_is_one, step_is_plain};

/// Every call of every job is answered as on one plain file tree, apart from waits, device errors and stops.
pub fn calls_are_answered_plainly<F: Fn(&Usage) -> Charge, U: Fn(&Standing) -> u64>()
    ensures { (tariff : F) (rule : U) → AnswersArePlain F.Fn tariff U.Fn rule }
{
    step_is_plain();
}

/// Each move either leaves the tree unchanged, or replaces it completely by that of the granted call, the initial one, or
/// the dumped one. A line that brings the system up leaves exactly the right tree.
pub fn moves_change_the_tree_whole<F: Fn(&Usage) -> Charge, U: Fn(&Standing) -> u64>()
    ensures moves { (tariff : F) (rule : U) → AllOrNothing F.Fn tariff U.Fn rule }
    ensures rising { (tariff : F) (rule : U) → RisesOn F.Fn tariff U.Fn rule }
{
    step_is_plain();
}

/// After a move that stopped the system, START has the tree before that move or after it.
pub fn start_has_the_tree<F: Fn(&Usage) -> Charge, U: Fn(&Standing) -> u64>()
    ensures { (tariff : F) (rule : U) → StartHasTheTree F.Fn tariff U.Fn rule }
{
    step_is_plain();
}

/// A dump takes at most the steps that it needs.
pub fn dumps_come_to_an_end<F: Fn(&Usage) -> Charge, U: Fn(&Standing) -> u64>()
    ensures { (tariff : F) (rule : U) → DumpsEnd F.Fn tariff U.Fn rule }
{}

/// A run that is over has no further move.
#[tactic(auto, using(crate::proofs::OverLemmas::nothing_behind_over))]
pub fn nothing_comes_behind_the_end<F: Fn(&Usage) -> Charge, U: Fn(&Standing) -> u64>()
    ensures { (tariff : F) (rule : U) → NothingBehindOver F.Fn tariff U.Fn rule }
{}

/// The dumped tree, and therefore what RESTORE brings back, is the one that was dumped when the run began, the one on which
/// a DUMP of the run opened, or the one that a PROCESS of the run met.
pub fn dumped_is_what_a_dump_opened_on<F: Fn(&Usage) -> Charge, U: Fn(&Standing) -> u64>()
    ensures { (tariff : F) (rule : U) → DumpedIsOpened F.Fn tariff U.Fn rule }
{}

/// A job takes at most its allowance in charged turns, and at most one more free turn than there were MOUNT lines.
pub fn jobs_come_to_an_end<F: Fn(&Usage) -> Charge, U: Fn(&Standing) -> u64>()
    ensures { (tariff : F) (rule : U) → RunsEnd F.Fn tariff U.Fn rule }
{
    step_is_plain();
}

/// If no fault counter rose, the text of a run that is over follows from the script, the state that the devices represented
/// when it began, the charges and the weigh rule.
pub fn text_is_one<F: Fn(&Usage) -> Charge, U: Fn(&Standing) -> u64>()
    ensures { (tariff : F) (rule : U) → OneText F.Fn tariff U.Fn rule }
{
    step_is_one();
}

/// The text of a run is printed in pieces. What is printed at a terminal for its job is that job's monitoring file, at each
/// event and to its last line; everything else is the operator's lines, the files of other jobs, and the line of a bad
/// script.
pub fn terminals_print_their_files<F: Fn(&Usage) -> Charge, U: Fn(&Standing) -> u64>()
    ensures { (tariff : F) (rule : U) → TerminalsPrint F.Fn tariff U.Fn rule }
{}

/// The document of a terminal's job has at each event exactly the lines that were typed for it before, unless no level is
/// left.
pub fn terminals_read_what_is_typed<F: Fn(&Usage) -> Charge, U: Fn(&Standing) -> u64>()
    ensures { (tariff : F) (rule : U) → TerminalsRead F.Fn tariff U.Fn rule }
{
    step_is_plain();
}

/// A line that is typed prints nothing if and only if it isn't refused.
pub fn typed_lines_tell_nothing<F: Fn(&Usage) -> Charge, U: Fn(&Standing) -> u64>()
    ensures { (tariff : F) (rule : U) → TypesTellNothing F.Fn tariff U.Fn rule }
{}
