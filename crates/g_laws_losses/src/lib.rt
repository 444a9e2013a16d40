//! Runs with power losses between them: what the next run begins on, and which answers hold of it. Laws of every run that `g_run_model` defines. No code is involved.
#![tactic(auto)]

ghost use Rattle.g_laws_losses.specs.Answered.{AnsweredCallsSurvive, AnswersAreLeft, DownAnswersNothing};
ghost use Rattle.g_laws_losses.specs.NextRun.{NextRunBegins};

use g_laws_runs::{devices_have_one_state, jobs_run_on_one_tree};
use g_rules::{Charge, Standing, Usage};
use g_store_model::process_keeps_all;

/// After a run and any power loss the devices are safe again, so each clause of the next run holds of them. They represent a state that the run
/// may leave. If the system was never up in that run, the loss could also have left the same before it.
pub fn next_run_begins<F: Fn(&Usage) -> Charge, U: Fn(&Standing) -> u64>()
    ensures { (tariff : F) (rule : U) → NextRunBegins F.Fn tariff U.Fn rule }
{}

/// No call is answered while the system is down, at any moment of a run.
pub fn down_answers_nothing<F: Fn(&Usage) -> Charge, U: Fn(&Standing) -> u64>()
    ensures { (tariff : F) (rule : U) → DownAnswersNothing F.Fn tariff U.Fn rule }
{
    process_keeps_all();
}

/// Each state that a power loss may leave after some moves of a run has the tree of the answered calls, with or without the interrupted one.
pub fn answered_calls_survive<F: Fn(&Usage) -> Charge, U: Fn(&Standing) -> u64>()
    ensures { (tariff : F) (rule : U) → AnsweredCallsSurvive F.Fn tariff U.Fn rule }
{
    jobs_run_on_one_tree::<F, U>();
    down_answers_nothing::<F, U>();
}

/// After a run and any power loss, the devices represent a state with the tree of the calls that the run answered, with or without the
/// interrupted one.
pub fn answers_are_left<F: Fn(&Usage) -> Charge, U: Fn(&Standing) -> u64>()
    ensures { (tariff : F) (rule : U) → AnswersAreLeft F.Fn tariff U.Fn rule }
{
    jobs_run_on_one_tree::<F, U>();
    down_answers_nothing::<F, U>();
    next_run_begins::<F, U>();
    devices_have_one_state();
}
