//! Further laws of every run, besides those of `g_run_model`: a whole run works on one tree; the steps that a dump takes;
//! the dumps that are completed; and what is left by lines that are refused while the system is down.
#![tactic(auto)]

ghost use Rattle.g_laws_runs.specs.BeginningAnew.{EmptiedStand, FormatsAnew};
ghost use Rattle.g_laws_runs.specs.Completion.{DumpsComplete, DumpsGoOn};
ghost use Rattle.g_laws_runs.specs.Cuts.{TapesCutNoCall};
ghost use Rattle.g_laws_runs.specs.Dumps.{DumpsStay, DumpsTakeNeeds};
ghost use Rattle.g_laws_runs.specs.Filestores.{DevicesKeepFilestores, FilestoresStay};
ghost use Rattle.g_laws_runs.specs.NewDevices.{NewDevicesStand, NotStateless, StandingIsReading, StatesAreOne};
ghost use Rattle.g_laws_runs.specs.Fuses.{ArmedBurns, ArmingsGo, DiscSpends, NumberIsLast, RackSpends, RacksBurn, UnarmedBurns};
ghost use Rattle.g_laws_runs.specs.LaterRuns.{LaterRunsKeep, StartIsBehind};
ghost use Rattle.g_laws_runs.specs.NoLoss.{NothingIsLost};
ghost use Rattle.g_laws_runs.specs.OneTree.{RunsOnOneTree};
ghost use Rattle.g_laws_runs.specs.Reels.{CompletedDumpsStay, ProcessLeavesLists};
ghost use Rattle.g_laws_runs.specs.RefusedLines.{RefusedLinesLeave, StartStillHasTheTree};
ghost use Rattle.g_laws_runs.specs.Turns.{TurnsPrintPlainly};
ghost use Rattle.g_laws_runs.specs.FaultlessRuns.{UnrisenIsPlain, UnrisenTextIsOne};

use g_laws_store::some_state;
use g_rules::{Charge, Standing, Usage};
use g_run_model::{dumps_come_to_an_end, text_is_one};
use g_store_meaning::one_state;
use g_store_model::{process_keeps_all, step_is_plain};

/// A line that leaves the system down, and in which no write failed, leaves the tree unchanged; this includes a refused
/// FORMAT, START or RESTORE.
pub fn refused_lines_leave_the_tree<F: Fn(&Usage) -> Charge, U: Fn(&Standing) -> u64>()
    ensures { (tariff : F) (rule : U) → RefusedLinesLeave F.Fn tariff U.Fn rule }
{
    step_is_plain();
}

/// After a move that stopped the system START has the tree before that move or after it, even if FORMAT or RESTORE was
/// refused in between.
pub fn start_still_has_the_tree<F: Fn(&Usage) -> Charge, U: Fn(&Standing) -> u64>()
    ensures { (tariff : F) (rule : U) → StartStillHasTheTree F.Fn tariff U.Fn rule }
{
    step_is_plain();
}

/// A whole run works on one tree: each call of each job is answered for the tree that the moves before it left, as the
/// plain tree answers it, apart from waits, device errors and stops; and no other move changes it except FORMAT and
/// RESTORE.
pub fn jobs_run_on_one_tree<F: Fn(&Usage) -> Charge, U: Fn(&Standing) -> u64>()
    ensures { (tariff : F) (rule : U) → RunsOnOneTree F.Fn tariff U.Fn rule }
{
    step_is_plain();
}

/// Only a step of the open dump changes its progress.
pub fn open_dumps_stay<F: Fn(&Usage) -> Charge, U: Fn(&Standing) -> u64>()
    ensures { (tariff : F) (rule : U) → DumpsStay F.Fn tariff U.Fn rule }
{}

/// In a run a dump takes at most the steps that it needs.
pub fn dumps_take_their_needs<F: Fn(&Usage) -> Charge, U: Fn(&Standing) -> u64>()
    ensures { (tariff : F) (rule : U) → DumpsTakeNeeds F.Fn tariff U.Fn rule }
{
    dumps_come_to_an_end::<F, U>();
}

/// In a run without a PROCESS each reel has its completed dumps, in their order, and others are only appended: at most one
/// for each dump step.
pub fn completed_dumps_stay<F: Fn(&Usage) -> Charge, U: Fn(&Standing) -> u64>()
    ensures { (tariff : F) (rule : U) → CompletedDumpsStay F.Fn tariff U.Fn rule }
{}

/// After any move, even one that was interrupted while the system was down, START has the tree before that move or after
/// it.
pub fn start_is_behind_any_move<F: Fn(&Usage) -> Charge, U: Fn(&Standing) -> u64>()
    ensures { (tariff : F) (rule : U) → StartIsBehind F.Fn tariff U.Fn rule }
{
    step_is_plain();
}

/// In a later run, of any script, on the devices that a run left, START has the tree that this run left.
pub fn later_runs_keep_the_tree<F: Fn(&Usage) -> Charge, U: Fn(&Standing) -> u64>()
    ensures { (tariff : F) (rule : U) → LaterRunsKeep F.Fn tariff U.Fn rule }
{
    step_is_plain();
    one_state();
}

/// Every turn runs on the tree that it meets: its program is answered as on a plain file tree, and the job's monitoring
/// file is what the end of a turn makes of the text that the program returns.
pub fn turns_print_plainly<F: Fn(&Usage) -> Charge, U: Fn(&Standing) -> u64>()
    ensures { (tariff : F) (rule : U) → TurnsPrintPlainly F.Fn tariff U.Fn rule }
{
    step_is_plain();
}

/// If no device fails an open dump progresses by one step at a time, until its last one completes it.
pub fn undisturbed_dumps_complete<F: Fn(&Usage) -> Charge, U: Fn(&Standing) -> u64>()
    ensures going { (tariff : F) (rule : U) → DumpsGoOn F.Fn tariff U.Fn rule }
    ensures needs { (tariff : F) (rule : U) → DumpsComplete F.Fn tariff U.Fn rule }
{}

/// In no run on devices that belong together does a RESTORE name a lost directory or a lost copy.
pub fn nothing_is_lost<F: Fn(&Usage) -> Charge, U: Fn(&Standing) -> u64>()
    ensures { (tariff : F) (rule : U) → NothingIsLost F.Fn tariff U.Fn rule }
{}

/// If no fault counter rose, no move of a run has a failure.
pub fn unrisen_runs_are_plain()
    ensures { UnrisenIsPlain }
{}

/// Two runs of one script on devices that represent the same state, in which no fault counter rose and turns were charged
/// alike, have the same text.
pub fn unrisen_text_is_one<F: Fn(&Usage) -> Charge, U: Fn(&Standing) -> u64>()
    ensures { (tariff : F) (rule : U) → UnrisenTextIsOne F.Fn tariff U.Fn rule }
{
    text_is_one::<F, U>();
}

/// Devices that expose their contents and belong together represent exactly one state, which is what they are read as. New
/// devices represent one without a filestore, and so do a new disc and any reels that were emptied.
pub fn devices_have_one_state()
    ensures some { NotStateless }
    ensures one { StatesAreOne }
    ensures reading { StandingIsReading }
    ensures new { NewDevicesStand }
    ensures emptied { EmptiedStand }
{
    some_state();
    one_state();
}

/// A store that FORMAT created on reels without blocks, for any contents of the disc, represents the state that FORMAT
/// makes of that of a new disc and the same reels.
#[tactic(auto, using(crate::proofs::AnewLemmas::formats_anew))]
pub fn formats_begin_anew()
    ensures { FormatsAnew }
{}

/// A store that holds a filestore still does after any run, including all failures; and so do its devices.
pub fn filestores_stay<F: Fn(&Usage) -> Charge, U: Fn(&Standing) -> u64>()
    ensures states { (tariff : F) (rule : U) → FilestoresStay F.Fn tariff U.Fn rule }
    ensures devices { (tariff : F) (rule : U) → DevicesKeepFilestores F.Fn tariff U.Fn rule }
{}

/// If the disc counted no failed write, no call of a run was interrupted, and no line except a PROCESS: a failed write of a
/// reel interrupts only a dump step or a PROCESS.
pub fn tapes_cut_no_call()
    ensures { TapesCutNoCall }
{}

/// A device's fuse depends on the last STOP line that armed it, and on the writes since; if there was none, on the old fuse
/// and all writes. A device that was armed in a call is spent only by the writes of that call. The laws assume that the
/// counters aren't saturated.
#[tactic(auto, using(crate::proofs::FuseLemmas::armings_go, crate::proofs::FuseLemmas::number_is_last, crate::proofs::FuseLemmas::unarmed_burns, crate::proofs::FuseLemmas::armed_burns, crate::proofs::FuseLemmas::racks_burn, crate::proofs::FuseLemmas::disc_spends, crate::proofs::FuseLemmas::rack_spends))]
pub fn fuses_go_by_lines()
    ensures armings { ArmingsGo }
    ensures numbers { NumberIsLast }
    ensures unarmed { UnarmedBurns }
    ensures armed { ArmedBurns }
    ensures racks { RacksBurn }
    ensures disc_spends { DiscSpends }
    ensures rack_spends { RackSpends }
{}

/// PROCESS leaves the previous completed dumps; or its own dump is complete on its reel, with the current tree, and some of
/// the other reels have none any more.
pub fn process_leaves_lists<F: Fn(&Usage) -> Charge, U: Fn(&Standing) -> u64>()
    ensures { (tariff : F) (rule : U) → ProcessLeavesLists F.Fn tariff U.Fn rule }
{
    process_keeps_all();
}
