//! The states of the whole store, and the effect of each event on them.
#![tactic(auto)]

ghost use Rattle.g_store_model.specs.Laws.{
  AnswersPlainly,
  DumpsKeepTree,
  EventsKeepTree,
  GrantedIsDone,
  OpeningsTree,
  PlainRefusals,
  RefusalsKeep,
  RefusesPlainly,
  StepIsOne,
  StopsLeave,
};
ghost use Rattle.g_store_model.specs.ProcessLaws.{ProcessKeeps};
ghost use Rattle.g_store_model.specs.StartLaws.{StartsAdopt};

/// Unless a device intervenes, a call's reply and the tree after it are those of the plain step; a refusal other than a
/// failed write changes nothing; a failed write leaves the tree before the call or that of the plain step; and the steps
/// of dumps change no tree.
#[tactic(auto, using(crate::proofs::StepLemmas::answers_plainly, crate::proofs::StepLemmas::dumps_keep_tree, crate::proofs::StepLemmas::refusals_keep, crate::proofs::StepLemmas::stops_leave))]
pub fn step_is_plain()
    ensures answers { AnswersPlainly }
    ensures refusals { RefusalsKeep }
    ensures stops { StopsLeave }
    ensures dumps { DumpsKeepTree }
{}

/// The refusals that concern neither room nor devices are exactly those of the plain step; and a call that is granted,
/// and has its room and its reel, is done.
#[tactic(auto, using(crate::proofs::EventLemmas::plain_refusals, crate::proofs::EventLemmas::refuses_plainly, crate::proofs::EventLemmas::granted_is_done))]
pub fn refusals_are_plain()
    ensures all { PlainRefusals }
    ensures only { RefusesPlainly }
    ensures complete { GrantedIsDone }
{}

/// Openings, migrations, mounts and starts change no tree.
#[tactic(auto, using(crate::proofs::EventLemmas::events_keep_tree))]
pub fn events_change_no_tree()
    ensures { EventsKeepTree }
{}

/// A dump that completes has the tree of its opening.
#[tactic(auto, using(crate::proofs::EventLemmas::openings_tree))]
pub fn dump_has_openings_tree()
    ensures { OpeningsTree }
{}

/// If no device fails, a call has exactly one answer.
#[tactic(auto, using(crate::proofs::OneLemmas::step_is_one))]
pub fn step_is_one()
    ensures { StepIsOne }
{}

/// PROCESS changes no tree, and no dump is lost before the new one is complete, whether or not a write fails.
#[tactic(auto, using(crate::proofs::ProcessLemmas::process_keeps))]
pub fn process_keeps_all()
    ensures { ProcessKeeps }
{}

/// START adopts a dump if and only if it is complete on the intent's reel; and a failed write after the mark is
/// repaired.
#[tactic(auto, using(crate::proofs::StartLemmas::starts_adopt))]
pub fn starts_adopt_all()
    ensures { StartsAdopt }
{}
