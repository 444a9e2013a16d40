//! The meaning of devices: content, the dumped directory, disc and rack that belong together, the state that a store
//! represents, and how a store answers. This crate has only definitions and laws.
#![tactic(auto)]

ghost use Rattle.g_store_meaning.specs.Directories.{ChangesKeepOthers, ClosingKeepsDirectories, OthersStay};
ghost use Rattle.g_store_meaning.specs.OneState.{DevicesAreOne};
ghost use Rattle.g_store_meaning.specs.Staying.{StaysUp};
ghost use Rattle.g_store_meaning.specs.Laws.{ClosingBelongs, FilesBelong, FormatBelongs, IntentsBelong, NewVersionBelongs, ReadsBelong, ReadsKeepState, RestoreBelongs};

/// The changes that preserve the belonging of disc and rack: a new version, with other files taken off the disc for it;
/// a file erased, recorded again, taken off or brought back; an intent and its removal; the closing commit of a dump
/// and its adoption; the result of a restore; and the first directory on a rack without dumps.
#[tactic(auto, using(crate::proofs::ChangeLemmas::files_belong, crate::proofs::ChangeLemmas::intents_belong, crate::proofs::ChangeLemmas::format_belongs))]
pub fn changes_belong()
    ensures version { NewVersionBelongs }
    ensures files { FilesBelong }
    ensures intents { IntentsBelong }
    ensures closing { ClosingBelongs }
    ensures restore { RestoreBelongs }
    ensures format { FormatBelongs }
{}

/// Reads of tape change neither the belonging of disc and rack nor the state that a store represents.
pub fn reads_change_nothing()
    ensures belong { ReadsBelong }
    ensures state { ReadsKeepState }
{}

/// A disc and reels that expose their contents and belong together represent at most one state.
pub fn one_state()
    ensures devices { DevicesAreOne }
{}

/// The directories of unchanged users remain those of the completed dumps through a new version, an erasure, another
/// record, files taken off the disc or brought back, an intent, and a change of users; and after the closing of a dump.
#[tactic(auto, using(crate::proofs::DirectoryLemmas::changes_keep_others, crate::proofs::DirectoryLemmas::others_stay, crate::proofs::DirectoryLemmas::closing_keeps_directories))]
pub fn directories_stay()
    ensures changes { ChangesKeepOthers }
    ensures others { OthersStay }
    ensures closing { ClosingKeepsDirectories }
{}

/// The invariant of a store that is up is preserved by a new version, an erasure, another record, and files taken off the
/// disc or brought back, whether or not a dump is open.
pub fn changes_stay_up()
    ensures up { StaysUp }
{}
