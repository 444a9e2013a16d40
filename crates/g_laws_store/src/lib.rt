//! Theorems about the definitions of the whole store. A store has exactly one state, and preserves its invariant in each
//! event. What is in memory changes as its state does; a call, an opening and PROCESS follow their steps. No code is
//! involved.
#![tactic(auto)]

ghost use Rattle.g_laws_store.specs.Adoption.{OwnsStay};
ghost use Rattle.g_laws_store.specs.Calls.{CallsGoByStep};
ghost use Rattle.g_laws_store.specs.Commits.{CommitsAreTold};
ghost use Rattle.g_laws_store.specs.Dumping.{ClosingStaysUp, EventsStayUp, OpeningStaysUp};
ghost use Rattle.g_laws_store.specs.ForgottenCopies.{ForgettingStaysUp};
ghost use Rattle.g_laws_store.specs.Moving.{MovingGoesOn};
ghost use Rattle.g_laws_store.specs.Opening.{OpeningIsStep};
ghost use Rattle.g_laws_store.specs.OpeningNeeds.{OpeningTakes};
ghost use Rattle.g_laws_store.specs.Places.{PlacesGoByChange, TakenHaveCopies};
ghost use Rattle.g_laws_store.specs.Refusals.{RefusalsOfCalls};
ghost use Rattle.g_laws_store.specs.Releasing.{OneBlockIsNone, ReleasesStayUp};
ghost use Rattle.g_laws_store.specs.Rooms.{RoomIs};
ghost use Rattle.g_laws_store.specs.States.{HaveStates, StoreIsOne};
ghost use Rattle.g_laws_store.specs.Trees.{DumpedTreeIs};
ghost use Rattle.g_laws_store.specs.UnjamPlan.{UnjamIs};
ghost use Rattle.g_laws_store.specs.Users.{DumpedTextsStay, UsersGoByChange};

/// A store that exposes its contents and belongs together represents at most one state, including its open dump.
#[tactic(auto, using(crate::proofs::UpOneLemmas::store_is_one))]
pub fn one_state()
    ensures store { StoreIsOne }
{}

/// What belongs together has a state, whether or not the devices expose their contents.
#[tactic(auto, using(crate::proofs::StateLemmas::have_states))]
pub fn some_state()
    ensures { HaveStates }
{}

/// A store that is up preserves its invariant when users are added, an intent is dropped, a tape is written or mounted, or
/// a dump is opened, continues, is given up or is closed.
#[tactic(auto, using(crate::proofs::DumpingLemmas::events_stay_up))]
pub fn events_stay_up()
    ensures events { EventsStayUp }
    ensures opening { OpeningStaysUp }
    ensures closing { ClosingStaysUp }
{}

/// A lost copy, a wait, a failed read and a full disc are returned only to calls that need the bytes, the reel or the room.
/// If the devices expose their contents, `Stopped` is never returned to a call that writes nothing.
pub fn refusals_go_by_calls()
    ensures { RefusalsOfCalls }
{}

/// The slots show whether an event has made k or k + 1 commits, and each commit is counted among the writes. An event that
/// must make one commit hasn't made two.
pub fn commits_are_told()
    ensures { CommitsAreTold }
{}

/// The room that memory counts, from files and pins, is the room of the state.
pub fn room_goes_by_files()
    ensures room { RoomIs }
{}

/// What a change makes of the files, the step makes of the places: a new version, an erasure, another record, a file
/// brought back, files taken off the disc, and copies noted by a dump.
pub fn places_go_by_change()
    ensures places { PlacesGoByChange }
    ensures taken { TakenHaveCopies }
{}

/// A changed user is no longer kept, and is touched, by name as by number.
#[tactic(auto, using(crate::proofs::UserLemmas::users_go_by_change))]
pub fn users_go_by_change()
    ensures users { UsersGoByChange }
{}

/// A version that is created now is in no dump, so its text changes no dumped tree.
pub fn dumped_texts_stay()
    ensures texts { DumpedTextsStay }
{}

/// If the dumps have each user's directory of the disc, the dumped tree is the disc's.
pub fn dumped_tree_is()
    ensures tree { DumpedTreeIs }
{}

/// An opening takes from the state what its plan has: the versions that wait, by stamp, and the number of blocks that the
/// dump needs.
#[tactic(auto, using(crate::proofs::NeedsLemmas::opening_takes))]
pub fn opening_takes()
    ensures { OpeningTakes }
{}

/// A plan of files to take off the disc is the step's: the same versions, the same room, the same places afterwards.
pub fn unjamming_goes_by_plan()
    ensures { UnjamIs }
{}

/// What the change of a call makes of the contents, and of the numbers of changed and touched users, is what the step makes
/// of the state: its tree, places, users and open dump.
pub fn calls_go_by_step()
    ensures { CallsGoByStep }
{}

/// A store that is up preserves its invariant when its copies are forgotten, and a dump of it writes all of them again.
#[tactic(auto, using(crate::proofs::ForgetLemmas::forgetting_stays))]
pub fn forgetting_stays_up()
    ensures { ForgettingStaysUp }
{}

/// If one dump has everything, the dumps of the other reels may be deleted, one reel after another; and a reel of one block
/// has no completed dump.
#[tactic(auto, using(crate::proofs::ReleaseLemmas::releases_stay, crate::proofs::ReleaseLemmas::one_block_is_none))]
pub fn releases_stay_up()
    ensures up { ReleasesStayUp }
    ensures none { OneBlockIsNone }
{}

/// Two moves of completed dumps in succession are a move, and so is appending others.
#[tactic(auto, using(crate::proofs::MoveLemmas::moving_goes_on))]
pub fn moves_go_on()
    ensures { MovingGoesOn }
{}

/// After an opening the store represents the state that the step makes of the previous one: its tree, its places, the
/// copies that its own records name, and the versions that wait.
pub fn opening_goes_by_step()
    ensures { OpeningIsStep }
{}

/// The copies that START would adopt are those that the closing of the dump would note, from its opening on and for all
/// answers in between.
pub fn starts_adopt_what_is_noted()
    ensures { OwnsStay }
{}
