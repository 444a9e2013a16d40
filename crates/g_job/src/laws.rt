//! Laws of turns. They do nothing; their clauses hold for the program of every turn, and for every end.
ghost use Rattle.std.specs.Prelude.{◌≡◌, ◌≤◌, ℕ, List, length, Option, None, Some, IfSome, is_some, not, true, false, ◌↔◌};
ghost use Rattle.g_rules.specs.Tariff.{IsCharge};
ghost use Rattle.g_rules.specs.declared.tariff.Charge.{Charge};
ghost use Rattle.g_job.specs.Beginning.{room_of};
ghost use Rattle.g_turn.specs.Bounds.{AlwaysGives, IsWithin};
ghost use Rattle.g_turn.specs.Causes.{CauseOf, IsHonest, last_answer};
ghost use Rattle.g_job.specs.TurnEnd.{is_free, turn_end};
ghost use Rattle.g_job.specs.Rules.{IsGoneOnWith, IsJob};
ghost use Rattle.g_job.specs.Spending.{ComesTo, Spends};
ghost use Rattle.g_turn.specs.State.{Broken, Waits, Work};
ghost use Rattle.g_job.specs.State.{JobState};
ghost use Rattle.g_turn.specs.Steps.{RanWell};
ghost use Rattle.g_job.specs.Terminal.{LeavesDocument};
ghost use Rattle.g_job.specs.Turns.{turn_work};
ghost use Rattle.g_lines.specs.Lines.{lines_of};
ghost use Rattle.g_mill.specs.Lines.{lines};
ghost use Rattle.g_plain.specs.Programs.{Answer, Ran};
ghost use Rattle.g_plain.specs.PlainAnswers.{RanPlainly};
ghost use Rattle.g_plain.specs.PlainTree.{Tree};
ghost use Rattle.g_plain.specs.Runs.{RanBy};

use g_plain::{Filestore, HoldsTree};

/// For any store: a turn waits for a reel if and only if its last answer was a wait for that reel, and was stopped if and only if that answer was a
/// stop. After a wait or a stop no call is made, and the answers of a turn determine one work.
pub fn turns_say_why_they_are_over<S: Filestore>()
    ensures once { (j : JobState) → IsHonest (turn_work j) }
    ensures cause { (j : JobState) (old : S) (told : List Answer) (work : Work) (new : S)
        → RanBy S.answers j.user old (turn_work j) told work new
        → CauseOf (last_answer told) work.stop }
    ensures one { (j : JobState) (told : List Answer)
        (old : S) (work : Work) (new : S) (start : S) (other : Work) (end : S)
        → RanBy S.answers j.user old (turn_work j) told work new
        → RanBy S.answers j.user start (turn_work j) told other end → work ≡ other }
{}

/// A turn that waits or was stopped ends without a charge and in no other way, and every other turn with one. Its result is determined by the reason
/// why its work is over. A turn that is charged takes at least one unit of TIME, or ends the job.
pub fn turns_come_to_one_end()
    ensures free { (j : JobState) (work : Work)
        → is_some (turn_end j work None) ≡ is_free work.stop }
    ensures charged { (j : JobState) (work : Work) (charge : Charge)
        → is_some (turn_end j work (Some charge)) ≡ not (is_free work.stop) }
    ensures comes { (j : JobState) (work : Work) (charge : Option Charge)
        → IfSome (turn_end j work charge) (λ end. ComesTo j work charge end.0 end.1) }
    ensures spends { (j : JobState) (work : Work) (charge : Option Charge)
        → IsJob j → j.over ≡ false → IfSome charge IsCharge
        → IfSome (turn_end j work charge) (λ end. Spends j end.0 end.1) }
{}

/// For any answers of a store, a turn runs at most 64 orders, transfers at most 4,096 blocks, and adds to the monitoring file no more than it has
/// room for; and a turn that waits has something to resume with.
pub fn turns_keep_their_limits()
    ensures { (j : JobState) → IsJob j → length j.desk.units.writers ≤ 16
        → AlwaysGives (IsWithin (room_of j)) (turn_work j) }
{}

/// For any answers of a store, a turn leaves the lines of the document unchanged, or drops it with all levels, and doesn't change whether it is held
/// open; and what a turn resumes with has a level.
pub fn turns_keep_the_document()
    ensures { (j : JobState) → IsJob j → AlwaysGives (LeavesDocument j) (turn_work j) }
{}

/// A turn within its limits preserves the rules of a job.
pub fn turns_keep_the_rules()
    ensures { (j : JobState) (work : Work) (charge : Option Charge)
        → IsJob j → j.over ≡ false → IfSome charge IsCharge
        → IsWithin (room_of j) work → IsGoneOnWith j.monitor work
        → IfSome (turn_end j work charge) (λ end. IsJob end.1) }
{}

/// For any store, by the contract of its calls: after a turn the store is spent if and only if the turn was stopped, the reel that a turn waits for
/// isn't mounted, no turn mounts one, and a turn stays within its limits.
pub fn turns_leave_their_store<S: Filestore>()
    ensures ran { (j : JobState) (old : S) (work : Work) (new : S)
        → RanWell S.answers S.is_spent S.can_wait j.user old (turn_work j) work new
        → Ran S.answers j.user old (turn_work j) work new }
    ensures spent { (j : JobState) (old : S) (work : Work) (new : S) → S.is_spent old ≡ false
        → RanWell S.answers S.is_spent S.can_wait j.user old (turn_work j) work new
        → (S.is_spent new ≡ true) ↔ (work.stop ≡ Some Broken) }
    ensures waits { (j : JobState) (old : S) (work : Work) (new : S) (serial : ℕ)
        → RanWell S.answers S.is_spent S.can_wait j.user old (turn_work j) work new
        → work.stop ≡ Some (Waits serial) → S.can_wait new serial ≡ true }
    ensures same_waits { (j : JobState) (old : S) (work : Work) (new : S) (serial : ℕ)
        → RanWell S.answers S.is_spent S.can_wait j.user old (turn_work j) work new
        → S.can_wait new serial ≡ S.can_wait old serial }
    ensures within { (j : JobState) (old : S) (work : Work) (new : S)
        → IsJob j → length j.desk.units.writers ≤ 16
        → RanWell S.answers S.is_spent S.can_wait j.user old (turn_work j) work new
        → IsWithin (room_of j) work }
{}

/// For any store that holds a tree, the program of a turn was run on that tree, call by call: each answer is the plain step's, or a wait or a refusal
/// of a device that leaves the tree unchanged, or a stop.
pub fn turns_are_asked_of_a_plain_tree<S: HoldsTree>()
    ensures { (j : JobState) (old : S) (work : Work) (new : S) (t : Tree)
        → S.holds old t → Ran S.answers j.user old (turn_work j) work new
        → (after : Tree) × RanPlainly j.user t (turn_work j) work after × S.holds new after }
{}

/// The lines of a text are the same for programs and units as for macros and documents.
pub fn lines_are_lines_of_programs()
    ensures { (text : List ℕ) → lines text ≡ lines_of text }
{}
