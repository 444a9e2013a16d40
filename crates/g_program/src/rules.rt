//! The rules of this program: what a turn of a job costs, and which job takes the next turn; and a run and a session by them.
ghost use Rattle.std.specs.Prelude.{◌≡◌, ◌<◌, ◌≤◌, ◌^◌, ℕ, List, [], Option, Some, drop, length};
ghost use Rattle.g_base.specs.Counts.{Rose};
ghost use Rattle.g_day.specs.System.{BelongTogether, DumpsGrow, SameDevices};
ghost use Rattle.g_console.specs.Transcript.{Transcript, blank};
ghost use Rattle.g_demo.specs.Words.{AskNothing, IsDemonstration, demo_words, texts_of};
ghost use Rattle.g_demo.specs.declared.demonstration.Demonstration.{Demonstration};
ghost use Rattle.g_lines.specs.Lines.{lines_of};
ghost use Rattle.g_rules.specs.Rule.{IsInRange};
ghost use Rattle.g_script.specs.Script.{IsParsed};
ghost use Rattle.g_script.specs.declared.operator.Timed.{Timed};
ghost use Rattle.g_store_meaning.specs.Safety.{AreSafe};
ghost use Rattle.g_store_model.specs.State.{State};
ghost use Rattle.g_laws_store.specs.Moving.{DumpsMove};
ghost use Rattle.g_run_model.specs.Devices.{StandFor};
ghost use Rattle.g_run_model.specs.Top.{AreArmings, AreFused, IsCutWords, Survives};
ghost use Rattle.g_laws_runs.specs.BeginningAnew.{AreBlank, with_new_disc};
ghost use Rattle.g_laws_runs.specs.Filestores.{HasFilestore};
ghost use Rattle.g_laws_sessions.specs.Session.{AlwaysAnswers};
ghost use Rattle.g_run.specs.Input.{IsRun};
ghost use Rattle.g_run.specs.ScriptEnd.{both};
ghost use Rattle.g_ticks.specs.Parts.{HaveNoProcess};
ghost use Rattle.g_run.specs.Top as top;
ghost use Rattle.g_session.specs.Session.{EndsAnew, EndsSession, IsOfSession, SessionCause, SessionSurvives};
ghost use Rattle.g_program.specs.Rules.{answering, price, share_used};

use g_console::Console;
use g_disc::Disc;
use g_io::{Sink, Source};
use g_rules::{Charge, Standing, Tariff, Usage, WeighRule};
use g_run::{Finish, george};
use g_session::session;
use g_tape::Tapes;
use std::alloc::Global;

/// What a turn costs: a unit of TIME, one more for each 64 orders and each 64 blocks, and one of MONEY for each
/// 64 blocks (docs/MANUAL.md, "Ticks").
fn price_of(usage: &Usage) -> Charge
    ensures { result ≡ price usage.now }
{
    let blocks = u64::from(usage.blocks / 64);
    Charge {
        units: 1 + u64::from(usage.orders / 64) + blocks,
        money: blocks,
    }
}

/// What a job weighs, whose turn comes the earlier the less that is: the share of its TIME that it has used, in
/// millionths, rounded down.
fn weight_of(standing: &Standing) -> u64
    requires { IsInRange standing.now }
    ensures value { result ≡ share_used standing.now }
    ensures bounded { result ≤ 2 ^ 40 }
{
    standing.used * 1_000_000 / standing.allowance
}

/// Runs the script by the rules of this program, on any disc and rack; both are returned with every status
/// (docs/MANUAL.md, "Exit status").
pub fn run_by_rules<S: Source, K: Sink, D: Disc, T: Tapes>(
    alloc: Global,
    words: &[&str],
    script: &mut S,
    out: &mut K,
    disc: D,
    tapes: T,
) -> Finish<D, T>
    requires size { (2177 < (D.state disc).size) × ((D.state disc).size ≤ 1048576) }

    // The statuses that each kind of words allows, and when a script is too long.
    ensures unknown { AskNothing (texts_of words.now) → top.IsOfWords result.status }
    ensures known { IsRun words.now → top.IsOfRun result.status }
    ensures long { (left : List ℕ) → S.left script.old ≡ Some left → IsRun words.now → 16777216 < length left → top.IsNotDone result.status }
    ensures complete { (left : List ℕ) → S.left script.old ≡ Some left → IsRun words.now → length left ≤ 16777216 →
        (Rose (S.faults script.old) (S.faults script.new) → ⊥) → (Rose (K.faults out.old) (K.faults out.new) → ⊥) → top.IsComplete result.status }

    // What was read of the source.
    ensures unread { (IsRun words.now → ⊥) → S.left script.new ≡ S.left script.old }
    ensures taken { (left : List ℕ) → S.left script.old ≡ Some left → (n : ℕ) × (n ≤ 16777217) × (S.left script.new ≡ Some (drop n left)) }
    ensures whole { IsRun words.now → top.IsThrough result.status → (left : List ℕ) → S.left script.old ≡ Some left → S.left script.new ≡ Some [] }

    // Each fault has its cause.
    ensures source { top.SourceCause result.status (S.faults script.old) (S.faults script.new) }
    ensures sink { top.SinkCause result.status (K.faults out.old) (K.faults out.new) }

    // What was written, and what both devices are then: a run's, whose turns cost what `price` says and whose next job is the
    // one of the least `share_used`.
    ensures quiet { top.IsQuiet result.status (both (D.state disc) (T.rack tapes)) (both (D.state result.disc) (T.rack result.tapes)) (K.written out.old) (K.written out.new) }
    ensures ends { IsRun words.now → (left : List ℕ) → S.left script.old ≡ Some left →
        top.EndsAs (answering price) tt (answering share_used) tt result.status left (both (D.state disc) (T.rack tapes)) (both (D.state result.disc) (T.rack result.tapes))
        (K.written out.old) (K.written out.new) }
    // Starting over, on a disc that may name copies which no reel has, so that disc and rack don't belong together: with every status the run
    // is one from the state of a new disc with the same reels. If a FORMAT took effect, they belong together at its end.
    ensures anew { IsRun words.now → (left : List ℕ) → S.left script.old ≡ Some left → top.BeginsAnew left (both (D.state disc) (T.rack tapes))
        → top.EndsAnew (answering price) tt (answering share_used) tt result.status left (both (D.state disc) (T.rack tapes)) (both (D.state result.disc) (T.rack result.tapes))
        (K.written out.old) (K.written out.new) }
    ensures words { AskNothing (texts_of words.now)
        → IsCutWords (both (D.state disc) (T.rack tapes)) (both (D.state result.disc) (T.rack result.tapes)) (K.written out.old) (K.written out.new) }
    ensures enough { AskNothing (texts_of words.now) → top.IsForMemory result.status → ⊥ }

    // A demonstration: the devices that were passed in are returned unchanged, and the summary of its text is printed.
    ensures demo { (demo : Demonstration) → IsDemonstration demo → texts_of words.now ≡ demo_words demo
        → (both (D.state result.disc) (T.rack result.tapes) ≡ both (D.state disc) (T.rack tapes))
        × top.EndsDemo (answering price) tt (answering share_used) tt result.status demo (K.written out.old) (K.written out.new) }

    // With every status, for all devices, whether or not they expose their contents: what armed them, what their fuses are, and that they are the same.
    ensures arms { IsRun words.now → (left : List ℕ) → S.left script.old ≡ Some left → (lines : List Timed) (bad : Option ℕ) → IsParsed (lines_of left) lines bad →
        AreArmings lines (top.IsThrough result.status) (both (D.state disc) (T.rack tapes)) (both (D.state result.disc) (T.rack result.tapes)) }
    ensures fuses { AreFused (both (D.state result.disc) (T.rack result.tapes)) }
    ensures same { SameDevices (both (D.state disc) (T.rack tapes)) (both (D.state result.disc) (T.rack result.tapes)) }

    // With every status, if the devices expose their contents and belong together: they still do afterwards, and a disc that holds a filestore still
    // holds one. Each completed dump is still complete, whole and in its place, unless a newer completed dump exists that has the directory of
    // each of its users. If no line of the script is a PROCESS, all stay.
    ensures belongs { BelongTogether (both (D.state disc) (T.rack tapes)) → BelongTogether (both (D.state result.disc) (T.rack result.tapes)) }
    ensures dumps { BelongTogether (both (D.state disc) (T.rack tapes)) → DumpsMove (T.rack tapes) (T.rack result.tapes) }
    ensures stay { BelongTogether (both (D.state disc) (T.rack tapes)) → (left : List ℕ) → S.left script.old ≡ Some left → (lines : List Timed) (bad : Option ℕ) → IsParsed (lines_of left) lines bad
        → HaveNoProcess lines → DumpsGrow (T.rack tapes) (T.rack result.tapes) }
    ensures stands { BelongTogether (both (D.state disc) (T.rack tapes)) → HasFilestore (both (D.state disc) (T.rack tapes))
        → HasFilestore (both (D.state result.disc) (T.rack result.tapes)) }

    // With every status, if the devices are safe: they are safe afterwards. That is, they expose their contents and belong together, and a store
    // that START, RESTORE or FORMAT makes of them is safe: as they are, and of whatever a power loss leaves of them.
    ensures safe { AreSafe (D.state disc) (T.rack tapes) → AreSafe (D.state result.disc) (T.rack result.tapes) }
    // And which state that is: the one after an event since which the system has been down, or, if a failed write stopped that event, another
    // one to which it may lead.
    ensures survives { IsRun words.now → AreSafe (D.state disc) (T.rack tapes) → (left : List ℕ) → S.left script.old ≡ Some left →
        Survives (answering price) tt (answering share_used) tt left (both (D.state disc) (T.rack tapes)) (both (D.state result.disc) (T.rack result.tapes))
        (K.written out.old) (K.written out.new) }
{
    let tariff = Tariff::new(|usage: &Usage| -> Charge { price_of(usage) });
    let weigh = WeighRule::new(
        |standing: &Standing| -> u64
            requires { IsInRange standing.now }
        { weight_of(standing) },
    );
    george(alloc, words, script, out, disc, tapes, &tariff, &weigh)
}

/// A session by the rules of this program, on any disc and rack; both are returned with every status (docs/MANUAL.md, "The console").
pub fn session_by_rules<C: Console, L: Sink, D: Disc, T: Tapes>(
    alloc: Global,
    console: &mut C,
    log: &mut L,
    disc: D,
    tapes: T,
) -> Finish<D, T>
    requires size { (2177 < (D.state disc).size) × ((D.state disc).size ≤ 1048576) }
    ensures of { IsOfSession result.status }

    // Each time a line was requested, all lines before it were answered, and nothing else was printed.
    ensures answers { C.transcript console.old ≡ Some blank → (t : Transcript) → C.transcript console.new ≡ Some t → (s : State) → StandFor (both (D.state disc) (T.rack tapes)) s
        → AlwaysAnswers (answering price) tt (answering share_used) tt s t }

    // All that was printed, what both devices are then, and what the log has.
    ensures ends { C.transcript console.old ≡ Some blank → (t : Transcript) → C.transcript console.new ≡ Some t → (s : State) → StandFor (both (D.state disc) (T.rack tapes)) s
        → EndsSession (answering price) tt (answering share_used) tt result.status s (both (D.state disc) (T.rack tapes)) (both (D.state result.disc) (T.rack result.tapes)) t
        (L.written log.old) (L.written log.new) }

    // Starting over, on a disc that may name copies which no reel has, so that disc and rack don't belong together: with every status, if a FORMAT took
    // effect, the session is one from the state of a new disc with the same reels.
    ensures anew { C.transcript console.old ≡ Some blank → (t : Transcript) → C.transcript console.new ≡ Some t → AreBlank (both (D.state disc) (T.rack tapes))
        → (s : State) → StandFor (with_new_disc (both (D.state disc) (T.rack tapes))) s
        → EndsAnew (answering price) tt (answering share_used) tt result.status s (both (D.state disc) (T.rack tapes)) (both (D.state result.disc) (T.rack result.tapes)) t
        (L.written log.old) (L.written log.new) }

    // Each fault has its cause.
    ensures causes { SessionCause result.status (C.faults console.old) (C.faults console.new) (L.faults log.old) (L.faults log.new) }

    // With every status, of all devices, as a run's.
    ensures fuses { AreFused (both (D.state result.disc) (T.rack result.tapes)) }
    ensures same { SameDevices (both (D.state disc) (T.rack tapes)) (both (D.state result.disc) (T.rack result.tapes)) }
    ensures belongs { BelongTogether (both (D.state disc) (T.rack tapes)) → BelongTogether (both (D.state result.disc) (T.rack result.tapes)) }
    ensures dumps { BelongTogether (both (D.state disc) (T.rack tapes)) → DumpsMove (T.rack tapes) (T.rack result.tapes) }
    ensures stands { BelongTogether (both (D.state disc) (T.rack tapes)) → HasFilestore (both (D.state disc) (T.rack tapes))
        → HasFilestore (both (D.state result.disc) (T.rack result.tapes)) }
    ensures safe { AreSafe (D.state disc) (T.rack tapes) → AreSafe (D.state result.disc) (T.rack result.tapes) }

    // With every status, if the devices are safe, also for a session that was cut short: whatever a power loss leaves of them represents a state
    // that may be left after the lines whose answers were printed, whole or in part.
    ensures survives { AreSafe (D.state disc) (T.rack tapes) → C.transcript console.old ≡ Some blank → (t : Transcript) → C.transcript console.new ≡ Some t
        → (s : State) → StandFor (both (D.state disc) (T.rack tapes)) s
        → SessionSurvives (answering price) tt (answering share_used) tt s (both (D.state disc) (T.rack tapes)) (both (D.state result.disc) (T.rack result.tapes)) t
        (L.written log.old) (L.written log.new) }
{
    let tariff = Tariff::new(|used: &Usage| -> Charge { price_of(used) });
    let weigh = WeighRule::new(
        |share: &Standing| -> u64
            requires { IsInRange share.now }
        { weight_of(share) },
    );
    session(alloc, console, log, disc, tapes, &tariff, &weigh)
}
