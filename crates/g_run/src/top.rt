//! The top call: the words of the command line, a script, a text, a disc and a rack of tapes.
ghost use Rattle.std.specs.Prelude.{◌≡◌, ◌<◌, ◌≤◌, ℕ, List, [], Option, Some, drop, length};
ghost use Rattle.g_base.specs.Counts.{Rose};
ghost use Rattle.g_rules.specs.Tariff.{IsTariff};
ghost use Rattle.g_day.specs.Puts.{Puts};
ghost use Rattle.g_day.specs.declared.progress.Failure.TheVariants as failures;
ghost use Rattle.g_day.specs.System.{BelongTogether, DumpsGrow, SameDevices};
ghost use Rattle.g_demo.specs.Words.{AskNothing, IsDemonstration, demo_words, texts_of};
ghost use Rattle.g_demo.specs.declared.demonstration.Demonstration.{Demonstration};
ghost use Rattle.g_lines.specs.Lines.{lines_of};
ghost use Rattle.g_rules.specs.Rule.{IsWeighRule};
ghost use Rattle.g_script.specs.Script.{IsParsed};
ghost use Rattle.g_script.specs.declared.operator.Timed.{Timed};
ghost use Rattle.g_store_meaning.specs.Safety.{AreSafe};
ghost use Rattle.g_laws_store.specs.Moving.{DumpsMove};
ghost use Rattle.g_run_model.specs.Top.{AreArmings, AreFused, IsCutWords, Survives, words_line};
ghost use Rattle.g_laws_runs.specs.Filestores.{HasFilestore};
ghost use Rattle.g_run.specs.Input.{IsRun};
ghost use Rattle.g_run.specs.ScriptEnd.{both};
ghost use Rattle.g_ticks.specs.Parts.{HaveNoProcess};
ghost use Rattle.g_run.specs.Top as top;

use crate::demo::run_demo;
use crate::input::{Unread, read_script};
use crate::over::{ScriptEnd, run_boxed};
use crate::status::Status;
use g_base::NoMemory;
use g_day::Failure;
use g_demo::{Asked, asked_by};
use g_disc::Disc;
use g_io::{Sink, Source};
use g_rules::{Charge, Standing, Tariff, Usage, WeighRule};
use g_script::parse_script;
use g_tape::Tapes;
use g_ticks::Rules;
use std::alloc::Global;

/// The end of a run: its status, and both devices, which are returned with every status.
#[derive(Drop)]
pub struct Finish<D: Disc, T: Tapes> {
    pub status: Status,
    pub disc: D,
    pub tapes: T,
}

/// Runs the script that the source has left, prints its text to the sink and stores its files on the disc, which has 2,178 to
/// 1,048,576 blocks, and on the reels of the rack. Jobs are charged by the tariff and take their turns by the weigh rule.
///
/// It first reads the words: `run`, or `demo NUMBER N`, which runs a script that is generated from these numbers on devices in
/// memory and prints the summary of its text. The script is read whole before anything is done (docs/MANUAL.md, "Exit status").
#[tactic(auto, using(g_day::proofs::GrowLemmas::grow_itself, g_ticks::proofs::KeepLemmas::moves_itself, crate::proofs::TopLemmas::anew_unread, crate::proofs::TopLemmas::anew_long, crate::proofs::TopLemmas::anew_none, crate::proofs::TopLemmas::survives_quiet))]
pub fn george<
    S: Source,
    K: Sink,
    D: Disc,
    T: Tapes,
    F: Fn(&Usage) -> Charge,
    U: Fn(&Standing) -> u64,
>(
    alloc: Global,
    words: &[&str],
    script: &mut S,
    out: &mut K,
    disc: D,
    tapes: T,
    tariff: &Tariff<F>,
    weigh: &WeighRule<U>,
) -> Finish<D, T>
    requires size { (2177 < (D.state disc).size) × ((D.state disc).size ≤ 1048576) }
    requires tariff { IsTariff F.Fn tariff.now }
    requires rule { IsWeighRule U.Fn weigh.now }

    // The statuses that each kind of words allows, and when a script is too long.
    ensures unknown { AskNothing (texts_of words.now) → top.IsOfWords result.status }
    ensures enough { AskNothing (texts_of words.now) → top.IsForMemory result.status → ⊥ }
    ensures known { IsRun words.now → top.IsOfRun result.status }
    ensures long { (left : List ℕ) → S.left script.old ≡ Some left → IsRun words.now → 16777216 < length left → top.IsNotDone result.status }
    ensures complete { (left : List ℕ) → S.left script.old ≡ Some left → IsRun words.now → length left ≤ 16777216 →
        (Rose (S.faults script.old) (S.faults script.new) → ⊥) → (Rose (K.faults out.old) (K.faults out.new) → ⊥) → top.IsComplete result.status }

    // What was read of the source.
    ensures unread { (IsRun words.now → ⊥) → S.left script.new ≡ S.left script.old }
    ensures taken { (left : List ℕ) → S.left script.old ≡ Some left → (n : ℕ) × (n ≤ 16777217) × (S.left script.new ≡ Some (drop n left)) }
    ensures whole { IsRun words.now → top.IsThrough result.status → (left : List ℕ) → S.left script.old ≡ Some left → S.left script.new ≡ Some [] }

    // Each fault has its cause.
    ensures source { top.SourceCause result.status (S.faults script.old) (S.faults script.new) }
    ensures sink { top.SinkCause result.status (K.faults out.old) (K.faults out.new) }

    // What was written, and what both devices are then.
    ensures quiet { top.IsQuiet result.status (both (D.state disc) (T.rack tapes)) (both (D.state result.disc) (T.rack result.tapes)) (K.written out.old) (K.written out.new) }
    ensures ends { IsRun words.now → (left : List ℕ) → S.left script.old ≡ Some left →
        top.EndsAs F.Fn tariff.now U.Fn weigh.now result.status left (both (D.state disc) (T.rack tapes)) (both (D.state result.disc) (T.rack result.tapes))
        (K.written out.old) (K.written out.new) }
    // Starting over, on a disc that may name copies which no reel has, so that disc and rack don't belong together: with every status the run
    // is one from the state of a new disc with the same reels. If a FORMAT took effect, they belong together at its end.
    ensures anew { IsRun words.now → (left : List ℕ) → S.left script.old ≡ Some left → top.BeginsAnew left (both (D.state disc) (T.rack tapes))
        → top.EndsAnew F.Fn tariff.now U.Fn weigh.now result.status left (both (D.state disc) (T.rack tapes)) (both (D.state result.disc) (T.rack result.tapes))
        (K.written out.old) (K.written out.new) }

    ensures words { AskNothing (texts_of words.now)
        → IsCutWords (both (D.state disc) (T.rack tapes)) (both (D.state result.disc) (T.rack result.tapes)) (K.written out.old) (K.written out.new) }

    // A demonstration: the devices that were passed in are returned unchanged, and the summary of its text is printed.
    ensures demo { (demo : Demonstration) → IsDemonstration demo → texts_of words.now ≡ demo_words demo
        → (both (D.state result.disc) (T.rack result.tapes) ≡ both (D.state disc) (T.rack tapes))
        × top.EndsDemo F.Fn tariff.now U.Fn weigh.now result.status demo (K.written out.old) (K.written out.new) }

    // With every status, for all devices, whether or not they expose their contents: what armed them, what their fuses are, and that they are the same.
    ensures arms { IsRun words.now → (left : List ℕ) → S.left script.old ≡ Some left → (lines : List Timed) (bad : Option ℕ) → IsParsed (lines_of left) lines bad →
        AreArmings lines (top.IsThrough result.status) (both (D.state disc) (T.rack tapes)) (both (D.state result.disc) (T.rack result.tapes)) }
    ensures fuses { AreFused (both (D.state result.disc) (T.rack result.tapes)) }
    ensures same { SameDevices (both (D.state disc) (T.rack tapes)) (both (D.state result.disc) (T.rack result.tapes)) }

    // With every status, if the devices expose their contents and belong together: they still do afterwards, and a disc that holds a filestore still
    // holds one. Each completed dump is still complete, whole and in its place, unless a newer completed dump exists that has the directory of
    // each of its users. If no line of the script is a PROCESS, all stay.
    ensures belongs { BelongTogether (both (D.state disc) (T.rack tapes)) → BelongTogether (both (D.state result.disc) (T.rack result.tapes)) }
    ensures dumps { BelongTogether (both (D.state disc) (T.rack tapes)) → DumpsMove (T.rack tapes) (T.rack result.tapes) }
    ensures stay { BelongTogether (both (D.state disc) (T.rack tapes)) → (left : List ℕ) → S.left script.old ≡ Some left → (lines : List Timed) (bad : Option ℕ) → IsParsed (lines_of left) lines bad
        → HaveNoProcess lines → DumpsGrow (T.rack tapes) (T.rack result.tapes) }
    ensures stands { BelongTogether (both (D.state disc) (T.rack tapes)) → HasFilestore (both (D.state disc) (T.rack tapes))
        → HasFilestore (both (D.state result.disc) (T.rack result.tapes)) }

    // With every status, if the devices are safe: they are safe afterwards. That is, they expose their contents and belong together, and a store
    // that START, RESTORE or FORMAT makes of them is safe: as they are, and of whatever a power loss leaves of them.
    ensures safe { AreSafe (D.state disc) (T.rack tapes) → AreSafe (D.state result.disc) (T.rack result.tapes) }
    // And which state that is: the one after an event since which the system has been down, or, if a failed write stopped that event, another
    // one to which it may lead.
    ensures survives { IsRun words.now → AreSafe (D.state disc) (T.rack tapes) → (left : List ℕ) → S.left script.old ≡ Some left →
        Survives F.Fn tariff.now U.Fn weigh.now left (both (D.state disc) (T.rack tapes)) (both (D.state result.disc) (T.rack result.tapes))
        (K.written out.old) (K.written out.new) }
{
    let rules = Rules { tariff, weigh };
    match asked_by(words) {
        Some(Asked::Run) => {}
        Some(Asked::Demo(demo)) => {
            let failure = run_demo(alloc, &demo, &rules, out);
            tell_fuses(&disc, &tapes);
            return Finish {
                status: demo_status(failure),
                disc,
                tapes,
            };
        }
        None => {
            let failure = put_words(out);
            tell_fuses(&disc, &tapes);
            return Finish {
                status: words_status(failure),
                disc,
                tapes,
            };
        }
    }
    let bytes = match read_script(alloc, script) {
        Ok(bytes) => bytes,
        Err(Unread::Fault) => return not_begun(Status::ScriptFault, disc, tapes),
        Err(Unread::TooLong) => return not_begun(Status::TooLong, disc, tapes),
        Err(Unread::NoMemory) => return not_begun(Status::NoMemory, disc, tapes),
    };
    let parsed = match parse_script(alloc, &bytes) {
        Ok(parsed) => parsed,
        Err(NoMemory) => return not_begun(Status::NoMemory, disc, tapes),
    };
    let bad = parsed.bad;
    let ScriptEnd {
        disc,
        tapes,
        failure,
    } = run_boxed(alloc, parsed, (disc, tapes), &rules, out);
    tell_fuses(&disc, &tapes);
    Finish {
        status: run_status(bad, failure),
        disc,
        tapes,
    }
}

/// The end of a run that did nothing, with this status; both devices are returned unchanged.
pub fn not_begun<D: Disc, T: Tapes>(status: Status, disc: D, tapes: T) -> Finish<D, T>
    ensures made { result ≡ record { status = status; disc = disc; tapes = tapes } }
    ensures fuses { AreFused (both (D.state disc) (T.rack tapes)) }
{
    tell_fuses(&disc, &tapes);
    Finish {
        status,
        disc,
        tapes,
    }
}

/// States what the fuse of each device is; nothing is done.
pub fn tell_fuses<D: Disc, T: Tapes>(disc: &D, tapes: &T)
    ensures { AreFused (both (D.state disc.now) (T.rack tapes.now)) }
{
    let _blocks = disc.size();
    let _reels = tapes.reels();
}

/// The status of a demonstration.
fn demo_status(failure: Option<Failure>) -> Status
    ensures { result ≡ top.demo_status failure }
{
    match failure {
        None => Status::Done,
        Some(Failure::Output) => Status::OutputFault,
        Some(Failure::Memory) => Status::NoMemory,
    }
}

/// Puts the line of unknown words, which takes no memory.
fn put_words<K: Sink>(out: &mut K) -> Option<Failure>
    ensures puts { Puts result words_line (K.written out.old) (K.written out.new) (K.faults out.old) (K.faults out.new) }
    ensures memory { result ≡ Some failures.Memory → ⊥ }
{
    match out.put(b"WORDS NOT KNOWN\n") {
        Ok(()) => None,
        Err(_) => Some(Failure::Output),
    }
}

/// The status where the words aren't known.
fn words_status(failure: Option<Failure>) -> Status
    ensures { result ≡ top.words_status failure }
{
    match failure {
        None => Status::Words,
        Some(Failure::Output) => Status::OutputFault,
        Some(Failure::Memory) => Status::NoMemory,
    }
}

/// The status of a run: the bad line of its script, if there is one, and why it was cut short, if it was.
fn run_status(bad: Option<u64>, failure: Option<Failure>) -> Status
    ensures { result ≡ top.status_of bad failure }
{
    match (failure, bad) {
        (Some(Failure::Output), _) => Status::OutputFault,
        (Some(Failure::Memory), _) => Status::NoMemory,
        (None, Some(line)) => Status::BadScript(line),
        (None, None) => Status::Done,
    }
}
