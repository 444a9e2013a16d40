//! The system is brought up by FORMAT, START or RESTORE.
ghost use Rattle.std.specs.Prelude.{◌≡◌, ◌++◌, ◌<◌, ◌≤◌, ℕ, List, None, [], IfErr, IfOk, codes, false};
ghost use Rattle.std.specs.Fmt.{decimal};
ghost use Rattle.g_cache.specs.CachedDisc.{cached_with};
ghost use Rattle.g_day.specs.BeginningAnew.{AnewLine};
ghost use Rattle.g_day.specs.Opening.{Opens};
ghost use Rattle.g_day.specs.Parts.{DidLine, IsReady, seen};
ghost use Rattle.g_day.specs.Puts.{Puts};
ghost use Rattle.g_operator.specs.Rising.{MakesNone, Raises, RefusesRise, line_of};
ghost use Rattle.g_day.specs.System as system;
ghost use Rattle.g_run_model.specs.Texts.{operator_line};

use g_base::NoMemory;
use g_cache::CachedDisc;
use g_day::{Day, EmptyBox, Ended, Failure, Running, System, refuse_or_go_down, told};
use g_disc::Disc;
use g_io::Sink;
use g_job_table::{Crew, started_text};
use g_known::KnownReels;
use g_name::Text;
use g_plain::StoreFault;
use g_store::{Refused, Store, format, restore, start};
use g_tape::Tapes;
use std::alloc::Global;

/// How a system is brought up: as a new filestore; from what the disc holds, adopting a dump whose mark was written; or
/// from the tree on which the last completed dump opened.
#[derive(Clone, Copy, PartialEq, Eq)]
pub(crate) enum Rise {
    Format,
    Start,
    Restore,
}

/// FORMAT, START or RESTORE. `Running`: the system is up; otherwise the refusals of that call of the store
/// (docs/MANUAL.md).
pub(crate) fn rise_line<K: Sink, D: Disc, T: Tapes>(
    alloc: Global,
    day: Day<D, T>,
    rise: Rise,
    out: &mut K,
) -> Ended<D, T>
    requires ready { IsReady day.system day.crew }
    ensures line { DidLine (line_of rise) day result.failure result.day (K.written out.old) (K.written out.new) (K.faults out.old) (K.faults out.new) }
    ensures anew { AnewLine (line_of rise) day result.failure result.day (K.written out.old) (K.written out.new) (K.faults out.old) (K.faults out.new) }
{
    let Day {
        system,
        crew,
        count,
    } = day;
    match system {
        System::Up(store) => {
            let day = Day {
                system: System::Up(store),
                crew,
                count,
            };
            refuse_or_go_down(alloc, day, StoreFault::Running, out)
        }
        System::Down(disc, tapes) => match raise(alloc, disc, tapes, rise) {
            Ok(raised) => comes_up(alloc, raised, crew, count, out),
            Err(refused) => {
                let Refused { fault, disc, tapes } = refused;
                let day = Day {
                    system: System::Down(disc, tapes),
                    crew,
                    count,
                };
                refuse_or_go_down(alloc, day, fault, out)
            }
        },
    }
}

/// A store that was made, and the text that reports it.
#[derive(Drop)]
struct Raised<D: Disc, T: Tapes> {
    store: Running<D, T>,
    made: Result<Text, NoMemory>,
}

/// A store on both devices. A refusal returns them. If there is no memory for the box of the store or the cache of the
/// disc, they are unchanged.
fn raise<D: Disc, T: Tapes>(
    alloc: Global,
    disc: D,
    tapes: KnownReels<T>,
    rise: Rise,
) -> Result<Raised<D, T>, Refused<D, T>>
    requires size { (2177 < (D.state disc).size) × ((D.state disc).size ≤ 1048576) }
    ensures ok { IfOk result (λ r. Raises rise (D.state disc) (T.rack tapes) r.store r.made) }
    ensures refused { IfErr result (λ e. MakesNone rise (D.state disc) (T.rack tapes) e.fault (D.state e.disc) (T.rack e.tapes)) }
{
    match box_and_cache(alloc, disc) {
        Ok((place, disc)) => raise_in(alloc, place, disc, tapes, rise),
        Err(disc) => Err(Refused {
            fault: StoreFault::NoMemory,
            disc,
            tapes,
        }),
    }
}

/// Does so in an existing box, on a disc that is in its cache.
fn raise_in<D: Disc, T: Tapes>(
    alloc: Global,
    place: EmptyBox<D, T>,
    disc: CachedDisc<D>,
    tapes: KnownReels<T>,
    rise: Rise,
) -> Result<Raised<D, T>, Refused<D, T>>
    requires size { (2177 < (D.state disc.disc).size) × ((D.state disc.disc).size ≤ 1048576) }
    ensures ok { IfOk result (λ r. Raises rise (D.state disc.disc) (T.rack tapes) r.store r.made) }
    ensures refused { IfErr result (λ e. MakesNone rise (D.state disc.disc) (T.rack tapes) e.fault (D.state e.disc) (T.rack e.tapes)) }
{
    match made_by(alloc, disc, tapes, rise) {
        Ok((store, made)) => Ok(Raised {
            store: place.filled(store),
            made,
        }),
        Err(refused) => {
            place.discard();
            let Refused { fault, disc, tapes } = refused;
            Err(Refused {
                fault,
                disc: disc.into_disc(),
                tapes,
            })
        }
    }
}

/// A store, and the line that reports it, if there is memory for the line.
fn made_by<D: Disc, T: Tapes>(
    alloc: Global,
    disc: CachedDisc<D>,
    tapes: KnownReels<T>,
    rise: Rise,
) -> Result<(Store<CachedDisc<D>, T>, Result<Text, NoMemory>), Refused<CachedDisc<D>, T>>
    requires size { (2177 < (D.state disc.disc).size) × ((D.state disc.disc).size ≤ 1048576) }
    ensures ok { IfOk result (λ p. Raises rise (D.state disc.disc) (T.rack tapes) p.0 p.1) }
    ensures refused { IfErr result (λ e. RefusesRise rise (D.state disc.disc) (T.rack tapes) e.fault (D.state e.disc.disc) (T.rack e.tapes)) }
{
    match rise {
        Rise::Format => match format(alloc, disc, tapes) {
            Ok(store) => Ok((store, Text::from_slice(alloc, b"FORMATTED"))),
            Err(refused) => Err(refused),
        },
        Rise::Start => match start(alloc, disc, tapes) {
            Ok((store, adopted)) => Ok((store, started_text(alloc, adopted))),
            Err(refused) => Err(refused),
        },
        Rise::Restore => match restore(alloc, disc, tapes) {
            Ok((store, number)) => Ok((store, restored(alloc, number))),
            Err(refused) => Err(refused),
        },
    }
}

/// Allocates what a system needs to be brought up: a box for its store, and a cache for its disc. If memory runs out the
/// disc is returned unchanged.
fn box_and_cache<D: Disc, T: Tapes>(
    alloc: Global,
    disc: D,
) -> Result<(EmptyBox<D, T>, CachedDisc<D>), D>
    ensures empty { IfOk result (λ p. p.1 ≡ cached_with disc []) }
    ensures unchanged { IfErr result (λ d. d ≡ disc) }
{
    match EmptyBox::new(alloc) {
        Ok(place) => match CachedDisc::new(alloc, disc) {
            Ok(disc) => Ok((place, disc)),
            Err((_, disc)) => {
                place.discard();
                Err(disc)
            }
        },
        Err(NoMemory) => Err(disc),
    }
}

/// The system is up: each user's accounts open, and the line that reports it is written.
fn comes_up<K: Sink, D: Disc, T: Tapes>(
    alloc: Global,
    raised: Raised<D, T>,
    crew: Crew,
    count: u64,
    out: &mut K,
) -> Ended<D, T>
    requires running { raised.store.spent ≡ false }
    ensures day { result.day ≡ seen (system.Up raised.store) result.day.crew count }
    ensures opened { result.failure ≡ None → Opens raised.store.online.contents.users crew result.day.crew }
    ensures put { (what : List ℕ) → IfOk raised.made (λ t. t ≡ what)
        → Puts result.failure (operator_line count what) (K.written out.old) (K.written out.new) (K.faults out.old) (K.faults out.new) }
{
    let Raised { store, made } = raised;
    let mut crew = crew;
    match crew.open_accounts(store.users()) {
        Ok(()) => {
            let day = Day {
                system: System::Up(store),
                crew,
                count,
            };
            told(alloc, day, made, out)
        }
        Err(NoMemory) => Ended {
            day: Day {
                system: System::Up(store),
                crew,
                count,
            },
            failure: Some(Failure::Memory),
        },
    }
}

/// The text that reports a RESTORE.
fn restored(alloc: Global, number: u64) -> Result<Text, NoMemory>
    ensures { IfOk result (λ text. text ≡ codes "RESTORED FROM DUMP " ++ decimal number) }
{
    let mut text = Text::from_slice(alloc, b"RESTORED FROM DUMP ")?;
    let digits = number.to_string(alloc)?;
    text.extend(digits.as_bytes())?;
    Ok(text)
}
