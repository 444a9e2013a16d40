//! The system that a run is on.
ghost use Rattle.std.specs.Prelude.{◌≡◌, false, is_some, true};
ghost use Rattle.g_store_model.specs.State.{State};
ghost use Rattle.g_store_model.specs.CallStep.{down};
ghost use Rattle.g_store_meaning.specs.Meaning.{told_reels};
ghost use Rattle.g_store_meaning.specs.Reading.{DevicesStandFor, StandsForState};

use crate::running::Running;
use g_disc::Disc;
use g_known::KnownReels;
use g_tape::Tapes;

/// The system: up, with a store on its devices, or down, with only the devices. What is known of the reels stays with them.
/// Contracts see it by `facts_of` (docs/DEFINITIONS.md, "g_day").
#[derive(Drop)]
pub enum System<D: Disc, T: Tapes> {
    Up(Running<D, T>),
    Down(D, KnownReels<T>),
}

/// Both devices in their current state, the disc without its cache, also from a spent store.
pub fn take_down<D: Disc, T: Tapes>(store: Running<D, T>) -> (D, KnownReels<T>)
    ensures disc { D.state result.0 ≡ store.online.disc }
    ensures tapes { T.rack result.1 ≡ store.rack }
    // If the disc exposes its contents, they represent the state of the store after going down.
    ensures down { is_some store.online.disc.held ≡ true → store.spent ≡ false → (s : State)
        → StandsForState store s
        → DevicesStandFor store.online.disc.size store.online.disc.held (told_reels store.rack) (down s) }
    ensures spent { store.spent ≡ true → (s : State) → StandsForState store s
        → DevicesStandFor store.online.disc.size store.online.disc.held (told_reels store.rack) s }
{
    let (disc, tapes) = store.into_devices();
    (disc.into_disc(), tapes)
}
