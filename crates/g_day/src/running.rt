//! A store that is up, in its box.
ghost use Rattle.std.specs.Prelude.{◌≡◌, ◌≤◌, None, Some, false, is_some, option_map, true, unwrap_or};
ghost use Rattle.std.specs.FinMap as finmap;
ghost use Rattle.g_base.specs.Fuse.{armed_with};
ghost use Rattle.g_tape.specs.Rack.{is_mounted, reel};
ghost use Rattle.g_tree.specs.Records.{users_by_name};
ghost use Rattle.g_incr.specs.Plan.{needs};
ghost use Rattle.g_store_model.specs.State.{State};
ghost use Rattle.g_store_model.specs.CallStep.{down};
ghost use Rattle.g_store_meaning.specs.Meaning.{told_reels};
ghost use Rattle.g_store_meaning.specs.Reading.{DevicesStandFor, StandsForState};
ghost use Rattle.g_dumper.specs.Steps.{stepped_of};
ghost use Rattle.g_process.specs.Processing.{Processes};
ghost use Rattle.g_store.specs.Arming.{MeansTheSame};
ghost use Rattle.g_store.specs.Dumping.{KeepsDumps, KeepsDumpsSafe, OpensDump, Progresses, RefusesDump, StepsAs};
ghost use Rattle.g_store.specs.Events.{Migrates, Mounts, Opens, StepsDump, Unmounts};
ghost use Rattle.g_store.specs.Processing.{MovesDumps, StepsProcess};
ghost use Rattle.g_tape.specs.Rack.{AreReels};

use g_base::NoMemory;
use g_cache::CachedDisc;
use g_disc::Disc;
use g_dumper::DumpStep;
use g_entry::UserRec;
use g_known::KnownReels;
use g_name::{Full, Path, User};
use g_plain::{Filestore, StoreCall, StoreFault, StoreReply};
use g_store::Store;
use g_tape::Tapes;
use std::alloc::{AllocFailed, Global};
use std::marker::Model;

/// A box for a store that is up, allocated before there is one.
#[derive(Drop)]
pub struct EmptyBox<D: Disc, T: Tapes> {
    place: Box<Option<Store<CachedDisc<D>, T>>>,
    ghost empty: { place.value ≡ None },
}

impl<D: Disc, T: Tapes> EmptyBox<D, T> {
    /// Allocates a box, if there is memory for it.
    pub fn new(alloc: Global) -> Result<EmptyBox<D, T>, NoMemory> {
        match Box::new(alloc, None) {
            Ok(place) => Ok(EmptyBox { place }),
            Err(AllocFailed { value }) => {
                drop_none(value);
                Err(NoMemory)
            }
        }
    }

    /// The store in the box.
    pub fn filled(self, store: Store<CachedDisc<D>, T>) -> Running<D, T>
        ensures { result ≡ store }
    {
        let mut place = self.place;
        drop_none(Box::replace(&mut place, Some(store)));
        Running { store: place }
    }

    /// Frees the box.
    pub fn discard(self) {
        drop_none(Box::into_inner(self.place));
    }
}

/// Drops no store.
fn drop_none<D: Disc, T: Tapes>(none: Option<Store<CachedDisc<D>, T>>)
    requires { none ≡ None }
{
    match none {
        None => {}
        Some(_store) => unreachable!(),
    }
}

/// A store that is up, with a cache in front of its disc, which is empty when the system comes up. It is boxed, since it is
/// large and a run passes it on at every tick; only a pointer moves. Contracts see the store; its calls are those of
/// `Store`.
#[derive(Drop)]
pub struct Running<D: Disc, T: Tapes> {
    store: Box<Option<Store<CachedDisc<D>, T>>>,
}

impl<D: Disc, T: Tapes> Model for Running<D, T> {
    ghost use Rattle.std.specs.Prelude.{◌≡◌, true, is_some};
    ghost use Rattle.g_store_meaning.specs.StoreInvariant.{StoreFacts};
    ghost use Rattle.g_day.specs.Box.{boxed};

    ghost Value = { StoreFacts };

    ghost view = { λ r. boxed r.store.value };

    ghost invariant = { λ r. is_some r.store.value ≡ true };
}

impl<D: Disc, T: Tapes> Running<D, T> {
    /// The store.
    fn inner(&self) -> &Store<CachedDisc<D>, T>
        ensures { result.now ≡ self.now }
    {
        match &*self.store {
            Some(store) => store,
            None => unreachable!(),
        }
    }

    /// Whether a call was stopped.
    pub fn spent(&self) -> bool
        ensures { result ≡ self.now.spent }
    {
        self.inner().spent()
    }

    /// The number of the open dump, or None if none is open.
    pub fn dump_number(&self) -> Option<u64>
        ensures { result ≡ option_map (λ d. d.plan.number) self.now.dump }
    {
        self.inner().dump_number()
    }

    /// The number of tape blocks that the open dump takes, 0 if none is open.
    pub fn dump_blocks(&self) -> u32
        ensures { result ≡ unwrap_or (option_map (λ d. needs d.plan) self.now.dump) 0 }
    {
        self.inner().dump_blocks()
    }

    /// Whether the reel exists and is mounted.
    pub fn mounted(&self, serial: u32) -> bool
        ensures { result ≡ is_mounted (reel serial self.now.rack.reels) }
    {
        self.inner().mounted(serial)
    }

    /// All users in order of number.
    pub fn users(&self) -> &[UserRec]
        requires running { self.now.spent ≡ false }
        ensures { result.now ≡ self.now.online.contents.users }
    {
        self.inner().users()
    }

    /// The units of TIME in a user's budget, or None if there is no such user.
    pub fn user_time(&self, user: &User) -> Option<u64>
        requires running { self.now.spent ≡ false }
        ensures { result ≡ option_map (λ u. u.time)
            (finmap.get (users_by_name self.now.online.contents.users) user.now) }
    {
        self.inner().user_time(user)
    }

    /// Arms the disc, so that its `k`-th next write fails. Nothing else changes.
    pub fn arm_disc(&mut self, k: u32)
        requires { 1 ≤ k }
        ensures armed { self.new ≡ record self.old {
          online = record self.old.online {
            disc = record self.old.online.disc
                { fuse = Some k; arms = armed_with k self.old.online.disc.writes self.old.online.disc.arms };
          };
        } }
        ensures same { MeansTheSame self.old self.new }
    {
        match &mut *self.store {
            Some(store) => store.arm_disc(k),
            None => unreachable!(),
        }
    }

    /// Arms the tapes, so that their `k`-th next write that isn't refused fails. Nothing else changes.
    pub fn arm_tape(&mut self, k: u32)
        requires { 1 ≤ k }
        ensures armed { self.new ≡ record self.old {
          rack = record self.old.rack { fuse = Some k; arms = armed_with k self.old.rack.write_faults self.old.rack.arms };
        } }
        ensures same { MeansTheSame self.old self.new }
    {
        match &mut *self.store {
            Some(store) => store.arm_tape(k),
            None => unreachable!(),
        }
    }

    /// Mounts the reel: `NoTape`.
    pub fn mount(&mut self, serial: u32) -> Result<(), StoreFault>
        requires running { self.old.spent ≡ false }
        ensures { Mounts serial self.old result self.new }
    {
        match &mut *self.store {
            Some(store) => store.mount(serial),
            None => unreachable!(),
        }
    }

    /// Unmounts the reel: `NoTape`, `NotMounted`, `TapeBusy`.
    pub fn unmount(&mut self, serial: u32) -> Result<(), StoreFault>
        requires running { self.old.spent ≡ false }
        ensures { Unmounts serial self.old result self.new }
    {
        match &mut *self.store {
            Some(store) => store.unmount(serial),
            None => unreachable!(),
        }
    }

    /// Opens a dump on the reel and returns its number, with the refusals of a store.
    pub fn open_dump(&mut self, alloc: Global, serial: u32) -> Result<u64, StoreFault>
        requires running { self.old.spent ≡ false }
        ensures event { Opens serial self.old result self.new }
        ensures begins { OpensDump serial self.old result self.new }
        ensures refuses { RefusesDump serial self.old result self.new }
    {
        match &mut *self.store {
            Some(store) => store.open_dump(alloc, serial),
            None => unreachable!(),
        }
    }

    /// Writes the next block of the open dump to its reel, with the answers of a store.
    pub fn dump_step(&mut self) -> Result<DumpStep, StoreFault>
        requires running { self.old.spent ≡ false }
        requires open { is_some self.old.dump ≡ true }
        ensures event { StepsDump self.old (stepped_of result) self.new }
        ensures steps { StepsAs self.old (stepped_of result) self.new }
        ensures progress { Progresses self.old (stepped_of result) self.new }
        ensures dumps { KeepsDumps self.old (stepped_of result) self.new }
        ensures safe { KeepsDumpsSafe self.old (stepped_of result) self.new }
    {
        match &mut *self.store {
            Some(store) => store.dump_step(),
            None => unreachable!(),
        }
    }

    /// Writes all versions to the reel, releases the others, and returns the number of the dump, with the refusals of a
    /// store.
    pub fn process(&mut self, alloc: Global, serial: u32) -> Result<u64, StoreFault>
        requires running { self.old.spent ≡ false }
        ensures processes { Processes serial self.old result self.new }
        ensures step { StepsProcess serial self.old result self.new }
        ensures dumps { MovesDumps self.old self.new }
        ensures reels { AreReels self.old.rack.reels }
    {
        match &mut *self.store {
            Some(store) => store.process(alloc, serial),
            None => unreachable!(),
        }
    }

    /// Takes the file that the operator's path names off the disc, with the refusals of a store.
    pub fn migrate(&mut self, alloc: Global, path: &Path) -> Result<Full, StoreFault>
        requires running { self.old.spent ≡ false }
        ensures { Migrates path.now self.old result self.new }
    {
        match &mut *self.store {
            Some(store) => store.migrate(alloc, path),
            None => unreachable!(),
        }
    }

    /// Both devices in their current state, the disc in its cache, also from a spent store.
    pub fn into_devices(self) -> (CachedDisc<D>, KnownReels<T>)
        ensures disc { D.state result.0.disc ≡ self.online.disc }
        ensures tapes { T.rack result.1 ≡ self.rack }
        // If the disc exposes its contents, they represent the state of the store after going down.
        ensures down { is_some self.online.disc.held ≡ true → self.spent ≡ false → (s : State)
            → StandsForState self s
            → DevicesStandFor self.online.disc.size self.online.disc.held (told_reels self.rack) (down s) }
        ensures spent { self.spent ≡ true → (s : State) → StandsForState self s
            → DevicesStandFor self.online.disc.size self.online.disc.held (told_reels self.rack) s }
    {
        match Box::into_inner(self.store) {
            Some(store) => store.into_devices(),
            None => unreachable!(),
        }
    }
}

impl<D: Disc, T: Tapes> Filestore for Running<D, T> {
    ghost use Rattle.std.specs.Prelude.{not};
    ghost use Rattle.g_tape.specs.Rack.{is_mounted, reel};
    ghost use Rattle.g_store_meaning.specs.Answers.{Answers};

    ghost is_spent = { λ s. s.spent };

    ghost can_wait = { λ s serial. not (is_mounted (reel serial s.rack.reels)) };

    ghost answers = { Answers };

    fn call(
        &mut self,
        alloc: Global,
        who: &User,
        call: &StoreCall,
    ) -> Result<StoreReply, StoreFault> {
        match &mut *self.store {
            Some(store) => store.call(alloc, who, call),
            None => unreachable!(),
        }
    }

    fn spent(&self) -> bool {
        self.inner().spent()
    }
}
