//! The store, and the facts about it that need no device.
ghost use Rattle.std.specs.Prelude.{◌≡◌, ◌≤◌, ℕ, List, false, true, Some, None, is_some, option_map, unwrap_or};
ghost use Rattle.std.specs.FinMap as finmap;
ghost use Rattle.g_base.specs.Fuse.{armed_with};
ghost use Rattle.g_tape.specs.Rack.{is_mounted, reel};
ghost use Rattle.g_tree.specs.Records.{users_by_name};
ghost use Rattle.g_incr.specs.Plan.{needs};
ghost use Rattle.g_store_model.specs.State.{State};
ghost use Rattle.g_store_model.specs.CallStep.{down};
ghost use Rattle.g_store_meaning.specs.Meaning.{told_reels};
ghost use Rattle.g_store_meaning.specs.Reading.{DevicesStandFor, StandsForState};
ghost use Rattle.g_store.specs.Arming.{MeansTheSame};

use g_disc::Disc;
use g_dumper::Dump;
use g_entry::UserRec;
use g_known::KnownReels;
use g_name::User;
use g_online::Online;
use g_tape::Tapes;
use std::marker::Model;

/// A disc with its filestore in memory, the rack of reels with its dumps, and the open dump, if any. Contracts see what is
/// in memory and the state of the devices (`StoreFacts`, docs/DEFINITIONS.md).
///
/// After an answer `Stopped` the store is spent: its devices can be armed and taken out of it, and it accepts no other
/// call.
#[derive(Drop)]
pub struct Store<D: Disc, T: Tapes> {
    pub(crate) online: Online<D>,
    pub(crate) tapes: KnownReels<T>,
    pub(crate) dump: Option<Dump>,
    pub(crate) spent: bool,
}

impl<D: Disc, T: Tapes> Model for Store<D, T> {
    ghost use Rattle.g_store_meaning.specs.StoreInvariant.{StoreFacts};
    ghost use Rattle.g_store_meaning.specs.Answers.{IsStore};

    ghost Value = { StoreFacts };

    ghost view = { λ s. record { online = s.online; rack = T.rack s.tapes; dump = s.dump; spent = s.spent } };

    ghost invariant = { λ s. IsStore (record { online = s.online; rack = T.rack s.tapes; dump = s.dump; spent = s.spent }) };
}

impl<D: Disc, T: Tapes> Store<D, T> {
    /// Whether a call was stopped.
    pub fn spent(&self) -> bool
        ensures { result ≡ self.now.spent }
    {
        self.spent
    }

    /// The number of the open dump, or None if none is open.
    pub fn dump_number(&self) -> Option<u64>
        ensures { result ≡ option_map (λ d. d.plan.number) self.now.dump }
    {
        match &self.dump {
            Some(dump) => Some(dump.number()),
            None => None,
        }
    }

    /// The number of tape blocks that the open dump takes, 0 if none is open.
    pub fn dump_blocks(&self) -> u32
        ensures { result ≡ unwrap_or (option_map (λ d. needs d.plan) self.now.dump) 0 }
    {
        match &self.dump {
            Some(dump) => dump.needs(),
            None => 0,
        }
    }

    /// Whether the reel exists and is mounted.
    pub fn mounted(&self, serial: u32) -> bool
        ensures { result ≡ is_mounted (reel serial self.now.rack.reels) }
    {
        self.tapes.mounted(serial)
    }

    /// All users in order of number.
    pub fn users(&self) -> &[UserRec]
        requires running { self.now.spent ≡ false }
        ensures { result.now ≡ self.now.online.contents.users }
    {
        self.online.tree().users()
    }

    /// The units of TIME in a user's budget, or None if there is no such user.
    pub fn user_time(&self, user: &User) -> Option<u64>
        requires running { self.now.spent ≡ false }
        ensures { result ≡ option_map (λ u. u.time)
            (finmap.get (users_by_name self.now.online.contents.users) user.now) }
    {
        match self.online.tree().user(user) {
            Some(user) => Some(user.time),
            None => None,
        }
    }

    /// The units of MONEY in a user's budget, or None if there is no such user.
    pub fn user_money(&self, user: &User) -> Option<u64>
        requires running { self.now.spent ≡ false }
        ensures { result ≡ option_map (λ u. u.money)
            (finmap.get (users_by_name self.now.online.contents.users) user.now) }
    {
        match self.online.tree().user(user) {
            Some(user) => Some(user.money),
            None => None,
        }
    }

    /// Arms the disc, so that its `k`-th next write fails. Nothing else changes.
    pub fn arm_disc(&mut self, k: u32)
        requires { 1 ≤ k }
        ensures armed { self.new ≡ record self.old {
          online = record self.old.online {
            disc = record self.old.online.disc
                { fuse = Some k; arms = armed_with k self.old.online.disc.writes self.old.online.disc.arms };
          };
        } }
        ensures same { MeansTheSame self.old self.new }
    {
        self.online.arm(k);
    }

    /// Arms the tapes, so that their `k`-th next write that isn't refused fails. Nothing else changes.
    pub fn arm_tape(&mut self, k: u32)
        requires { 1 ≤ k }
        ensures armed { self.new ≡ record self.old {
          rack = record self.old.rack { fuse = Some k; arms = armed_with k self.old.rack.write_faults self.old.rack.arms };
        } }
        ensures same { MeansTheSame self.old self.new }
    {
        self.tapes.arm(k);
    }

    /// Both devices in their current state, also from a spent store, with what is known of the reels.
    pub fn into_devices(self) -> (D, KnownReels<T>)
        ensures disc { D.state result.0 ≡ self.online.disc }
        ensures tapes { T.rack result.1 ≡ self.rack }
        // If the disc exposes its contents, they represent the state of the store after going down.
        ensures down { is_some self.online.disc.held ≡ true → self.spent ≡ false → (s : State)
            → StandsForState self s
            → DevicesStandFor self.online.disc.size self.online.disc.held (told_reels self.rack) (down s) }
        ensures spent { self.spent ≡ true → (s : State) → StandsForState self s
            → DevicesStandFor self.online.disc.size self.online.disc.held (told_reels self.rack) s }
    {
        (self.online.into_disc(), self.tapes)
    }
}
