//! Two racks as one.
ghost use Rattle.std.specs.Prelude.{◌≡◌, None};
ghost use Rattle.g_base.specs.Fuse.{BurnsByFailures, never};
ghost use Rattle.g_duplex.specs.Pair.{ArePaired, ArePaired-prop, lost_of, standing_in};
ghost use Rattle.g_duplex.specs.Places.{standings_by};

use crate::places::{lost_among, place_of, standings_by};
use crate::standings::{LostTwins, Standings};
use crate::twin::{Standing, Twin};
use g_base::{Armings, Fuse};
use g_tape::Tapes;

/// Two racks with the same reels, as one rack. A reel has the blocks of the leading twin, and is mounted if each twin that isn't
/// lost is mounted.
#[derive(Drop)]
pub struct Duplex<T: Tapes> {
    pub(crate) first: T,
    pub(crate) second: T,
    pub(crate) standings: Standings,
    pub(crate) lost: LostTwins,
    pub(crate) read_faults: u64,
    pub(crate) write_faults: u64,
    pub(crate) fuse: Fuse,
    pub(crate) arms: Armings,
    ghost paired: { ArePaired standings (T.rack first).reels (T.rack second).reels } by { ArePaired-prop standings (T.rack first).reels (T.rack second).reels },
    ghost told: { lost ≡ lost_of (T.rack first).reels standings },
    ghost fused: { BurnsByFailures write_faults arms fuse },
}

/// Two racks that were used as one, and which of their reels were lost.
#[derive(Drop)]
pub struct Parts<T: Tapes> {
    pub first: T,
    pub second: T,
    /// The lost twins, by increasing serial.
    pub lost: LostTwins,
}

impl<T: Tapes> Duplex<T> {
    ghost use Rattle.g_duplex.specs.Meaning.{pair_of};

    /// Two racks as one, with these twins lost. Its counts begin at 0, whatever those of the racks are. It allocates nothing.
    pub fn new(first: T, second: T, lost: &[(u32, Twin)]) -> Duplex<T>
        requires { ArePaired (standings_by lost.now (T.rack first).reels) (T.rack first).reels (T.rack second).reels }
        ensures { pair_of result ≡ record {
          first = T.rack first;
          second = T.rack second;
          standings = standings_by lost.now (T.rack first).reels;
          read_faults = 0;
          write_faults = 0;
          fuse = None;
          arms = never;
        } }
    {
        let standings = standings_by(&first, lost);
        let lost = lost_among(&first, &standings);
        Duplex {
            first,
            second,
            standings,
            lost,
            read_faults: 0,
            write_faults: 0,
            fuse: Fuse::new(),
            arms: Armings::new(),
        }
    }

    /// The lost twins, by increasing serial.
    pub fn lost(&self) -> &[(u32, Twin)]
        ensures { result.now ≡ lost_of (pair_of self.now).first.reels (pair_of self.now).standings }
    {
        self.lost.as_slice()
    }

    /// The racks in their current state, and the lost twins.
    pub fn into_parts(self) -> Parts<T>
        ensures first { T.rack result.first ≡ (pair_of self).first }
        ensures second { T.rack result.second ≡ (pair_of self).second }
        ensures lost { result.lost ≡ lost_of (pair_of self).first.reels (pair_of self).standings }
    {
        Parts {
            first: self.first,
            second: self.second,
            lost: self.lost,
        }
    }

    /// The standing of the twins of a reel, if the racks have it.
    pub fn standing(&self, serial: u32) -> Option<Standing>
        ensures { result ≡ standing_in serial (pair_of self.now) }
    {
        match place_of(&self.first, serial) {
            Some(place) => Some(self.standings.get(place)),
            None => None,
        }
    }
}
