//! The most work that can remain, for any devices.
ghost use Rattle.std.specs.Prelude.{◌≤◌};
ghost use Rattle.g_day.specs.System.{facts_of};
ghost use Rattle.g_ticks.specs.Tick.{dump_left, left};

use g_day::{Day, System};
use g_disc::Disc;
use g_tape::Tapes;

/// States that at most this many ticks of work remain: 64 jobs have at most 1,000,000 units each, and an open dump has fewer than 2^32
/// blocks. Nothing is done.
pub fn remaining_ticks_fit<D: Disc, T: Tapes>(day: &Day<D, T>)
    ensures { left day.now ≤ 4358967360 }
{
    let _jobs = day.crew.jobs();
    dump_is_short(&day.system);
}

/// States the same for an open dump.
fn dump_is_short<D: Disc, T: Tapes>(system: &System<D, T>)
    ensures { dump_left (facts_of D.state T.rack system.now) ≤ 4294967296 }
{
    match system {
        System::Up(store) => {
            let _blocks = store.dump_blocks();
        }
        System::Down(_, _) => {}
    }
}
