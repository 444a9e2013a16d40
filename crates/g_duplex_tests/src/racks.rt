//! Two racks in memory with the empty reel 1 of eight blocks, and their pair.
ghost use Rattle.std.specs.Prelude.{◌≡◌, ◌≤◌, [], ◌∷◌, IfOk};
ghost use Rattle.g_tape.specs.Memory.{rack_of};
ghost use Rattle.g_tape.specs.Reel.{empty_reel};

use g_base::NoMemory;
use g_duplex::{Duplex, DuplexFault, Standing, Twin};
use g_tape::{MemoryTapes, TapeLeave, Tapes};
use std::alloc::Global;

/// A rack of the empty reel 1 of eight blocks, whose reads with these numbers fail. A failing write leaves the new block.
pub fn rack(alloc: Global, fail: &[u64]) -> Result<MemoryTapes, NoMemory>
    ensures { IfOk result (λ tapes. (rack_of tapes).reels ≡ empty_reel 1 8 ∷ []) }
{
    let mut labels = Vec::with_capacity(alloc, 1)?;
    labels.push((1, 8))?;
    let mut tapes = MemoryTapes::new(alloc, labels)?;
    tapes.set_leave(TapeLeave::Whole);
    tapes.fail_reads(fail.to_vec(alloc)?);
    Ok(tapes)
}

/// The same rack, armed so that its k-th next write fails.
pub fn armed(alloc: Global, k: u32) -> Result<MemoryTapes, NoMemory>
    requires { 1 ≤ k }
    ensures { IfOk result (λ tapes. (rack_of tapes).reels ≡ empty_reel 1 8 ∷ []) }
{
    let mut tapes = rack(alloc, &[])?;
    tapes.arm(k);
    Ok(tapes)
}

/// The pair of two such racks, whose reel is mounted.
pub fn pair(first: MemoryTapes, second: MemoryTapes, lost: &[(u32, Twin)]) -> Duplex<MemoryTapes>
    requires first { (rack_of first).reels ≡ empty_reel 1 8 ∷ [] }
    requires second { (rack_of second).reels ≡ empty_reel 1 8 ∷ [] }
{
    let mut pair = Duplex::new(first, second, lost);
    let _mounted = pair.mount(1);
    pair
}

/// Rebuilds the lost twin of the reel; `None` if none is lost.
pub fn rebuild(pair: &mut Duplex<MemoryTapes>) -> Option<Result<(), DuplexFault>> {
    let Some(standing) = pair.standing(1) else {
        return None;
    };
    match standing {
        Standing::Lost(twin) => Some(pair.rebuild_twin(1, twin)),
        Standing::Level | Standing::Apart(_) => None,
    }
}
