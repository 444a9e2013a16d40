//! The results of a cached disc on a disc in memory whose calls are set to fail.
ghost use Rattle.std.specs.Prelude.{◌≡◌, IfOk};

use crate::discs::{read_back, write_filled};
use g_base::NoMemory;
use g_cache::CachedDisc;
use g_disc::{Disc, MemoryDisc};
use std::alloc::Global;
use std::process::Abort;

fn cached(alloc: Global, disc: MemoryDisc) -> Result<CachedDisc<MemoryDisc>, NoMemory>
    ensures { IfOk result (λ c. c.disc ≡ disc) }
{
    match CachedDisc::new(alloc, disc) {
        Ok(cached) => Ok(cached),
        Err((no_memory, _disc)) => Err(no_memory),
    }
}

#[test]
fn ample(rt: HostRuntime) {
    let mut disc = cached(
        rt.alloc(),
        MemoryDisc::new(rt.alloc(), 70).expect(&rt, "memory"),
    )
    .expect(&rt, "memory");
    assert!(rt; disc.size() == 70);
    for x in 0..70u8 {
        write_filled(&rt, &mut disc, u32::from(x), x).expect(&rt, "a write");
        assert!(rt; read_back(&rt, &mut disc, u32::from(x)) == Ok((x, x)));
    }
    // More blocks than the cache holds.
    for x in 0..70u8 {
        assert!(rt; read_back(&rt, &mut disc, u32::from(x)) == Ok((x, x)));
    }
    let mut below = disc.into_disc();
    assert!(rt; read_back(&rt, &mut below, 69) == Ok((69, 69)));
}

#[test]
fn a_second_read_asks_no_disc(rt: HostRuntime) {
    let mut below = MemoryDisc::new(rt.alloc(), 2).expect(&rt, "memory");
    below.fail_reads([2].to_vec(rt.alloc()).expect(&rt, "memory"));
    let mut disc = cached(rt.alloc(), below).expect(&rt, "memory");
    assert!(rt; read_back(&rt, &mut disc, 1) == Ok((0, 0)));
    assert!(rt; read_back(&rt, &mut disc, 1) == Ok((0, 0)));
    // The read of another block goes to the disc, at its second read.
    assert!(rt; read_back(&rt, &mut disc, 0).is_err());
    assert!(rt; read_back(&rt, &mut disc, 0) == Ok((0, 0)));
}
