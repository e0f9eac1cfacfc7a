//! The ends of a ring, made before a test goes on.
ghost use Rattle.std.specs.Prelude.{◌<◌, ◌≤◌};

use std::alloc::Global;
use std::process::Abort;
use std::time::Duration;
use wcp_ring::{Bell, RingPutter, RingTaker, Sleeper, ring};

/// Both ends of a ring, and the sleeper of the thread that has one of them.
#[derive(Drop)]
pub struct Ends {
    pub putter: RingPutter,
    pub taker: RingTaker,
    pub sleeper: Sleeper,
}

/// A ring with room for so many notes, of which neither end rings a bell.
fn silent(rt: &impl Abort, alloc: Global, cap: u32) -> Ends
    requires some { 0 < cap }
    requires within { cap ≤ 1024 }
{
    let (putter, taker) = ring(alloc, cap).expect(rt, "memory");
    let sleeper = Sleeper::new(alloc).expect(rt, "memory");
    Ends {
        putter,
        taker,
        sleeper,
    }
}

/// A bell of this sleeper.
pub fn bell_of(rt: &impl Abort, sleeper: &Sleeper) -> Bell {
    sleeper.bell().expect(rt, "memory")
}

/// A ring with room for so many notes, by whose bell the taker wakes.
pub fn for_a_taker_that_sleeps(rt: &impl Abort, alloc: Global, cap: u32) -> Ends
    requires some { 0 < cap }
    requires within { cap ≤ 1024 }
{
    let ends = silent(rt, alloc, cap);
    Ends {
        putter: ends.putter.with_bell(bell_of(rt, &ends.sleeper)),
        ..ends
    }
}

/// A ring with room for so many notes, by whose bell the taker wakes, which naps for so long before it sleeps.
pub fn for_a_taker_that_naps(rt: &impl Abort, alloc: Global, cap: u32, nap: Duration) -> Ends
    requires some { 0 < cap }
    requires within { cap ≤ 1024 }
{
    let ends = for_a_taker_that_sleeps(rt, alloc, cap);
    Ends {
        sleeper: ends.sleeper.napping(nap),
        ..ends
    }
}

/// A ring with room for so many notes, by whose bell the putter wakes.
pub fn for_a_putter_that_sleeps(rt: &impl Abort, alloc: Global, cap: u32) -> Ends
    requires some { 0 < cap }
    requires within { cap ≤ 1024 }
{
    let ends = silent(rt, alloc, cap);
    Ends {
        taker: ends.taker.with_bell(bell_of(rt, &ends.sleeper)),
        ..ends
    }
}
