//! A note that comes out of its place.
ghost use Rattle.std.specs.Prelude.{◌≡◌, false, ◌∷◌, [], IfOk, length};
ghost use Rattle.std.specs.FinSet as set;
ghost use Rattle.wcp_relay.specs.declared.feed.Feed.{Feed};

use super::comparing::assert_same;
use super::watches::run_relay;
use std::alloc::{AllocError, Global};
use std::process::Abort;
use wcp_clock::{Clock, Note};
use wcp_lane::{Members, Putter, Taker, lane};
use wcp_model::Parent;
use wcp_ring::{RingPutter, Sleeper, ring};
use wcp_tree::{Bundle, Feed, Relay, RelayFault, leaf_relay};

/// A lane of bundles with one putter, of just process 0.
fn lane_of_one(rt: &impl Abort, alloc: Global) -> (Putter<Bundle>, Taker<Bundle>)
    ensures members { result.0.members ≡ set.insert set.empty 0 }
    ensures none_put { result.0.put ≡ [] }
{
    let Ok((mut putters, taker)) = lane(alloc, 8, &[Members::none().with(0)]) else {
        panic!(rt; "no lane");
    };
    let Some(putter) = putters.pop() else {
        panic!(rt; "no putter");
    };
    (putter, taker)
}

/// The end of a new ring that puts, and the feed of process 0 over it.
fn feed_of_one(alloc: Global) -> Result<(RingPutter, Vec<Feed>), AllocError>
    ensures { IfOk result (λ ends. (feed : Feed) × (ends.1.items ≡ feed ∷ []) × (feed.process ≡ 0)
        × (feed.next ≡ 0) × (feed.ended ≡ false) × (feed.lost ≡ false) × (length feed.taker.taken ≡ 0)) }
{
    let (putter, taker) = ring(alloc, 8)?;
    let mut feeds = Vec::with_capacity(alloc, 1)?;
    feeds.push(Feed::new(0, taker))?;
    Ok((putter, feeds))
}

/// A leaf, and the end of its one ring that puts.
#[derive(Drop)]
struct Leaf {
    ring: RingPutter,
    relay: Relay,
}

/// The leaf of process 0, over a new ring, that puts into a lane of its own.
fn leaf_of_one(rt: &impl Abort, alloc: Global, putter: Putter<Bundle>) -> Leaf
    requires members { putter.members ≡ set.insert set.empty 0 }
    requires none_put { putter.put ≡ [] }
{
    let Ok((ring, feeds)) = feed_of_one(alloc) else {
        panic!(rt; "no ring");
    };
    let sleeper = Sleeper::new(alloc).expect(rt, "memory");
    let relay = leaf_relay(alloc, 0, 7, Parent::Root, 4, feeds, sleeper, putter);
    Leaf {
        ring,
        relay: relay.expect(rt, "memory"),
    }
}

/// Puts a second snapshot of a process of which no first one was put.
fn put_second(rt: &impl Abort, ring: &mut RingPutter) {
    let clock = Clock::new(1);
    assert!(rt; ring.try_put(Note::Snap { number: 1, clock }).is_ok());
}

#[test]
fn a_snapshot_out_of_its_place_is_a_gap(rt: HostRuntime) {
    let (putter, taker) = lane_of_one(&rt, rt.alloc());
    let Leaf { mut ring, relay } = leaf_of_one(&rt, rt.alloc(), putter);
    put_second(&rt, &mut ring);
    assert_same(&rt, run_relay(&rt, relay), Some(RelayFault::Gap(0)));
    drop(taker);
}
