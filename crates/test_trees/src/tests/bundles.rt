ghost use Rattle.std.specs.Prelude.{◌≡◌, ◌+◌, false, true, [], ◌∷◌, IfOk, IsTrue};
ghost use Rattle.wcp_clock.specs.Notes.{place_of, is_last};
ghost use Rattle.wcp_relay.specs.Bundles.{Continues};
ghost use Rattle.test_trees.specs.BundleLanes.{HasPut};

use super::comparing::assert_same;
use std::alloc::Global;
use std::process::Abort;
use std::sync::Wait;
use std::test::Fail;
use wcp_clock::{Clock, Item, Note};
use wcp_lane::{LaneFault, Members, Putter, Taker, lane, reconcile};
use wcp_tree::Bundle;

/// The close mark of process 0, which emitted so many snapshots.
fn close_mark(count: u32) -> Item
    ensures from { result.from ≡ 0 }
    ensures place { place_of result.note ≡ count }
{
    Item {
        from: 0,
        note: Note::Close { count },
    }
}

/// Snapshot `number` of process `from`.
fn snap(from: u32, number: u32) -> Item
    ensures from { result.from ≡ from }
    ensures place { place_of result.note ≡ number }
    ensures unended { is_last result.note ≡ false }
{
    let clock = Clock::new(2);
    Item {
        from,
        note: Note::Snap { number, clock },
    }
}

/// The item joins the bundle.
fn joins(rt: &impl Abort, bundle: &mut Bundle, item: Item) {
    assert!(rt; bundle.add(item).is_ok());
}

/// The item doesn't join the bundle, and comes back.
fn stays_out(rt: &impl Abort, bundle: &mut Bundle, item: &Item) {
    assert_same(rt, bundle.add(*item).err(), Some(*item));
}

#[test]
fn who_may_join_a_bundle(rt: HostRuntime) -> Result<(), Fail> {
    let mut bundle = Bundle::one(snap(0, 3));
    joins(&rt, &mut bundle, snap(0, 4));
    stays_out(&rt, &mut bundle, &snap(1, 5));
    stays_out(&rt, &mut bundle, &snap(0, 6));
    joins(&rt, &mut bundle, close_mark(5));
    stays_out(&rt, &mut bundle, &snap(0, 5));
    assert_same(&rt, bundle.len(), 3);
    assert_same(&rt, bundle.get(2), Some(close_mark(5)));
    assert_same(&rt, bundle.get(3), None);
    Ok(())
}

/// A lane of bundles with one putter, of process 0.
fn lane_of_bundles(alloc: Global) -> Result<(Putter<Bundle>, Taker<Bundle>), LaneFault>
    ensures lane { IfOk result (λ ends. ends.0.lane ≡ ends.1.lane) }
    ensures new { IfOk result (λ ends. HasPut 0 ends.0) }
{
    let (mut putters, taker) = lane(alloc, 1, &[Members::none().with(0)])?;
    let Some(putter) = putters.pop() else {
        return Err(LaneFault::MemberSets);
    };
    Ok((putter, taker))
}

/// A bundle of two items.
fn pair(first: Item, second: Item) -> Bundle
    requires { Continues first second }
    ensures { result ≡ first ∷ second ∷ [] }
{
    let mut pair = Bundle::one(first);
    match pair.add(second) {
        Ok(()) => pair,
        Err(_) => unreachable!(),
    }
}

/// Puts snapshot `number` of process 0 and its next item as one bundle: whether the lane took it.
fn put_pair<R: Wait>(rt: &R, putter: &mut Putter<Bundle>, number: u32, second: Item) -> bool
    requires put { HasPut number putter.old }
    requires from { second.from ≡ 0 }
    requires place { place_of second.note ≡ number + 1 }
    ensures lane { putter.new.lane ≡ putter.old.lane }
    ensures put { IsTrue result → is_last second.note ≡ false → HasPut (number + 2) putter.new }
{
    match putter.put(rt, pair(snap(0, number), second)) {
        Ok(()) => true,
        Err(_) => false,
    }
}

/// Takes a bundle, which is of just these items.
fn assert_takes(
    rt: &(impl Abort + Wait),
    taker: &mut Taker<Bundle>,
    items: &[Item],
) -> Result<(), Fail>
    ensures { taker.new.lane ≡ taker.old.lane }
{
    let taken = taker.take(rt)?;
    assert_same(rt, taken.items(), items);
    Ok(())
}

#[test]
fn two_bundles_over_a_lane_for_one(rt: HostRuntime) -> Result<(), Fail> {
    let (mut putter, mut taker) = lane_of_bundles(rt.alloc())?;
    let put = put_pair(&rt, &mut putter, 0, snap(0, 1));
    assert!(rt; put);
    assert_takes(&rt, &mut taker, [snap(0, 0), snap(0, 1)].as_slice())?;
    let put = put_pair(&rt, &mut putter, 2, close_mark(3));
    assert!(rt; put);
    assert_takes(&rt, &mut taker, [snap(0, 2), close_mark(3)].as_slice())?;
    let receipt = reconcile(taker.end(), putter.end())?;
    assert!(rt; receipt.matched(0));
    Ok(())
}
