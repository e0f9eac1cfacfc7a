ghost use Rattle.std.specs.Prelude.{◌≡◌};
ghost use Rattle.wcp_lane.specs.Snapshots.{HasPut};

use super::lanes::{Three, assert_puts, lane_of_three};
use std::process::Abort;
use std::sync::Wait;
use std::thread::{Threads, join};
use wcp_clock::Item;
use wcp_lane::{PutReceipt, Putter, TakeReceipt, Taker, reconcile};

/// How many snapshots each putter puts.
const COUNT: u32 = 1000;

/// Puts snapshots of process `from`, and ends the putter.
fn put_all<R: Wait + Abort>(rt: &R, mut putter: Putter<Item>, from: u32) -> PutReceipt<Item>
    requires { HasPut from 0 putter }
    ensures { result.lane ≡ putter.lane }
{
    for number in 0..COUNT {
        assert_puts(rt, &mut putter, from, number);
    }
    putter.end()
}

/// Takes `count` items, and ends the taker.
fn take_all<R: Wait + Abort>(rt: &R, mut taker: Taker<Item>, count: u32) -> TakeReceipt<Item>
    ensures { result.lane ≡ taker.lane }
{
    for _ in 0..count {
        assert!(rt; taker.take(rt).is_ok());
    }
    taker.end()
}

/// One thread puts snapshots of process `from` while `rest` goes on; what that took is reconciled with them.
fn put_beside<R: Threads + Wait + Abort + Sync, F: FnOnce() -> TakeReceipt<Item>>(
    rt: &R,
    putter: Putter<Item>,
    from: u32,
    rest: F,
) -> TakeReceipt<Item>
    requires put { HasPut from 0 putter }
    requires rest { F.pre rest }
    requires lane { (taken : _) → F.post rest taken → taken.lane ≡ putter.lane }
    ensures { result.lane ≡ putter.lane }
{
    let (put, taken) = join(
        rt,
        move || -> PutReceipt<Item>
            requires { HasPut from 0 putter }
            ensures { result.lane ≡ putter.lane }
        { put_all(rt, putter, from) },
        rest,
    );
    reconcile(taken, put).expect(rt, "all was taken")
}

/// Two threads put and a third takes `count` items.
fn two_put<R: Threads + Wait + Abort + Sync>(
    rt: &R,
    first: Putter<Item>,
    second: Putter<Item>,
    taker: Taker<Item>,
    count: u32,
) -> TakeReceipt<Item>
    requires put { HasPut 0 0 first × HasPut 1 0 second }
    requires lane { (first.lane ≡ taker.lane) × (second.lane ≡ taker.lane) }
    ensures { result.lane ≡ taker.lane }
{
    let put_second = move || -> TakeReceipt<Item>
        requires { HasPut 1 0 second × (second.lane ≡ taker.lane) }
        ensures { result.lane ≡ taker.lane }
    {
        let take = move || -> TakeReceipt<Item>
            ensures { result.lane ≡ taker.lane }
        { take_all(rt, taker, count) };
        put_beside(rt, second, 1, take)
    };
    put_beside(rt, first, 0, put_second)
}

/// Three threads put and a fourth takes.
fn three_put<R: Threads + Wait + Abort + Sync>(rt: &R, ends: Three) -> TakeReceipt<Item>
    requires put { HasPut 0 0 ends.first × HasPut 1 0 ends.second × HasPut 2 0 ends.third }
    requires lane { (ends.first.lane ≡ ends.taker.lane) × (ends.second.lane ≡ ends.taker.lane)
        × (ends.third.lane ≡ ends.taker.lane) }
{
    let Three {
        first,
        second,
        third,
        taker,
    } = ends;
    put_beside(
        rt,
        third,
        2,
        move || -> TakeReceipt<Item>
            requires { HasPut 0 0 first × HasPut 1 0 second × (first.lane ≡ taker.lane) × (second.lane ≡ taker.lane) }
            ensures { result.lane ≡ taker.lane }
        { two_put(rt, first, second, taker, 3 * COUNT) },
    )
}

#[test]
fn three_threads_put_and_one_takes(rt: HostRuntime) {
    let taken = three_put(&rt, lane_of_three(&rt, rt.alloc(), 2));
    assert!(rt; taken.matched(0) && taken.matched(1) && taken.matched(2));
}
