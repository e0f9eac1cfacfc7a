//! Lanes of snapshots, for the tests.
ghost use Rattle.std.specs.Prelude.{◌≡◌, ◌+◌, true, false, map, IfOk, OnOk, OnErr};
ghost use Rattle.wcp_clock.specs.Notes.{place_of, is_last};
ghost use Rattle.wcp_lane.specs.Ends.{new_putter};
ghost use Rattle.wcp_lane.specs.Snapshots.{HasPut};

use super::comparing::assert_same;
use std::alloc::Global;
use std::process::Abort;
use std::sync::Wait;
use wcp_clock::{Clock, Item, Note};
use wcp_lane::{Cut, LaneFault, Members, Putter, Taker, lane};

/// Snapshot `number` of process `from`.
pub fn snap(from: u32, number: u32) -> Item
    ensures from { result.from ≡ from }
    ensures place { place_of result.note ≡ number }
    ensures unended { is_last result.note ≡ false }
{
    Item {
        from,
        note: Note::Snap {
            number,
            clock: Clock::new(1),
        },
    }
}

/// Puts the next snapshot of a process. `Err` hands it back.
pub fn put_snap<R: Wait>(
    rt: &R,
    putter: &mut Putter<Item>,
    from: u32,
    number: u32,
) -> Result<(), Item>
    requires { HasPut from number putter.old }
    ensures lane { putter.new.lane ≡ putter.old.lane }
    ensures ok { OnOk result (HasPut from (number + 1) putter.new) }
{
    match putter.put(rt, snap(from, number)) {
        Ok(()) => Ok(()),
        Err((_, item)) => Err(item),
    }
}

/// Puts the next snapshot of a process if there is room for it: whether there was.
pub fn try_put_snap<R: Wait>(
    rt: &R,
    putter: &mut Putter<Item>,
    from: u32,
    number: u32,
) -> Result<bool, Cut>
    requires { HasPut from number putter.old }
    ensures put { IfOk result (λ was_put. was_put ≡ true → HasPut from (number + 1) putter.new) }
    ensures full { IfOk result (λ was_put. was_put ≡ false → HasPut from number putter.new) }
    ensures cut { OnErr result (HasPut from number putter.new) }
{
    match putter.try_put(rt, snap(from, number)) {
        Ok(back) => Ok(back.is_none()),
        Err((cut, _)) => Err(cut),
    }
}

/// The lane takes the next snapshot of a process.
pub fn assert_puts<R: Wait + Abort>(rt: &R, putter: &mut Putter<Item>, from: u32, number: u32)
    requires { HasPut from number putter.old }
    ensures lane { putter.new.lane ≡ putter.old.lane }
    ensures put { HasPut from (number + 1) putter.new }
{
    put_snap(rt, putter, from, number).expect(rt, "a taker");
}

/// The lane has room for the next snapshot of a process, and takes it.
pub fn assert_room<R: Wait + Abort>(rt: &R, putter: &mut Putter<Item>, from: u32, number: u32)
    requires { HasPut from number putter.old }
    ensures { HasPut from (number + 1) putter.new }
{
    assert_eq!(rt; try_put_snap(rt, putter, from, number), Ok(true));
}

/// The lane has no room for the next snapshot of a process.
pub fn assert_full<R: Wait + Abort>(rt: &R, putter: &mut Putter<Item>, from: u32, number: u32)
    requires { HasPut from number putter.old }
    ensures { HasPut from number putter.new }
{
    assert_eq!(rt; try_put_snap(rt, putter, from, number), Ok(false));
}

/// The next item of the lane is this snapshot.
pub fn assert_takes<R: Wait + Abort>(rt: &R, taker: &mut Taker<Item>, from: u32, number: u32) {
    assert_same(rt, taker.take(rt), Ok(snap(from, number)));
}

/// What the lane has at once is this item, or nothing.
pub fn assert_has<R: Wait + Abort>(rt: &R, taker: &mut Taker<Item>, item: Option<Item>) {
    assert_same(rt, taker.try_take(rt), Ok(item));
}

/// A lane with a putter for each of these sets. Where memory runs out, asking again makes it.
fn lane_of(
    alloc: Global,
    cap: u32,
    member_sets: &[Members],
) -> Result<(Vec<Putter<Item>>, Taker<Item>), LaneFault>
    ensures { IfOk result (λ ends. ends.0.items ≡ map (new_putter ends.1.lane) member_sets.now) }
{
    match lane(alloc, cap, member_sets) {
        Err(LaneFault::NoMemory) => lane(alloc, cap, member_sets),
        made => made,
    }
}

/// The ends of a lane with a putter of process 0 alone.
#[derive(Drop)]
pub struct One {
    pub putter: Putter<Item>,
    pub taker: Taker<Item>,
}

pub fn lane_of_one(rt: &impl Abort, alloc: Global, cap: u32) -> One
    ensures { HasPut 0 0 result.putter }
{
    let Ok((mut putters, taker)) = lane_of(alloc, cap, &[Members::none().with(0)]) else {
        panic!(rt; "no lane");
    };
    let Some(putter) = putters.pop() else {
        panic!(rt; "no putter");
    };
    One { putter, taker }
}

/// The ends of a lane with a putter of each of the processes 0, 1 and 2.
#[derive(Drop)]
pub struct Three {
    pub first: Putter<Item>,
    pub second: Putter<Item>,
    pub third: Putter<Item>,
    pub taker: Taker<Item>,
}

pub fn lane_of_three(rt: &impl Abort, alloc: Global, cap: u32) -> Three
    ensures lane { (result.first.lane ≡ result.taker.lane) × (result.second.lane ≡ result.taker.lane)
        × (result.third.lane ≡ result.taker.lane) }
    ensures new { HasPut 0 0 result.first × HasPut 1 0 result.second × HasPut 2 0 result.third }
{
    let none = Members::none();
    let Ok((mut putters, taker)) = lane_of(alloc, cap, &[none.with(0), none.with(1), none.with(2)])
    else {
        panic!(rt; "no lane");
    };
    let Some(third) = putters.pop() else {
        panic!(rt; "no putter");
    };
    let Some(second) = putters.pop() else {
        panic!(rt; "no putter");
    };
    let Some(first) = putters.pop() else {
        panic!(rt; "no putter");
    };
    Three {
        first,
        second,
        third,
        taker,
    }
}
