ghost use Rattle.wcp_lane.specs.Snapshots.{HasPut};

use super::comparing::assert_same;
use super::lanes::{
    One, assert_full, assert_has, assert_puts, assert_room, assert_takes, lane_of_one,
    lane_of_three, put_snap, snap, try_put_snap,
};
use std::alloc::Global;
use std::process::Abort;
use std::sync::Wait;
use wcp_clock::Item;
use wcp_lane::{LaneFault, Members, Putter, Taker, lane};

#[test]
fn items_of_two_putters_come_in_their_order(rt: HostRuntime) {
    let mut ends = lane_of_three(&rt, rt.alloc(), 2);
    assert_puts(&rt, &mut ends.third, 2, 0);
    assert_puts(&rt, &mut ends.first, 0, 0);
    assert_takes(&rt, &mut ends.taker, 2, 0);
    assert_takes(&rt, &mut ends.taker, 0, 0);
    assert_has(&rt, &mut ends.taker, None);
}

/// The lane takes no snapshot of process 0 any more, and hands it back.
fn assert_puts_cut<R: Wait + Abort>(rt: &R, putter: &mut Putter<Item>)
    requires { HasPut 0 0 putter.old }
{
    assert!(rt; try_put_snap(rt, putter, 0, 0).is_err());
    assert_same(rt, put_snap(rt, putter, 0, 0), Err(snap(0, 0)));
}

#[test]
fn a_put_after_the_end_of_the_taker_is_cut(rt: HostRuntime) {
    let One { mut putter, taker } = lane_of_one(&rt, rt.alloc(), 2);
    let taken = taker.end();
    assert_puts_cut(&rt, &mut putter);
    drop(taken);
}

#[test]
fn a_full_lane_has_room_once_an_item_was_taken(rt: HostRuntime) {
    let mut ends = lane_of_one(&rt, rt.alloc(), 1);
    assert_room(&rt, &mut ends.putter, 0, 0);
    assert_full(&rt, &mut ends.putter, 0, 1);
    assert_has(&rt, &mut ends.taker, Some(snap(0, 0)));
    assert_room(&rt, &mut ends.putter, 0, 1);
    assert_takes(&rt, &mut ends.taker, 0, 1);
}

/// Nothing comes any more.
fn assert_takes_cut<R: Wait + Abort>(rt: &R, taker: &mut Taker<Item>) {
    assert!(rt; taker.take(rt).is_err());
    assert!(rt; taker.try_take(rt).is_err());
}

#[test]
fn a_take_without_a_putter_is_cut(rt: HostRuntime) {
    let One {
        mut putter,
        mut taker,
    } = lane_of_one(&rt, rt.alloc(), 2);
    assert_puts(&rt, &mut putter, 0, 0);
    drop(putter);
    assert_takes(&rt, &mut taker, 0, 0);
    assert_takes_cut(&rt, &mut taker);
}

/// Process 0 is a member, and process 1 is none.
fn assert_of_first(rt: &impl Abort, members: Members) {
    assert!(rt; members.has(0) && !members.has(1));
}

#[test]
fn each_end_knows_its_numbers(rt: HostRuntime) {
    let One { putter, taker } = lane_of_one(&rt, rt.alloc(), 1);
    assert_of_first(&rt, putter.members());
    assert_of_first(&rt, taker.members());
    assert_of_first(&rt, putter.end().members());
    assert_of_first(&rt, taker.end().members());
}

/// Why there is no lane with this room and a putter for each of these sets, where there is none.
fn lane_fault(alloc: Global, cap: u32, member_sets: &[Members]) -> Option<LaneFault> {
    lane::<Item>(alloc, cap, member_sets).err()
}

/// There is no lane with this room and a putter for each of these sets, for this reason.
fn assert_refused(
    rt: &impl Abort,
    alloc: Global,
    cap: u32,
    member_sets: &[Members],
    fault: LaneFault,
) {
    assert_eq!(rt;
        lane_fault(alloc, cap, member_sets),
        Some(fault),
        "at {cap}"
    );
}

#[test]
fn the_first_fault_is_answered(rt: HostRuntime) {
    let first = Members::none().with(0);
    let both = first.with(1);
    assert_refused(&rt, rt.alloc(), 0, &[both, both], LaneFault::Cap);
    assert_refused(&rt, rt.alloc(), 65_537, &[first], LaneFault::Cap);
    assert_refused(&rt, rt.alloc(), 2, &[first, both], LaneFault::MemberSets);
    assert_refused(&rt, rt.alloc(), 1, &[], LaneFault::MemberSets);
}
