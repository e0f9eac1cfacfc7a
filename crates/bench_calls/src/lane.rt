//! Items that go through a lane, each of which is put and then taken, in one thread: `bench_calls lane ITEMS`.

ghost use Rattle.std.specs.Prelude.{◌≡◌, ◌+◌, IfOk, OnOk};
ghost use Rattle.wcp_lane.specs.Snapshots.{HasPut};

use crate::taken::Taken;
use crate::words::number_at;
use std::alloc::{AllocError, Global};
use std::sync::Wait;
use wcp_clock::{Clock, Item, MAX_PROCS, Note};
use wcp_lane::{Members, Putter, Taker, lane};

/// How many items the lane has room for.
const ROOM: u32 = 64;

/// The ends of a lane of process 0.
fn ends(alloc: Global) -> Result<(Putter<Item>, Taker<Item>), AllocError>
    ensures { IfOk result (λ ends. HasPut 0 0 ends.0) }
{
    let Ok((mut putters, taker)) = lane(alloc, ROOM, &[Members::none().with(0)]) else {
        return Err(AllocError);
    };
    let Some(putter) = putters.pop() else {
        return Err(AllocError);
    };
    Ok((putter, taker))
}

/// Puts snapshot `number`, with a clock of all processes.
fn put<R: Wait>(rt: &R, putter: &mut Putter<Item>, number: u32) -> Result<(), ()>
    requires { HasPut 0 number putter.old }
    ensures { OnOk result (HasPut 0 (number + 1) putter.new) }
{
    let clock = Clock::new(MAX_PROCS as u32);
    let note = Note::Snap { number, clock };
    match putter.put(rt, Item { from: 0, note }) {
        Ok(()) => Ok(()),
        Err(_) => Err(()),
    }
}

/// Puts an item and takes it, so many times.
fn hop_all<R: Wait>(rt: &R, putter: &mut Putter<Item>, taker: &mut Taker<Item>, items: u32) -> Taken
    requires { HasPut 0 0 putter.old }
{
    let mut taken = Taken::nothing();
    for number in 0..items {
        if put(rt, putter, number).is_err() {
            break;
        }
        if let Ok(item) = taker.take(rt) {
            taken.add(&item.note);
        }
    }
    taken
}

/// Sends the items that the words ask for, and prints what was taken.
pub fn make_calls<R: Wait + Print + AllocGlobal>(rt: &R, words: &[String]) -> anyhow::Result<()> {
    let (mut putter, mut taker) = ends(rt.alloc())?;
    let taken = hop_all(rt, &mut putter, &mut taker, number_at(words, 0));
    Ok(taken.print(rt)?)
}
