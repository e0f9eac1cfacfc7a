ghost use Rattle.std.specs.Prelude.{◌≡◌, ℕ, ◌<◌, ◌≤◌, ◌↔◌, true, [], length, map};
ghost use Rattle.std.specs.Prelude.{IsSome, IfSome, IfOk, IfErr, OnSome, OnOk, All};
ghost use Rattle.std.specs.List.{list_any};
ghost use Rattle.std.specs.FinSet as set;
ghost use Rattle.crossbeam_channel.specs.Ends.{sends_on};
ghost use Rattle.crossbeam_channel.specs.Claims.{view, IsSeatAt};
ghost use Rattle.wcp_clock.specs.Limits.{most_processes};
ghost use Rattle.wcp_clock.specs.ProcessNumbers.{AreProcessNumbers};
ghost use Rattle.wcp_lane.specs.Passes.{taker, putter, without};
ghost use Rattle.wcp_lane.specs.Ends.{new_putter, unowned_by, lane_of};
ghost use Rattle.wcp_lane.specs.MemberSets.{AreApart, AreMemberSets, IsCapacity, IsFirstLaneFault};

use crate::fault::LaneFault;
use crate::members::Members;
use crate::message::Origin;
use crate::passes::{Given, Hand, LanePass, LaneSender, Numbers, Ruled};
use crate::putter::Putter;
use crate::taker::Taker;
use crossbeam_channel::bounded_with;
use std::alloc::{AllocError, Global};
use std::marker::Brand;
use wcp_clock::{MAX_LANE, MAX_PROCS};

/// A lane with room for `cap` messages, with a putter for each of these sets, in their order. It takes
/// all the memory that its ends will ever use. No two sets may share a number, and there is at least
/// one; a set may be empty.
pub fn lane<M: Origin>(
    alloc: Global,
    cap: u32,
    member_sets: &[Members],
) -> Result<(Vec<Putter<M>>, Taker<M>), LaneFault>
    ensures fault { IfErr result (IsFirstLaneFault cap member_sets.now) }
    ensures fit { OnOk result (IsCapacity cap × AreMemberSets member_sets.now) }
    ensures putters { IfOk result (λ ends. ends.0.items ≡ map (new_putter ends.1.lane) member_sets.now) }
    ensures members { IfOk result (λ ends.
        (p : ℕ) → set.contains ends.1.members p ≡ list_any (λ numbers. set.contains numbers p) member_sets.now) }
    ensures room { IfOk result (λ ends. ends.1.room ≡ cap) }
    ensures empty { IfOk result (λ ends. ends.1.taken ≡ []) }
{
    if cap == 0 || cap > MAX_LANE {
        return Err(LaneFault::Cap);
    }
    if member_sets.is_empty() {
        return Err(LaneFault::MemberSets);
    }
    let Some(members) = union_apart(member_sets) else {
        return Err(LaneFault::MemberSets);
    };
    match open(alloc, cap, member_sets, members) {
        Ok(ends) => Ok(ends),
        Err(AllocError) => Err(LaneFault::NoMemory),
    }
}

/// The numbers of all these sets, if no number is in two of them.
fn union_apart(member_sets: &[Members]) -> Option<Members>
    ensures apart { IsSome result ↔ AreApart member_sets.now }
    ensures all { IfSome result (λ all.
        (p : ℕ) → set.contains all p ≡ list_any (λ numbers. set.contains numbers p) member_sets.now) }
    ensures within { OnSome result (All AreProcessNumbers member_sets.now) }
{
    let mut all = Members::none();
    for numbers in member_sets {
        if all.meets(numbers) {
            return None;
        }
        all = all.joined(numbers);
    }
    Some(all)
}

fn open<M: Origin>(
    alloc: Global,
    cap: u32,
    member_sets: &[Members],
    members: Members,
) -> Result<(Vec<Putter<M>>, Taker<M>), AllocError>
    requires some { 0 < cap }
    requires apart { AreApart member_sets.now }
    requires within { All AreProcessNumbers member_sets.now }
    requires all { (p : ℕ) → set.contains members p ≡ list_any (λ numbers. set.contains numbers p) member_sets.now }
    ensures putters { IfOk result (λ ends. ends.0.items ≡ map (new_putter ends.1.lane) member_sets.now) }
    ensures members { IfOk result (λ ends.
        (p : ℕ) → set.contains ends.1.members p ≡ list_any (λ numbers. set.contains numbers p) member_sets.now) }
    ensures room { IfOk result (λ ends. ends.1.room ≡ cap) }
    ensures empty { IfOk result (λ ends. ends.1.taken ≡ []) }
{
    let mut putters = Vec::with_capacity(alloc, member_sets.len())?;
    let (sender, receiver, mut pass) = bounded_with::<M, Hand<M>, Ruled, Global>(
        alloc,
        cap as usize,
    )?;
    for numbers in member_sets {
        let own = give::<M, Brand>(&sender, &mut pass, numbers);
        putters.push(Putter {
            sender: sender.try_clone()?,
            pass: own,
            members: *numbers,
            counts: [0; MAX_PROCS],
        })?;
    }
    let taker = Taker {
        receiver,
        pass,
        members,
        counts: [0; MAX_PROCS],
    };
    Ok((putters, taker))
}

/// Splits the pass of some numbers off the taker's.
fn give<M: Origin, N: Numbers>(
    sender: &LaneSender<M>,
    pass: &mut LanePass<M>,
    numbers: &Members,
) -> LanePass<M>
    requires lane { IsSeatAt (sends_on sender.now) pass.old }
    requires numbers { numbers.now ≡ N.numbers }
    requires taker { view pass.old ≡ taker (unowned_by (view pass.old)) [] }
    requires among { (p : ℕ) → p < most_processes → set.contains numbers.now p ≡ true
        → set.contains (unowned_by (view pass.old)) p ≡ true }
    ensures lane { IsSeatAt (sends_on sender.now) pass.new × IsSeatAt (sends_on sender.now) result }
    ensures taker { view pass.new ≡ taker (set.difference (unowned_by (view pass.old)) numbers.now) [] }
    ensures putter { view result ≡ putter numbers.now [] }
{
    sender.another::<Given<N>>(pass)
}
