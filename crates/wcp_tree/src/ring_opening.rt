ghost use Rattle.std.specs.Prelude.{◌≡◌, ◌≢◌, ◌<◌, ℕ, [], Some, length, slice_get, IfOk, OnOk};
ghost use Rattle.wcp_model.specs.PlanFault.{IsCheckedPlan};
ghost use Rattle.wcp_model.specs.Tree.{leaf_of};
ghost use Rattle.wcp_ring.specs.Ends.{TakeSide};
ghost use Rattle.wcp_relay.specs.Rings.{AreRings, AreFeeds, IsTakerAt};

use std::alloc::{AllocError, Global};
use wcp_model::Plan;
use wcp_relay::{Feed, LiveProbe};
use wcp_ring::{RingPutter, RingTaker, Sleeper, ring};

/// Opens a ring for each process: its probe puts into it, and wakes the sleeper of its leaf, of which
/// there is one for each relay. The other ends are for the leaves to take, and wake the probes. `Err` where memory
/// runs out.
pub(crate) fn open_rings(
    alloc: Global,
    plan: &Plan,
    watch: u64,
    sleepers: &[Sleeper],
) -> Result<(Vec<LiveProbe>, Vec<Option<RingTaker>>), AllocError>
    requires { IsCheckedPlan plan.now }
    ensures { IfOk result (λ rings. AreRings plan.now watch plan.now.n rings.0.items rings.1.items) }
{
    let mut probes = Vec::with_capacity(alloc, plan.n as usize)?;
    let mut takers = Vec::with_capacity(alloc, plan.n as usize)?;
    for p in 0..plan.n {
        let (putter, taker) = ring(alloc, plan.cap)?;
        let putter = waking(plan, p, sleepers, putter)?;
        let (taker, sleeper) = waking_probe(alloc, taker)?;
        probes.push(LiveProbe::new(watch, plan.probe_setup(p), putter, sleeper))?;
        takers.push(Some(taker))?;
    }
    Ok((probes, takers))
}

/// The same end of the ring, which wakes the leaf of process `p`. `Err` where memory runs out.
fn waking(
    plan: &Plan,
    p: u32,
    sleepers: &[Sleeper],
    putter: RingPutter,
) -> Result<RingPutter, AllocError>
    ensures { IfOk result (λ waking. waking ≡ putter) }
{
    let Some(Some(leaf)) = plan.attach.get(p as usize) else {
        return Ok(putter);
    };
    match sleepers.get(*leaf as usize) {
        Some(sleeper) => Ok(putter.with_bell(sleeper.bell()?)),
        None => Ok(putter),
    }
}

/// The same end of the ring, which wakes the sleeper that is for its probe. `Err` where memory runs out.
fn waking_probe(alloc: Global, taker: RingTaker) -> Result<(RingTaker, Sleeper), AllocError>
    ensures { IfOk result (λ waking. waking.0 ≡ taker) }
{
    let sleeper = Sleeper::new(alloc)?;
    let taker = taker.with_bell(sleeper.bell()?);
    Ok((taker, sleeper))
}

/// Takes the feeds of a leaf: the ends of its processes' rings. `Err` where memory runs out.
pub(crate) fn take_feeds(
    alloc: Global,
    plan: &Plan,
    leaf: u32,
    takers: &mut Vec<Option<RingTaker>>,
) -> Result<Vec<Feed>, AllocError>
    requires checked { IsCheckedPlan plan.now }
    requires there { (p : ℕ) → leaf_of plan.now p ≡ Some leaf
        → (taker : TakeSide) × IsTakerAt takers.old.items p taker }
    ensures all { OnOk result (length takers.new.items ≡ length takers.old.items) }
    ensures feeds { IfOk result (λ feeds. AreFeeds plan.now leaf takers.old.items plan.now.n feeds.items) }
    ensures others { OnOk result ((p : ℕ) → leaf_of plan.now p ≢ Some leaf
        → slice_get takers.new.items p ≡ slice_get takers.old.items p) }
{
    let mut feeds = Vec::with_capacity(alloc, plan.n as usize)?;
    for p in 0..plan.n {
        if plan.is_attached(leaf, p) {
            match takers[p as usize].take() {
                Some(taker) => feeds.push(Feed::new(p, taker))?,
                None => unreachable!(),
            }
        }
    }
    Ok(feeds)
}
