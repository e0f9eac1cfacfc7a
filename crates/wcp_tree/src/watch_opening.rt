ghost use Rattle.std.specs.Prelude.{◌≡◌, ◌≢◌, ◌<◌, ◌≤◌, ℕ, [], Some, length, slice_get, IfOk, OnOk};
ghost use Rattle.wcp_model.specs.declared.plan.Parent.TheVariants as parent;
ghost use Rattle.wcp_model.specs.PlanFault.{IsCheckedPlan};
ghost use Rattle.wcp_model.specs.Tree.{leaf_of, parent_of};
ghost use Rattle.wcp_ring.specs.Ends.{TakeSide};
ghost use Rattle.wcp_clock.specs.declared.note.Item.{Item};
ghost use Rattle.wcp_lane.specs.Ends.{LaneName, PutEnd};
ghost use Rattle.wcp_clock.specs.Limits.{most_hold};
ghost use Rattle.wcp_hold.specs.Held.{empty_hold};
ghost use Rattle.wcp_relay.specs.declared.source.Source.TheVariants as source;
ghost use Rattle.wcp_relay.specs.Feeding.{Serves};
ghost use Rattle.wcp_relay.specs.Members.{AreBelow};
ghost use Rattle.wcp_relay.specs.Relays.{IsRelayOf, IsSource};
ghost use Rattle.wcp_relay.specs.Rings.{IsTakerAt};
ghost use Rattle.wcp_relay.specs.Watches.{AreLinked, IsWired};
ghost use Rattle.wcp_tree.specs.Wiring.{AreChildrenSeated, AreSeatedUnder};

use crate::lane_wiring::open_lane;
use crate::ring_opening::{open_rings, take_feeds};
use std::alloc::{AllocError, Global};
use std::time::Duration;
use wcp_clock::Item;
use wcp_hold::Hold;
use wcp_lane::Putter;
use wcp_model::{Parent, Plan};
use wcp_relay::{Bundle, CheckerInbox, Feed, Relay, Source, Watch};
use wcp_ring::{RingTaker, Sleeper};

/// A leaf naps where its links have room for so many notes.
const ROOM_FOR_A_NAP: u32 = 16;

/// How long it naps, in microseconds.
const NAP: u64 = 100;

/// Opens the tree of a plan: a ring for each process, and a lane for the checker and for each relay
/// that serves relays. All memory of the watch is taken here. `Err` where memory runs out.
pub fn watch(alloc: Global, plan: &Plan, watch_number: u64) -> Result<Watch, AllocError>
    requires { IsCheckedPlan plan.now }
    ensures { IfOk result (IsWired plan.now watch_number) }
{
    let sleepers = sleepers(alloc, plan)?;
    let (probes, takers) = open_rings(alloc, plan, watch_number, &sleepers)?;
    let mut seats = seats(alloc, plan)?;
    let taker = open_lane(alloc, plan, Parent::Root, &mut seats)?;
    let relays = open_relays(alloc, plan, watch_number, sleepers, seats, takers)?;
    let inbox = CheckerInbox::new(watch_number, relays.len() as u32, taker);
    Ok(Watch {
        probes,
        relays,
        inbox,
    })
}

/// A leaf relay of this number in the plan of a watch, under this parent, with room for `hold` items. It takes from
/// the rings of these feeds, one for each process of the putter, and sleeps by this sleeper, whose bells the other ends
/// of the rings are to ring. `Err` where memory runs out.
pub fn leaf_relay(
    alloc: Global,
    number: u32,
    watch: u64,
    parent: Parent,
    hold: u32,
    feeds: Vec<Feed>,
    sleeper: Sleeper,
    putter: Putter<Bundle>,
) -> Result<Relay, AllocError>
    requires some { 0 < hold }
    requires within { hold ≤ most_hold }
    requires serves { Serves (source.Leaf feeds sleeper) putter.members }
    requires nothing_put { length putter.put ≡ 0 }
    ensures number { IfOk result (λ relay. relay.number ≡ number) }
    ensures watch { IfOk result (λ relay. relay.watch ≡ watch) }
    ensures parent { IfOk result (λ relay. relay.parent ≡ parent) }
    ensures source { IfOk result (λ relay. relay.source ≡ source.Leaf feeds sleeper) }
    ensures putter { IfOk result (λ relay. relay.putter ≡ putter) }
    ensures hold { IfOk result (λ relay. relay.hold ≡ empty_hold hold) }
{
    let hold = Hold::new(alloc, hold)?;
    let source = Source::Leaf { feeds, sleeper };
    Ok(Relay::new(number, watch, parent, source, putter, hold))
}

/// A sleeper for each relay. `Err` where memory runs out.
fn sleepers(alloc: Global, plan: &Plan) -> Result<Vec<Sleeper>, AllocError>
    ensures { IfOk result (λ sleepers. length sleepers.items ≡ length plan.now.parents.items) }
{
    let mut sleepers = Vec::with_capacity(alloc, plan.parents.len())?;
    for _ in 0..plan.parents.len() {
        sleepers.push(new_sleeper(alloc, plan.cap)?)?;
    }
    Ok(sleepers)
}

/// A sleeper for a leaf whose links have so much room. It naps where they have room for what comes meanwhile.
fn new_sleeper(alloc: Global, room: u32) -> Result<Sleeper, AllocError> {
    let sleeper = Sleeper::new(alloc)?;
    if room < ROOM_FOR_A_NAP {
        return Ok(sleeper);
    }
    Ok(sleeper.napping(Duration::from_micros(NAP)))
}

/// A seat for each relay, where nobody sits. `Err` where memory runs out.
fn seats(alloc: Global, plan: &Plan) -> Result<Vec<Option<Putter<Bundle>>>, AllocError>
    ensures { IfOk result (λ seats. length seats.items ≡ length plan.now.parents.items) }
{
    let mut seats = Vec::with_capacity(alloc, plan.parents.len())?;
    for _ in 0..plan.parents.len() {
        seats.push(None)?;
    }
    Ok(seats)
}

/// Opens one relay after another, each with its sleeper: its parent is lower, so its seat was taken
/// before, and the seats of the relays under the root are taken from the start. `Err` where memory
/// runs out.
fn open_relays(
    alloc: Global,
    plan: &Plan,
    watch: u64,
    mut sleepers: Vec<Sleeper>,
    mut seats: Vec<Option<Putter<Bundle>>>,
    mut takers: Vec<Option<RingTaker>>,
) -> Result<Vec<Relay>, AllocError>
    requires checked { IsCheckedPlan plan.now }
    requires sleepers { length sleepers.items ≡ length plan.now.parents.items }
    requires all { length seats.items ≡ length plan.now.parents.items }
    requires seated { (root : LaneName Bundle) × AreSeatedUnder plan.now root seats.items }
    requires there { (p : ℕ) → p < plan.now.n → (taker : TakeSide) × IsTakerAt takers.items p taker }
    ensures { IfOk result (λ relays. (root : LaneName Bundle) → AreSeatedUnder plan.now root seats.items
        → AreLinked plan.now watch root takers.items relays.items) }
{
    let mut relays = Vec::with_capacity(alloc, plan.parents.len())?;
    while !sleepers.is_empty() {
        let number = relays.len() as u32;
        let sleeper = sleepers.remove(0);
        let relay = open_relay(alloc, plan, watch, number, sleeper, &mut seats, &mut takers)?;
        relays.push(relay)?;
    }
    Ok(relays)
}

/// Opens what a relay takes from: a leaf takes the feeds of its processes, and for any other relay a
/// lane is opened, on which its children are seated. `Err` where memory runs out.
fn open_source(
    alloc: Global,
    plan: &Plan,
    relay: u32,
    sleeper: Sleeper,
    seats: &mut Vec<Option<Putter<Bundle>>>,
    takers: &mut Vec<Option<RingTaker>>,
) -> Result<Source, AllocError>
    requires checked { IsCheckedPlan plan.now }
    requires all { length seats.old.items ≡ length plan.now.parents.items }
    requires there { (p : ℕ) → leaf_of plan.now p ≡ Some relay
        → (taker : TakeSide) × IsTakerAt takers.old.items p taker }
    ensures all { OnOk result ((length seats.new.items ≡ length seats.old.items)
        × (length takers.new.items ≡ length takers.old.items)) }
    ensures source { IfOk result (λ source. IsSource plan.now takers.old.items relay source) }
    ensures seated { IfOk result (λ source. AreChildrenSeated plan.now relay source seats.new.items) }
    ensures other_seats { OnOk result ((other : ℕ) → parent_of plan.now other ≢ Some (parent.Relay relay)
        → slice_get seats.new.items other ≡ slice_get seats.old.items other) }
    ensures other_takers { OnOk result ((p : ℕ) → leaf_of plan.now p ≢ Some relay
        → slice_get takers.new.items p ≡ slice_get takers.old.items p) }
{
    if plan.is_leaf(relay) {
        let feeds = take_feeds(alloc, plan, relay, takers)?;
        return Ok(Source::Leaf { feeds, sleeper });
    }
    let taker = open_lane(alloc, plan, Parent::Relay(relay), seats)?;
    Ok(Source::Inner { taker })
}

/// Opens a relay, which leaves its seat. `Err` where memory runs out.
fn open_relay(
    alloc: Global,
    plan: &Plan,
    watch: u64,
    relay: u32,
    sleeper: Sleeper,
    seats: &mut Vec<Option<Putter<Bundle>>>,
    takers: &mut Vec<Option<RingTaker>>,
) -> Result<Relay, AllocError>
    requires checked { IsCheckedPlan plan.now }
    requires all { length seats.old.items ≡ length plan.now.parents.items }
    requires seat { (putter : PutEnd Bundle Item) × (slice_get seats.old.items relay ≡ Some (Some putter))
        × AreBelow plan.now relay putter.members × (putter.put ≡ []) }
    requires there { (p : ℕ) → leaf_of plan.now p ≡ Some relay
        → (taker : TakeSide) × IsTakerAt takers.old.items p taker }
    ensures all { OnOk result ((length seats.new.items ≡ length seats.old.items)
        × (length takers.new.items ≡ length takers.old.items)) }
    ensures relay { IfOk result (λ opened. IsRelayOf plan.now watch takers.old.items relay opened) }
    ensures seat { IfOk result (λ opened. slice_get seats.old.items relay ≡ Some (Some opened.putter)) }
    ensures seated { IfOk result (λ opened. AreChildrenSeated plan.now relay opened.source seats.new.items) }
    ensures other_seats { OnOk result ((other : ℕ) → other ≢ relay
        → parent_of plan.now other ≢ Some (parent.Relay relay)
        → slice_get seats.new.items other ≡ slice_get seats.old.items other) }
    ensures other_takers { OnOk result ((p : ℕ) → leaf_of plan.now p ≢ Some relay
        → slice_get takers.new.items p ≡ slice_get takers.old.items p) }
{
    let Some(putter) = seats[relay as usize].take() else {
        unreachable!();
    };
    let source = open_source(alloc, plan, relay, sleeper, seats, takers)?;
    let hold = Hold::new(alloc, plan.hold)?;
    let parent = plan.parents[relay as usize];
    Ok(Relay::new(relay, watch, parent, source, putter, hold))
}
