ghost use Rattle.std.specs.Prelude.{◌≡◌, ◌≢◌, ℕ, ◌+◌, ◌<◌, ◌≤◌, true, false, [], ◌++◌, length, replicate};
ghost use Rattle.std.specs.Prelude.{IsSome, IfOk, OnOk};
ghost use Rattle.wcp_model.specs.declared.plan.Plan.{Plan};
ghost use Rattle.wcp_model.specs.declared.step.Reply.TheVariants.{Done};
ghost use Rattle.wcp_model.specs.Occupancy.{InboxOf};
ghost use Rattle.wcp_model.specs.PlanFault.{IsCheckedPlan};
ghost use Rattle.wcp_hold.specs.Held.{empty_hold};
ghost use Rattle.wcp_world.specs.Answer.{IsAnswer, KeepsIfRefused};
ghost use Rattle.wcp_world.specs.Transport.{IsShift, is_relayed, place_number, shift_reasons};

use std::alloc::{AllocError, Global};
use std::marker::Model;
use wcp_clock::{Item, Note};
use wcp_hold::Hold;
use wcp_model::{Parent, Plan, Reply, Step, Why};

/// The tree of relays of a plan: the links, the holds and the inboxes. A contract sees its plan and
/// what each place holds.
#[derive(Drop)]
pub struct Transport {
    plan: Plan,
    /// The links, the holds, the root inbox and the relays' inboxes. A link has one place more than
    /// its room, for the mark of a lost process.
    places: Vec<Hold>,
}

impl Model for Transport {
    ghost use Rattle.std.specs.Coded.{codes};
    ghost use Rattle.wcp_clock.specs.ProcessNumbers.{numbers_code};
    ghost use Rattle.wcp_world.specs.Transport.{TransportState};

    ghost Value = { TransportState };

    ghost coded = { Prim.hlevel (codes, numbers_code) };

    ghost view = { λ t. record { plan = t.plan; places = t.places.items } };
}

impl Transport {
    ghost use Rattle.wcp_world.specs.Transport.{IsTransportOf, IsConveying, Conveys, IsGivenMark, MayLose, Puts};
    ghost use Rattle.wcp_world.specs.Transport.{IsWayOf, ReadsNext, TakesNext, next_of};

    /// The transport of a plan, before any step. `Err` where memory runs out.
    #[tactic(auto, using(crate::proofs::Places::plan_limits))]
    pub fn new(alloc: Global, plan: &Plan) -> Result<Transport, AllocError>
        requires { IsCheckedPlan plan.now }
        ensures { IfOk result (λ transport. IsTransportOf plan.now [] (λ p. []) [] transport) }
    {
        let relays = plan.parents.len();
        let mut places = Vec::new(alloc);
        add_places(alloc, &mut places, plan.n as usize, plan.cap + 1)?;
        add_places(alloc, &mut places, relays, plan.hold)?;
        add_places(alloc, &mut places, relays + 1, plan.cap)?;
        Ok(Transport {
            plan: plan.copy(alloc)?,
            places,
        })
    }

    /// Puts a note of process `p` on its link, if that has room, and says whether it had.
    pub fn put(&mut self, p: u32, note: Note) -> bool
        requires conveying { IsConveying self.old }
        requires process { p < self.old.plan.n }
        ensures answered { Puts self.old p note result self.new }
        ensures full { result ≡ false → self.new ≡ self.old }
    {
        let link = &mut self.places[p as usize];
        if link.len() >= self.plan.cap as usize {
            return false;
        }
        let _ = link.push(Item { from: p, note });
        true
    }

    /// Process `p` is lost, of which `count` notes were put: its link gets the mark that says so,
    /// also where it is full.
    pub fn lose(&mut self, p: u32, count: u32)
        requires { MayLose self.old p }
        ensures { IsGivenMark self.old p count self.new }
    {
        let note = Note::Lost { count };
        let _ = self.places[p as usize].push(Item { from: p, note });
    }

    /// A relay takes a note from a link or an item from its inbox into its hold, or passes an item
    /// from its hold to its parent's inbox.
    pub fn convey(&mut self, step: Step) -> Reply
        requires conveying { IsConveying self.old }
        requires relays { is_relayed step ≡ true }
        ensures answered { Conveys self.old step result self.new }
        ensures refused { KeepsIfRefused self.old result self.new }
    {
        match self.way(step) {
            Some((from, to)) => advance(&mut self.places, from, to),
            None => Reply::Refused(Why::NoSuch),
        }
    }

    /// The item that the checker may take next.
    pub fn next(&self) -> Option<Item>
        requires { IsConveying self.now }
        ensures next { result ≡ next_of self.now }
        ensures reads { ReadsNext self.now result }
    {
        self.places[self.inbox(Parent::Root)].front()
    }

    /// The checker takes the next item from the root inbox.
    pub fn take_next(&mut self)
        requires conveying { IsConveying self.old }
        requires some { IsSome (next_of self.old) }
        ensures { TakesNext self.old self.new }
    {
        let root = self.inbox(Parent::Root);
        let _ = self.places[root].pop();
    }

    /// From which place to which a relay's step moves an item, if it names a relay and a place that
    /// there are.
    fn way(&self, step: Step) -> Option<(usize, usize)>
        requires { is_relayed step ≡ true }
        ensures { IsWayOf self.now step result }
    {
        match step {
            Step::Admit(relay, p) => {
                if !self.plan.is_attached(relay, p) {
                    return None;
                }
                Some((p as usize, self.hold(relay)))
            }
            Step::Pull(relay) => {
                if relay as usize >= self.plan.parents.len() || self.plan.is_leaf(relay) {
                    return None;
                }
                Some((self.inbox(Parent::Relay(relay)), self.hold(relay)))
            }
            Step::Pass(relay) => {
                let parent = self.plan.parent_of(relay)?;
                Some((self.hold(relay), self.inbox(parent)))
            }
            _ => unreachable!(),
        }
    }

    /// The number of a relay's hold among the places.
    fn hold(&self, relay: u32) -> usize
        ensures { result ≡ self.now.plan.n + relay }
    {
        self.plan.n as usize + relay as usize
    }

    /// The number of an inbox among the places.
    fn inbox(&self, owner: Parent) -> usize
        ensures { result ≡ place_number self.now.plan (InboxOf owner) }
    {
        let root = self.plan.n as usize + self.plan.parents.len();
        match owner {
            Parent::Root => root,
            Parent::Relay(relay) => root + 1 + relay as usize,
        }
    }
}

/// Moves the first item of one place behind those of another, if there is one and room for it.
fn advance(places: &mut [Hold], from: usize, to: usize) -> Reply
    requires from { from < length places.old }
    requires to { to < length places.old }
    requires apart { from ≢ to }
    ensures answered { IsAnswer (shift_reasons places.old from to) result }
    ensures moved { result ≡ Done → IsShift places.old from to places.new }
    ensures refused { KeepsIfRefused places.old result places.new }
{
    let Some(item) = places[from].front() else {
        return Reply::Refused(Why::Empty);
    };
    match places[to].push(item) {
        Ok(()) => {
            let _ = places[from].pop();
            Reply::Done
        }
        Err(_) => Reply::Refused(Why::Full),
    }
}

/// Adds empty places with this room at the end.
fn add_places(
    alloc: Global,
    places: &mut Vec<Hold>,
    count: usize,
    room: u32,
) -> Result<(), AllocError>
    requires { 0 < room }
    ensures { OnOk result (places.new.items ≡ places.old.items ++ replicate count (empty_hold room)) }
{
    for _ in 0..count {
        places.push(Hold::new(alloc, room)?)?;
    }
    Ok(())
}
