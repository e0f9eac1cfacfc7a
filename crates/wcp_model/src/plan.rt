ghost use Rattle.std.specs.Prelude.{◌≡◌, ◌↔◌, ℕ, ◌+◌, ◌<◌, ◌≤◌, List, [], ◌∷◌, length, take, replicate, Contains};
ghost use Rattle.std.specs.Prelude.{IsTrue, IsOk, IfOk, Some, Err};
ghost use Rattle.wcp_clock.specs.Limits.{most_processes, most_cap, most_hold};
ghost use Rattle.wcp_model.specs.declared.flag.Flag.TheVariants as reset_at;
ghost use Rattle.wcp_model.specs.declared.plan.Parent.TheVariants.{Root};
ghost use Rattle.wcp_model.specs.declared.plan.PlanFault.{PlanFault};
ghost use Rattle.wcp_model.specs.declared.plan.PlanFault.TheVariants as plan_fault;
ghost use Rattle.wcp_model.specs.PlainPlan.{IsPlainPlan, IsSamePlan};
ghost use Rattle.wcp_model.specs.Tree.{is_attached, is_leaf, parent_of};
ghost use Rattle.wcp_model.specs.ProbeLog.{setup};
ghost use Rattle.wcp_model.specs.PlanFault.{HasFault, HasWrongParent, IsFirstFault, IsCheckedPlan};
ghost use Rattle.wcp_model.specs.PlanFault.{IsPath, ServesRelay, tree_faults};

use crate::flag::Flag;
use crate::probe_setup::ProbeSetup;
use crate::watched::Watched;
use std::alloc::{AllocError, Global};
use thiserror::Error;
use wcp_clock::{MAX_CAP, MAX_HOLD, MAX_PATH, MAX_PROCS, MAX_RELAYS};

/// What a relay passes its items to.
#[derive(Clone, Copy, Debug, PartialEq, Eq)]
pub enum Parent {
    /// The root inbox, which is the checker's.
    Root,
    /// The inbox of this relay.
    Relay(u32),
}

/// The tree of relays between the processes and the checker.
#[derive(Debug, Drop)]
pub struct Plan {
    /// How many processes there are, from 1 to 16.
    pub n: u32,
    /// How many notes each link and each inbox has room for, from 1 to 1,024.
    pub cap: u32,
    /// How many notes the hold of each relay has room for, from 1 to 64.
    pub hold: u32,
    /// The parent of each relay, of which there are 1 to 15: a relay of a lower number, or the root.
    pub parents: Vec<Parent>,
    /// The relay that serves each process.
    pub attach: Vec<Option<u32>>,
    /// The processes that have a condition.
    pub watched: Watched,
    /// What resets the flags of the processes.
    pub flag: Flag,
}

/// The plan of one relay, under the root, which serves every process; each has a condition, and each event resets its
/// flag. `Err` where memory runs out.
pub fn plain_plan(alloc: Global, n: u32, cap: u32, hold: u32) -> Result<Plan, AllocError>
    ensures plain { IfOk result (IsPlainPlan n cap hold) }
    ensures checked { IfOk result (λ plan.
        1 ≤ n → n ≤ most_processes → 1 ≤ cap → cap ≤ most_cap → 1 ≤ hold → hold ≤ most_hold
        → IsCheckedPlan plan) }
{
    let parents = vec![in alloc; Parent::Root]?;
    let attach = vec![in alloc; Some(0); n as usize]?;
    let watched = Watched::all(n.min(MAX_PROCS as u32));
    Ok(Plan::new(n, cap, hold, parents, attach, watched))
}

/// Why a plan is refused. Where several faults apply, the first in this order is given.
#[derive(Clone, Copy, Debug, PartialEq, Eq, Error)]
pub enum PlanFault {
    /// The number of processes is out of its limits.
    #[error("the number of processes")]
    Procs,
    /// The capacity of links and inboxes is out of its limits.
    #[error("the capacity of links and inboxes")]
    Cap,
    /// The capacity of holds is out of its limits.
    #[error("the capacity of holds")]
    Hold,
    /// There is no relay, there are too many, or the parent of one is neither a lower relay nor the
    /// root.
    #[error("no relay, too many, or a parent that is no lower relay")]
    Parent,
    /// A path to the root has more than 8 relays.
    #[error("a path of too many relays")]
    Depth,
    /// A relay serves both a process and a relay.
    #[error("a relay that serves a process and a relay")]
    Mixed,
    /// A relay serves nothing.
    #[error("a relay that serves nothing")]
    Childless,
    /// `attach` has more or fewer entries than there are processes, or an entry that names no relay.
    #[error("a process that no relay serves")]
    Unattached,
    /// No process is watched, or one that there isn't.
    #[error("no watched process, or one that there is not")]
    Watched,
}

/// The faults in the order in which they are looked for.
const FAULTS: [PlanFault; 9] = [
    PlanFault::Procs,
    PlanFault::Cap,
    PlanFault::Hold,
    PlanFault::Parent,
    PlanFault::Depth,
    PlanFault::Mixed,
    PlanFault::Childless,
    PlanFault::Unattached,
    PlanFault::Watched,
];

impl Plan {
    /// The plan of this tree, with these capacities and watched processes, checked by nobody. Each event resets
    /// a flag.
    pub fn new(
        n: u32,
        cap: u32,
        hold: u32,
        parents: Vec<Parent>,
        attach: Vec<Option<u32>>,
        watched: Watched,
    ) -> Plan
        ensures { result
            ≡ record {
              n = n;
              cap = cap;
              hold = hold;
              parents = parents;
              attach = attach;
              watched = watched;
              flag = reset_at.Event;
            } }
    {
        Plan {
            n,
            cap,
            hold,
            parents,
            attach,
            watched,
            flag: Flag::Event,
        }
    }

    /// Whether this plan is within the limits, and a tree whose leaves serve the processes; else its
    /// first fault.
    pub fn check(&self) -> Result<(), PlanFault>
        ensures ok { IsOk result ↔ IsCheckedPlan self.now }
        ensures err { (first : PlanFault) → (result ≡ Err first) ↔ IsFirstFault self.now first }
    {
        for fault in FAULTS {
            if self.has_fault(fault) {
                return Err(fault);
            }
        }
        Ok(())
    }

    /// Whether the plan has this fault. Those after `Parent` are looked for where no parent is wrong.
    fn has_fault(&self, fault: PlanFault) -> bool
        requires { Contains tree_faults fault → ¬ HasFault self.now plan_fault.Parent }
        ensures { IsTrue result ↔ HasFault self.now fault }
    {
        match fault {
            PlanFault::Procs => self.n < 1 || self.n as usize > MAX_PROCS,
            PlanFault::Cap => self.cap < 1 || self.cap > MAX_CAP,
            PlanFault::Hold => self.hold < 1 || self.hold > MAX_HOLD,
            PlanFault::Parent => self.has_wrong_parent(),
            PlanFault::Depth => self.has_deep_path(),
            PlanFault::Mixed => self.has_mixed_relay(),
            PlanFault::Childless => self.has_childless_relay(),
            PlanFault::Unattached => self.has_unattached_process(),
            PlanFault::Watched => self.has_wrong_watched(),
        }
    }

    fn has_wrong_parent(&self) -> bool
        ensures { IsTrue result ↔ HasFault self.now plan_fault.Parent }
    {
        if self.parents.is_empty() || self.parents.len() > MAX_RELAYS {
            return true;
        }
        for (relay, parent) in self.parents.iter().enumerate() {
            if let Parent::Relay(above) = parent
                && *above as usize >= relay
            {
                return true;
            }
        }
        false
    }

    fn has_deep_path(&self) -> bool
        requires { ¬ HasFault self.now plan_fault.Parent }
        ensures { IsTrue result ↔ HasFault self.now plan_fault.Depth }
    {
        for relay in 0..self.parents.len() {
            if path_length(&self.parents, relay) > MAX_PATH {
                return true;
            }
        }
        false
    }

    fn has_mixed_relay(&self) -> bool
        requires { ¬ HasFault self.now plan_fault.Parent }
        ensures { IsTrue result ↔ HasFault self.now plan_fault.Mixed }
    {
        for relay in 0..self.parents.len() as u32 {
            if self.is_leaf(relay) && self.serves_relay(relay) {
                return true;
            }
        }
        false
    }

    fn has_childless_relay(&self) -> bool
        requires { ¬ HasFault self.now plan_fault.Parent }
        ensures { IsTrue result ↔ HasFault self.now plan_fault.Childless }
    {
        for relay in 0..self.parents.len() as u32 {
            if !self.is_leaf(relay) && !self.serves_relay(relay) {
                return true;
            }
        }
        false
    }

    fn has_unattached_process(&self) -> bool
        ensures { IsTrue result ↔ HasFault self.now plan_fault.Unattached }
    {
        if self.attach.len() != self.n as usize {
            return true;
        }
        self.attach.iter().any(|entry| match entry {
            Some(relay) => *relay as usize >= self.parents.len(),
            None => true,
        })
    }

    fn has_wrong_watched(&self) -> bool
        ensures { IsTrue result ↔ HasFault self.now plan_fault.Watched }
    {
        let mut nobody = true;
        for p in 0..MAX_PROCS as u32 {
            if self.watched.has(p) {
                if p >= self.n {
                    return true;
                }
                nobody = false;
            }
        }
        nobody
    }

    /// Whether the relay serves process `p`.
    pub fn is_attached(&self, relay: u32, p: u32) -> bool
        ensures { result ≡ is_attached self.now relay p }
    {
        match self.attach.get(p as usize) {
            Some(Some(attached)) => *attached == relay,
            _ => false,
        }
    }

    /// Whether the relay serves processes.
    pub fn is_leaf(&self, relay: u32) -> bool
        ensures { result ≡ is_leaf self.now relay }
    {
        self.served().iter().any(|entry| match entry {
            Some(attached) => *attached == relay,
            None => false,
        })
    }

    /// The entries of `attach` for the processes that there are.
    fn served(&self) -> &[Option<u32>]
        ensures { result.now ≡ take self.now.n self.now.attach.items }
    {
        self.attach.get(..self.n as usize).unwrap_or(&self.attach)
    }

    /// What the probe of process `p` is made with.
    pub fn probe_setup(&self, p: u32) -> ProbeSetup
        ensures { result ≡ setup self.now.n self.now.watched self.now.flag p }
    {
        ProbeSetup {
            processes: self.n,
            process: p,
            watched: self.watched.has(p),
            flag: self.flag,
        }
    }

    /// What a relay passes its items to, if there is such a relay.
    pub fn parent_of(&self, relay: u32) -> Option<Parent>
        ensures { result ≡ parent_of self.now relay }
    {
        self.parents.get(relay as usize).copied()
    }

    /// The same plan, in memory of its own. `Err` where memory runs out.
    pub fn copy(&self, alloc: Global) -> Result<Plan, AllocError>
        ensures { IfOk result (λ copy. IsSamePlan copy self.now) }
    {
        Ok(Plan {
            n: self.n,
            cap: self.cap,
            hold: self.hold,
            parents: Vec::from_slice(alloc, &self.parents)?,
            attach: Vec::from_slice(alloc, &self.attach)?,
            watched: self.watched,
            flag: self.flag,
        })
    }

    fn serves_relay(&self, relay: u32) -> bool
        ensures { IsTrue result ↔ ServesRelay self.now relay }
    {
        self.parents.contains(&Parent::Relay(relay))
    }
}

/// How many relays the path from a relay to the root has.
fn path_length(parents: &[Parent], relay: usize) -> usize
    requires right { ¬ HasWrongParent parents.now }
    requires within { relay < length parents.now }
    ensures path { (path : List ℕ) × IsPath parents.now (relay ∷ path) × (result ≡ length (relay ∷ path)) }
    ensures short { result ≤ relay + 1 }
{
    match parents[relay] {
        Parent::Root => 1,
        Parent::Relay(above) => path_length(parents, above as usize) + 1,
    }
}
