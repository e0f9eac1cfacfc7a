//! A watch whose threads are yours to run: it is opened, and its parts are handed out.
ghost use Rattle.std.specs.Prelude.{◌≡◌, ◌↔◌, false, map, replicate, All, Err, IfErr, IfOk, None, Some};
ghost use Rattle.wcp_model.specs.PlanFault.{IsCheckedPlan};
ghost use Rattle.wullaphi.specs.Opened.{HasOpened, IsProbeOf, IsRelayOf, no_ends};
ghost use Rattle.wullaphi.specs.Refused.{IsOfOpening, IsRefusalOf};
ghost use Rattle.wullaphi.specs.declared.refused_plan.RefusedPlan.{RefusedPlan};

use crate::own_ends::WatchEnds;
use crate::own_parts::{WatchChecker, WatchProbe, WatchRelay};
use crate::refused_plan::check_plan;
use crate::watch_fault::WatchFault;
use crate::watch_run::WatchRun;
use std::alloc::{AllocError, Global};
use std::marker::{Brand, Model};
use std::snapshot::Snapshot;
use wcp_book::Book;
use wcp_model::Plan;
use wcp_queue::Panel;
use wcp_tree::{LiveProbe, Relay, Watch as Tree, watch};

/// Which watch is opened: a name for proofs, which a program hands on and never chooses.
pub trait Opening {
    ghost use Rattle.std.specs.Prelude.{Option};
    ghost use Rattle.wullaphi.specs.Opened.{OpenedWatch};

    ghost opened: { Option OpenedWatch };
}

impl Opening for Brand {
    ghost use Rattle.std.specs.Prelude.{None};

    ghost opened = { None };
}

/// A watch that is opened and has not run, for who runs its threads in another way than `watch_processes`.
///
/// A contract sees it as its plan and the tree of links that was opened for it.
#[derive(Drop)]
pub struct OpenWatch {
    plan: Snapshot<Plan>,
    processes: u32,
    tree: Tree,
    panel: Panel,
    run: WatchRun,
}

impl Model for OpenWatch {
    ghost use Rattle.std.specs.Coded.{codes};
    ghost use Rattle.wcp_clock.specs.ProcessNumbers.{numbers_code};
    ghost use Rattle.wcp_relay.specs.contracts.parts.Watch as of_tree;
    ghost use Rattle.wullaphi.specs.Opened.{IsFreshWatch, OpenedWatch};

    ghost Value = { OpenedWatch };

    ghost coded = { Prim.hlevel (codes, of_tree.the_row.coded, numbers_code) };

    ghost view = { λ w. record { plan = w.plan.value; tree = w.tree } };

    ghost invariant = { λ w. IsFreshWatch (record { plan = w.plan.value; tree = w.tree }) w.processes w.panel };
}

/// The parts of a watch, each for a thread of its own, and where their ends are gathered.
#[derive(Drop)]
pub struct WatchParts<W: Opening> {
    /// The probes, by the numbers of their processes.
    pub probes: Vec<WatchProbe<W>>,
    pub relays: Vec<WatchRelay<W>>,
    pub checker: WatchChecker<W>,
    /// No ends yet.
    pub ends: WatchEnds<W>,
}

impl OpenWatch {
    /// Opens a watch of this plan. The number of the watch tells it from others: a stamp of another one is refused. All
    /// memory of its links is taken here. `Err` tells the first fault of the plan, or that memory ran out.
    pub fn open(alloc: Global, plan: &Plan, number: u64) -> Result<OpenWatch, WatchFault>
        ensures plan { IfOk result (λ watch. watch.plan ≡ plan.now) }
        ensures number { IfOk result (λ watch. watch.tree.inbox.watch ≡ number) }
        ensures refused { (refused : RefusedPlan)
            → (result ≡ Err (WatchFault.Plan refused)) ↔ IsRefusalOf plan.now refused }
        ensures fault { IfErr result IsOfOpening }
    {
        if let Err(refused) = check_plan(plan) {
            return Err(WatchFault::Plan(refused));
        }
        open_checked(alloc, plan, number)
    }

    /// A book for this watch, in which nothing is posted or told.
    pub fn book(&self) -> Book
        ensures { result
            ≡ record { shares = replicate self.now.plan.n None; found = None; ended = None; in_use = false } }
    {
        Book::new(self.processes)
    }

    /// Takes it apart. `Err` where memory runs out.
    pub fn parts<W: Opening>(self, alloc: Global) -> Result<WatchParts<W>, AllocError>
        requires { W.opened ≡ Some self }
        ensures probes { IfOk result (λ parts. parts.probes.items ≡ self.tree.probes.items) }
        ensures relays { IfOk result (λ parts.
            parts.relays.items ≡ map (λ relay. relay.number) self.tree.relays.items) }
        ensures checker { IfOk result (λ parts. parts.checker ≡ self.tree.inbox.watch) }
        ensures ends { IfOk result (λ parts. parts.ends ≡ no_ends) }
    {
        let ends = WatchEnds::new(alloc, self.tree.probes.len(), self.tree.relays.len())?;
        let OpenWatch {
            plan: _,
            processes: _,
            tree,
            panel,
            run,
        } = self;
        let Tree {
            probes,
            relays,
            inbox,
        } = tree;
        let checker = WatchChecker::new(inbox, panel);
        let probes = name_probes(alloc, &run, probes)?;
        let relays = name_relays(alloc, relays)?;
        Ok(WatchParts {
            probes,
            relays,
            checker,
            ends,
        })
    }
}

/// Opens a watch of a plan that has no fault. `Err` where memory runs out.
fn open_checked(alloc: Global, plan: &Plan, number: u64) -> Result<OpenWatch, WatchFault>
    requires { IsCheckedPlan plan.now }
    ensures plan { IfOk result (λ watch. watch.plan ≡ plan.now) }
    ensures number { IfOk result (λ watch. watch.tree.inbox.watch ≡ number) }
    ensures fault { IfErr result (λ fault. fault ≡ WatchFault.Memory) }
{
    let tree = watch(alloc, plan, number)?;
    let panel = Panel::new(alloc, plan.n, &[plan.watched])?;
    Ok(OpenWatch {
        plan: Snapshot::of(plan),
        processes: plan.n,
        tree,
        panel,
        run: WatchRun::new(alloc, number, plan.n)?,
    })
}

/// The probes of an opened watch, which say so. `Err` where memory runs out.
fn name_probes<W: Opening>(
    alloc: Global,
    run: &WatchRun,
    probes: Vec<LiveProbe>,
) -> Result<Vec<WatchProbe<W>>, AllocError>
    requires { All (λ probe. HasOpened (IsProbeOf probe) W.opened) probes.items }
    ensures { IfOk result (λ named. named.items ≡ probes.items) }
{
    let mut named = Vec::with_capacity(alloc, probes.len())?;
    for probe in probes {
        named.push(WatchProbe::new(probe, run.for_another()?))?;
    }
    Ok(named)
}

/// The relays of an opened watch, which say so. `Err` where memory runs out.
fn name_relays<W: Opening>(
    alloc: Global,
    relays: Vec<Relay>,
) -> Result<Vec<WatchRelay<W>>, AllocError>
    requires { All (λ relay. HasOpened (IsRelayOf relay) W.opened) relays.items }
    ensures { IfOk result (λ named. named.items ≡ map (λ relay. relay.number) relays.items) }
{
    let mut named = Vec::with_capacity(alloc, relays.len())?;
    for relay in relays {
        named.push(WatchRelay::new(relay))?;
    }
    Ok(named)
}
