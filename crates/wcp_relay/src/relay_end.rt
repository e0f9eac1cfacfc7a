ghost use Rattle.std.specs.Prelude.{◌≡◌, Some, IfOk, IfErr};
ghost use Rattle.wcp_relay.specs.RelayEnds.{first_met, whole_end};

use crate::bundle::Bundle;
use crate::feed::Feed;
use crate::outlet::Outlet;
use crate::source::Source;
use crate::take_fault::TakeFault;
use std::snapshot::Snapshot;
use thiserror::Error;
use wcp_lane::{Cut, PutReceipt, TakeReceipt};
use wcp_model::Parent;

/// Why a relay didn't pass on all that it was to.
#[derive(Clone, Copy, Debug, PartialEq, Eq, Error)]
pub enum RelayFault {
    /// A note of this process came that wasn't its next one.
    #[error("a note of process {0} came out of its place")]
    Gap(u32),
    /// A lane was cut.
    #[error("{0}")]
    Cut(Cut),
}

/// What is left of what a relay took from.
#[derive(Drop)]
pub enum Receipts {
    /// The feeds of a leaf.
    Feeds(Vec<Feed>),
    /// The receipt of any other relay's lane.
    Lane(TakeReceipt<Bundle>),
}

/// What is left of a relay that ran.
#[derive(Drop)]
pub struct RelayEnd {
    pub(crate) number: u32,
    pub(crate) watch: u64,
    pub(crate) outcome: RelayOutcome,
}

/// What a relay came to.
#[derive(Drop)]
pub(crate) enum RelayOutcome {
    /// It passed all on.
    Whole {
        parent: Parent,
        taken: Receipts,
        put: PutReceipt<Bundle>,
    },
    /// It met a fault. It holds no end of a ring or a lane any more, so that no other relay waits
    /// for it; only contracts see what its ends had taken and put, and what ended its taking.
    Faulted {
        fault: RelayFault,
        source: Snapshot<Source>,
        outlet: Snapshot<Outlet>,
        met: Snapshot<Result<(), TakeFault>>,
    },
}

impl RelayEnd {
    ghost use Rattle.wcp_relay.specs.RelayEnds.{fault_of, number_of, watch_of};

    /// The number of its watch.
    pub fn watch(&self) -> u64
        ensures { result ≡ watch_of self.now }
    {
        self.watch
    }

    /// The number of the relay in the plan.
    pub fn number(&self) -> u32
        ensures { result ≡ number_of self.now }
    {
        self.number
    }

    /// The first fault that it met.
    pub fn fault(&self) -> Option<RelayFault>
        ensures { result ≡ fault_of self.now }
    {
        match &self.outcome {
            RelayOutcome::Whole { .. } => None,
            RelayOutcome::Faulted { fault, .. } => Some(*fault),
        }
    }

    /// Takes it apart, where it met no fault: the relay's parent, what is left of what it took from, and
    /// the receipt of what it put. `Err` tells the first fault that it met.
    pub fn into_receipts(self) -> Result<(Parent, Receipts, PutReceipt<Bundle>), RelayFault>
        ensures whole { IfOk result (λ left.
            self ≡ whole_end (number_of self) (watch_of self) left.0 left.1 left.2) }
        ensures fault { IfErr result (λ met. fault_of self ≡ Some met) }
    {
        match self.outcome {
            RelayOutcome::Whole { parent, taken, put } => Ok((parent, taken, put)),
            RelayOutcome::Faulted { fault, .. } => Err(fault),
        }
    }
}

/// The fault that came first, if one came: a cut as the relay put comes before what ended its taking.
pub(crate) fn first_fault(outlet: &Outlet, met: Result<(), TakeFault>) -> Option<RelayFault>
    ensures { result ≡ first_met outlet.now.cut met }
{
    if let Some(cut) = outlet.cut {
        return Some(RelayFault::Cut(cut));
    }
    match met {
        Ok(()) => None,
        Err(TakeFault::Gap(gap)) => Some(RelayFault::Gap(gap.process())),
        Err(TakeFault::Cut(met)) => Some(RelayFault::Cut(met.cut())),
    }
}
