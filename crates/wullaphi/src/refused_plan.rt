ghost use Rattle.std.specs.Prelude.{◌≡◌, ◌↔◌, Err, IsOk, IsTrue};
ghost use Rattle.wcp_model.specs.PlanFault.{IsCheckedPlan, ServesRelay};
ghost use Rattle.wullaphi.specs.Refused.{HasFaultAt, IsPlaceOf, IsRefusalOf};
ghost use Rattle.wullaphi.specs.declared.refused_plan.RefusedPlan.{RefusedPlan};

use std::fmt;
use wcp_clock::{MAX_PROCS, MAX_RELAYS};
use wcp_model::{Parent, Plan, PlanFault};

/// A plan that is refused: its first fault, its numbers, and where the fault stands. It displays as that fault, with
/// what is out of its limits and these limits.
#[derive(Clone, Copy, Debug, PartialEq, Eq)]
pub struct RefusedPlan {
    pub fault: PlanFault,
    /// How many processes the plan has.
    pub n: u32,
    pub cap: u32,
    pub hold: u32,
    /// How many relays the plan has.
    pub relays: usize,
    /// How many processes `attach` gives a relay, or none.
    pub attached: usize,
    /// The first relay or process at which the fault stands, of the first 16; none where it is a fault of a number, of
    /// a path, or of the plan as a whole.
    pub place: Option<u32>,
}

impl fmt::Display for RefusedPlan {
    fn fmt<W: fmt::Write>(&self, f: &mut fmt::Formatter<W>) -> fmt::Result {
        let RefusedPlan {
            fault,
            n,
            cap,
            hold,
            relays,
            attached,
            place,
        } = *self;
        match (fault, place) {
            (PlanFault::Procs, _) => write!(f, "n {n} is not in 1 to 16"),
            (PlanFault::Cap, _) => write!(f, "cap {cap} is not in 1 to 1,024"),
            (PlanFault::Hold, _) => write!(f, "hold {hold} is not in 1 to 64"),
            (PlanFault::Parent, _) if relays < 1 || relays > MAX_RELAYS => {
                write!(f, "{relays} relays are not in 1 to 15")
            }
            (PlanFault::Parent, Some(relay)) => {
                write!(
                    f,
                    "the parent of relay {relay} is neither a lower relay nor the root"
                )
            }
            (PlanFault::Depth, _) => write!(f, "a path to the root has more than 8 relays"),
            (PlanFault::Mixed, Some(relay)) => write!(
                f,
                "relay {relay} serves a process and a relay"
            ),
            (PlanFault::Childless, Some(relay)) => write!(f, "relay {relay} serves nothing"),
            (PlanFault::Unattached, _) if attached != n as usize => {
                write!(f, "attach has {attached} entries, and n is {n}")
            }
            (PlanFault::Unattached, Some(process)) => {
                write!(f, "process {process} has none of the {relays} relays")
            }
            (PlanFault::Watched, Some(process)) => write!(
                f,
                "process {process} is watched, and n is {n}"
            ),
            (PlanFault::Watched, None) => write!(f, "no process is watched"),
            (fault, _) => write!(f, "{fault}"),
        }
    }
}

/// Whether this plan has no fault; else its refusal, for its first fault.
pub(crate) fn check_plan(plan: &Plan) -> Result<(), RefusedPlan>
    ensures ok { IsOk result ↔ IsCheckedPlan plan.now }
    ensures err { (refused : RefusedPlan) → (result ≡ Err refused) ↔ IsRefusalOf plan.now refused }
{
    match plan.check() {
        Ok(()) => Ok(()),
        Err(fault) => Err(RefusedPlan {
            fault,
            n: plan.n,
            cap: plan.cap,
            hold: plan.hold,
            relays: plan.parents.len(),
            attached: plan.attach.len(),
            place: place_of(plan, fault),
        }),
    }
}

/// The first relay or process at which a plan has this fault, of the first 16.
fn place_of(plan: &Plan, fault: PlanFault) -> Option<u32>
    ensures { IsPlaceOf plan.now fault result }
{
    for place in 0..MAX_PROCS as u32 {
        if has_fault_at(plan, fault, place) {
            return Some(place);
        }
    }
    None
}

/// Whether a plan has this fault at this relay or process.
fn has_fault_at(plan: &Plan, fault: PlanFault, place: u32) -> bool
    ensures { IsTrue result ↔ HasFaultAt plan.now fault place }
{
    match fault {
        PlanFault::Procs | PlanFault::Cap | PlanFault::Hold | PlanFault::Depth => false,
        PlanFault::Parent => match plan.parent_of(place) {
            Some(Parent::Relay(above)) => above >= place,
            _ => false,
        },
        PlanFault::Mixed => plan.is_leaf(place) && serves_relay(plan, place),
        PlanFault::Childless => {
            (place as usize) < plan.parents.len()
                && !plan.is_leaf(place)
                && !serves_relay(plan, place)
        }
        PlanFault::Unattached => match plan.attach.get(place as usize) {
            Some(Some(relay)) => *relay as usize >= plan.parents.len(),
            Some(None) => true,
            None => false,
        },
        PlanFault::Watched => place >= plan.n && plan.watched.has(place),
    }
}

/// Whether the relay is the parent of another.
fn serves_relay(plan: &Plan, relay: u32) -> bool
    ensures { IsTrue result ↔ ServesRelay plan.now relay }
{
    plan.parents.contains(&Parent::Relay(relay))
}
