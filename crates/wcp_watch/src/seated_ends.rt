ghost use Rattle.std.specs.Prelude.{◌↔◌, ◌≡◌, All, None, IsTrue, IfOk, IfErr};
ghost use Rattle.wcp_book.specs.State.{BookState};
ghost use Rattle.wcp_relay.specs.RelayEnds.{fault_of};
ghost use Rattle.wcp_watch.specs.SeatedEnds.{AreSeatedAndWhole};
ghost use Rattle.wcp_watch.specs.Settling.{ComeFromWatch, IsFirstSettleFault};

use crate::checker_end::CheckerEnd;
use crate::seats::{are_seated, empty, seat};
use crate::settle_fault::SettleFault;
use wcp_clock::{MAX_PROCS, MAX_RELAYS};
use wcp_relay::{ProbeEnd, RelayEnd};

/// The ends of a watch, each at the place of its number.
#[derive(Drop)]
pub(crate) struct SeatedEnds {
    pub(crate) probes: [Option<ProbeEnd>; MAX_PROCS],
    pub(crate) relays: [Option<RelayEnd>; MAX_RELAYS],
}

/// Seats all ends. `Err` where one is of another watch or comes twice, else where one is missing, and else where one
/// has a fault.
pub(crate) fn seat_ends(
    probes: Vec<ProbeEnd>,
    relays: Vec<RelayEnd>,
    checker: &CheckerEnd,
) -> Result<SeatedEnds, SettleFault>
    requires { ComeFromWatch probes.items relays.items checker.now }
    ensures seated { IfOk result (AreSeatedAndWhole probes.items relays.items checker.now) }
    ensures first { IfErr result (λ fault. (book : BookState)
        → IsFirstSettleFault probes.items relays.items checker.now book fault) }
{
    let whole = are_whole(&relays, checker);
    let mut probe_ends: [Option<ProbeEnd>; MAX_PROCS] = empty();
    seat(checker.watch, probes, &mut probe_ends)?;
    let mut relay_ends: [Option<RelayEnd>; MAX_RELAYS] = empty();
    seat(checker.watch, relays, &mut relay_ends)?;
    if !are_seated(&probe_ends, checker.processes) || !are_seated(&relay_ends, checker.relays) {
        return Err(SettleFault::Missing);
    }
    if !whole {
        return Err(SettleFault::Faulted);
    }
    Ok(SeatedEnds {
        probes: probe_ends,
        relays: relay_ends,
    })
}

/// Whether no end has a fault.
fn are_whole(relays: &[RelayEnd], checker: &CheckerEnd) -> bool
    ensures { IsTrue result ↔ (All (λ end. fault_of end ≡ None) relays.now × (checker.now.fault ≡ None)) }
{
    checker.fault.is_none() && relays.iter().all(|end| end.fault().is_none())
}
