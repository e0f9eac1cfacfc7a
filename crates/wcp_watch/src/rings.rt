ghost use Rattle.std.specs.Prelude.{◌≡◌, ◌≢◌, ◌↔◌, ℕ, slice_get, All, AllPairs, IsOk, OnOk, IfErr};
ghost use Rattle.wcp_watch.specs.Seats.{SitsAt};
ghost use Rattle.wcp_watch.specs.Settling.{IsRingMatched};
ghost use Rattle.wcp_watch.specs.Matching.{HasProbe};
ghost use Rattle.wcp_watch.specs.declared.settle_fault.SettleFault.TheVariants as settle_fault;

use crate::settle_fault::SettleFault;
use wcp_relay::{Feed, ProbeEnd};
use wcp_ring::match_ends;

/// Matches each feed with the end of the probe of its process, which leaves its seat. `Err` where a process was lost,
/// or not all that its probe put was taken.
pub(crate) fn match_rings(
    mut feeds: Vec<Feed>,
    probes: &mut [Option<ProbeEnd>],
) -> Result<(), SettleFault>
    requires seated { All (HasProbe probes.old) feeds.items }
    requires apart { AllPairs (λ one other. one.process ≢ other.process) feeds.items }
    ensures exact { IsOk result ↔ All (IsRingMatched (SitsAt probes.old)) feeds.items }
    ensures others { OnOk result ((p : ℕ) → All (λ feed. feed.process ≢ p) feeds.items
        → slice_get probes.new p ≡ slice_get probes.old p) }
    ensures fault { IfErr result (λ fault. fault ≡ settle_fault.Unfinished) }
{
    while let Some(feed) = feeds.pop() {
        if feed.lost {
            return Err(SettleFault::Unfinished);
        }
        let process = feed.process as usize;
        prove!(process < probes.len());
        let Some(probe) = probes[process].take() else {
            unreachable!();
        };
        if let Err(_) = match_ends(probe.into_link(), feed.taker) {
            return Err(SettleFault::Unfinished);
        }
    }
    Ok(())
}
