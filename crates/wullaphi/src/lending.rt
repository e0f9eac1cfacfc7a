ghost use Rattle.std.specs.Prelude.{◌≡◌, [], is_some, IfNone, IfSome, None, Some};
ghost use Rattle.wcp_probe.specs.Core.{setup_of};
ghost use Rattle.wcp_relay.specs.LiveProbe.{IsEndOfProbe, LiveFor};
ghost use Rattle.wullaphi.specs.Lent.{HasLeft, HasRun, IsLent};

use crate::lent_probe::{LentProbe, Loan};
use crate::process::LosableProcess;
use crate::watch_run::WatchRun;
use std::marker::Brand;
use std::sync::Wait;
use wcp_tree::{LiveProbe, ProbeEnd};

/// Runs a process of this run with its probe, and closes the probe. Where the part of the process isn't done its probe
/// is dropped in place of that.
pub(crate) fn lend_and_close<S, A, P: LosableProcess<Shared = S, Answer = A>, R: Wait>(
    rt: &R,
    process: P,
    probe: LiveProbe,
    run: WatchRun,
    shared: &S,
) -> (A, Option<ProbeEnd>)
    requires fresh { LiveFor probe [] }
    requires put { probe.core.pending ≡ None }
    ensures done { is_some result.1 ≡ P.done result.0 }
    ensures closed { IfSome result.1 (λ end. IsEndOfProbe probe end) }
    ensures ran { IfSome result.1 (λ end.
        HasRun P.leaves probe.core.watch (setup_of probe.core) process result.0 end.link.put) }
    ensures lost { IfNone result.1 (HasLeft P.leaves probe.core.watch (setup_of probe.core) process result.0) }
{
    lend::<Brand, S, A, P, R>(rt, process, probe, run, shared)
}

/// Lends a process this probe, and closes it, or drops it.
fn lend<L: Loan, S, A, P: LosableProcess<Shared = S, Answer = A>, R: Wait>(
    rt: &R,
    process: P,
    probe: LiveProbe,
    run: WatchRun,
    shared: &S,
) -> (A, Option<ProbeEnd>)
    requires lent { IsLent L.watch L.made L.ring probe }
    requires fresh { LiveFor probe [] }
    ensures done { is_some result.1 ≡ P.done result.0 }
    ensures watch { IfSome result.1 (λ end. end.watch ≡ L.watch) }
    ensures id { IfSome result.1 (λ end. end.id ≡ L.made.process) }
    ensures ring { IfSome result.1 (λ end. Some end.link.ring ≡ L.ring) }
    ensures ran { IfSome result.1 (λ end. HasRun P.leaves L.watch L.made process result.0 end.link.put) }
    ensures lost { IfNone result.1 (HasLeft P.leaves L.watch L.made process result.0) }
{
    let mut lent: LentProbe<L> = LentProbe::new(probe, run);
    let answer = process.run(rt, &mut lent, shared);
    if P::is_done(&answer) {
        (answer, Some(lent.close(rt)))
    } else {
        lent.lose();
        (answer, None)
    }
}
