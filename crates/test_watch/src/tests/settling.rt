//! Watches whose ends are settled, or are not.
ghost use Rattle.std.specs.Prelude.{◌≡◌, ◌≢◌, All, IfOk, IfSome, Some, slice_get};
ghost use Rattle.wcp_watch.specs.Settling.{ComeFromWatch, IsEndOfSomeProbe, IsEndOfSomeRelay};

use super::plans::two_hops;
use super::watches::{ONE, Opened, found, open};
use std::alloc::{AllocError, Global};
use std::process::Abort;
use std::sync::{Mutex, Wait};
use std::test::Fail;
use wcp_book::Book;
use wcp_model::{Outcome, Tallies};
use wcp_tree::{LiveProbe, ProbeEnd, Relay, RelayEnd, Watch, watch};
use wcp_watch::{CheckFault, CheckerEnd, SettleFault, check_loop, settle};

/// What is left of a watch that ran.
#[derive(Drop)]
struct Ends {
    probes: Vec<ProbeEnd>,
    relays: Vec<RelayEnd>,
    checker: CheckerEnd,
    book: Book,
}

/// The process emits one snapshot, and closes. `None` where its ring has no room.
fn emit_one(mut probe: LiveProbe) -> Option<ProbeEnd>
    ensures { IfSome result (λ end. (end.id ≡ probe.core.id) × (end.link.ring ≡ probe.link.ring)) }
{
    probe.observe(true);
    probe.flush();
    probe.close().ok()
}

/// The process emits one snapshot and closes, unless it is the one that is lost.
fn emit_or_lose(probe: LiveProbe, lost: Option<u32>) -> Option<ProbeEnd>
    ensures { IfSome result (λ end. (end.id ≡ probe.core.id) × (end.link.ring ≡ probe.link.ring)) }
{
    if lost == Some(probe.id()) {
        return None;
    }
    emit_one(probe)
}

/// Each process emits one snapshot and closes, but for the one that is lost.
fn close_all(
    alloc: Global,
    mut probes: Vec<LiveProbe>,
    lost: Option<u32>,
) -> Result<Vec<ProbeEnd>, AllocError>
    requires { All (λ probe. slice_get probes.items probe.core.id ≡ Some probe) probes.items }
    ensures { IfOk result (λ ends. All (IsEndOfSomeProbe probes.items) ends.items) }
{
    let mut ends = Vec::with_capacity(alloc, probes.len())?;
    while let Some(probe) = probes.pop() {
        if let Some(end) = emit_or_lose(probe, lost) {
            ends.push(end)?;
        }
    }
    Ok(ends)
}

/// The relays run, the highest number first.
fn run_all(
    rt: &impl Wait,
    alloc: Global,
    mut relays: Vec<Relay>,
) -> Result<Vec<RelayEnd>, AllocError>
    requires { All (λ relay. slice_get relays.items relay.number ≡ Some relay) relays.items }
    ensures { IfOk result (λ ends. All (IsEndOfSomeRelay relays.items) ends.items) }
{
    let mut ends = Vec::with_capacity(alloc, relays.len())?;
    while let Some(relay) = relays.pop() {
        ends.push(relay.run(rt))?;
    }
    Ok(ends)
}

/// A watch of two hops that runs in one thread: the processes, of which one may be lost, then the relays, and then the
/// checker's loop.
fn run_watch(rt: &(impl Abort + Wait), alloc: Global, lost: Option<u32>) -> Ends
    ensures { ComeFromWatch result.probes.items result.relays.items result.checker }
{
    let plan = two_hops(rt, alloc);
    let Opened { watch, panel } = open(rt, alloc, &plan);
    let Watch {
        probes,
        relays,
        inbox,
    } = watch;
    let probes = close_all(alloc, probes, lost).expect(rt, "memory");
    let relays = run_all(rt, alloc, relays).expect(rt, "memory");
    let book = Mutex::new(Book::new(2));
    let checker = check_loop(rt, inbox, panel, &book);
    let book = book.into_inner();
    Ends {
        probes,
        relays,
        checker,
        book,
    }
}

/// What the ends are settled to.
fn settled(rt: &impl Abort, ends: Ends) -> Outcome
    requires { ComeFromWatch ends.probes.items ends.relays.items ends.checker }
{
    settle(ends.probes, ends.relays, ends.checker, ends.book).expect(rt, "all is there")
}

#[test]
fn two_hops_are_settled_at_the_first_cut(rt: HostRuntime) {
    let ends = run_watch(&rt, rt.alloc(), None);
    assert_eq!(rt; (ends.checker.watch(), ends.book.has_ended()), (7, true));
    let settled = settled(&rt, ends);
    assert_eq!(rt;
        (settled.report, settled.tallies),
        (found(), Tallies::new(&[ONE, ONE]))
    );
}

/// The ends but for that of the relay of this number, the first such one. `None` where there is none.
fn without_relay(mut ends: Ends, number: u32) -> Option<Ends>
    requires { ComeFromWatch ends.probes.items ends.relays.items ends.checker }
    ensures { IfSome result (λ ends. ComeFromWatch ends.probes.items ends.relays.items ends.checker) }
{
    let at = ends.relays.iter().position(|end| end.number() == number)?;
    drop(ends.relays.remove(at));
    Some(ends)
}

/// The ends but for that of the probe of this process, the first such one. `None` where there is none.
fn without_probe(mut ends: Ends, process: u32) -> Option<Ends>
    requires { ComeFromWatch ends.probes.items ends.relays.items ends.checker }
    ensures { IfSome result (λ ends. ComeFromWatch ends.probes.items ends.relays.items ends.checker) }
{
    let at = ends.probes.iter().position(|end| end.id() == process)?;
    drop(ends.probes.remove(at));
    Some(ends)
}

/// The ends, and behind them that of a probe of another watch.
fn with_a_stranger(mut ends: Ends, stranger: ProbeEnd) -> Result<Ends, AllocError>
    requires come { ComeFromWatch ends.probes.items ends.relays.items ends.checker }
    requires other { stranger.watch ≢ ends.checker.watch }
    ensures { IfOk result (λ ends. ComeFromWatch ends.probes.items ends.relays.items ends.checker) }
{
    ends.probes.push(stranger)?;
    Ok(ends)
}

/// The end of a probe of a watch of another number.
fn end_of_another_watch(rt: &impl Abort, alloc: Global) -> ProbeEnd {
    let plan = two_hops(rt, alloc);
    let Watch { mut probes, .. } = watch(alloc, &plan, 8).expect(rt, "memory");
    let probe = probes.pop().expect(rt, "a probe");
    emit_one(probe).expect(rt, "room")
}

/// The ends are not settled, for this reason.
fn is_not_settled(rt: &impl Abort, ends: Ends, fault: SettleFault)
    requires { ComeFromWatch ends.probes.items ends.relays.items ends.checker }
{
    let met = settle(ends.probes, ends.relays, ends.checker, ends.book).err();
    assert_eq!(rt; met, Some(fault));
}

#[test]
fn each_relay_without_an_end_is_missing(rt: HostRuntime) {
    for number in 0..2 {
        let ends = run_watch(&rt, rt.alloc(), None);
        let ends = without_relay(ends, number).expect(&rt, "a relay");
        is_not_settled(&rt, ends, SettleFault::Missing);
    }
}

#[test]
fn each_probe_without_an_end_is_missing(rt: HostRuntime) {
    for process in 0..2 {
        let ends = run_watch(&rt, rt.alloc(), None);
        assert_eq!(rt; ends.checker.fault(), None);
        let ends = without_probe(ends, process).expect(&rt, "a probe");
        is_not_settled(&rt, ends, SettleFault::Missing);
    }
}

/// All loops end where a process is lost before it has put anything, and its probe has no end.
#[test]
fn each_process_that_is_lost_is_missing(rt: HostRuntime) {
    for process in 0..2 {
        let ends = run_watch(&rt, rt.alloc(), Some(process));
        assert_eq!(rt; ends.checker.fault(), Some(CheckFault::Lost(process)));
        is_not_settled(&rt, ends, SettleFault::Missing);
    }
}

#[test]
fn a_probe_of_another_watch_is_a_stranger(rt: HostRuntime) -> Result<(), Fail> {
    let ends = run_watch(&rt, rt.alloc(), None);
    let stranger = end_of_another_watch(&rt, rt.alloc());
    assert!(rt; stranger.watch() != ends.checker.watch());
    let ends = with_a_stranger(ends, stranger)?;
    is_not_settled(&rt, ends, SettleFault::Stranger);
    Ok(())
}
