ghost use Rattle.std.specs.Prelude.{◌≡◌, ◌≤◌, length, map, take, slice_get, All, IfNone, IfOk, IfSome};
ghost use Rattle.std.specs.Prelude.{IsSome, IsSomeAnd, None, Some};
ghost use Rattle.wcp_clock.specs.Limits.{most_processes};

use crate::lending::lend_and_close;
use crate::process::LosableProcess;
use crate::watch_run::WatchRun;
use std::alloc::{AllocError, Global};
use std::sync::Wait;
use wcp_threads::{Part, RunsWith};
use wcp_tree::{LiveProbe, ProbeEnd};

/// A process with its probe, for a thread of its own.
#[derive(Drop)]
pub struct Seat<P: Drop> {
    pub(crate) probe: LiveProbe,
    pub(crate) run: WatchRun,
    pub(crate) process: P,
}

/// What is left of it: its closed probe, or none where the process was lost, and what the process answered.
#[derive(Drop)]
pub struct SeatEnd<A: Drop> {
    pub(crate) probe: Option<ProbeEnd>,
    pub(crate) answer: A,
}

impl<A: Send + Drop, P: LosableProcess<Answer = A> + Send + Drop> Part<SeatEnd<A>> for Seat<P> {
    ghost use Rattle.wullaphi.specs.Seats.{IsEndOfSeat, IsNewSeat};

    ghost is_ready = { λ seat. IsNewSeat seat };

    ghost is_end = { λ seat end. IsEndOfSeat P.leaves P.done seat end };
}

impl<S, A: Send + Drop, P: LosableProcess<Shared = S, Answer = A> + Send + Drop> RunsWith<
    S,
    SeatEnd<A>,
> for Seat<P> {
    fn run_with<R: Wait>(self, rt: &R, shared: &S) -> SeatEnd<A> {
        let Seat {
            probe,
            run,
            process,
        } = self;
        let (answer, probe) = lend_and_close(rt, process, probe, run, shared);
        SeatEnd { probe, answer }
    }
}

/// Gives each process of this run the probe of its number. `Err` where memory runs out.
pub(crate) fn seat_all<P: Drop>(
    alloc: Global,
    run: &WatchRun,
    probes: Vec<LiveProbe>,
    processes: Vec<P>,
) -> Result<Vec<Seat<P>>, AllocError>
    requires { length processes.items ≡ length probes.items }
    ensures probes { IfOk result (λ seats. map (λ seat. seat.probe) seats.items ≡ probes.items) }
    ensures processes { IfOk result (λ seats. map (λ seat. seat.process) seats.items ≡ processes.items) }
{
    let mut left = processes.into_iter();
    let mut seats = Vec::with_capacity(alloc, probes.len())?;
    for probe in probes {
        let Some(process) = left.next() else {
            unreachable!()
        };
        let run = run.for_another()?;
        seats.push(Seat {
            probe,
            run,
            process,
        })?;
    }
    Ok(seats)
}

/// The lowest of these processes that was lost, if one was.
pub(crate) fn first_lost<A: Drop>(ends: &[SeatEnd<A>]) -> Option<u32>
    requires few { length ends.now ≤ most_processes }
    ensures lost { IfSome result (λ process. IsSomeAnd (slice_get ends.now process) (λ end. end.probe ≡ None)) }
    ensures before { IfSome result (λ process. All (λ end. IsSome end.probe) (take process ends.now)) }
    ensures none { IfNone result (All (λ end. IsSome end.probe) ends.now) }
{
    let mut process = 0u32;
    for end in ends {
        if end.probe.is_none() {
            return Some(process);
        }
        process += 1;
    }
    None
}

/// The closed probes and the answers, each at the place of its process. `Err` where memory runs out.
pub(crate) fn take_apart<A: Drop>(
    alloc: Global,
    ends: Vec<SeatEnd<A>>,
) -> Result<(Vec<ProbeEnd>, Vec<A>), AllocError>
    requires { All (λ end. IsSome end.probe) ends.items }
    ensures probes { IfOk result (λ apart. map (λ end. end.probe) ends.items ≡ map Some apart.0.items) }
    ensures answers { IfOk result (λ apart. map (λ end. end.answer) ends.items ≡ apart.1.items) }
{
    let mut probes = Vec::with_capacity(alloc, ends.len())?;
    let mut answers = Vec::with_capacity(alloc, ends.len())?;
    for end in ends {
        let SeatEnd { probe, answer } = end;
        let Some(probe) = probe else { unreachable!() };
        probes.push(probe)?;
        answers.push(answer)?;
    }
    Ok((probes, answers))
}
