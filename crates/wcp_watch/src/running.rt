//! The threads of a run, one for each part.
ghost use Rattle.std.specs.Prelude.{◌≡◌, [], map, IfOk, IfSome};
ghost use Rattle.wcp_threads.specs.Threads.{AreEndsOf};
ghost use Rattle.wcp_relay.specs.RelayEnds.{IsEndOfRelay};
ghost use Rattle.wcp_watch.specs.RunParts.{AreReady, HaveEnded, AreEmptyRooms, AreThreadsOf};

use crate::checker_end::CheckerEnd;
use crate::checking_part::Checking;
use std::alloc::{AllocError, Global};
use std::sync::{Mutex, Wait};
use std::thread::{Scope, Threads, scope, scope_env};
use thiserror::Error;
use wcp_book::Book;
use wcp_relay::{Relay, RelayEnd};
use wcp_threads::{Part, RunsWith, StartGate, Started, join_all, start, start_all};

/// The parts of a run: the workers of the processes, the relays, and the checker.
#[derive(Drop)]
pub struct Parts<W: Drop> {
    pub workers: Vec<W>,
    pub relays: Vec<Relay>,
    pub checking: Checking,
}

/// What the parts of a run leave, each at the place of its part.
#[derive(Drop)]
pub struct Ends<E: Drop> {
    pub workers: Vec<E>,
    pub relays: Vec<RelayEnd>,
    pub checker: CheckerEnd,
}

/// Why the parts of a run didn't run.
#[derive(Clone, Copy, Debug, PartialEq, Eq, Error)]
pub enum StartFault {
    /// Memory ran out.
    #[error("memory")]
    Memory,
    /// A thread couldn't be made.
    #[error("spawn")]
    Spawn,
}

/// A place for each thread and each end, so that no memory is wanted once a thread is started.
#[derive(Drop)]
pub struct Rooms<W: Part<E>, E: Send + Drop> {
    worker_threads: Vec<Started<W, E>>,
    relay_threads: Vec<Started<Relay, RelayEnd>>,
    worker_ends: Vec<E>,
    relay_ends: Vec<RelayEnd>,
}

/// The threads of a run.
#[derive(Drop)]
pub struct Running<W: Part<E>, E: Send + Drop> {
    workers: Vec<Started<W, E>>,
    relays: Vec<Started<Relay, RelayEnd>>,
    checking: Started<Checking, CheckerEnd>,
}

/// Runs each part in a thread of its own. The threads wait until all are started; where one can't be made, each part is
/// let go without being run. The clause speaks of the ends alone, not of what a thread did before it was let through.
pub fn run_parts<
    G: Sync,
    E: Send + Drop + 'static,
    W: RunsWith<G, E> + 'static,
    R: Threads + Wait + Sync,
>(
    rt: &R,
    alloc: Global,
    parts: Parts<W>,
    gate: &G,
    book: &Mutex<Book>,
) -> Result<Ends<E>, StartFault>
    requires { AreReady W.is_ready parts }
    ensures { IfOk result (HaveEnded W.is_end parts) }
{
    let Ok(rooms) = empty_rooms::<E, W>(alloc, parts.workers.len(), parts.relays.len()) else {
        return Err(StartFault::Memory);
    };
    let start_gate = StartGate::new();
    let ended = scope(
        scope_env(),
        rt,
        |scope| -> Option<Ends<E>>
            requires { AreReady W.is_ready parts × AreEmptyRooms rooms }
            ensures { IfSome result (HaveEnded W.is_end parts) }
        { run_within(scope, rt, &start_gate, parts, rooms, gate, book) },
    );
    ended.ok_or(StartFault::Spawn)
}

/// Rooms for so many workers and relays. `Err` where memory runs out.
fn empty_rooms<E: Send + Drop, W: Part<E>>(
    alloc: Global,
    workers: usize,
    relays: usize,
) -> Result<Rooms<W, E>, AllocError>
    ensures { IfOk result AreEmptyRooms }
{
    Ok(Rooms {
        worker_threads: Vec::with_capacity(alloc, workers)?,
        relay_threads: Vec::with_capacity(alloc, relays)?,
        worker_ends: Vec::with_capacity(alloc, workers)?,
        relay_ends: Vec::with_capacity(alloc, relays)?,
    })
}

/// Runs the parts in threads of this scope. `None` where a thread can't be made.
fn run_within<
    's,
    S,
    G: Sync,
    E: Send + Drop + 's,
    W: RunsWith<G, E> + 's,
    R: Threads + Wait + Sync,
>(
    scope: &Scope<'s, S>,
    rt: &'s R,
    start_gate: &'s StartGate,
    parts: Parts<W>,
    rooms: Rooms<W, E>,
    gate: &'s G,
    book: &'s Mutex<Book>,
) -> Option<Ends<E>>
    requires ready { AreReady W.is_ready parts }
    requires empty { AreEmptyRooms rooms }
    ensures { IfSome result (HaveEnded W.is_end parts) }
{
    let Rooms {
        worker_threads,
        relay_threads,
        worker_ends,
        relay_ends,
    } = rooms;
    let started = start_parts(
        scope,
        rt,
        start_gate,
        parts,
        worker_threads,
        relay_threads,
        gate,
        book,
    );
    start_gate.tell(rt, started.is_some());
    join_parts(rt, started?, worker_ends, relay_ends)
}

/// Starts each part. `None` where a thread can't be made.
fn start_parts<
    's,
    S,
    G: Sync,
    E: Send + Drop + 's,
    W: RunsWith<G, E> + 's,
    R: Threads + Wait + Sync,
>(
    scope: &Scope<'s, S>,
    rt: &'s R,
    gate: &'s StartGate,
    parts: Parts<W>,
    worker_threads: Vec<Started<W, E>>,
    relay_threads: Vec<Started<Relay, RelayEnd>>,
    shared: &'s G,
    book: &'s Mutex<Book>,
) -> Option<Running<W, E>>
    requires ready { AreReady W.is_ready parts }
    requires no_workers { worker_threads.items ≡ [] }
    requires no_relays { relay_threads.items ≡ [] }
    ensures { IfSome result (AreThreadsOf parts) }
{
    let Parts {
        workers,
        relays,
        checking,
    } = parts;
    Some(Running {
        workers: start_all(scope, rt, gate, shared, workers, worker_threads)?,
        relays: start_relays(scope, rt, gate, relays, relay_threads)?,
        checking: start(scope, rt, gate, book, checking)?,
    })
}

/// Joins each thread. `None` where one was not let through its gate.
fn join_parts<E: Send + Drop, W: Part<E>, R: Threads>(
    rt: &R,
    running: Running<W, E>,
    worker_ends: Vec<E>,
    relay_ends: Vec<RelayEnd>,
) -> Option<Ends<E>>
    requires no_workers { worker_ends.items ≡ [] }
    requires no_relays { relay_ends.items ≡ [] }
    ensures { IfSome result (λ ends. (parts : Parts W) → AreThreadsOf parts running → HaveEnded W.is_end parts ends) }
{
    let Running {
        workers,
        relays,
        checking,
    } = running;
    Some(Ends {
        workers: join_all(rt, workers, worker_ends)?,
        relays: join_relays(rt, relays, relay_ends)?,
        checker: checking.join(rt)?,
    })
}

/// Starts each relay.
fn start_relays<'s, S, R: Wait + Sync>(
    scope: &Scope<'s, S>,
    rt: &'s R,
    gate: &'s StartGate,
    relays: Vec<Relay>,
    room: Vec<Started<Relay, RelayEnd>>,
) -> Option<Vec<Started<Relay, RelayEnd>>>
    requires { room.items ≡ [] }
    ensures { IfSome result (λ threads. map (λ thread. thread.promise.0.value) threads.items ≡ relays.items) }
{
    start_all(scope, rt, gate, &(), relays, room)
}

/// Joins each relay.
fn join_relays<R: Threads>(
    rt: &R,
    threads: Vec<Started<Relay, RelayEnd>>,
    room: Vec<RelayEnd>,
) -> Option<Vec<RelayEnd>>
    requires { room.items ≡ [] }
    ensures { IfSome result (λ ends.
        AreEndsOf IsEndOfRelay (map (λ thread. thread.promise.0.value) threads.items) ends.items) }
{
    join_all(rt, threads, room)
}
