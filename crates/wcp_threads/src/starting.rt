ghost use Rattle.std.specs.Prelude.{◌≡◌, [], map, All, IfSome};
ghost use Rattle.wcp_threads.specs.Threads.{AreEndsOf};

use crate::part::{Part, RunsWith};
use crate::start_gate::StartGate;
use std::snapshot::Snapshot;
use std::sync::Wait;
use std::thread::{Promise, PromisedHandle, Scope, Threads};

/// What a thread promises: the end of its part, where its start gate was opened.
#[derive(Drop)]
pub struct EndOf<P: Drop>(Snapshot<P>);

impl<E, P: Part<E>> Promise<Option<E>> for EndOf<P> {
    ghost use Rattle.std.specs.Prelude.{IfSome};

    ghost kept_by = { λ p r. IfSome r (P.is_end p.0.value) };
}

/// A thread that runs a part.
pub type Started<P, E> = PromisedHandle<Option<E>, EndOf<P>>;

/// Starts a part in a thread of its own, which waits at the gate. `None` where no thread can be made.
pub fn start<'s, S, C: Sync, E: Send + Drop + 's, P: RunsWith<C, E> + 's, R: Wait + Sync>(
    scope: &Scope<'s, S>,
    rt: &'s R,
    gate: &'s StartGate,
    shared: &'s C,
    part: P,
) -> Option<Started<P, E>>
    requires { P.is_ready part }
    ensures { IfSome result (λ thread. thread.promise.0.value ≡ part) }
{
    let promise = EndOf(Snapshot::of(&part));
    let thread = scope.spawn_with(
        promise,
        move || -> Option<E>
            requires { P.is_ready part }
            ensures { IfSome result (P.is_end part) }
        {
            if gate.pass(rt) {
                Some(part.run_with(rt, shared))
            } else {
                None
            }
        },
    );
    thread.ok()
}

/// Starts each of these parts. Its thread goes into this room, which has a place for each.
pub fn start_all<'s, S, C: Sync, E: Send + Drop + 's, P: RunsWith<C, E> + 's, R: Wait + Sync>(
    scope: &Scope<'s, S>,
    rt: &'s R,
    gate: &'s StartGate,
    shared: &'s C,
    parts: Vec<P>,
    mut room: Vec<Started<P, E>>,
) -> Option<Vec<Started<P, E>>>
    requires ready { All P.is_ready parts.items }
    requires empty { room.items ≡ [] }
    ensures { IfSome result (λ threads. map (λ thread. thread.promise.0.value) threads.items ≡ parts.items) }
{
    for part in parts {
        let thread = start(scope, rt, gate, shared, part)?;
        let Ok(()) = room.push(thread) else {
            return None;
        };
    }
    Some(room)
}

/// Joins each of these threads. Its end goes into this room, which has a place for each. `None` where one was not
/// let through its gate.
pub fn join_all<E: Send + Drop, P: Part<E>, R: Threads>(
    rt: &R,
    threads: Vec<Started<P, E>>,
    mut room: Vec<E>,
) -> Option<Vec<E>>
    requires { room.items ≡ [] }
    ensures { IfSome result (λ ends.
        AreEndsOf P.is_end (map (λ thread. thread.promise.0.value) threads.items) ends.items) }
{
    for thread in threads {
        let end = thread.join(rt)?;
        let Ok(()) = room.push(end) else {
            return None;
        };
    }
    Some(room)
}
