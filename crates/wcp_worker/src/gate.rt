ghost use Rattle.std.specs.Prelude.{◌≡◌, IsTrue};
ghost use Rattle.wcp_clock.specs.Limits.{most_gate_turns};

use std::thread::yield_now;
use wcp_clock::GATE_TURNS;
use wcp_relay::LiveProbe;

/// A worker that is held back gives its turn to other threads each time that it has asked so often. On a processor that
/// has other work to do, each time costs milliseconds.
const TURNS_A_YIELD: u32 = 16_384;

/// What says when a worker may make its next step.
pub trait Gate {
    /// Whether the worker of process `p` may make its own step number `step`, from 0. It is asked again for as long
    /// as the answer is false.
    fn pass(&self, p: u32, step: u64) -> bool;

    /// Whether it lets each step pass without delay. Before it asks any other gate, a worker tells its relay of what it
    /// has put, so that a gate may hold it back until something has come to the checker.
    fn is_open(&self) -> bool {
        false
    }
}

/// The gate that is always open.
pub struct Open;

impl Gate for Open {
    fn pass(&self, _p: u32, _step: u64) -> bool
        ensures { IsTrue result }
    {
        true
    }

    fn is_open(&self) -> bool {
        true
    }
}

/// Asks a gate whether the worker of this probe may make this step, again and again while its answer is false, and at
/// most [`GATE_TURNS`] times. What a gate answers no clause knows, so none speaks of this answer.
pub(crate) fn may_step<G: Gate>(gate: &G, probe: &LiveProbe, step: u64) -> bool {
    if !gate.is_open() {
        probe.tell_relay();
    }
    let p = probe.id();
    for turn in 0..most_turns() {
        if gate.pass(p, step) {
            return true;
        }
        if turn % TURNS_A_YIELD == 0 {
            yield_now();
        }
    }
    false
}

/// How many times in a row a gate may hold a worker back before it gives up.
fn most_turns() -> u32
    ensures { result ≡ most_gate_turns }
{
    GATE_TURNS
}
