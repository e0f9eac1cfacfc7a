ghost use Rattle.std.specs.Prelude.{◌≡◌, ◌≢◌, ℕ, ◌<◌, ◌^◌, ◌↔◌, length, true, IfOk, IsTrue};
ghost use Rattle.wcp_clock.specs.ProcessNumbers.{NumberSet};
ghost use Rattle.wcp_model.specs.Computation.{IsTrueState, is_communication_of};
ghost use Rattle.wcp_model.specs.Cut.{IsSatisfyingCut, NamesWatched, member};
ghost use Rattle.wcp_model.specs.Order.{HappenedBefore};
ghost use Rattle.wcp_plain.specs.Named.{Names};

use crate::order::happened_before;
use std::alloc::{AllocError, Global};
use wcp_model::{State, Step};

/// Whether the state is a true state.
pub fn is_true_state(steps: &[Step], state: State) -> bool
    ensures { IsTrue result ↔ IsTrueState steps.now state }
{
    is_true_in(steps, state.process as usize, state.interval)
}

/// Whether the process is in a true state in this interval.
fn is_true_in(steps: &[Step], process: usize, interval: u64) -> bool
    ensures state { IsTrue result
        ↔ IsTrueState steps.now (record { process = process; interval = interval }) }
    ensures number { IsTrue result → process < 2 ^ 32 }
{
    let mut current = 0;
    for step in steps {
        if current == interval && is_true_observation_of(process, step) {
            return true;
        }
        if is_communication_of(process, step) {
            current += 1;
        }
    }
    false
}

/// Whether the step is a communication event of the process.
fn is_communication_of(process: usize, step: &Step) -> bool
    ensures { result ≡ is_communication_of process step.now }
{
    match *step {
        Step::Send(from, _) => from as usize == process,
        Step::Recv(to, _) => to as usize == process,
        _ => false,
    }
}

/// Whether the step is an observation of the process that finds its condition true.
fn is_true_observation_of(process: usize, step: &Step) -> bool
    ensures observed { IsTrue result ↔ (step.now ≡ Step.Observe process true) }
    ensures number { IsTrue result → process < 2 ^ 32 }
{
    match *step {
        Step::Observe(observer, holds) => holds && observer as usize == process,
        _ => false,
    }
}

/// Whether the cut, an interval of each process that it names, is satisfying. `Err` where memory runs
/// out.
pub fn is_satisfying_cut(
    alloc: Global,
    steps: &[Step],
    cut: &[Option<u64>],
) -> Result<bool, AllocError>
    ensures { IfOk result (λ yes. (n : ℕ) (watched : NumberSet) → NamesWatched n watched cut.now
        → IsTrue yes ↔ IsSatisfyingCut n watched steps.now cut.now) }
{
    Ok(has_true_members(steps, cut) && is_consistent(alloc, steps, cut)?)
}

/// Whether each member of the cut is a true state.
fn has_true_members(steps: &[Step], cut: &[Option<u64>]) -> bool
    ensures true_states { IsTrue result
        ↔ ((p : ℕ) → Names cut.now p → IsTrueState steps.now (member cut.now p)) }
    ensures few { IsTrue result → (p : ℕ) → Names cut.now p → p < 2 ^ 32 }
{
    for p in 0..cut.len() {
        if let Some(interval) = cut[p]
            && !is_true_in(steps, p, interval)
        {
            return false;
        }
    }
    true
}

/// Whether no member of the cut happened before another.
fn is_consistent(alloc: Global, steps: &[Step], cut: &[Option<u64>]) -> Result<bool, AllocError>
    requires { (p : ℕ) → Names cut.now p → p < 2 ^ 32 }
    ensures { IfOk result (λ yes. IsTrue yes ↔ ((p q : ℕ) → Names cut.now p → Names cut.now q → p ≢ q
        → HappenedBefore steps.now (member cut.now p) (member cut.now q) → ⊥)) }
{
    for p in 0..cut.len() {
        if cut[p].is_some() && precedes_another(alloc, steps, cut, p)? {
            return Ok(false);
        }
    }
    Ok(true)
}

/// Whether the member of process p happened before another member of the cut.
fn precedes_another(
    alloc: Global,
    steps: &[Step],
    cut: &[Option<u64>],
    p: usize,
) -> Result<bool, AllocError>
    requires few { (q : ℕ) → Names cut.now q → q < 2 ^ 32 }
    requires named { Names cut.now p }
    ensures { IfOk result
        (λ yes. IsTrue yes
        ↔ ((q : ℕ)
        × Names cut.now q
        × (p ≢ q)
        × HappenedBefore steps.now (member cut.now p) (member cut.now q))) }
{
    for q in 0..cut.len() {
        if p != q
            && cut[q].is_some()
            && happened_before(alloc, steps, member(cut, p), member(cut, q))?
        {
            return Ok(true);
        }
    }
    Ok(false)
}

/// The member of process p of the cut.
fn member(cut: &[Option<u64>], p: usize) -> State
    requires number { p < 2 ^ 32 }
    requires within { p < length cut.now }
    ensures { result ≡ member cut.now p }
{
    State {
        process: p as u32,
        interval: cut[p].unwrap_or(0),
    }
}
