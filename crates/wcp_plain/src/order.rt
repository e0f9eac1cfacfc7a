ghost use Rattle.std.specs.Prelude.{◌≡◌, ◌==◌, ℕ, ◌+◌, ◌<◌, ◌^◌, ◌⊎◌, ◌↔◌, [], slice_get, if◌then◌else◌, true, Some};
ghost use Rattle.std.specs.Prelude.{Contains, IfOk, OnOk, IsTrue};
ghost use Rattle.wcp_model.specs.Order.{HappenedBefore};

use std::alloc::{AllocError, Global};
use wcp_model::{State, Step};

/// What a pass over a computation knows, at a place of it, of what state `from` happened before.
#[derive(Drop)]
struct Pass {
    from: State,
    /// The interval that the process of `from` is in.
    interval: u64,
    /// The processes in a state that `from` happened before.
    after: Vec<u32>,
    /// Of each message so far, whether it was sent in `from` or in a state that `from` happened
    /// before.
    carries: Vec<bool>,
}

impl Pass {
    /// The pass at the first place.
    fn new(alloc: Global, from: State) -> Pass
        ensures from { result.from ≡ from }
        ensures interval { result.interval ≡ 0 }
        ensures after { result.after.items ≡ [] }
        ensures carries { result.carries.items ≡ [] }
    {
        Pass {
            from,
            interval: 0,
            after: Vec::new(alloc),
            carries: Vec::new(alloc),
        }
    }

    /// Whether the process is in `from`, or in a state that `from` happened before.
    fn has_reached(&self, process: u32) -> bool
        ensures { IsTrue result
            ↔ (Contains self.now.after.items process
            ⊎ (process ≡ self.now.from.process) × (self.now.interval ≡ self.now.from.interval)) }
    {
        self.after.contains(&process)
            || process == self.from.process && self.interval == self.from.interval
    }

    /// Whether the message was sent, in `from` or in a state that `from` happened before.
    fn has_carried(&self, message: u64) -> bool
        ensures { IsTrue result ↔ (slice_get self.now.carries.items message ≡ Some true) }
    {
        self.carries.get(message as usize) == Some(&true)
    }

    /// The process enters its next state, which `from` happened before or not.
    fn enter(&mut self, process: u32, after: bool) -> Result<(), AllocError>
        requires { self.old.interval + 1 < 2 ^ 64 }
        ensures from { self.new.from ≡ self.old.from }
        ensures carries { self.new.carries ≡ self.old.carries }
        ensures interval { self.new.interval
            ≡ (if process == self.old.from.process then self.old.interval + 1 else self.old.interval) }
        ensures after { OnOk result
            ((r : ℕ)
            → Contains self.new.after.items r
            ↔ (Contains self.old.after.items r ⊎ (r ≡ process) × IsTrue after)) }
    {
        if process == self.from.process {
            self.interval += 1;
        }
        if after && !self.after.contains(&process) {
            self.after.push(process)?;
        }
        Ok(())
    }
}

/// Whether state `from` happened before state `to`: one pass over the steps. `Err` where memory runs
/// out.
pub fn happened_before(
    alloc: Global,
    steps: &[Step],
    from: State,
    to: State,
) -> Result<bool, AllocError>
    ensures { IfOk result (λ yes. IsTrue yes ↔ HappenedBefore steps.now from to) }
{
    let mut pass = Pass::new(alloc, from);
    let mut interval = 0;
    for step in steps {
        let (process, after) = match *step {
            Step::Send(process, _) => {
                let after = pass.has_reached(process);
                pass.carries.push(after)?;
                (process, after)
            }
            Step::Recv(process, message) => {
                (
                    process,
                    pass.has_reached(process) || pass.has_carried(message),
                )
            }
            _ => continue,
        };
        pass.enter(process, after)?;
        if process == to.process {
            interval += 1;
            if interval == to.interval {
                return Ok(after);
            }
        }
    }
    Ok(false)
}
