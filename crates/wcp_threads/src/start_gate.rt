use std::marker::Model;
use std::sync::{Condvar, Mutex, Wait};

/// Where the threads of a run are to wait until all are started. No clause says that they do: what is behind a lock is
/// known by its type alone. Clauses see nothing of it.
#[derive(Drop)]
pub struct StartGate {
    /// Whether it was opened, once that is known.
    opened: Mutex<Option<bool>>,
    told: Condvar,
}

impl Model for StartGate {
    ghost use Rattle.std.specs.Prelude.{⊤};

    ghost Value = { ⊤ };

    ghost view = { λ _. tt };
}

impl StartGate {
    /// A gate that is neither opened nor given up.
    pub fn new() -> StartGate {
        StartGate {
            opened: Mutex::new(None),
            told: Condvar::new(),
        }
    }

    /// Sleeps while the gate is neither opened nor given up. The answer is whether it was opened.
    pub fn pass<R: Wait>(&self, rt: &R) -> bool {
        let opened = self
            .told
            .wait_while(rt, self.opened.lock(rt), |opened| opened.is_none());
        *opened == Some(true)
    }

    /// Opens the gate, or gives it up, and wakes those that sleep at it.
    pub fn tell<R: Wait>(&self, rt: &R, opened: bool) {
        *self.opened.lock(rt) = Some(opened);
        self.told.notify_all();
    }
}
