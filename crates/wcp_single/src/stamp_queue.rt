//! The messages in transit on a channel.
ghost use Rattle.std.specs.Prelude.{◌≡◌, ◌<◌, List, [], ◌∷◌, ◌++◌, length, map, OnOk};
ghost use Rattle.wcp_probe.specs.Seal.{Seal, seal_of};

use std::alloc::{AllocError, Global};
use std::collections::VecDeque;
use std::marker::Model;
use wcp_probe::Stamped;

/// The messages that were sent on a channel and not received, the first one first: to its callers, their seals.
#[derive(Drop)]
pub struct StampQueue {
    messages: VecDeque<Stamped<()>>,
}

impl Model for StampQueue {
    ghost Value = { List Seal };

    ghost view = { λ queue. map seal_of queue.messages.items };
}

impl StampQueue {
    /// A channel on which nothing was sent.
    pub fn new(alloc: Global) -> StampQueue
        ensures { result ≡ [] }
    {
        StampQueue {
            messages: VecDeque::new(alloc),
        }
    }

    /// Sends a message. `Err` where memory runs out.
    pub fn push(&mut self, message: Stamped<()>) -> Result<(), AllocError>
        ensures { OnOk result (self.new ≡ self.old ++ seal_of message ∷ []) }
    {
        self.messages.push_back(message)?;
        Ok(())
    }

    /// Receives the message that was sent first.
    pub fn pop(&mut self) -> Stamped<()>
        requires { 0 < length self.old }
        ensures { self.old ≡ seal_of result ∷ self.new }
    {
        self.messages.pop_front().unwrap()
    }
}
