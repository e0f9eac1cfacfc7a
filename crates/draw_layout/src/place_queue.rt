//! The messages in transit on a channel.
ghost use Rattle.std.specs.Prelude.{◌≡◌, ◌<◌, ℕ, List, [], ◌∷◌, ◌++◌, length, OnOk};

use std::alloc::{AllocError, Global};
use std::collections::VecDeque;
use std::marker::Model;

/// The messages that were sent on a channel and not received, the first one first: the places of their sends.
#[derive(Drop)]
pub(crate) struct PlaceQueue {
    places: VecDeque<usize>,
}

impl Model for PlaceQueue {
    ghost Value = { List ℕ };

    ghost view = { λ queue. queue.places.items };
}

impl PlaceQueue {
    /// A channel on which nothing was sent.
    pub(crate) fn new(alloc: Global) -> PlaceQueue
        ensures { result ≡ [] }
    {
        PlaceQueue {
            places: VecDeque::new(alloc),
        }
    }

    /// A message is sent at this place. `Err` where memory runs out.
    pub(crate) fn push(&mut self, place: usize) -> Result<(), AllocError>
        ensures { OnOk result (self.new ≡ self.old ++ place ∷ []) }
    {
        self.places.push_back(place)?;
        Ok(())
    }

    /// The message that was sent first is received.
    pub(crate) fn pop(&mut self) -> usize
        requires { 0 < length self.old }
        ensures { self.old ≡ result ∷ self.new }
    {
        self.places.pop_front().unwrap()
    }
}
