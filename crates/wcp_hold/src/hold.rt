ghost use Rattle.std.specs.Prelude.{◌≡◌, ℕ, ◌<◌, ◌≤◌, ◌↔◌, [], ◌∷◌, ◌++◌, length, drop, slice_get, IsErr, IfOk, OnOk};
ghost use Rattle.std.specs.Prelude.{IfErr};

use circular_buffer::HeapCircularBuffer;
use std::alloc::{AllocError, Global};
use std::marker::Model;
use wcp_clock::Item;

/// A bounded hold of items, first in, first out. Its memory is taken once, when it is made.
#[derive(Drop)]
pub struct Hold {
    queue: HeapCircularBuffer<Item>,
}

impl Model for Hold {
    ghost use Rattle.std.specs.Prelude.{length, ◌≤◌};
    ghost use Rattle.wcp_hold.specs.Held.{Held};

    ghost Value = { Held };

    ghost view = { λ h. record { items = h.queue.items; room = h.queue.capacity } };
}

impl Hold {
    /// An empty hold with room for `cap` items. `Err` where memory runs out.
    pub fn new(alloc: Global, cap: u32) -> Result<Hold, AllocError>
        requires some { 0 < cap }
        ensures items { IfOk result (λ hold. hold.items ≡ []) }
        ensures room { IfOk result (λ hold. hold.room ≡ cap) }
    {
        Ok(Hold {
            queue: HeapCircularBuffer::with_capacity(alloc, cap as usize)?,
        })
    }

    /// Puts an item behind those that are there, or hands it back where the hold is full.
    pub fn push(&mut self, item: Item) -> Result<(), Item>
        ensures full { IsErr result ↔ (length self.old.items ≡ self.old.room) }
        ensures ok { OnOk result (self.new ≡ record self.old { items = self.old.items ++ item ∷ [] }) }
        ensures err { IfErr result (λ back. (back ≡ item) × (self.new ≡ self.old)) }
    {
        if self.queue.len() == self.queue.capacity() {
            return Err(item);
        }
        let _overwritten = self.queue.push_back(item);
        Ok(())
    }

    /// Takes the first item out, if there is one.
    pub fn pop(&mut self) -> Option<Item>
        ensures value { result ≡ slice_get self.old.items 0 }
        ensures rest { self.new ≡ record self.old { items = drop 1 self.old.items } }
    {
        self.queue.pop_front()
    }

    /// Reads the item that the next `pop` gives.
    pub fn front(&self) -> Option<Item>
        ensures { result ≡ slice_get self.now.items 0 }
    {
        self.queue.front().copied()
    }

    /// Reads the item at place `i`, the one that the next `pop` gives at 0.
    pub fn get(&self, i: usize) -> Option<Item>
        ensures { result ≡ slice_get self.now.items i }
    {
        self.queue.get(i).copied()
    }

    /// How many items there are.
    pub fn len(&self) -> usize
        ensures count { result ≡ length self.now.items }
        ensures within { length self.now.items ≤ self.now.room }
    {
        self.queue.len()
    }
}
