ghost use Rattle.std.specs.Prelude.{◌≡◌, ◌==◌, ◌+◌, ◌^◌, ◌<◌, ◌↔◌, [], ◌∷◌, ◌++◌, length, drop, replicate, slice_get};
ghost use Rattle.std.specs.Prelude.{map, slice_set, IfOk, IsTrue, OnOk, OnErr, Some};
ghost use Rattle.wcp_queue.specs.Elimination.{queue_of, waiting_in};

use circular_buffer::HeapCircularBuffer;
use std::alloc::{AllocError, Global};
use std::marker::Model;
use wcp_clock::Clock;

/// How many snapshots a queue has room for before it grows.
const FIRST_ROOM: usize = 8;

/// The snapshots of one process that wait to be its head, the oldest first.
///
/// A contract sees it as the list of their clocks.
#[derive(Debug, Drop)]
pub struct Queue {
    waiting: HeapCircularBuffer<Clock>,
}

impl Model for Queue {
    ghost use Rattle.std.specs.Prelude.{ℕ, List, ◌<◌};

    ghost Value = { List (List ℕ) };

    ghost view = { λ q. q.waiting.items };

    ghost invariant = { λ q. 0 < q.waiting.capacity };
}

impl Queue {
    /// An empty queue. `Err` where memory runs out.
    pub fn new(alloc: Global) -> Result<Queue, AllocError>
        ensures { IfOk result (λ queue. queue ≡ []) }
    {
        Ok(Queue {
            waiting: HeapCircularBuffer::with_capacity(alloc, FIRST_ROOM)?,
        })
    }

    /// A queue of these clocks, the oldest first. `Err` where memory runs out.
    pub fn of(alloc: Global, clocks: &[Clock]) -> Result<Queue, AllocError>
        ensures { IfOk result (λ queue. queue ≡ clocks.now) }
    {
        let mut queue = Queue::new(alloc)?;
        for clock in clocks {
            queue.push(clock)?;
        }
        Ok(queue)
    }

    /// The clocks that wait, the oldest first. `Err` where memory runs out.
    pub fn to_vec(&self, alloc: Global) -> Result<Vec<Clock>, AllocError>
        ensures { IfOk result (λ clocks. clocks.items ≡ self.now) }
    {
        self.waiting.to_vec(alloc)
    }

    /// Adds a snapshot at the end; a full queue doubles its room. `Err` where memory runs out.
    pub fn push(&mut self, clock: &Clock) -> Result<(), AllocError>
        ensures ok { OnOk result (self.new ≡ self.old ++ clock.now ∷ []) }
        ensures err { OnErr result (self.new ≡ self.old) }
    {
        if self.waiting.try_push_back(*clock).is_err() {
            self.waiting.resize(self.waiting.capacity() * 2)?;
            let _none = self.waiting.push_back(*clock);
        }
        Ok(())
    }

    /// Takes out the oldest snapshot, if there is one.
    pub fn pop(&mut self) -> Option<Clock>
        ensures value { result ≡ slice_get self.old 0 }
        ensures rest { self.new ≡ drop 1 self.old }
    {
        self.waiting.pop_front()
    }

    pub fn is_empty(&self) -> bool
        ensures { result ≡ (length self.now == 0) }
    {
        self.waiting.is_empty()
    }
}

/// The queues of the watched processes, and how many snapshots wait in all of them.
///
/// A contract sees it as the list of the queues.
#[derive(Debug, Drop)]
pub struct Queues {
    queues: Vec<Queue>,
    waiting: u64,
}

impl Model for Queues {
    ghost use Rattle.std.specs.Prelude.{◌≡◌, ℕ, List};
    ghost use Rattle.wcp_queue.specs.Elimination.{waiting_in};

    ghost Value = { List (List (List ℕ)) };

    ghost view = { λ q. q.queues.items };

    ghost invariant = { λ q. q.waiting ≡ waiting_in q.queues.items };
}

impl Queues {
    /// So many empty queues. `Err` where memory runs out.
    pub fn new(alloc: Global, count: u32) -> Result<Queues, AllocError>
        ensures { IfOk result (λ queues. queues ≡ replicate count []) }
    {
        let mut queues = Vec::with_capacity(alloc, count as usize)?;
        for _ in 0..count {
            queues.push(Queue::new(alloc)?)?;
        }
        Ok(Queues { queues, waiting: 0 })
    }

    /// A queue of each row of clocks, the oldest of it first. `Err` where memory runs out.
    pub fn of(alloc: Global, rows: &[Vec<Clock>]) -> Result<Queues, AllocError>
        ensures { IfOk result (λ queues. queues ≡ map (λ row. row.items) rows.now) }
    {
        let mut queues = Vec::with_capacity(alloc, rows.len())?;
        let mut waiting: u64 = 0;
        for row in rows {
            queues.push(Queue::of(alloc, row)?)?;
            let more = row.len() as u64;
            waiting = waiting.checked_add(more).ok_or(AllocError)?; // no memory holds so many
        }
        Ok(Queues { queues, waiting })
    }

    /// The clocks that wait in each, the oldest first. `Err` where memory runs out.
    pub fn to_rows(&self, alloc: Global) -> Result<Vec<Vec<Clock>>, AllocError>
        ensures { IfOk result (λ rows. map (λ row. row.items) rows.items ≡ self.now) }
    {
        let mut rows = Vec::with_capacity(alloc, self.queues.len())?;
        for queue in &self.queues {
            rows.push(queue.to_vec(alloc)?)?;
        }
        Ok(rows)
    }

    /// How many snapshots wait.
    pub fn waiting(&self) -> u64
        ensures { result ≡ waiting_in self.now }
    {
        self.waiting
    }

    /// How many queues there are.
    pub fn len(&self) -> usize
        ensures { result ≡ length self.now }
    {
        self.queues.len()
    }

    /// Whether no snapshot waits.
    pub fn are_empty(&self) -> bool
        ensures { IsTrue result ↔ (waiting_in self.now ≡ 0) }
    {
        self.waiting == 0
    }

    /// Whether no snapshot waits of process `p`.
    pub fn is_empty(&self, p: usize) -> bool
        requires { p < length self.now }
        ensures { result ≡ (length (queue_of self.now p) == 0) }
    {
        self.queues[p].is_empty()
    }

    /// Adds a snapshot at the end of the queue of `p`. `Err` where memory runs out.
    pub fn push(&mut self, p: usize, clock: &Clock) -> Result<(), AllocError>
        requires within { p < length self.old }
        requires room { waiting_in self.old + 1 < 2 ^ 64 }
        ensures ok { OnOk result (self.new ≡ slice_set self.old p (queue_of self.old p ++ clock.now ∷ [])) }
        ensures err { OnErr result (self.new ≡ self.old) }
    {
        self.queues[p].push(clock)?;
        self.waiting += 1;
        Ok(())
    }

    /// Takes out the oldest snapshot of `p`.
    pub fn pop(&mut self, p: usize) -> Clock
        requires within { p < length self.old }
        requires some { 0 < length (queue_of self.old p) }
        ensures value { slice_get (queue_of self.old p) 0 ≡ Some result }
        ensures rest { self.new ≡ slice_set self.old p (drop 1 (queue_of self.old p)) }
    {
        let Some(clock) = self.queues[p].pop() else {
            unreachable!()
        };
        self.waiting -= 1;
        clock
    }
}
