ghost use Rattle.std.specs.Prelude.{◌≡◌, ◌↔◌, ◌+◌, ◌^◌, ◌<◌, ◌≤◌, ℕ, true, false, nat_lt, slice_index};
ghost use Rattle.std.specs.Prelude.{IsTrue, if◌then◌else◌};
ghost use Rattle.wcp_clock.specs.Limits.{most_processes};
ghost use Rattle.wcp_queue.specs.Floor.{component, has_head, head_of, first_floor, HaveHeads, IsCutOfHeads, IsSameBut};
ghost use Rattle.wcp_queue.specs.Floor.{Rises, RisesTo};

use wcp_clock::{Clock, MAX_PROCS, PerProcess};

/// The floor under the heads: the componentwise maximum of every clock that was ever a head. Where a
/// process has a head, its own component is the floor's.
#[derive(Clone, Copy, Debug)]
pub struct Floor {
    pub(crate) components: [u32; MAX_PROCS],
    pub(crate) heads: [bool; MAX_PROCS],
    pub(crate) tests: u64,
}

impl Floor {
    /// The floor before there was a head.
    pub fn new() -> Floor
        ensures { result ≡ first_floor }
    {
        Floor {
            components: [0; MAX_PROCS],
            heads: [false; MAX_PROCS],
            tests: 0,
        }
    }

    /// Whether process `p` has a head.
    pub fn has_head(&self, p: usize) -> bool
        requires { p < most_processes }
        ensures { result ≡ has_head self.now p }
    {
        self.heads[p]
    }

    /// The interval of the head of process `p`, if it has one.
    pub fn head(&self, p: usize) -> Option<u32>
        requires { p < most_processes }
        ensures { result ≡ head_of self.now p }
    {
        self.heads[p].then_some(self.components[p])
    }

    /// How many component tests were made.
    pub fn tests(&self) -> u64
        ensures { result ≡ self.now.tests }
    {
        self.tests
    }

    /// Whether each of `n` processes has a head.
    pub fn have_heads(&self, n: usize) -> bool
        requires { n ≤ most_processes }
        ensures { IsTrue result ↔ HaveHeads n self.now }
    {
        for p in 0..n {
            if !self.heads[p] {
                return false;
            }
        }
        true
    }

    /// The intervals of the heads, of which each of `n` processes has one.
    pub fn cut(&self, n: usize) -> PerProcess<u32>
        requires some { 0 < n }
        requires few { n ≤ most_processes }
        requires heads { HaveHeads n self.now }
        ensures { IsCutOfHeads n self.now result }
    {
        PerProcess::new(&self.components[..n])
    }

    /// Whether a snapshot of `p`, one of `n` processes, with this component of its own lies under the
    /// floor: it then precedes a snapshot that is or was a head. Nothing is compared for one process.
    pub fn is_above(&mut self, n: usize, p: usize, own: u32) -> bool
        requires within { p < most_processes }
        requires room { 1 < n → self.old.tests + 1 < 2 ^ 64 }
        ensures above { IsTrue result ↔ ((1 < n) × (own < component self.old p)) }
        ensures tests { self.new ≡ record self.old { tests = self.old.tests + (if nat_lt 1 n then 1 else 0) } }
    {
        if n <= 1 {
            return false;
        }
        self.tests += 1;
        own < self.components[p]
    }

    /// A snapshot of `p`, one of `n` processes, becomes its head, and raises the floor at each other process to what
    /// its clock knows of that one, if that is greater. The head there then precedes the new one, and is dropped.
    pub fn set_head(&mut self, n: usize, p: usize, clock: &Clock)
        requires within { p < n }
        requires few { n ≤ most_processes }
        requires room { self.old.tests + n ≤ 2 ^ 64 }
        ensures head { has_head self.new p ≡ true }
        ensures own { component self.new p ≡ slice_index clock.now p }
        ensures rises { Rises n p clock.now self.old self.new }
        ensures tests { self.new.tests + 1 ≡ self.old.tests + n }
    {
        self.raise(clock);
        self.tests += n as u64 - 1;
        self.components[p] = clock.get(p as u32);
        self.heads[p] = true;
    }

    /// Raises the floor at each process to what a clock knows, and drops each head that precedes the clock's: one
    /// comparison for each component. That of the clock's own process was compared before, and is not counted again.
    fn raise(&mut self, clock: &Clock)
        ensures rises { (q : ℕ) → q < most_processes → RisesTo q (slice_index clock.now q) self.old self.new }
        ensures tests { self.new.tests ≡ self.old.tests }
    {
        let mut risen = *self; // a copy, which no other memory can share
        for q in 0..MAX_PROCS as u32 {
            risen.raise_to(q, clock.get(q));
        }
        *self = risen;
    }

    /// Raises the floor at process `q` to what is known of it, if that is greater, and drops its head then. It writes
    /// in either case, so that a pass over all places needs no branch.
    fn raise_to(&mut self, q: u32, known: u32)
        requires { q < most_processes }
        ensures rises { RisesTo q known self.old self.new }
        ensures others { IsSameBut q self.old self.new }
        ensures tests { self.new.tests ≡ self.old.tests }
    {
        let q = q as usize;
        let floor = self.components[q];
        let risen = floor.max(known);
        self.components[q] = risen;
        self.heads[q] = self.heads[q] && risen == floor;
    }
}
