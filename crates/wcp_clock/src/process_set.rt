ghost use Rattle.std.specs.Prelude.{◌≡◌, ◌≢◌, ℕ, ◌<◌, ◌≤◌, ◌↔◌, ◌||◌, true, false, length, max, nat_lt, slice_index_or};
ghost use Rattle.std.specs.Prelude.{All, Any, Contains, IsTrue};
ghost use Rattle.std.specs.FinSet as set;
ghost use Rattle.wcp_clock.specs.Limits.{most_processes};
ghost use Rattle.wcp_clock.specs.ProcessNumbers.{AreProcessNumbers};

use crate::limits::MAX_PROCS;
use std::marker::Model;

/// A set of processes, by their numbers, each below [`MAX_PROCS`].
#[derive(Clone, Copy, Debug)]
pub struct ProcessSet {
    has: [bool; MAX_PROCS],
}

impl Model for ProcessSet {
    ghost use Rattle.std.specs.Prelude.{◌≡◌, length};
    ghost use Rattle.std.specs.Ordering.{nat_cmp};
    ghost use Rattle.std.specs.FinSet as set;
    ghost use Rattle.std.specs.Coded.{coded_ℕ};
    ghost use Rattle.wcp_clock.specs.Limits.{most_processes};
    ghost use Rattle.wcp_clock.specs.Numbers.{set_of, marks_of, marks_back};

    ghost Value = { set.FinSet nat_cmp };

    ghost coded = { set.code coded_ℕ };

    ghost view = { λ o. set_of o.has };

    ghost invariant = { λ o. length o.has ≡ most_processes };

    ghost inverse = { λ numbers. record { has = marks_of numbers 0 most_processes } };

    ghost inverse_ok = { λ o full i. record { has = marks_back o.has most_processes full i } };
}

impl ProcessSet {
    /// No number.
    pub fn none() -> ProcessSet
        ensures { result ≡ set.empty }
    {
        ProcessSet {
            has: [false; MAX_PROCS],
        }
    }

    /// The numbers of the first `n` processes.
    pub fn all(n: u32) -> ProcessSet
        requires { n ≤ most_processes }
        ensures { (p : ℕ) → set.contains result p ≡ nat_lt p n }
    {
        let mut all = ProcessSet::none();
        for p in 0..n {
            all = all.with(p);
        }
        all
    }

    /// The numbers `a` and `b`. Where they are one number, or one of them isn't below [`MAX_PROCS`], no number at all,
    /// which no plan takes.
    pub fn pair(a: u32, b: u32) -> ProcessSet
        ensures two { a < most_processes → b < most_processes → a ≢ b
            → result ≡ set.insert (set.insert set.empty a) b }
        ensures same { a ≡ b → result ≡ set.empty }
        ensures none { most_processes ≤ max a b → result ≡ set.empty }
    {
        if a == b || a.max(b) as usize >= MAX_PROCS {
            return ProcessSet::none();
        }
        ProcessSet::none().with(a).with(b)
    }

    /// The numbers of this list. Where one of them isn't below [`MAX_PROCS`], no number at all, which no plan takes.
    pub fn these(numbers: &[u32]) -> ProcessSet
        ensures all { All (λ p. p < most_processes) numbers.now
            → (p : ℕ) → (set.contains result p ≡ true) ↔ Contains numbers.now p }
        ensures none { Any (λ p. most_processes ≤ p) numbers.now → result ≡ set.empty }
    {
        let mut these = ProcessSet::none();
        for p in numbers {
            if *p as usize >= MAX_PROCS {
                return ProcessSet::none();
            }
            these = these.with(*p);
        }
        these
    }

    /// These numbers and `p`. A `p` that isn't below [`MAX_PROCS`], which no process has, is left out.
    pub fn with(&self, p: u32) -> ProcessSet
        ensures more { p < most_processes → result ≡ set.insert self.now p }
        ensures same { most_processes ≤ p → result ≡ self.now }
    {
        let mut more = *self;
        if (p as usize) < MAX_PROCS {
            more.has[p as usize] = true;
        }
        more
    }

    /// Whether `p` is one of these numbers.
    pub fn has(&self, p: u32) -> bool
        ensures value { result ≡ set.contains self.now p }
        ensures within { AreProcessNumbers self.now }
    {
        (p as usize) < MAX_PROCS && self.has[p as usize]
    }

    /// Whether the two sets share a number.
    pub fn meets(&self, other: &ProcessSet) -> bool
        ensures { IsTrue result ↔ ((p : ℕ) × (set.contains self.now p ≡ true) × (set.contains other.now p ≡ true)) }
    {
        for p in 0..MAX_PROCS {
            if self.has(p as u32) && other.has(p as u32) {
                return true;
            }
        }
        false
    }

    /// The numbers of either set.
    pub fn joined(&self, other: &ProcessSet) -> ProcessSet
        ensures value { result ≡ set.union self.now other.now }
        ensures within { AreProcessNumbers other.now }
    {
        ProcessSet {
            has: either(&self.has, &other.has),
        }
    }
}

/// The marks that are set in either.
fn either(mine: &[bool; MAX_PROCS], theirs: &[bool; MAX_PROCS]) -> [bool; MAX_PROCS]
    ensures { (p : ℕ) → slice_index_or result p false
        ≡ (slice_index_or mine.now p false || slice_index_or theirs.now p false) }
{
    let mut either = *mine;
    for (p, marked) in theirs.iter().enumerate() {
        if *marked {
            either[p] = true;
        }
    }
    either
}
