ghost use Rattle.std.specs.Prelude.{◌≡◌, ◌+◌, ◌-◌, ◌++◌, ◌<◌, ◌≤◌, ◌↔◌, length, replicate, slice_index, slice_set};
ghost use Rattle.std.specs.Prelude.{IsTrue, All, drop, false, map, nat_eq, take};
ghost use Rattle.std.specs.Cmp.{partial_equiv_from_equiv};
ghost use Rattle.std.specs.Cmp.Lexicographic.{pointwise, nat_list_eq_equiv};
ghost use Rattle.wcp_clock.specs.Limits.{most_processes};
ghost use Rattle.wcp_clock.specs.Merge.{merged};

use crate::limits::MAX_PROCS;
use crate::per_process::PerProcess;
use std::marker::Model;

/// A vector clock of 1 to 16 processes: component q counts the events of process q
/// that are known (Fidge 1988, Mattern 1989).
///
/// A contract sees it as the list of its components.
#[derive(Clone, Copy, Debug)]
pub struct Clock {
    components: PerProcess<u32>,
}

impl Model for Clock {
    ghost use Rattle.std.specs.Prelude.{ℕ, List};

    ghost Value = { List ℕ };

    ghost view = { λ c. c.components };

    ghost inverse = { λ v. record { components = v } };
}

impl Clock {
    /// The clock before any event, for `n` processes.
    pub fn new(n: u32) -> Clock
        requires some { 0 < n }
        requires within { n ≤ most_processes }
        ensures { result ≡ replicate n 0 }
    {
        Clock {
            components: PerProcess {
                count: n,
                values: [0; MAX_PROCS],
            },
        }
    }

    /// The clock with the first `count` of these components; those behind are 0.
    pub fn from_padded(components: &[u32; MAX_PROCS], count: u32) -> Clock
        requires some { 0 < count }
        requires within { count ≤ most_processes }
        requires behind { All (λ component. component ≡ 0) (drop count components.now) }
        ensures { result ≡ take count components.now }
    {
        Clock {
            components: PerProcess {
                count,
                values: *components,
            },
        }
    }

    /// The components, and 0 in each place behind the last.
    pub fn padded(&self) -> [u32; MAX_PROCS]
        ensures { result ≡ self.now ++ replicate (most_processes - length self.now) 0 }
    {
        self.components.padded()
    }

    /// How many processes the clock has components for.
    pub fn len(&self) -> u32
        ensures value { result ≡ length self.now }
        ensures some { 0 < length self.now }
        ensures within { length self.now ≤ most_processes }
    {
        self.components.len()
    }

    /// Component `p`, and 0 where the clock has no such component.
    pub fn get(&self, p: u32) -> u32
        requires { p < most_processes }
        ensures { result ≡ slice_index self.now p }
    {
        self.components.get_or_zero(p)
    }

    /// Counts one more event of process `p`, of which there may be `limit`. The answer is whether it was counted.
    pub fn tick(&mut self, p: u32, limit: u32) -> bool
        requires { p < length self.old }
        ensures limit { IsTrue result ↔ (slice_index self.old p < limit) }
        ensures counted { IsTrue result → self.new ≡ slice_set self.old p (slice_index self.old p + 1) }
        ensures unchanged { result ≡ false → self.new ≡ self.old }
    {
        let component = &mut self.components.values[p as usize];
        if *component >= limit {
            return false;
        }
        *component += 1;
        true
    }

    /// What two clocks of the same processes know together: the greater component in each place.
    pub fn merge(&self, other: &Clock) -> Clock
        requires { length self.now ≡ length other.now }
        ensures { result ≡ merged self.now other.now }
    {
        Clock {
            components: self.components.merge(&other.components),
        }
    }

    /// The components of these processes, in their order.
    pub fn restrict(&self, processes: &PerProcess<u32>) -> Clock
        requires { All (λ p. p < most_processes) processes.now }
        ensures { result ≡ map (slice_index self.now) processes.now }
    {
        let count = processes.len() as usize;
        let mut known = [0; MAX_PROCS];
        for (place, p) in processes.values().iter().enumerate() {
            known[place] = self.get(*p);
        }
        Clock {
            components: PerProcess::new(&known[..count]),
        }
    }

    /// Whether this clock's state of process `p` happened before the other clock's state, which is
    /// of another process: one comparison.
    pub fn precedes(&self, p: u32, other: &Clock) -> bool
        requires { p < most_processes }
        ensures { IsTrue result ↔ (slice_index self.now p < slice_index other.now p) }
    {
        self.get(p) < other.get(p)
    }
}

impl PartialEq for Clock {
    ghost eq = { λ a b. pointwise nat_eq a b };

    ghost laws = { partial_equiv_from_equiv nat_list_eq_equiv };

    fn eq(&self, other: &Self) -> bool {
        self.components.values() == other.components.values()
    }
}

impl Eq for Clock {
    ghost laws = { nat_list_eq_equiv };
}
