//! How many events a host has.
ghost use Rattle.std.specs.Prelude.{◌≡◌, ◌+◌, ◌-◌, ◌^◌, ◌<◌, ◌≤◌, if◌then◌else◌};

/// How many events a host has, and at how many of them its condition holds.
#[derive(Clone, Copy, Debug)]
pub(crate) struct HostTally {
    pub events: u64,
    pub matched: u64,
    ghost some_of_them: { matched ≤ events },
}

impl HostTally {
    /// Before the first event.
    pub fn zero() -> HostTally
        ensures events { result.events ≡ 0 }
        ensures matched { result.matched ≡ 0 }
    {
        HostTally {
            events: 0,
            matched: 0,
        }
    }

    /// Counts the next event.
    pub fn count(&mut self, holds: bool)
        requires { self.old.events < 2 ^ 64 - 1 }
        ensures events { self.new.events ≡ self.old.events + 1 }
        ensures matched { self.new.matched ≡ self.old.matched + (if holds then 1 else 0) }
    {
        self.events += 1;
        if holds {
            self.matched += 1;
        }
    }
}
