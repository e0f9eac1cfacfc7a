//! The events of the watched hosts, as far as they were taken.
ghost use Rattle.std.specs.Prelude.{◌≡◌, ◌<◌, [], List, length, map, IfOk};
ghost use Rattle.trace_log.specs.Turns.{seen_logged};
ghost use Rattle.trace_log.specs.Views.{seen_clock};
ghost use Rattle.trace_moment.specs.Moment.{Taken, HaveDistinctHosts, IsNextAt};
ghost use Rattle.trace_moment.specs.Kept.{numbers_in};
ghost use Rattle.trace_moment.specs.Views.{seen_watch};
ghost use Rattle.trace_explain.specs.History.{watched_in};

use crate::past::{PastEvent, PastHost};
use std::alloc::{AllocError, Global};
use trace_log::{Logged, Member, number_of};
use trace_moment::WatchedHost;

/// The events of the watched hosts that were taken, and whether the condition of its host held at each.
#[derive(Debug, Drop)]
pub struct History {
    pub(crate) alloc: Global,
    pub(crate) hosts: Vec<PastHost>,
}

impl History {
    ghost use Rattle.trace_explain.specs.Views.{watched_by, Remembers, RemembersNext};

    /// Before the first event of these hosts. `Err` where memory runs out.
    pub fn new(alloc: Global, watched: Vec<WatchedHost>) -> Result<History, AllocError>
        requires { HaveDistinctHosts (map seen_watch watched.items) }
        ensures watched { IfOk result (λ history. watched_by history ≡ map seen_watch watched.items) }
        ensures taken { IfOk result (Remembers []) }
    {
        let mut hosts = Vec::with_capacity(alloc, watched.len())?;
        for one in watched {
            hosts.push(PastHost {
                watched: one,
                events: Vec::new(alloc),
            })?;
        }
        Ok(History { alloc, hosts })
    }

    /// Takes the next event of the watched host at `place`; `holds` says whether its condition holds at it. `Err` where
    /// memory runs out: it wasn't taken.
    pub fn take(&mut self, place: usize, logged: &Logged<'_>, holds: bool) -> Result<(), AllocError>
        requires { place < length (watched_by self.old) }
        ensures taken { (taken : List Taken) → Remembers taken self.old →
            IsNextAt (watched_by self.old) place taken (seen_logged logged.now) →
            RemembersNext taken (record { logged = seen_logged logged.now; holds = holds }) result self.new }
        ensures watched { watched_by self.new ≡ watched_by self.old }
    {
        let numbers = numbers_in(self.alloc, &self.hosts, logged.event.clock)?;
        let line = logged.line;
        self.hosts[place].add(PastEvent {
            line,
            holds,
            numbers,
        })
    }
}

/// The numbers of the watched hosts in a clock, in their order.
fn numbers_in(alloc: Global, hosts: &[PastHost], clock: &[Member]) -> Result<Vec<u32>, AllocError>
    ensures { IfOk result (λ numbers.
        numbers.items ≡ numbers_in (watched_in hosts.now) (seen_clock clock.now)) }
{
    let mut numbers = Vec::with_capacity(alloc, hosts.len())?;
    for host in hosts {
        numbers.push(number_of(host.watched.host.as_str(), clock))?;
    }
    Ok(numbers)
}
