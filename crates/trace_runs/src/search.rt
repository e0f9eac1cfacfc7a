ghost use Rattle.std.specs.Prelude.{◌≡◌, ◌<◌, ℕ, [], List, length, map, true, Some, None};
ghost use Rattle.std.specs.Prelude.{IfOk, MatchBool, IsTrue, IsFalse, option_map, if◌then◌else◌};
ghost use Rattle.trace_runs.specs.Kept.{HaveFirstsWhere};

use crate::kept::KeptRun;
use crate::queue::RunQueue;
use crate::standing::have_firsts;
use crate::taking::take_next;
use std::alloc::{AllocError, Global};
use trace_log::Logged;
use trace_moment::WatchedHost;

/// The search for the least runs that overlap of a log that is read event by event.
#[derive(Debug, Drop)]
pub struct RunSearch {
    alloc: Global,
    queues: Vec<RunQueue>,
    known: bool,
    /// Marks of hosts, for the elimination.
    touched: Vec<bool>,
    /// A host that may not stand: it is asked first.
    failing: usize,
    /// Room for the numbers of an event.
    room: Vec<u32>,
    ghost in_step: { length touched.items ≡ length queues.items },
    ghost named: { HaveFirstsWhere known queues.items },
}

impl RunSearch {
    ghost use Rattle.trace_log.specs.Turns.{seen_logged};
    ghost use Rattle.trace_moment.specs.Moment.{Taken, HaveDistinctHosts, IsNextAt};
    ghost use Rattle.trace_moment.specs.Views.{seen_watch};
    ghost use Rattle.trace_runs.specs.Runs.{HasNoRuns};
    ghost use Rattle.trace_runs.specs.Views.{seen_run};
    ghost use Rattle.trace_runs.specs.Search.{watched_by, is_known, run_told};
    ghost use Rattle.trace_runs.specs.Search.{HasTaken, KeepsAtEnd, KnowsNext, TakesNext};

    /// A search for runs of these hosts, which has taken nothing. `Err` where memory runs out.
    pub fn new(alloc: Global, watched: Vec<WatchedHost>) -> Result<RunSearch, AllocError>
        requires some { 0 < length watched.items }
        requires distinct { HaveDistinctHosts (map seen_watch watched.items) }
        ensures watched { IfOk result (λ search. watched_by search ≡ map seen_watch watched.items) }
        ensures taken { IfOk result (λ search. HasTaken [] search) }
        ensures unknown { IfOk result (λ search. IsFalse (is_known search)) }
    {
        let hosts = watched.len();
        let mut queues = Vec::with_capacity(alloc, hosts)?;
        for one in watched {
            queues.push(RunQueue::new(alloc, one, hosts)?)?;
        }
        Ok(RunSearch {
            alloc,
            queues,
            known: false,
            touched: vec![in alloc; false; hosts]?,
            failing: 0,
            room: Vec::with_capacity(alloc, hosts)?,
        })
    }

    /// Takes the next event of the watched host at `place`; `holds` says whether its condition holds at it. Answers
    /// whether runs that overlap are known. Once they are, nothing that is taken changes them, and no memory is wanted.
    /// `Err` where memory runs out: the event wasn't taken.
    pub fn take(
        &mut self,
        place: usize,
        logged: &Logged<'_>,
        holds: bool,
    ) -> Result<bool, AllocError>
        requires { place < length (watched_by self.old) }
        ensures taken { (taken : List Taken) → HasTaken taken self.old →
            IsNextAt (watched_by self.old) place taken (seen_logged logged.now) →
            TakesNext taken (record { logged = seen_logged logged.now; holds = holds }) result self.new }
        ensures known { (taken : List Taken) → HasTaken taken self.old → IsFalse (is_known self.old) →
            IsNextAt (watched_by self.old) place taken (seen_logged logged.now) →
            KnowsNext taken (record { logged = seen_logged logged.now; holds = holds }) result self.new }
        ensures watched { watched_by self.new ≡ watched_by self.old }
        ensures stays { IsTrue (is_known self.old) → (result ≡ Ok true) × (self.new ≡ self.old) }
    {
        if self.known {
            return Ok(true);
        }
        self.known = take_next(
            self.alloc,
            &mut self.room,
            &mut self.queues,
            &mut self.touched,
            &mut self.failing,
            place,
            logged,
            holds,
        )?;
        Ok(self.known)
    }

    /// Ends the search: the log has no more events, so the last runs are never over. Answers whether runs that overlap
    /// are known, now or before; where none are, no runs overlap.
    pub fn end(&mut self) -> bool
        ensures runs { (taken : List Taken) → HasTaken taken self.old → MatchBool result
            (KeepsAtEnd (is_known self.old) taken self.new) (HasNoRuns (watched_by self.new) taken) }
        ensures known { result ≡ is_known self.new }
        ensures none { IsFalse result → self.new ≡ self.old }
        ensures watched { watched_by self.new ≡ watched_by self.old }
    {
        if !self.known {
            self.known = have_firsts(&self.queues);
        }
        self.known
    }

    /// The run of the watched host at this place, where runs are known.
    pub fn run(&self, place: usize) -> Option<KeptRun<'_>>
        requires { place < length (watched_by self.now) }
        ensures { option_map seen_run result
            ≡ (if is_known self.now then Some (run_told self.now place) else None) }
    {
        if !self.known {
            return None;
        }
        self.queues[place].told()
    }
}
