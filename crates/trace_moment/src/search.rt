ghost use Rattle.std.specs.Prelude.{◌≡◌, ℕ, [], List, length, map, true, Some, None};
ghost use Rattle.std.specs.Prelude.{IfOk, MatchBool, IsTrue, IsFalse, option_map, if◌then◌else◌, ◌<◌};
ghost use Rattle.trace_moment.specs.Kept.{KeepFirstsWhere};

use crate::candidate::KeptEvent;
use crate::elimination::{have_firsts, take_next};
use crate::next_moment::go_behind;
use crate::queue::EventQueue;
use crate::watched::WatchedHost;
use std::alloc::{AllocError, Global};
use trace_log::Logged;

/// The search for the earliest moment of a log that is read event by event.
#[derive(Debug, Drop)]
pub struct Search {
    alloc: Global,
    queues: Vec<EventQueue>,
    floors: Vec<u32>,
    known: bool,
    /// Room for the numbers of an event.
    room: Vec<u32>,
    ghost in_step: { length floors.items ≡ length queues.items },
    ghost named: { KeepFirstsWhere known queues.items },
}

impl Search {
    ghost use Rattle.trace_log.specs.Turns.{seen_logged};
    ghost use Rattle.trace_log.specs.Log.{Logged as SeenLogged};
    ghost use Rattle.trace_moment.specs.Moment.{Taken, HaveDistinctHosts, IsNextAt, IsEarliest};
    ghost use Rattle.trace_moment.specs.Behind.{behind, AreThoseBehind};
    ghost use Rattle.trace_moment.specs.Views.{seen_kept, seen_watch};
    ghost use Rattle.trace_moment.specs.Standing.{HasNoMoment};
    ghost use Rattle.trace_moment.specs.Search.{watched_by, is_known, moment_kept};
    ghost use Rattle.trace_moment.specs.Search.{HasTaken, KeepsEarliest, TakesNext, KeepsAll, KeepsNext};

    /// A search of the moments of these hosts, which has taken nothing. `Err` where memory runs out.
    pub fn new(alloc: Global, watched: Vec<WatchedHost>) -> Result<Search, AllocError>
        requires some { 0 < length watched.items }
        requires distinct { HaveDistinctHosts (map seen_watch watched.items) }
        ensures watched { IfOk result (λ search. watched_by search ≡ map seen_watch watched.items) }
        ensures taken { IfOk result (λ search. HasTaken [] search) }
        ensures all { IfOk result (λ search. KeepsAll [] search) }
    {
        let hosts = watched.len();
        let mut queues = Vec::with_capacity(alloc, hosts)?;
        let mut floors = Vec::with_capacity(alloc, hosts)?;
        for one in watched {
            queues.push(EventQueue::new(alloc, one, hosts)?)?;
            floors.push(0)?;
        }
        Ok(Search {
            alloc,
            queues,
            floors,
            known: false,
            room: Vec::with_capacity(alloc, hosts)?,
        })
    }

    /// Takes the next event of the watched host at `place`; `holds` says whether its condition holds at it. Answers
    /// whether the moment is known. Once it is, nothing that is taken changes it, and no memory is wanted. `Err` where
    /// memory runs out: the event wasn't taken.
    pub fn take(
        &mut self,
        place: usize,
        logged: &Logged<'_>,
        holds: bool,
    ) -> Result<bool, AllocError>
        requires { place < length (watched_by self.old) }
        ensures taken { (taken : List Taken) → HasTaken taken self.old →
            IsNextAt (watched_by self.old) place taken (seen_logged logged.now) →
            TakesNext taken (record { logged = seen_logged logged.now; holds = holds }) result self.new }
        ensures all { (taken : List Taken) → HasTaken taken self.old → IsFalse (is_known self.old) →
            IsNextAt (watched_by self.old) place taken (seen_logged logged.now) →
            KeepsNext taken (record { logged = seen_logged logged.now; holds = holds }) result self.new }
        ensures watched { watched_by self.new ≡ watched_by self.old }
        ensures stays { IsTrue (is_known self.old) → (result ≡ Ok true) × (self.new ≡ self.old) }
    {
        if self.known {
            return Ok(true);
        }
        self.known = take_next(
            self.alloc,
            &mut self.room,
            &mut self.queues,
            &mut self.floors,
            place,
            logged,
            holds,
        )?;
        Ok(self.known)
    }

    /// Ends the search: the log has no more events, so the last states last for ever. Answers whether the moment is
    /// known, now or before; where it isn't, there is none.
    pub fn end(&mut self) -> bool
        ensures moment { (taken : List Taken) → HasTaken taken self.old → MatchBool result
            (KeepsEarliest taken self.new) (HasNoMoment (watched_by self.new) taken) }
        ensures known { result ≡ is_known self.new }
        ensures all { (taken : List Taken) → KeepsAll taken self.old → KeepsAll taken self.new }
        ensures none { IsFalse result → self.new ≡ self.old }
        ensures watched { watched_by self.new ≡ watched_by self.old }
    {
        if !self.known {
            self.known = have_firsts(&self.queues);
        }
        self.known
    }

    /// Goes on behind the moment that is known, before anything else is taken: its events no longer count as ones at
    /// which the conditions hold, and neither do those before them. Answers whether the next moment is known, the
    /// earliest of those that begin behind this one at each host. It wants no memory. Where no moment is known nothing
    /// changes.
    pub fn go_on(&mut self) -> bool
        ensures behind { (taken : List Taken) (moment : ℕ → SeenLogged) → KeepsAll taken self.old →
            IsTrue (is_known self.old) → IsEarliest (watched_by self.old) taken moment →
            HasTaken (behind (watched_by self.old) moment taken) self.new
            × KeepsAll (behind (watched_by self.old) moment taken) self.new }
        ensures next { (taken : List Taken) (moment : ℕ → SeenLogged) → KeepsAll taken self.old →
            AreThoseBehind (watched_by self.old) moment taken }
        ensures unknown { IsFalse (is_known self.old) → self.new ≡ self.old }
        ensures known { result ≡ is_known self.new }
        ensures watched { watched_by self.new ≡ watched_by self.old }
    {
        self.known = self.known && go_behind(&mut self.queues, &mut self.floors);
        self.known
    }

    /// What is kept of the event of the moment at the watched host at this place, where the moment is known.
    pub fn event(&self, place: usize) -> Option<&KeptEvent>
        requires { place < length (watched_by self.now) }
        ensures { option_map (λ event. seen_kept event.now) result
            ≡ (if is_known self.now then Some (moment_kept self.now place) else None) }
    {
        if !self.known {
            return None;
        }
        match self.queues[place].first() {
            Some(first) => Some(&first.event),
            None => None,
        }
    }
}
