ghost use Rattle.std.specs.Prelude.{◌≡◌, ℕ, List, replicate, string_bytes, option_copied, option_map, length};
ghost use Rattle.std.specs.Prelude.{is_some, IfOk, IsFalse, OnOk, OnErr, false, ◌++◌, if◌then◌else◌};
ghost use Rattle.trace_log.specs.Clock.{number_of};
ghost use Rattle.trace_log.specs.Log.{Logged as SeenLogged};
ghost use Rattle.trace_log.specs.Turns.{seen_logged};
ghost use Rattle.trace_log.specs.Views.{seen_clock};
ghost use Rattle.trace_runs.specs.Kept.{none_kept, first_begin, first_end, is_counted, with_next, without_first};
ghost use Rattle.trace_runs.specs.Kept.{IsSameFirst, ended_with, told_kept};
ghost use Rattle.trace_runs.specs.Views.{seen_run};

use crate::kept::{KeptRun, OverRun, RunBegin};
use std::alloc::{AllocError, Global};
use std::collections::VecDeque;
use std::marker::Model;
use std::mem::swap;
use trace_log::Logged;
use trace_moment::{Lasting, WatchedHost};

/// The runs of one watched host that wait.
///
/// A contract sees those that are over, the oldest first, the one that isn't, and the numbers of the watched hosts in
/// the clock of the host's last event.
#[derive(Debug, Drop)]
pub(crate) struct RunQueue {
    host: String,
    lasting: Lasting,
    over: VecDeque<OverRun>,
    ongoing: Option<RunBegin>,
    latest: Vec<u32>,
    /// Where each watched host stood last in this host's clock: guesses that save a search.
    places: Vec<u32>,
}

impl Model for RunQueue {
    ghost use Rattle.std.specs.Prelude.{string_bytes};
    ghost use Rattle.trace_runs.specs.Kept.{KeptRuns as Seen};

    ghost Value = { Seen };

    ghost view = { λ q. record {
      host = string_bytes q.host;
      lasting = q.lasting;
      over = q.over.items;
      ongoing = q.ongoing;
      latest = q.latest.items;
    } };
}

impl RunQueue {
    /// The queue of one of so many watched hosts, before its first event.
    pub fn new(alloc: Global, watched: WatchedHost, hosts: usize) -> Result<RunQueue, AllocError>
        ensures { IfOk result (λ queue.
            queue ≡ none_kept (string_bytes watched.host) watched.lasting (replicate hosts 0)) }
    {
        Ok(RunQueue {
            host: watched.host,
            lasting: watched.lasting,
            over: VecDeque::new(alloc),
            ongoing: None,
            latest: vec![in alloc; 0; hosts]?,
            places: vec![in alloc; 0; hosts]?,
        })
    }

    /// Whether the host's next event begins its first run or ends it.
    pub fn changes_first(&self, holds: bool) -> bool
        ensures { IsFalse result → (next : SeenLogged) (numbers : List ℕ) →
            IsSameFirst self.now (with_next self.now next numbers holds) }
    {
        self.over.is_empty() && self.ongoing.is_some() != holds
    }

    /// Takes the host's next event, whose clock has this number of the host and these of the watched hosts: where its
    /// condition holds, a run goes on or begins; else the one that goes on is over. The numbers are swapped for those
    /// of the event before.
    pub fn take(
        &mut self,
        alloc: Global,
        logged: &Logged<'_>,
        number: u32,
        numbers: &mut Vec<u32>,
        holds: bool,
    ) -> Result<(), AllocError>
        requires { number ≡ number_of self.old.host (seen_clock logged.now.event.clock.now) }
        ensures ok { OnOk result (self.new ≡ with_next self.old (seen_logged logged.now) numbers.old.items holds) }
        ensures err { OnErr result (self.new ≡ self.old) }
    {
        if !holds {
            self.end_run(alloc, logged.line, numbers.as_slice())?;
        } else if self.ongoing.is_none() {
            self.ongoing = Some(RunBegin::of(alloc, logged, number)?);
        }
        swap(&mut self.latest, numbers);
        Ok(())
    }

    /// The run that goes on is over at the event of this line, whose clock has these numbers.
    fn end_run(&mut self, alloc: Global, line: u64, numbers: &[u32]) -> Result<(), AllocError>
        ensures ok { OnOk result (self.new ≡ record self.old {
          over = self.old.over ++ ended_with line numbers.now false self.old.ongoing;
          ongoing = None;
        }) }
        ensures err { OnErr result (self.new ≡ self.old) }
    {
        if self.ongoing.is_none() {
            return Ok(());
        }
        self.over.reserve(1)?;
        let numbers = Vec::from_slice(alloc, numbers)?;
        if let Some(begin) = self.ongoing.take() {
            self.over.push_back_reserved(OverRun {
                begin,
                line,
                numbers,
            });
        }
        Ok(())
    }

    /// With what the first run begins.
    fn first(&self) -> Option<&RunBegin>
        ensures { option_copied result ≡ first_begin self.now }
    {
        match self.over.front() {
            Some(first) => Some(&first.begin),
            None => self.ongoing.as_ref(),
        }
    }

    /// Whether there is a first run.
    pub fn has_first(&self) -> bool
        ensures { result ≡ is_some (first_begin self.now) }
    {
        self.first().is_some()
    }

    /// Whether a clock with this number of the host counts the beginning of the first run, if there is one.
    pub fn is_counted(&self, number: u32) -> bool
        ensures { result ≡ is_counted (first_begin self.now) number }
    {
        match self.first() {
            Some(first) => first.number <= number,
            None => true,
        }
    }

    /// The numbers of the event at which the first run is over.
    pub fn first_end(&self) -> Option<&[u32]>
        ensures { option_copied result ≡ first_end self.now }
    {
        match self.over.front() {
            Some(first) => Some(first.numbers.as_slice()),
            None => None,
        }
    }

    /// The numbers of the host's last event.
    pub fn latest(&self) -> &[u32]
        ensures { result.now ≡ self.now.latest }
    {
        self.latest.as_slice()
    }

    /// The host's name.
    pub fn host(&self) -> &str
        ensures { result.now ≡ self.now.host }
    {
        self.host.as_str()
    }

    /// Where the watched host at this place may stand in this host's clock.
    pub fn place_of(&self, watched: usize) -> usize {
        self.places.get(watched).copied().unwrap_or(0) as usize
    }

    /// Notes where the watched host at this place stands.
    pub fn note_place(&mut self, watched: usize, place: usize)
        ensures { self.new ≡ self.old }
    {
        if let (Some(noted), Ok(place)) = (self.places.get_mut(watched), u32::try_from(place)) {
            *noted = place;
        }
    }

    /// Drops the first run, which is over.
    pub fn drop_first(&mut self)
        ensures { self.new ≡ without_first self.old }
    {
        self.over.pop_front();
    }

    /// The first run as it is told.
    pub fn told(&self) -> Option<KeptRun<'_>>
        ensures { option_map seen_run result
            ≡ (if is_some (first_begin self.now) then Some (told_kept self.now) else None) }
    {
        if let Some(first) = self.over.front() {
            return Some(told_run(&first.begin, Some(first.line)));
        }
        match self.ongoing.as_ref() {
            Some(begin) => Some(told_run(begin, None)),
            None => None,
        }
    }
}

/// A run with this beginning, and over at this line.
fn told_run(begin: &RunBegin, over: Option<u64>) -> KeptRun<'_>
    ensures { seen_run result ≡ record { line = begin.now.line; text = begin.now.text; over = over } }
{
    KeptRun {
        line: begin.line,
        text: begin.text.as_str(),
        over,
    }
}
