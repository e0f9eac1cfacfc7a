ghost use Rattle.std.specs.Prelude.{◌≡◌, drop, replicate, slice_index, string_bytes, option_copied, IfOk, OnOk, OnErr};
ghost use Rattle.trace_log.specs.Clock.{number_of};
ghost use Rattle.trace_log.specs.Turns.{seen_logged};
ghost use Rattle.trace_log.specs.Views.{seen_clock};
ghost use Rattle.trace_moment.specs.Kept.{none_kept, first_kept, prefix_numbers, ends_below, stands_at, with_next};
ghost use Rattle.trace_moment.specs.Kept.{without_kept};

use crate::candidate::{Candidate, KeptEvent};
use crate::watched::{Lasting, WatchedHost};
use std::alloc::{AllocError, Global};
use std::collections::VecDeque;
use std::marker::Model;
use trace_log::Logged;

/// The candidates of one watched host.
///
/// A contract sees those whose end was read, the oldest first, the one that still goes on, and what the host's last
/// event at which its condition didn't hold knows of the watched hosts.
#[derive(Debug, Drop)]
pub(crate) struct EventQueue {
    host: String,
    lasting: Lasting,
    ended: VecDeque<Candidate>,
    ongoing: Option<Candidate>,
    latest: Vec<u32>,
    /// Where each watched host stood last in this host's clock: guesses that save a search.
    places: Vec<u32>,
}

impl Model for EventQueue {
    ghost use Rattle.std.specs.Prelude.{string_bytes};
    ghost use Rattle.trace_moment.specs.Kept.{KeptQueue as Seen};

    ghost Value = { Seen };

    ghost view = { λ q. record {
      host = string_bytes q.host;
      lasting = q.lasting;
      ended = q.ended.items;
      ongoing = q.ongoing;
      latest = q.latest.items;
    } };
}

impl EventQueue {
    /// The queue of one of so many watched hosts, before its first event.
    pub fn new(alloc: Global, watched: WatchedHost, hosts: usize) -> Result<EventQueue, AllocError>
        ensures { IfOk result (λ queue.
            queue ≡ none_kept (string_bytes watched.host) watched.lasting (replicate hosts 0)) }
    {
        Ok(EventQueue {
            host: watched.host,
            lasting: watched.lasting,
            ended: VecDeque::new(alloc),
            ongoing: None,
            latest: vec![in alloc; 0; hosts]?,
            places: vec![in alloc; 0; hosts]?,
        })
    }

    /// Takes the host's next event, whose clock has this number of the host and these of the watched hosts: it ends the
    /// candidate that went on, and begins another one where the condition holds. Under `At` it ends the one that it begins.
    pub fn take(
        &mut self,
        alloc: Global,
        logged: &Logged<'_>,
        number: u32,
        numbers: &[u32],
        holds: bool,
    ) -> Result<(), AllocError>
        requires { number ≡ number_of self.old.host (seen_clock logged.now.event.clock.now) }
        ensures ok { OnOk result (self.new ≡ with_next self.old (seen_logged logged.now) numbers.now holds) }
        ensures err { OnErr result (self.new ≡ self.old) }
    {
        self.ended.reserve(1)?;
        let begun = if holds {
            Some(Candidate {
                event: KeptEvent::of(alloc, logged)?,
                numbers: Vec::from_slice(alloc, numbers)?,
                lasts_to: number,
            })
        } else {
            put(alloc, &mut self.latest, numbers)?;
            None
        };
        let (ending, going_on) = match self.lasting {
            Lasting::While => (self.ongoing.take(), begun),
            Lasting::At => (begun, None),
        };
        self.ongoing = going_on;
        if let Some(ending) = ending {
            let Candidate { event, numbers, .. } = ending;
            let lasts_to = number.saturating_sub(1);
            self.ended.push_back_reserved(Candidate {
                event,
                numbers,
                lasts_to,
            });
        }
        Ok(())
    }

    /// The first candidate.
    pub fn first(&self) -> Option<&Candidate>
        ensures { option_copied result ≡ first_kept self.now }
    {
        match self.ended.front() {
            Some(first) => Some(first),
            None => self.ongoing.as_ref(),
        }
    }

    /// The host's name.
    pub fn host(&self) -> &str
        ensures { result.now ≡ self.now.host }
    {
        self.host.as_str()
    }

    /// Where the watched host at this place may stand in this host's clock.
    pub fn place_of(&self, watched: usize) -> usize {
        self.places.get(watched).copied().unwrap_or(0) as usize
    }

    /// Notes where the watched host at this place stands.
    pub fn note_place(&mut self, watched: usize, place: usize)
        ensures { self.new ≡ self.old }
    {
        if let (Some(noted), Ok(place)) = (self.places.get_mut(watched), u32::try_from(place)) {
            *noted = place;
        }
    }

    /// The number of the watched host at this place that the first candidate knows, else the host's last event: each
    /// candidate and each later event of the host knows as much.
    pub fn known_of(&self, place: usize) -> u32
        ensures { result ≡ slice_index (prefix_numbers self.now) place }
    {
        let numbers = match self.first() {
            Some(first) => first.numbers.as_slice(),
            None => self.latest.as_slice(),
        };
        numbers.get(place).copied().unwrap_or(0)
    }

    /// Whether the first candidate has ended, and is over where the host's number is the floor.
    pub fn is_passed(&self, floor: u32) -> bool
        ensures { result ≡ ends_below floor self.now.ended }
    {
        match self.ended.front() {
            Some(first) => first.lasts_to < floor,
            None => false,
        }
    }

    /// Whether there is a first candidate, and it lasts up to the floor.
    pub fn stands(&self, floor: u32) -> bool
        ensures { result ≡ stands_at self.now floor }
    {
        match self.first() {
            Some(first) => floor <= first.lasts_to,
            None => false,
        }
    }

    /// Drops the first candidate that has ended.
    pub fn drop_first(&mut self)
        ensures { self.new ≡ record self.old { ended = drop 1 self.old.ended } }
    {
        self.ended.pop_front();
    }

    /// Drops the first candidate, whether or not it has ended.
    pub fn drop_head(&mut self)
        ensures { self.new ≡ without_kept self.old }
    {
        if self.ended.pop_front().is_none() {
            self.ongoing = None;
        }
    }
}

/// Puts numbers into the place of others.
fn put(alloc: Global, old: &mut Vec<u32>, numbers: &[u32]) -> Result<(), AllocError>
    ensures ok { OnOk result (old.new.items ≡ numbers.now) }
    ensures err { OnErr result (old.new ≡ old.old) }
{
    if old.len() == numbers.len() {
        old.copy_from_slice(numbers);
    } else {
        *old = Vec::from_slice(alloc, numbers)?;
    }
    Ok(())
}
