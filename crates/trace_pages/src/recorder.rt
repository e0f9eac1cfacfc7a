//! The events that a page shows, as they come.

use crate::asked_hosts::{AskedHosts, NamedHost};
use draw_page::{ClockEntry, PageEvent};
use std::alloc::{AllocError, Global};
use std::collections::VecDeque;
use trace_asking::Question;
use trace_detect::{Listener, WatchedHosts};
use trace_log::{Logged, Member};

/// Keeps the last events of a log, and tells another listener of each.
#[derive(Drop)]
pub(crate) struct Recorder<'q, 'l, L> {
    alloc: Global,
    /// What is asked of the log.
    pub questions: &'q [Question],
    asked: Vec<AskedHosts<'q>>,
    listener: &'l mut L,
    pub hosts: Vec<NamedHost<'q>>,
    pub kept: VecDeque<PageEvent>,
    /// Of each question, whether the condition of its host holds at each event that is kept.
    pub holds: Vec<VecDeque<bool>>,
    /// How many events are to be kept up to the one at which the moment becomes known.
    most: usize,
    /// How many come behind that one at most.
    most_behind: u32,
    /// How many events came before those that are kept.
    pub dropped: u64,
    /// Whether memory ran out, so that events aren't kept that should be.
    pub lacks_memory: bool,
}

impl<'q, 'l, L: Listener> Recorder<'q, 'l, L> {
    /// Keeps so many events of a log that these are asked of, and so many that come behind the moment.
    pub fn new(
        alloc: Global,
        questions: &'q [Question],
        most: usize,
        most_behind: u32,
        listener: &'l mut L,
    ) -> Result<Recorder<'q, 'l, L>, AllocError> {
        let mut asked = Vec::with_capacity(alloc, questions.len())?;
        let mut holds = Vec::with_capacity(alloc, questions.len())?;
        for question in questions {
            asked.push(AskedHosts::new(alloc, &question.subject)?)?;
            holds.push(VecDeque::new(alloc))?;
        }
        Ok(Recorder {
            alloc,
            questions,
            asked,
            listener,
            hosts: Vec::new(alloc),
            kept: VecDeque::new(alloc),
            holds,
            most,
            most_behind,
            dropped: 0,
            lacks_memory: false,
        })
    }

    /// Keeps an event, in the place of the oldest one where there are as many as may be kept. When the moment becomes
    /// known isn't known yet.
    fn keep(&mut self, logged: &Logged<'_>) -> Result<(), AllocError> {
        let event = self.event_of(logged)?;
        for question in 0..self.questions.len() {
            self.judge(question, event.host, logged.event.text)?;
        }
        self.kept.push_back(event)?;
        self.keep_up_to(self.most_behind);
        Ok(())
    }

    /// Keeps whether the condition of the host of this number, if the question asks about it, holds at its next event.
    fn judge(&mut self, question: usize, host: usize, text: &str) -> Result<(), AllocError> {
        let holds = match self.hosts.get_mut(host) {
            Some(host) => host.holds(question, text),
            None => false,
        };
        if let Some(kept) = self.holds.get_mut(question) {
            kept.push_back(holds)?;
        }
        Ok(())
    }

    /// Drops the oldest events, so that as many are kept as are to be where the last so many came behind the moment.
    pub fn keep_up_to(&mut self, more: u32) {
        let most = self.most.saturating_add(more as usize);
        for _ in most..self.kept.len() {
            let _ = self.kept.pop_front();
            self.forget_first();
            self.dropped = self.dropped.saturating_add(1);
        }
    }

    /// Drops what was judged of the oldest event.
    fn forget_first(&mut self) {
        for question in 0..self.holds.len() {
            let kept = &mut self.holds[question];
            let _ = kept.pop_front();
        }
    }

    /// What a page shows of an event. At which events conditions hold is kept beside them.
    fn event_of(&mut self, logged: &Logged<'_>) -> Result<PageEvent, AllocError> {
        Ok(PageEvent {
            host: self.number_of(logged.event.host, 0)?,
            line: logged.line,
            text: String::from_str(self.alloc, logged.event.text)?,
            clock: self.clock_of(logged.event.clock)?,
            holds: false,
            far: false,
        })
    }

    /// A clock by the numbers of hosts.
    fn clock_of(&mut self, clock: &[Member]) -> Result<Vec<ClockEntry>, AllocError> {
        let mut entries = Vec::with_capacity(self.alloc, clock.len())?;
        let mut next = 0;
        for member in clock {
            if member.number > 0 {
                let host = self.number_of(member.name.as_str(), next)?;
                let number = u64::from(member.number);
                entries.push(ClockEntry { host, number })?;
                next = host.saturating_add(1);
            }
        }
        Ok(entries)
    }

    /// The number of a host, which is often this one. A host gets its number when it is first named.
    pub fn number_of(&mut self, name: &str, often: usize) -> Result<usize, AllocError> {
        if is_named(&self.hosts, often, name) {
            return Ok(often);
        }
        for number in 0..self.hosts.len() {
            if self.hosts[number].name.as_str() == name {
                return Ok(number);
            }
        }
        let number = self.hosts.len();
        let host = NamedHost::new(self.alloc, &mut self.asked, name)?;
        self.hosts.push(host)?;
        Ok(number)
    }
}

/// Whether the host of this number has this name.
fn is_named(hosts: &[NamedHost<'_>], number: usize, name: &str) -> bool {
    match hosts.get(number) {
        Some(host) => host.name.as_str() == name,
        None => false,
    }
}

impl<L: Listener> Listener for Recorder<'_, '_, L> {
    fn hear(&mut self, logged: &Logged<'_>, hosts: &WatchedHosts<'_, '_>) {
        self.listener.hear(logged, hosts);
        if !self.lacks_memory && self.keep(logged).is_err() {
            self.lacks_memory = true;
        }
    }
}
