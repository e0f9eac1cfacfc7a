//! The expressions that end states, and which of them no event of a log has matched. No answer depends on it.

use crate::question_file::ask_definitely;
use crate::shown_names::ShownName;
use crate::unmatched::Unmatched;
use regex::Matcher;
use std::alloc::{AllocError, Global};
use std::io::Read;
use trace_asking::{Question, Subject};
use trace_condition::{Condition, Rule};
use trace_log::{Event, EventFault, EventReader, Form};
use trace_words::TraceRequest;

/// So many events are read again at most.
const MOST_EVENTS: u64 = 200_000;

/// The expressions that end states of hosts, and what was seen of them.
#[derive(Drop)]
pub struct EndExpressions<'q> {
    ends: Vec<End<'q>>,
    have_matched: bool,
    /// How many events were taken.
    events: u64,
}

/// An expression that ends the states of hosts.
#[derive(Drop)]
struct End<'q> {
    question: &'q str,
    hosts: EndHosts<'q>,
    expression: &'q str,
    matcher: Matcher<'q>,
    has_event: bool,
    has_matched: bool,
}

/// The hosts whose states end.
#[derive(Drop)]
enum EndHosts<'q> {
    One(&'q str),
    Matching(Matcher<'q>),
}

impl<'q> EndExpressions<'q> {
    /// Those that the questions speak of. No event was taken.
    pub fn new(alloc: Global, questions: &'q [Question]) -> Result<EndExpressions<'q>, AllocError> {
        let mut ends = Vec::new(alloc);
        for question in questions {
            let name = question.name.as_str();
            match &question.subject {
                Subject::Hosts(conditions) | Subject::Definitely(conditions) => {
                    for condition in conditions {
                        let hosts = EndHosts::One(condition.host.as_str());
                        add_end(alloc, name, hosts, condition, &mut ends)?;
                    }
                }
                Subject::AnyTwo(pair) => {
                    let hosts = EndHosts::Matching(pair.hosts.matcher(alloc)?);
                    add_end(alloc, name, hosts, &pair.condition, &mut ends)?;
                }
            }
        }
        let have_matched = ends.is_empty();
        Ok(EndExpressions {
            ends,
            have_matched,
            events: 0,
        })
    }

    /// Whether each has matched an event.
    pub fn have_matched(&self) -> bool {
        self.have_matched
    }

    /// Takes the next event of the log.
    pub(crate) fn take(&mut self, event: &Event<'_>) {
        self.events = self.events.saturating_add(1);
        if self.have_matched {
            return;
        }
        let mut have_matched = true;
        for end in self.ends.iter_mut() {
            end.take(event);
            have_matched = have_matched && end.has_matched;
        }
        self.have_matched = have_matched;
    }

    /// Takes the events of the log from its beginning, until each has matched, and says whether these were all of the
    /// log. At most 200,000 are read.
    pub fn read_again<I: Read>(
        &mut self,
        alloc: Global,
        form: Form,
        input: &mut I,
    ) -> Result<bool, EventFault> {
        let mut reader = EventReader::new(alloc, form)?;
        self.events = 0;
        for _ in 0..MOST_EVENTS {
            if self.have_matched {
                return Ok(false);
            }
            if !reader.next_event(input)? {
                return Ok(true);
            }
            if let Some(logged) = reader.event() {
                self.take(&logged.event);
            }
        }
        Ok(false)
    }

    /// Those that have matched no event though their hosts have some, as far as the log was read, or of all its events.
    pub fn unmatched(&self, alloc: Global, is_whole: bool) -> Result<Unmatched, AllocError> {
        let mut words = Vec::new(alloc);
        for end in &self.ends {
            if end.has_event && !end.has_matched {
                words.push(end.words(alloc)?)?;
            }
        }
        let read = if is_whole { None } else { Some(self.events) };
        Ok(Unmatched::new(words, read))
    }
}

/// Adds the end of a condition's states, if an expression says it.
fn add_end<'q>(
    alloc: Global,
    question: &'q str,
    hosts: EndHosts<'q>,
    condition: &'q Condition,
    ends: &mut Vec<End<'q>>,
) -> Result<(), AllocError> {
    if let Rule::FromUntil(_, until) = &condition.rule {
        ends.push(End {
            question,
            hosts,
            expression: until.as_str(),
            matcher: until.matcher(alloc)?,
            has_event: false,
            has_matched: false,
        })?;
    }
    Ok(())
}

impl End<'_> {
    /// Takes an event, which counts where it is of one of the hosts.
    fn take(&mut self, event: &Event<'_>) {
        if !self.has_matched && self.hosts.have(event.host) {
            self.has_event = true;
            self.has_matched = self.matcher.is_match(event.text);
        }
    }

    /// The words that say it, behind the name of their question.
    fn words(&self, alloc: Global) -> Result<String, AllocError> {
        let expression = ShownName(self.expression);
        let word = match &self.hosts {
            EndHosts::One(host) => format!(in alloc; "--until {}={expression}", ShownName(*host)),
            EndHosts::Matching(_) => format!(in alloc; "--any-two-until {expression}"),
        }?;
        match self.question {
            "" => Ok(word),
            question => format!(in alloc; "{question}: {word}"),
        }
    }
}

impl EndHosts<'_> {
    /// Whether a host is one of them.
    fn have(&mut self, host: &str) -> bool {
        match self {
            EndHosts::One(name) => *name == host,
            EndHosts::Matching(names) => names.is_match(host),
        }
    }
}

/// Whether with this exit status a moment was perhaps found of a state whose end no event matches. These are the
/// questions that the request asks.
pub fn may_lack_ends(request: &TraceRequest<'_>, status: u8, questions: &[Question]) -> bool {
    match request {
        TraceRequest::Trace(options) => match options.questions {
            Some(_) => status != 1 || ask_definitely(questions),
            None => (status == 0 || options.definitely && status == 1) && options.has_ends(),
        },
        _ => false,
    }
}
