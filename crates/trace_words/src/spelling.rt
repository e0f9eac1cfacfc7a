//! The words that say how a log is spelled.
ghost use Rattle.std.specs.Prelude.{◌≡◌, is_none, is_some};
ghost use Rattle.trace_words.specs.Spelled.{event_lines_said, few_lines, name_members, say_messages, spell_one_way};

use crate::line_number::line_said;

/// The most lines that an event may be said to have.
const MOST_EVENT_LINES: u64 = 1000;

/// The words that say how a log is spelled, and which of its lines are read.
#[derive(Clone, Copy, Debug)]
pub struct SpellingWords<'a> {
    /// The name of the form, where one is given.
    pub form: Option<&'a str>,
    pub first: u64,
    pub last: Option<u64>,
    /// Whether lines that wait at the end of the log are a fault.
    pub is_strict: bool,
    /// Whether what nobody sent is assumed to be sent.
    pub assumes_sent: bool,
    pub parser: Option<&'a str>,
    pub event_lines: Option<&'a str>,
    /// Whether lines that don't match are passed over.
    pub skips: bool,
    pub host: Option<&'a str>,
    pub clock: Option<&'a str>,
    pub event: Option<&'a str>,
}

impl SpellingWords<'_> {
    /// What is wrong with these words beside one another, if anything is.
    pub fn misfit(&self) -> Option<&'static str>
        ensures { is_none result ≡ spell_one_way self.now }
    {
        if self.is_strict && !self.say_messages() {
            return Some("--strict is of --form messages");
        }
        if self.assumes_sent && !self.say_messages() {
            return Some("--assume-sent is of --form messages");
        }
        if self.assumes_sent && self.is_strict {
            return Some("--assume-sent takes what --strict refuses: give one of them");
        }
        if self.parser.is_some() && self.name_members() {
            return Some(
                "--parser and the names of members both say how events are spelled: give one of them",
            );
        }
        if self.parser.is_some() && self.form.is_some() {
            return Some("--parser says how events are spelled: give no --form");
        }
        if self.event_lines.is_some() && self.parser.is_none() {
            return Some("--event-lines is of --parser");
        }
        if self.event_lines.is_some() && self.lines_of_an_event().is_none() {
            return Some("--event-lines takes a number from 1 to 1000");
        }
        if self.skips && self.parser.is_none() && !self.name_members() {
            return Some(
                "--skip-unmatched is of --parser, or of --host-field, --clock-field and --event-field",
            );
        }
        None
    }

    /// Whether events have no clocks, but send and receive messages.
    pub fn say_messages(&self) -> bool
        ensures { result ≡ say_messages self.now }
    {
        match self.form {
            Some(name) => name == "messages",
            None => false,
        }
    }

    /// Whether a member is named.
    pub fn name_members(&self) -> bool
        ensures { result ≡ name_members self.now }
    {
        self.host.is_some() || self.clock.is_some() || self.event.is_some()
    }

    /// How many lines an event has, if the words say it.
    pub fn lines_of_an_event(&self) -> Option<usize>
        ensures { result ≡ event_lines_said self.now.event_lines }
    {
        few_lines(line_said(self.event_lines?))
    }
}

/// So many lines, if an event may have as many.
fn few_lines(lines: Option<u64>) -> Option<usize>
    ensures { result ≡ few_lines lines }
{
    match lines {
        Some(lines) if lines <= MOST_EVENT_LINES => Some(lines as usize),
        _ => None,
    }
}
