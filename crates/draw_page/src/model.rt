//! What a page shows.
use crate::event::PageEvent;
use crate::message::PageMessage;

/// What a page shows. Texts are as they stand in the log or the workload, whatever they hold. Where several questions
/// were asked, what is said of one is said of the first.
#[derive(Debug, Drop)]
pub struct Page {
    /// The program that writes the page.
    pub program: String,
    /// The name of the file that was read, and nothing for standard input.
    pub title: String,
    pub asks: PageQuestion,
    pub answer: PageAnswer,
    /// What the program prints where it prints no page.
    pub words: String,
    /// The hosts, in the order in which they came.
    pub hosts: Vec<PageHost>,
    /// The events, in the order of the log or of the workload's lines.
    pub events: Vec<PageEvent>,
    /// The places, among the events, of the moment's members, where there is a moment; or of the first events of the
    /// runs, where the conditions must have held at once.
    pub moment: Option<Vec<usize>>,
    /// Of each such run the line of the event at which it is over, where that is known. Nothing where there are no
    /// runs.
    pub over: Vec<Option<u64>>,
    pub left_out: LeftOut,
    /// The messages, where they are known: those of a workload.
    pub messages: Option<Vec<PageMessage>>,
    /// The name of the first question, where several were asked; else nothing.
    pub question: String,
    /// What else was asked of the same events, and answered, in the order of the questions.
    pub others: Vec<PageReply>,
}

/// What else was asked, and what was answered.
#[derive(Debug, Drop)]
pub struct PageReply {
    /// The question's name.
    pub question: String,
    pub asks: PageQuestion,
    pub answer: PageAnswer,
    /// What the program prints for it, behind its name, where it prints no page.
    pub words: String,
    /// The condition of each host, in the order of the page's hosts, where it has one.
    pub watches: Vec<Option<HostWatch>>,
    /// The places, among the events, at which the condition of the event's host holds, in their order.
    pub holds: Vec<usize>,
    /// As in a page.
    pub moment: Option<Vec<usize>>,
    /// As in a page.
    pub over: Vec<Option<u64>>,
}

/// What was asked.
#[derive(Clone, Copy, Debug, PartialEq, Eq)]
pub enum PageQuestion {
    /// Whether the conditions of all hosts could have held at once.
    AllHosts,
    /// Whether those of any two hosts could have.
    AnyTwo,
    /// Whether those of all hosts must have.
    Definitely,
}

/// What was answered.
#[derive(Clone, Copy, Debug, PartialEq, Eq)]
pub enum PageAnswer {
    /// There is a moment.
    Found,
    /// There is none.
    NoMoment,
    /// Neither is known.
    Undecided,
    /// The conditions must have held at once.
    Definite,
    /// They could have, at a moment, and need not.
    Possible,
}

/// A host, or a process.
#[derive(Debug, Drop)]
pub struct PageHost {
    pub name: String,
    /// Its condition, where it has one.
    pub watch: Option<HostWatch>,
}

/// The condition of a host.
#[derive(Debug, Drop)]
pub struct HostWatch {
    pub rule: HostRule,
    /// The condition in words.
    pub condition: String,
}

/// How long a condition holds.
#[derive(Clone, Copy, Debug, PartialEq, Eq)]
pub enum HostRule {
    /// From an event until the host's next event.
    While,
    /// At an event alone.
    At,
}

/// What of the log isn't among the events.
#[derive(Clone, Copy, Debug)]
pub struct LeftOut {
    /// How many events come before the first one that isn't far.
    pub before: u64,
    /// Whether the log goes on behind the last event, or may go on.
    pub more: bool,
}
