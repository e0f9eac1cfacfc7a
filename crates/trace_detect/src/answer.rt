//! What is answered to a question about a log.
ghost use Rattle.std.specs.Prelude.{◌≡◌, [], string_bytes, IfOk};
ghost use Rattle.trace_detect.specs.Reasons.{answer_alone};

use std::alloc::Global;

/// The answer to a question about a log.
#[derive(Debug, Drop)]
pub enum TraceAnswer {
    /// The moment: a member for each condition, in their order.
    Found(Vec<MomentMember>),
    /// There is no moment: the count of the host of each condition, in their order.
    NoMoment(Vec<HostCount>),
    /// The conditions must have held at once, in whichever order the events came: a run for each condition, in their
    /// order, of which each begins before any other one is over.
    Definite(Vec<HostRun>),
    /// They could have, and need not: the moment.
    Possible(Vec<MomentMember>),
}

/// An answer, and why it stands, where that is asked: the text of an explanation, a sentence a line. Else it is empty.
#[derive(Debug, Drop)]
pub struct ReasonedAnswer {
    pub answer: TraceAnswer,
    pub why: String,
}

impl ReasonedAnswer {
    /// The answer without reasons, where there is one.
    pub fn plain<F>(alloc: Global, answered: Result<TraceAnswer, F>) -> Result<ReasonedAnswer, F>
        ensures alone { answer_alone result ≡ answered }
        ensures why { IfOk result (λ told. string_bytes told.why ≡ []) }
    {
        match answered {
            Ok(answer) => Ok(ReasonedAnswer {
                answer,
                why: String::new(alloc),
            }),
            Err(fault) => Err(fault),
        }
    }
}

/// A member of a moment: a host, and the line and the text of its event.
#[derive(Debug, Drop)]
pub struct MomentMember {
    pub host: String,
    pub line: u64,
    pub text: String,
}

/// A run of a host, a longest row of events from which its condition holds: the line and the text of the first of them,
/// and the line of the event at which it is over, where that is known.
#[derive(Debug, Drop)]
pub struct HostRun {
    pub host: String,
    pub line: u64,
    pub over: Option<u64>,
    pub text: String,
}

/// How many events a host has, and at how many of them its condition holds.
#[derive(Debug, Drop)]
pub struct HostCount {
    pub host: String,
    pub events: u64,
    pub matched: u64,
}
