//! The search for the answer to a question.
ghost use Rattle.std.specs.Prelude.{◌≡◌, [], IfOk, List, Some};
ghost use Rattle.trace_log.specs.Log.{Logged as LoggedEvent};
ghost use Rattle.trace_log.specs.LoggedEvents.{FollowsIn};
ghost use Rattle.trace_log.specs.Turns.{seen_logged};
ghost use Rattle.trace_pairs.specs.declared.hosts_condition.HostsCondition.{HostsCondition as AskedCondition};
ghost use Rattle.trace_pairs.specs.declared.moment.PairMoment.{PairMoment as KnownMoment};
ghost use Rattle.trace_pairs.specs.Searching.{CanTakeMore, HasTakenLog, HasTakenSome, names_of, rule_in};
ghost use Rattle.trace_detect.specs.Told.{told_by};
ghost use Rattle.trace_asking.specs.AnyTwo.{AnswersLastOfTwo};
ghost use Rattle.trace_asking.specs.TwoTold.{pair_told};
ghost use Rattle.trace_asking.specs.declared.question.Question.{Question as AskedQuestion};
ghost use Rattle.trace_asking.specs.Seeking.{CanSeek, HasSought, IsAskable, IsKnowing, IsSeeking, IsSeekingTwo};
ghost use Rattle.trace_asking.specs.Seeking.{KnowsSome, SeeksNext, SeeksNextOfTwo, TellsKnownSo, TellsLastSo};

use crate::question::{Question, Subject};
use crate::two_hosts::{last_of_two, told_moment};
use std::alloc::{AllocError, Global};
use trace_detect::{DetectFault, ReasonedAnswer, Recording, RunWatcher, TraceAnswer, WatchedHosts};
use trace_log::Logged;
use trace_pairs::{HostsCondition, PairMoment, PairSearch};

/// The search for the answer to a question, by what it asks.
#[derive(Drop)]
pub(crate) enum Seeker<'q> {
    Hosts(Recording<'q>),
    AnyTwo(PairSeeker<'q>),
    Definitely(RunWatcher<'q>),
}

/// The search for a moment of any two hosts, and the moment, once it is known.
#[derive(Drop)]
pub(crate) struct PairSeeker<'q> {
    pub condition: &'q HostsCondition,
    pub search: PairSearch<'q>,
    pub known: Option<PairMoment>,
}

impl<'q> Seeker<'q> {
    /// Before the first event.
    pub fn new(alloc: Global, question: &'q Question) -> Result<Seeker<'q>, AllocError>
        requires { IsAskable question.now.subject }
        ensures { IfOk result (IsSeeking question.now []) }
    {
        match &question.subject {
            Subject::Hosts(conditions) => Ok(Seeker::Hosts(Recording::new(
                alloc,
                conditions,
                question.why,
            )?)),
            Subject::AnyTwo(condition) => Ok(Seeker::AnyTwo(PairSeeker {
                condition,
                search: PairSearch::new(alloc, condition)?,
                known: None,
            })),
            Subject::Definitely(conditions) => {
                Ok(Seeker::Definitely(RunWatcher::new(alloc, conditions)?))
            }
        }
    }

    /// The hosts that are watched by their names.
    pub fn hosts(&self) -> WatchedHosts<'_, 'q> {
        if let Seeker::Hosts(recording) = self {
            return recording.hosts();
        }
        let Seeker::Definitely(watcher) = self else {
            return WatchedHosts::none();
        };
        watcher.hosts()
    }

    /// Takes the next event of the log. `true`: the answer is known.
    pub fn take(&mut self, logged: &Logged<'_>) -> Result<bool, AllocError>
        requires { CanSeek self.old (seen_logged logged.now) }
        ensures { (question : AskedQuestion) (before : List LoggedEvent) → IsSeeking question before self.old →
            FollowsIn before (seen_logged logged.now).event →
            SeeksNext question before (seen_logged logged.now) result self.new }
    {
        match self {
            Seeker::Hosts(recording) => recording.take(logged),
            Seeker::AnyTwo(pair) => pair.take(logged),
            Seeker::Definitely(watcher) => watcher.take(logged),
        }
    }

    /// The answer where it is known.
    pub fn found(&self, alloc: Global) -> Result<ReasonedAnswer, AllocError>
        requires { KnowsSome self.now }
        ensures { (question : AskedQuestion) (logged : List LoggedEvent) → IsKnowing question logged self.now →
            IfOk result (TellsKnownSo question logged) }
    {
        match self {
            Seeker::Hosts(recording) => recording.found(alloc),
            Seeker::AnyTwo(pair) => ReasonedAnswer::plain(alloc, pair.found(alloc)),
            Seeker::Definitely(watcher) => ReasonedAnswer::plain(alloc, watcher.found(alloc)),
        }
    }

    /// The answer at the end of the log.
    pub fn last(&mut self, alloc: Global) -> Result<ReasonedAnswer, DetectFault>
        requires { HasSought self.old }
        ensures { (question : AskedQuestion) (logged : List LoggedEvent) → IsSeeking question logged self.old →
            TellsLastSo question logged result }
    {
        match self {
            Seeker::Hosts(recording) => recording.last(alloc),
            Seeker::AnyTwo(pair) => ReasonedAnswer::plain(alloc, pair.last(alloc)),
            Seeker::Definitely(watcher) => ReasonedAnswer::plain(alloc, watcher.last(alloc)),
        }
    }
}

impl PairSeeker<'_> {
    /// Takes the next event of the log. `true`: the moment of two hosts is known.
    fn take(&mut self, logged: &Logged<'_>) -> Result<bool, AllocError>
        requires { CanTakeMore self.old.search (seen_logged logged.now) }
        ensures { (condition : AskedCondition) (before : List LoggedEvent) → IsSeekingTwo condition before self.old →
            FollowsIn before (seen_logged logged.now).event →
            SeeksNextOfTwo condition before (seen_logged logged.now) result self.new }
    {
        let Some(moment) = self.search.take(logged)? else {
            return Ok(false);
        };
        self.known = Some(moment);
        Ok(true)
    }

    /// The answer where the moment of two hosts is known.
    fn found(&self, alloc: Global) -> Result<TraceAnswer, AllocError>
        requires { (told : KnownMoment) × (self.now.known ≡ Some told) }
        ensures { IfOk result (λ answer. (told : KnownMoment) → self.now.known ≡ Some told →
            told_by answer ≡ pair_told told) }
    {
        let Some(moment) = &self.known else {
            unreachable!();
        };
        told_moment(alloc, moment)
    }

    /// The answer at the end of the log.
    fn last(&mut self, alloc: Global) -> Result<TraceAnswer, DetectFault>
        requires { HasTakenSome self.old.search }
        ensures { (logged : List LoggedEvent) → HasTakenLog (names_of self.old.condition.now)
            (rule_in self.old.condition.now) logged self.old.search →
            AnswersLastOfTwo self.old.condition.now logged result }
    {
        last_of_two(alloc, self.condition, &mut self.search)
    }
}
