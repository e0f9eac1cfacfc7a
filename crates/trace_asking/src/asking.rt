//! Several questions about one log, which is read once.
ghost use Rattle.std.specs.Prelude.{◌≡◌, [], true, false, All, Err, IfOk, OnOk, List, slice_index_or};
ghost use Rattle.trace_log.specs.declared.fault.LogFault.{LogFault as FoundFault};
ghost use Rattle.trace_log.specs.Log.{Logged as LoggedEvent};
ghost use Rattle.trace_log.specs.LoggedEvents.{FollowsIn};
ghost use Rattle.trace_log.specs.Turns.{seen_logged};
ghost use Rattle.trace_detect.specs.declared.fault.DetectFault.TheVariants as fault;
ghost use Rattle.trace_asking.specs.declared.asked.Stage.TheVariants as stage;
ghost use Rattle.trace_asking.specs.declared.question.Question.{Question as AskedQuestion};
ghost use Rattle.trace_asking.specs.Asking.{AnswersNext, AnswersOneOf, AreAsked, CanGoOn, CanReadOne, HaveAll, IsAsking};
ghost use Rattle.trace_asking.specs.Asking.{CanAllTake, HasTakenOne, IsAt, IsWaiting, NoneAt, ReadsFurther, ReadsOne};
ghost use Rattle.trace_asking.specs.Asking.{HasGivenSo, answered_by, answered_in};
ghost use Rattle.trace_asking.specs.ReadingOn.{ReadsOnSo};

use crate::asked::{Asked, Stage, asked_of, first_at, take_all, tell};
use crate::question::Question;
use crate::reading_on::{Behind, ReadOn, read_on};
use std::alloc::{AllocError, Global};
use trace_detect::{DetectFault, Listener, ReasonedAnswer};
use trace_log::Logged;
use trace_source::Source;

/// The answer to a question, with the question's place: what is answered to it alone.
#[derive(Debug, Drop)]
pub struct QuestionAnswer {
    pub place: usize,
    pub answer: Result<ReasonedAnswer, DetectFault>,
}

/// Several questions about what a source gives, event by event.
#[derive(Drop)]
pub struct Asking<'q, S> {
    alloc: Global,
    source: S,
    asked: Vec<Asked<'q>>,
    count: u64,
    ended: bool,
}

impl<'q, S: Source + Drop> Asking<'q, S> {
    /// These questions about what this source gives, which gave nothing yet.
    pub fn new(
        alloc: Global,
        source: S,
        questions: &'q [Question],
    ) -> Result<Asking<'q, S>, AllocError>
        requires { HaveAll questions.now }
        ensures asking { IfOk result (λ asking. (whole : S.Whole) → (S.story whole).gave [] source →
            IsAsking (S.story whole) questions.now asking) }
        ensures unanswered { IfOk result (λ asking. All (λ answered. answered ≡ false) (answered_by asking)) }
    {
        Ok(Asking {
            alloc,
            source,
            asked: asked_of(alloc, questions)?,
            count: 0,
            ended: false,
        })
    }

    /// Goes on until one question more is answered, and gives the answer; `None` once all are answered. Of several
    /// whose moment becomes known at the same event, the first comes first. After an `Err` there is no more to be read.
    pub fn next_answer<L: Listener>(
        &mut self,
        listener: &mut L,
    ) -> Result<Option<QuestionAnswer>, DetectFault>
        requires { CanGoOn S.story self.old }
        ensures answer { (whole : S.Whole) (questions : List AskedQuestion) →
            IsAsking (S.story whole) questions self.old →
            AnswersNext (S.story whole) questions self.new.source (answered_by self.old) result (answered_by self.new) }
        ensures asking { (whole : S.Whole) (questions : List AskedQuestion) →
            IsAsking (S.story whole) questions self.old → OnOk result (IsAsking (S.story whole) questions self.new) }
        ensures stays { (what : FoundFault) → result ≡ Err (fault.Log what) →
            answered_by self.new ≡ answered_by self.old }
    {
        for _ in 0..u64::MAX {
            if let Some(place) = first_at(&self.asked, Stage::Known) {
                return Ok(Some(self.answer_known(place)?));
            }
            let Some(place) = first_at(&self.asked, Stage::Open) else {
                return Ok(None);
            };
            if self.ended {
                return Ok(Some(self.answer_last(place)));
            }
            self.go_on(listener)?;
        }
        Err(DetectFault::Read)
    }

    /// Gives the source back.
    pub fn into_source(self) -> S
        ensures { result ≡ self.entry.source }
    {
        self.source
    }

    /// Whether the question at this place was answered.
    pub fn is_answered(&self, place: usize) -> bool
        ensures { result ≡ slice_index_or (answered_by self.now) place true }
    {
        match self.asked.get(place) {
            Some(asked) => asked.stage == Stage::Answered,
            None => true,
        }
    }

    /// Reads on behind an answer, so many events at most, which no question takes, and says how many there were and what
    /// is known of the log behind them. The listener is told of each.
    pub fn read_on<L: Listener>(&mut self, most: u32, listener: &mut L) -> ReadOn
        ensures { (whole : S.Whole) (logged : List LoggedEvent) →
            HasGivenSo self.old.ended (S.story whole) logged self.old.source →
            ReadsOnSo self.old.ended (S.story whole) most logged result self.old.source self.new.source }
    {
        if self.ended {
            return ReadOn {
                more: 0,
                behind: Behind::Ended,
            };
        }
        read_on(&mut self.source, &self.asked, most, listener)
    }

    /// Reads one event more, which each open question takes, or finds that the log has ended.
    fn go_on<L: Listener>(&mut self, listener: &mut L) -> Result<(), DetectFault>
        requires can { CanGoOn S.story self.old }
        requires none_known { NoneAt stage.Known self.old.asked.items }
        requires goes_on { self.old.ended ≡ false }
        ensures reads { (whole : S.Whole) (questions : List AskedQuestion) →
            IsAsking (S.story whole) questions self.old →
            ReadsFurther (S.story whole) questions (answered_by self.old) result self.new }
        ensures stays { (what : FoundFault) → result ≡ Err (fault.Log what) →
            answered_by self.new ≡ answered_by self.old }
    {
        let Some(count) = self.count.checked_add(1) else {
            return Err(DetectFault::Read);
        };
        if !read_one(&mut self.source, &mut self.asked, listener)? {
            self.ended = true;
            return Ok(());
        }
        self.count = count;
        Ok(())
    }

    /// The answer to a question whose moment is known.
    fn answer_known(&mut self, place: usize) -> Result<QuestionAnswer, AllocError>
        requires known { IsAt stage.Known self.old.asked.items place }
        requires can { CanGoOn S.story self.old }
        ensures answer { (whole : S.Whole) (questions : List AskedQuestion) →
            IsAsking (S.story whole) questions self.old → IfOk result (λ told.
            AnswersOneOf (S.story whole) questions self.new.source (answered_by self.old) told (answered_by self.new)) }
        ensures asking { (whole : S.Whole) (questions : List AskedQuestion) →
            IsAsking (S.story whole) questions self.old → OnOk result (IsAsking (S.story whole) questions self.new) }
    {
        let asked = &mut self.asked[place];
        let answer = Ok(asked.seeker.found(self.alloc)?);
        asked.stage = Stage::Answered;
        Ok(QuestionAnswer { place, answer })
    }

    /// The answer to an open question at the end of the log.
    fn answer_last(&mut self, place: usize) -> QuestionAnswer
        requires open { IsAt stage.Open self.old.asked.items place }
        requires ended { self.old.ended ≡ true }
        requires can { CanGoOn S.story self.old }
        ensures answer { (whole : S.Whole) (questions : List AskedQuestion) →
            IsAsking (S.story whole) questions self.old →
            AnswersOneOf (S.story whole) questions self.new.source (answered_by self.old) result (answered_by self.new) }
        ensures asking { (whole : S.Whole) (questions : List AskedQuestion) →
            IsAsking (S.story whole) questions self.old → IsAsking (S.story whole) questions self.new }
    {
        let asked = &mut self.asked[place];
        let answer = asked.seeker.last(self.alloc);
        asked.stage = Stage::Answered;
        QuestionAnswer { place, answer }
    }
}

/// Reads one event more, which each question takes that wasn't answered; `false` where the log has ended. No question
/// waits for its answer.
fn read_one<S: Source, L: Listener>(
    source: &mut S,
    asked: &mut Vec<Asked<'_>>,
    listener: &mut L,
) -> Result<bool, DetectFault>
    requires { CanReadOne S.story source.old asked.old.items }
    ensures reads { (whole : S.Whole) (questions : List AskedQuestion) (before : List LoggedEvent) →
        (S.story whole).gave before source.old →
        AreAsked (IsWaiting before) questions asked.old.items →
        ReadsOne (S.story whole) questions before asked.old.items result source.new asked.new.items }
    ensures stays { (what : FoundFault) → result ≡ Err (fault.Log what) → asked.new.items ≡ asked.old.items }
{
    if !source.advance()? {
        return Ok(false);
    }
    let Some(logged) = source.event() else {
        unreachable!();
    };
    hear_and_take(asked, &logged, listener)?;
    Ok(true)
}

/// Tells the listener of the next event of the log, which then each question takes that wasn't answered.
fn hear_and_take<L: Listener>(
    asked: &mut Vec<Asked<'_>>,
    logged: &Logged<'_>,
    listener: &mut L,
) -> Result<(), AllocError>
    requires { CanAllTake asked.old.items (seen_logged logged.now) }
    ensures answered { OnOk result (answered_in asked.new.items ≡ answered_in asked.old.items) }
    ensures takes { (questions : List AskedQuestion) (before : List LoggedEvent) →
        AreAsked (IsWaiting before) questions asked.old.items → FollowsIn before (seen_logged logged.now).event →
        OnOk result (AreAsked (HasTakenOne before (seen_logged logged.now)) questions asked.new.items) }
{
    tell(asked, logged, listener);
    take_all(asked, logged)
}
