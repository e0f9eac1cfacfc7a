//! The moments of a log, one behind the other.
ghost use Rattle.std.specs.Prelude.{◌≡◌, ℕ, [], true, false, IfOk, OnOk, List, Option, Some, None};
ghost use Rattle.wcp_io.specs.Reader.{left};
ghost use Rattle.trace_log.specs.declared.turn.Form.{Form as LogForm};
ghost use Rattle.trace_log.specs.Log.{Logged as LoggedEvent};
ghost use Rattle.trace_log.specs.Reading.{HasReadEvents};
ghost use Rattle.trace_moment.specs.Moment.{IsEarliest};
ghost use Rattle.trace_moment.specs.Standing.{HasNoMoment};
ghost use Rattle.trace_moment.specs.Search.{HasTaken, Keeps, is_known, watched_by};
ghost use Rattle.trace_condition.specs.declared.condition.Condition.{Condition as HostCondition};
ghost use Rattle.trace_condition.specs.Conditions.{HaveHosts};
ghost use Rattle.trace_detect.specs.Detection.{AnswersLast};
ghost use Rattle.trace_detect.specs.Moments.{AnswersMoment, CanFollow, IsFollowing, IsKeeping, IsOnTheWay};
ghost use Rattle.trace_detect.specs.Moments.{CanReadBehind, ReadsOnTheWay, ReadsOneBehind, taken_behind};
ghost use Rattle.trace_detect.specs.Told.{found_told, told_by};
ghost use Rattle.trace_detect.specs.Watcher.{HasCounted, HasCountedSome, IsWatchingBehind};
ghost use Rattle.trace_detect.specs.Watching.{taken_of, watches};

use crate::answer::TraceAnswer;
use crate::detection::{found_answer, no_moment_answer};
use crate::fault::DetectFault;
use crate::listener::Listener;
use crate::watcher::Watcher;
use std::alloc::{AllocError, Global};
use std::io::Read;
use trace_condition::Condition;
use trace_log::{EventReader, Form};

/// The moments of a log at which all conditions hold, one behind the other, while the log comes in.
#[derive(Drop)]
pub struct Moments<'c> {
    alloc: Global,
    events: EventReader,
    watcher: Watcher<'c>,
    known: bool,
    ended: bool,
    count: u64,
}

impl<'c> Moments<'c> {
    /// The moments of a log of this form, of which nothing was read.
    pub fn new(
        alloc: Global,
        form: Form,
        conditions: &'c [Condition],
    ) -> Result<Moments<'c>, AllocError>
        requires { HaveHosts conditions.now }
        ensures { IfOk result (λ moments. (input : Option (List ℕ)) →
            IsFollowing form conditions.now input (left moments.events.lines input) None [] moments) }
    {
        Ok(Moments {
            alloc,
            events: EventReader::new(alloc, form)?,
            watcher: Watcher::new(alloc, conditions)?,
            known: false,
            ended: false,
            count: 0,
        })
    }

    /// Reads on until the next moment is known, and no further: the earliest of those that begin, at each host, behind
    /// the one that was told before. `None` where the log ends and there is none. A fault of a line is answered that
    /// comes before the moment is known; after an `Err` there is no more to be read.
    pub fn next_moment<I: Read, L: Listener>(
        &mut self,
        input: &mut I,
        listener: &mut L,
    ) -> Result<Option<TraceAnswer>, DetectFault>
        requires { CanFollow (left self.old.events.lines (I.remaining input.old)) self.old }
        ensures { (form : LogForm) (conditions : List HostCondition) (known : Option (List ℕ))
            (told : Option (ℕ → LoggedEvent)) (at : List LoggedEvent) →
            IsFollowing form conditions known (left self.old.events.lines (I.remaining input.old)) told at self.old →
            AnswersMoment form conditions known (left self.new.events.lines (I.remaining input.new)) told at result
            self.new }
    {
        for _ in 0..u64::MAX {
            if self.known {
                return self.answer_known();
            }
            if self.ended {
                return self.answer_last();
            }
            self.read_on(input, listener)?;
        }
        Err(DetectFault::Read)
    }

    /// The answer to a log that has ended without a moment: how often each condition held. Or its first watched host that
    /// logs nothing.
    pub fn answer_none(&self) -> Result<TraceAnswer, DetectFault>
        requires { HasCountedSome self.now.watcher }
        ensures { (conditions : List HostCondition) (logged : List LoggedEvent) →
            HasCounted conditions logged self.now.watcher →
            HasNoMoment (watches conditions) (taken_of conditions logged) → AnswersLast conditions logged result }
    {
        no_moment_answer(self.alloc, &self.watcher)
    }

    /// The answer where the moment is known; the search goes on behind it.
    fn answer_known(&mut self) -> Result<Option<TraceAnswer>, DetectFault>
        requires known { self.old.known ≡ true }
        requires can { (left : Option (List ℕ)) × CanFollow left self.old }
        ensures answer { (form : LogForm) (conditions : List HostCondition) (input left : Option (List ℕ))
            (told : Option (ℕ → LoggedEvent)) (at : List LoggedEvent) →
            IsOnTheWay form conditions input left told at self.old →
            AnswersMoment form conditions input left told at result self.new }
        ensures lines { self.new.events.lines ≡ self.old.events.lines }
    {
        let answer = tell(self.alloc, &mut self.watcher, &mut self.known)?;
        Ok(Some(answer))
    }

    /// The answer at the end of the log.
    fn answer_last(&mut self) -> Result<Option<TraceAnswer>, DetectFault>
        requires unknown { self.old.known ≡ false }
        requires ended { self.old.ended ≡ true }
        requires can { (left : Option (List ℕ)) × CanFollow left self.old }
        ensures answer { (form : LogForm) (conditions : List HostCondition) (input left : Option (List ℕ))
            (told : Option (ℕ → LoggedEvent)) (at : List LoggedEvent) →
            IsOnTheWay form conditions input left told at self.old →
            AnswersMoment form conditions input left told at result self.new }
        ensures lines { self.new.events.lines ≡ self.old.events.lines }
    {
        if !self.watcher.search.end() {
            return Ok(None);
        }
        let answer = tell(self.alloc, &mut self.watcher, &mut self.known)?;
        Ok(Some(answer))
    }

    /// Reads one event more, or finds that the log has ended.
    fn read_on<I: Read, L: Listener>(
        &mut self,
        input: &mut I,
        listener: &mut L,
    ) -> Result<(), DetectFault>
        requires unknown { self.old.known ≡ false }
        requires goes_on { self.old.ended ≡ false }
        requires can { CanFollow (left self.old.events.lines (I.remaining input.old)) self.old }
        ensures { (form : LogForm) (conditions : List HostCondition) (known : Option (List ℕ))
            (told : Option (ℕ → LoggedEvent)) (at : List LoggedEvent) →
            IsOnTheWay form conditions known (left self.old.events.lines (I.remaining input.old)) told at self.old →
            ReadsOnTheWay form conditions known (left self.new.events.lines (I.remaining input.new)) told at result
            self.new }
    {
        let Some(count) = self.count.checked_add(1) else {
            return Err(DetectFault::Read);
        };
        let Some(known) = read_one(&mut self.events, &mut self.watcher, input, listener)? else {
            self.ended = true;
            return Ok(());
        };
        self.known = known;
        self.count = count;
        Ok(())
    }
}

/// The answer that tells the moment that is known. The search goes on behind it, and may know the next.
fn tell(
    alloc: Global,
    watcher: &mut Watcher<'_>,
    known: &mut bool,
) -> Result<TraceAnswer, AllocError>
    requires known { is_known watcher.old.search ≡ true }
    requires watched { watched_by watcher.old.search ≡ watches watcher.old.conditions.now }
    ensures told { (moment : _) → Keeps watcher.old.search moment → IfOk result (λ answer.
        told_by answer ≡ found_told watcher.old.conditions.now moment) }
    ensures behind { (conditions : List HostCondition) (told : Option (ℕ → LoggedEvent)) (logged : List LoggedEvent)
        (moment : ℕ → LoggedEvent) → IsKeeping conditions told logged watcher.old →
        IsEarliest (watches conditions) (taken_behind conditions told logged) moment →
        OnOk result (IsKeeping conditions (Some moment) logged watcher.new
        × HasTaken (taken_behind conditions (Some moment) logged) watcher.new.search) }
    ensures known { OnOk result (is_known watcher.new.search ≡ known.new) }
{
    let answer = found_answer(alloc, watcher)?;
    *known = watcher.search.go_on();
    Ok(answer)
}

/// Reads one event more, which the watcher takes, and says whether the moment is known then; `None` where the log has
/// ended.
fn read_one<I: Read, L: Listener>(
    events: &mut EventReader,
    watcher: &mut Watcher<'_>,
    input: &mut I,
    listener: &mut L,
) -> Result<Option<bool>, DetectFault>
    requires can { CanReadBehind (left events.old.lines (I.remaining input.old)) events.old.log watcher.old }
    requires unknown { is_known watcher.old.search ≡ false }
    ensures { (form : LogForm) (conditions : List HostCondition) (known : Option (List ℕ))
        (told : Option (ℕ → LoggedEvent)) (before : List LoggedEvent) →
        HasReadEvents form known (left events.old.lines (I.remaining input.old)) before events.old.log →
        IsWatchingBehind conditions told before watcher.old →
        ReadsOneBehind form conditions known (left events.new.lines (I.remaining input.new)) told before watcher.old
        result events.new.log watcher.new }
{
    if !events.next_event(input)? {
        return Ok(None);
    }
    let Some(logged) = events.event() else {
        unreachable!();
    };
    listener.hear(&logged, &watcher.hosts());
    let known = watcher.take(&logged)?;
    Ok(Some(known))
}
