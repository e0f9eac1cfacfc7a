//! One question about a log.
ghost use Rattle.std.specs.Prelude.{◌∷◌, [], OnOk};
ghost use Rattle.trace_asking.specs.declared.question.Question.{Question as AskedQuestion};
ghost use Rattle.trace_asking.specs.Answered.{AnswersOf};
ghost use Rattle.trace_asking.specs.Asking.{AsksOne, IsAsking, IsAskingOne};
ghost use Rattle.trace_asking.specs.OfBytes.{AnswersAlone};
ghost use Rattle.trace_asking.specs.ReadingOn.{AnswersOn, Sights, of_story};
ghost use Rattle.trace_asking.specs.Seeking.{IsAskable};

use crate::asking::Asking;
use crate::question::Question;
use crate::reading_on::{ReadOn, Sighting};
use std::alloc::{AllocError, Global};
use std::io::Read;
use std::slice;
use trace_detect::{DetectFault, Listener, ReasonedAnswer};
use trace_log::Form;
use trace_source::{Clocked, Source};

/// Reads a log of this form, event by event, until this question is answered, and no further; or to its end. The
/// listener is told of each event.
pub fn ask<I: Read, L: Listener>(
    alloc: Global,
    form: Form,
    question: &Question,
    input: &mut I,
    listener: &mut L,
) -> Result<ReasonedAnswer, DetectFault>
    requires { IsAskable question.now.subject }
    ensures { AnswersAlone form question.now (I.remaining input.old) (I.remaining input.new) result }
{
    let source = Clocked::new(alloc, form, input)?;
    let mut asking = Asking::new(alloc, source, slice::from_ref(question))?;
    let told = asking.only_answer(listener);
    // Gives the input back, so that the contract can say what is left of it.
    asking.into_source().into_input();
    told
}

/// The same, and then reads on, so many events at most: a fault behind the moment changes no answer.
pub fn ask_on<I: Read, L: Listener>(
    alloc: Global,
    form: Form,
    question: &Question,
    most: u32,
    input: &mut I,
    listener: &mut L,
) -> Result<Sighting, DetectFault>
    requires { IsAskable question.now.subject }
    ensures { AnswersOn form question.now most (I.remaining input.old) (I.remaining input.new) result }
{
    let source = Clocked::new(alloc, form, input)?;
    let mut asking = Asking::new(alloc, source, slice::from_ref(question))?;
    let sighted = asking.only_sighting(most, listener);
    // Gives the input back, so that the contract can say what is left of it.
    asking.into_source().into_input();
    sighted
}

impl<S: Source + Drop> Asking<'_, S> {
    /// The answer to the question that is asked alone.
    pub fn only_answer<L: Listener>(
        &mut self,
        listener: &mut L,
    ) -> Result<ReasonedAnswer, DetectFault>
        requires { AsksOne S.story self.old }
        ensures answer { (whole : S.Whole) (question : AskedQuestion) →
            IsAskingOne (S.story whole) question self.old →
            AnswersOf (S.story whole) question self.new.source result }
        ensures asking { (whole : S.Whole) (question : AskedQuestion) →
            IsAskingOne (S.story whole) question self.old →
            OnOk result (IsAsking (S.story whole) (question ∷ []) self.new) }
    {
        match self.next_answer(listener)? {
            Some(told) => told.answer,
            None => unreachable!(),
        }
    }

    /// The same, and then reads on behind it, so many events at most.
    fn only_sighting<L: Listener>(
        &mut self,
        most: u32,
        listener: &mut L,
    ) -> Result<Sighting, DetectFault>
        requires { AsksOne S.story self.old }
        ensures { (whole : S.Whole) (question : AskedQuestion) →
            IsAskingOne (S.story whole) question self.old →
            Sights (of_story (S.story whole) question) most self.new.source result }
    {
        let answer = self.only_answer(listener)?;
        let ReadOn { more, behind } = self.read_on(most, listener);
        Ok(Sighting {
            answer,
            more,
            behind,
        })
    }
}
