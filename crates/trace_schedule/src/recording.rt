//! A question about a log of which the events are kept.
ghost use Rattle.trace_asking.specs.Seeking.{IsAskable};
ghost use Rattle.trace_schedule.specs.InOrder.{AnswersRecorded};

use crate::recorded::Recorded;
use crate::recorded_event::RecordedEvent;
use std::alloc::Global;
use std::io::Read;
use std::slice;
use trace_asking::{Asking, Question};
use trace_detect::{DetectFault, Listener, ReasonedAnswer};
use trace_log::Form;
use trace_source::Clocked;

/// An answer, and the events that were read for it.
#[derive(Debug, Drop)]
pub struct RecordedAnswer {
    pub answer: ReasonedAnswer,
    pub events: Vec<RecordedEvent>,
}

/// Reads a log of this form, event by event, until this question is answered, and no further; or to its end. The events
/// are kept, each with its clock, and the listener is told of each.
pub fn ask_recorded<I: Read, L: Listener>(
    alloc: Global,
    form: Form,
    question: &Question,
    input: &mut I,
    listener: &mut L,
) -> Result<RecordedAnswer, DetectFault>
    requires { IsAskable question.now.subject }
    ensures { AnswersRecorded form question.now (I.remaining input.old) (I.remaining input.new) result }
{
    let clocked = Clocked::new(alloc, form, input)?;
    let source = Recorded::new(alloc, clocked);
    let mut asking = Asking::new(alloc, source, slice::from_ref(question))?;
    let told = asking.only_answer(listener);
    let (events, clocked) = asking.into_source().into_parts();
    // Gives the input back, so that the contract can say what is left of it.
    clocked.into_input();
    match told {
        Ok(answer) => Ok(RecordedAnswer { answer, events }),
        Err(fault) => Err(fault),
    }
}
