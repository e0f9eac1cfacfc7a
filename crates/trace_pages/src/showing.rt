//! The page of a log for a question, or the picture of one.
ghost use Rattle.std.specs.Prelude.{◌≡◌, ◌≤◌, IfOk};
ghost use Rattle.trace_asking.specs.Seeking.{IsAskable};
ghost use Rattle.trace_detect.specs.Told.{told_by};
ghost use Rattle.trace_text.specs.Printed.{told_status};
ghost use Rattle.trace_pages.specs.Pages.{says_told, IsDrawn, IsLogShown, ShowsAnswer, ShowsUnknown};
ghost use Rattle.trace_text.specs.Unknown.{unknown_status};

use crate::answered::{answered_unknown, answered_with, status_of_shown};
use crate::log_page::page_of;
use crate::recorder::Recorder;
use draw_page::{Page, page};
use draw_still::still;
use std::alloc::{AllocError, Global};
use std::io::Read;
use std::slice;
use trace_asking::{Behind, Question, Sighting, ask_on};
use trace_detect::{DetectFault, Listener};
use trace_log::Form;
use trace_text::{Printed, waiting_of};
use trace_words::Options;

/// How many events are read behind the moment at most.
pub(crate) const MOST_BEHIND: u32 = 500;

/// How many events up to the one at which the moment becomes known are shown where the words don't say.
const USUAL_EVENTS: u32 = 2000;

/// The page of the log of this form for this question, or the picture, as the options say. Of a log in which lines wait
/// at the end for a message it is one that says so; any other fault is given back, and `Memory` where memory runs out.
pub fn shown<I: Read, L: Listener>(
    alloc: Global,
    options: &Options<'_>,
    form: Form,
    question: &Question,
    input: &mut I,
    listener: &mut L,
) -> Result<Printed, DetectFault>
    requires { IsAskable question.now.subject }
    ensures answer { IfOk result (λ answer. IsLogShown options.now.svg form question.now
        (I.remaining input.old) (I.remaining input.new) answer.text.items answer.status) }
    ensures status { IfOk result (λ answer. answer.status ≤ unknown_status) }
{
    let most = most_of(options);
    let questions = slice::from_ref(question);
    let mut recorder = Recorder::new(alloc, questions, most, MOST_BEHIND, listener)?;
    let sighted = ask_on(alloc, form, question, MOST_BEHIND, input, &mut recorder);
    match sighted {
        Ok(sighting) => sighted_answer(alloc, options, sighting, recorder),
        Err(fault) => unknown_answer(alloc, options, fault, recorder),
    }
}

/// How many events up to the one at which the moment becomes known are shown at most.
pub(crate) fn most_of(options: &Options<'_>) -> usize {
    let most = match options.events {
        Some(word) => word.parse::<u32>().unwrap_or(USUAL_EVENTS),
        None => USUAL_EVENTS,
    };
    most as usize
}

/// The page of what was sighted and recorded, or the picture.
fn sighted_answer<L: Listener>(
    alloc: Global,
    options: &Options<'_>,
    sighting: Sighting,
    mut recorder: Recorder<'_, '_, L>,
) -> Result<Printed, DetectFault>
    ensures shows { IfOk result (λ answer. ShowsAnswer options.now.svg (says_told sighting.answer)
        sighting.behind answer.text.items) }
    ensures status { IfOk result (λ answer. answer.status ≡ told_status (told_by sighting.answer.answer)) }
{
    if recorder.lacks_memory {
        return Err(DetectFault::Memory);
    }
    let Sighting {
        answer: told,
        more,
        behind,
    } = sighting;
    recorder.keep_up_to(more);
    let answered = answered_with(alloc, 0, told)?;
    let status = status_of_shown(answered.answer);
    let model = page_of(alloc, options, slice::from_ref(&answered), behind, recorder)?;
    let text = drawn(alloc, options, &model)?;
    Ok(Printed { text, status })
}

/// The page of a log, or the picture, where lines wait at its end, so that the answer isn't known; or the fault.
fn unknown_answer<L: Listener>(
    alloc: Global,
    options: &Options<'_>,
    fault: DetectFault,
    mut recorder: Recorder<'_, '_, L>,
) -> Result<Printed, DetectFault>
    ensures shows { IfOk result (λ answer. ShowsUnknown options.now.svg fault answer.text.items) }
    ensures status { IfOk result (λ answer. answer.status ≡ unknown_status) }
{
    let Some(waiting) = waiting_of(alloc, &fault)? else {
        return Err(fault);
    };
    if recorder.lacks_memory {
        return Err(DetectFault::Memory);
    }
    recorder.keep_up_to(0);
    let answered = answered_unknown(alloc, 0, &waiting)?;
    let status = status_of_shown(answered.answer);
    let model = page_of(
        alloc,
        options,
        slice::from_ref(&answered),
        Behind::Ended,
        recorder,
    )?;
    let text = drawn(alloc, options, &model)?;
    Ok(Printed { text, status })
}

/// The file of a page, or the picture of its events where that is asked for.
pub(crate) fn drawn(
    alloc: Global,
    options: &Options<'_>,
    model: &Page,
) -> Result<Vec<u8>, AllocError>
    ensures { IfOk result (λ bytes. IsDrawn options.now.svg model.now bytes.items) }
{
    if !options.svg {
        return page(alloc, model);
    }
    let picture = still(alloc, model, options.most_columns())?;
    Ok(picture.into_bytes())
}
