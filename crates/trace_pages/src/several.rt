//! The page of a log for several questions, or the picture of one of them.
ghost use Rattle.std.specs.Prelude.{◌≡◌, ◌≤◌, ◌<◌, ◌++◌, ◌∷◌, [], length, map, option_map, true, IfOk, List, OnOk, None};
ghost use Rattle.std.specs.List.{list_any};
ghost use Rattle.trace_source.specs.Clocked.{LogInput, log_story};
ghost use Rattle.trace_asking.specs.declared.question.Question.{Question as AskedQuestion};
ghost use Rattle.trace_asking.specs.Asking.{HaveAll};
ghost use Rattle.trace_pages.specs.Replies.{IsReplying};
ghost use Rattle.trace_text.specs.Unknown.{unknown_status};
ghost use Rattle.trace_text.specs.Waiting.{seen_waiting};
ghost use Rattle.trace_pages.specs.Pages.{said_by};
ghost use Rattle.trace_pages.specs.Several.{AreClosed, AreSaidOf, AreShown, IsClosed, IsSaidOf, IsShown, ShowsSaid};
ghost use Rattle.trace_pages.specs.Several.{ShowsWaiting, is_found, is_moment, is_undecided, said_status};

use crate::answered::{
    Answered, FOUND, NONE, answered_missing, answered_unknown, answered_with, status_of_shown,
};
use crate::log_page::page_of;
use crate::recorder::Recorder;
use crate::replying::{Reply, Replying};
use crate::showing::{MOST_BEHIND, drawn, most_of};
use draw_page::PageAnswer;
use std::alloc::{AllocError, Global};
use std::io::Read;
use std::slice;
use trace_asking::{Behind, Question};
use trace_detect::{DetectFault, Listener};
use trace_log::Form;
use trace_source::Clocked;
use trace_text::{Printed, UNKNOWN, WaitingLines, waiting_of};
use trace_words::Options;

/// The page of the log of this form for these questions, or the picture of the first that has a moment, as the options
/// say. It says of a question that has no answer why it has none; any other fault is given back, and `Memory` where
/// memory runs out.
pub fn shown_together<I: Read, L: Listener>(
    alloc: Global,
    options: &Options<'_>,
    form: Form,
    questions: &[Question],
    input: &mut I,
    listener: &mut L,
) -> Result<Printed, DetectFault>
    requires some { 0 < length questions.now }
    requires have { HaveAll questions.now }
    ensures answer { IfOk result (λ answer. AreShown options.now.svg form (I.remaining input.old) questions.now
        answer.text.items answer.status) }
    ensures status { IfOk result (λ answer. answer.status ≤ unknown_status) }
{
    let most = most_of(options);
    let mut recorder = Recorder::new(alloc, questions, most, MOST_BEHIND, listener)?;
    let source = Clocked::new(alloc, form, input)?;
    let mut replying = Replying::new(alloc, source, questions)?;
    match replying.ask_all(&mut recorder) {
        Ok(()) => known_answers(alloc, options, replying, recorder),
        Err(fault) => unknown_answers(alloc, options, fault, replying.replies, recorder),
    }
}

/// The page of what was answered to each question, or the picture. The log is read on for it.
fn known_answers<I: Read, L: Listener>(
    alloc: Global,
    options: &Options<'_>,
    mut replying: Replying<'_, Clocked<'_, I>>,
    mut recorder: Recorder<'_, '_, L>,
) -> Result<Printed, DetectFault>
    requires some { 0 < length replying.replies.items }
    requires known { AreClosed None replying.replies.items }
    ensures shows { (log : LogInput) (questions : List AskedQuestion) →
        IsReplying (log_story I.remaining log) log.form log.bytes questions replying.entry →
        IfOk result (λ answer. AreShown options.now.svg log.form log.bytes questions answer.text.items answer.status) }
    ensures status { IfOk result (λ answer. answer.status ≤ unknown_status) }
{
    let on = replying.asking.read_on(MOST_BEHIND, &mut recorder);
    recorder.keep_up_to(on.more);
    let answered = answered_all(alloc, replying.replies, None)?;
    show_all(alloc, options, &answered, on.behind, recorder)
}

/// The page of what was answered, or the picture, where lines wait at the end of the log, so that the other answers
/// aren't known; or the fault.
fn unknown_answers<L: Listener>(
    alloc: Global,
    options: &Options<'_>,
    fault: DetectFault,
    replies: Vec<Reply>,
    mut recorder: Recorder<'_, '_, L>,
) -> Result<Printed, DetectFault>
    requires { 0 < length replies.items }
    ensures shows { IfOk result (λ answer. ShowsWaiting options.now.svg fault replies.items answer.text.items
        answer.status) }
    ensures status { IfOk result (λ answer. answer.status ≤ unknown_status) }
{
    let Some(waiting) = waiting_of(alloc, &fault)? else {
        return Err(fault);
    };
    recorder.keep_up_to(0);
    let answered = answered_all(alloc, replies, Some(&waiting))?;
    show_all(alloc, options, &answered, Behind::Ended, recorder)
}

/// The page of these answers, or the picture of the first that has a moment, and the status.
fn show_all<L: Listener>(
    alloc: Global,
    options: &Options<'_>,
    answered: &[Answered],
    behind: Behind,
    recorder: Recorder<'_, '_, L>,
) -> Result<Printed, DetectFault>
    requires { 0 < length answered.now }
    ensures shows { IfOk result (λ answer. ShowsSaid options.now.svg (map said_by answered.now) behind
        answer.text.items) }
    ensures status { IfOk result (λ answer. answer.status ≡ said_status (map said_by answered.now)) }
    ensures few { IfOk result (λ answer. answer.status ≤ unknown_status) }
{
    if recorder.lacks_memory {
        return Err(DetectFault::Memory);
    }
    let text = draw_all(alloc, options, answered, behind, recorder)?;
    let status = status_of_all(answered);
    Ok(Printed { text, status })
}

/// The page of these answers, or the picture of the first that has a moment.
fn draw_all<L: Listener>(
    alloc: Global,
    options: &Options<'_>,
    answered: &[Answered],
    behind: Behind,
    recorder: Recorder<'_, '_, L>,
) -> Result<Vec<u8>, AllocError>
    requires { 0 < length answered.now }
    ensures { IfOk result (λ text. ShowsSaid options.now.svg (map said_by answered.now) behind text.items) }
{
    if options.svg {
        return draw_first(alloc, options, answered, behind, recorder);
    }
    let model = page_of(alloc, options, answered, behind, recorder)?;
    drawn(alloc, options, &model)
}

/// The picture of the first answer that has a moment.
fn draw_first<L: Listener>(
    alloc: Global,
    options: &Options<'_>,
    answered: &[Answered],
    behind: Behind,
    recorder: Recorder<'_, '_, L>,
) -> Result<Vec<u8>, AllocError>
    requires some { 0 < length answered.now }
    requires svg { options.now.svg ≡ true }
    ensures { IfOk result (λ text. ShowsSaid true (map said_by answered.now) behind text.items) }
{
    let shown = &answered[first_with_moment(answered)];
    let model = page_of(alloc, options, slice::from_ref(shown), behind, recorder)?;
    drawn(alloc, options, &model)
}

/// What is answered to each question. Where no lines wait, each was answered.
fn answered_all(
    alloc: Global,
    replies: Vec<Reply>,
    waiting: Option<&WaitingLines>,
) -> Result<Vec<Answered>, DetectFault>
    requires { AreClosed (option_map (λ waiting. seen_waiting waiting.now) waiting) replies.items }
    ensures { IfOk result (λ answered. AreSaidOf (option_map (λ waiting. seen_waiting waiting.now) waiting.entry)
        replies.items (map said_by answered.items)) }
{
    let mut answered = Vec::with_capacity(alloc, replies.len())?;
    for reply in replies {
        let place = answered.len();
        let one = answered_by(alloc, place, reply, waiting)?;
        add(&mut answered, one)?;
    }
    Ok(answered)
}

/// Adds an answer.
fn add(answered: &mut Vec<Answered>, one: Answered) -> Result<(), AllocError>
    ensures { OnOk result (answered.new.items ≡ answered.old.items ++ one ∷ []) }
{
    answered.push(one)?;
    Ok(())
}

/// What is answered to the question at this place.
fn answered_by(
    alloc: Global,
    place: usize,
    reply: Reply,
    waiting: Option<&WaitingLines>,
) -> Result<Answered, DetectFault>
    requires { IsClosed (option_map (λ waiting. seen_waiting waiting.now) waiting) reply }
    ensures { IfOk result (λ answered. IsSaidOf (option_map (λ waiting. seen_waiting waiting.now) waiting.entry)
        reply (said_by answered)) }
{
    match reply {
        Reply::Told(told) => Ok(answered_with(alloc, place, told)?),
        Reply::Failed(DetectFault::NoHost(host)) => {
            Ok(answered_missing(alloc, place, host.as_str())?)
        }
        Reply::Failed(fault) => Err(fault),
        Reply::Open => {
            let Some(waiting) = waiting else {
                unreachable!();
            };
            Ok(answered_unknown(alloc, place, waiting)?)
        }
    }
}

/// The exit status of these answers.
fn status_of_all(answered: &[Answered]) -> u8
    ensures status { result ≡ said_status (map said_by answered.now) }
    ensures few { result ≤ unknown_status }
{
    if are_undecided(answered) {
        return UNKNOWN;
    }
    if are_found(answered) {
        return FOUND;
    }
    NONE
}

/// Whether one of these answers isn't known.
fn are_undecided(answered: &[Answered]) -> bool
    ensures { result ≡ list_any is_undecided answered.now }
{
    answered.iter().any(is_undecided)
}

/// Whether an answer isn't known.
fn is_undecided(answered: &Answered) -> bool
    ensures { result ≡ is_undecided answered.now }
{
    status_of_shown(answered.answer) == UNKNOWN
}

/// Whether one of these answers is a moment, or that there must have been one.
fn are_found(answered: &[Answered]) -> bool
    ensures { result ≡ list_any is_found answered.now }
{
    answered.iter().any(is_found)
}

/// Whether an answer is a moment, or that there must have been one.
fn is_found(answered: &Answered) -> bool
    ensures { result ≡ is_found answered.now }
{
    status_of_shown(answered.answer) == FOUND
}

/// The place of the first answer that has a moment, and that of the first of all where none has.
fn first_with_moment(answered: &[Answered]) -> usize
    requires { 0 < length answered.now }
    ensures { IsShown (map said_by answered.now) result }
{
    for place in 0..answered.len() {
        if has_moment(answered[place].answer) {
            return place;
        }
    }
    0
}

/// Whether there is a moment, or there must have been one, or could have been.
fn has_moment(answer: PageAnswer) -> bool
    ensures { result ≡ is_moment answer }
{
    match answer {
        PageAnswer::Found | PageAnswer::Definite | PageAnswer::Possible => true,
        PageAnswer::NoMoment | PageAnswer::Undecided => false,
    }
}
