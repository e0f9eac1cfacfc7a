//! The program, over any reader and writers.
ghost use Rattle.std.specs.Prelude.{◌≡◌, ◌⊎◌, ◌≤◌, ◌||◌, false, is_some, true, map, IfErr, IfNone};
ghost use Rattle.std.specs.Prelude.{IfOk, IfSome, OnErr};
ghost use Rattle.std.specs.Io.KnownBytes.{Keeps};
ghost use Rattle.wcp_io.specs.Edge.{edge_of};
ghost use Rattle.trace_words.specs.declared.options.TraceRequest.TheVariants as asks;
ghost use Rattle.trace_cli.specs.Edge.{DoesAsked};
ghost use Rattle.trace_cli.specs.EachMoment.{AnswersAll};
ghost use Rattle.trace_cli.specs.Questions.{AnswersFile};
ghost use Rattle.trace_cli.specs.Requested.{AnswersLog, AnswersRequest, AnswersShown, AnswersTrace, AsksForOne};
ghost use Rattle.trace_words.specs.Fitting.{go_together};
ghost use Rattle.trace_cli.specs.Statuses.{closed_pipe, refused, status_after, status_of as status_of_fault};

use crate::answering::answer_file;
use crate::asked::question_of;
use crate::audience::Audience;
use crate::conditions::why_none;
use crate::detecting::detect;
use crate::each_moment::answer_all;
use crate::fault::TraceFault;
use crate::file_page::show_file;
use std::alloc::{AllocError, Global};
use std::convert::AsStr;
use std::io::{Read, Write};
use trace_condition::ConditionFault;
use trace_detect::{DetectFault, Listener};
use trace_pages::shown;
use trace_text::{Printed, told};
use trace_words::{Options, TraceRequest, VERSION, read_options};
use wcp_io::{IoFault, write_whole};

/// The status after help and the version.
const TOLD: u8 = 0;

/// The status where there is no answer.
const REFUSED: u8 = 2;

/// The status where nobody reads the output any more: 128 and the number of SIGPIPE.
const CLOSED_PIPE: u8 = 141;

/// Runs the program on its words, of which the first is its name, and gives its exit status.
///
/// The input is read line by line as it comes, and no further than the answer wants. The answer is written in one
/// piece, as soon as it is known. Where there is none, `errors` gets one line that says why; it gets none where nobody
/// reads the output any more. The listener is told of each event of a log, and where a host that is asked for logs none.
/// `file` has the bytes of the file that asks questions, and is read where the words name one: then each answer is
/// written as soon as it is known.
pub fn drive<S: AsStr, Q: Read, I: Read, O: Write, E: Write, L: Audience>(
    alloc: Global,
    words: &[S],
    file: &mut Q,
    input: &mut I,
    output: &mut O,
    errors: &mut E,
    listener: &mut L,
) -> u8
    ensures status { (result ≤ 2) ⊎ (result ≡ closed_pipe) }
    ensures quiet { result ≤ 1 → Keeps (E.contents errors.old) (E.contents errors.new) }
    ensures silent { result ≡ closed_pipe → Keeps (E.contents errors.old) (E.contents errors.new) }
    ensures does { DoesAsked (map S.text words.now) (Q.remaining file.old) (edge_of (I.remaining input.old)
        (I.remaining input.new) (O.contents output.old) (O.contents output.new)) result }
{
    match obey(alloc, words, file, input, output, errors, listener) {
        Ok(status) => status,
        Err(fault) => refuse_before(listener, errors, &fault),
    }
}

/// Writes the line that says why there is no answer, unless nobody reads the output any more, and gives the status. It
/// is that status also where the line can't be written.
pub fn refuse<E: Write>(errors: &mut E, fault: &TraceFault) -> u8
    ensures status { result ≡ status_of_fault fault.now }
    ensures silent { result ≡ closed_pipe → Keeps (E.contents errors.old) (E.contents errors.new) }
{
    if let TraceFault::Io(IoFault::Closed) = fault {
        return CLOSED_PIPE;
    }
    let _ = writeln!(errors, "wcptrace: {fault}");
    REFUSED
}

/// Refuses, and tells the listener if a host is missing.
fn refuse_before<E: Write, L: Audience>(listener: &mut L, errors: &mut E, fault: &TraceFault) -> u8
    ensures status { result ≡ status_of_fault fault.now }
    ensures silent { result ≡ closed_pipe → Keeps (E.contents errors.old) (E.contents errors.new) }
{
    if let TraceFault::Detection(DetectFault::NoHost(_)) = fault {
        listener.miss_host();
    }
    refuse(errors, fault)
}

/// Does what the words ask for, and gives the status.
fn obey<S: AsStr, Q: Read, I: Read, O: Write, E: Write, L: Audience>(
    alloc: Global,
    words: &[S],
    file: &mut Q,
    input: &mut I,
    output: &mut O,
    errors: &mut E,
    listener: &mut L,
) -> Result<u8, TraceFault>
    ensures status { IfOk result (λ status. status ≤ refused) }
    ensures quiet { IfOk result (λ status. status ≤ 1 → Keeps (E.contents errors.old) (E.contents errors.new)) }
    ensures silent { OnErr result (Keeps (E.contents errors.old) (E.contents errors.new)) }
    ensures does { DoesAsked (map S.text words.now) (Q.remaining file.old) (edge_of (I.remaining input.old)
        (I.remaining input.new) (O.contents output.old) (O.contents output.new)) (status_after result) }
{
    let request = read_options(alloc, words)?;
    if let Some(options) = asked_by_file(&request) {
        return answer_questions(alloc, options, file, input, output, errors, listener);
    }
    if let Some(options) = asked_for_all(&request) {
        return answer_moments(alloc, options, input, output, listener);
    }
    let answer = answer_to(alloc, request, input, listener)?;
    write_whole(output, answer.text.as_slice())?;
    Ok(answer.status)
}

/// The options of a request, if a file asks questions by it.
fn asked_by_file<'r, 'a>(request: &'r TraceRequest<'a>) -> Option<&'r Options<'a>>
    ensures { IfSome result (λ options. (request.now ≡ asks.Trace options.now)
        × (is_some options.now.questions ≡ true)) }
{
    match request {
        TraceRequest::Trace(options) if options.questions.is_some() => Some(options),
        _ => None,
    }
}

/// The options of a request, if each moment is asked for by it.
fn asked_for_all<'r, 'a>(request: &'r TraceRequest<'a>) -> Option<&'r Options<'a>>
    ensures some { IfSome result (λ options. (request.now ≡ asks.Trace options.now) × (options.now.all ≡ true)) }
    ensures none { IfNone result (AsksForOne request.now) }
{
    match request {
        TraceRequest::Trace(options) if options.all => Some(options),
        _ => None,
    }
}

/// Tells each moment under the conditions that the options say, and gives the status.
fn answer_moments<I: Read, O: Write, L: Listener>(
    alloc: Global,
    options: &Options<'_>,
    input: &mut I,
    output: &mut O,
    listener: &mut L,
) -> Result<u8, TraceFault>
    ensures answers { AnswersAll options.now (edge_of (I.remaining input.old) (I.remaining input.new)
        (O.contents output.old) (O.contents output.new)) (status_after result) }
    ensures status { IfOk result (λ status. status ≤ refused) }
{
    if !options.are_fit() {
        return Err(no_conditions(alloc, options));
    }
    answer_all(alloc, options, input, output, listener)
}

/// Answers the questions of the file that the options name, whose words go together, and gives the status.
fn answer_questions<Q: Read, I: Read, O: Write, E: Write, L: Audience>(
    alloc: Global,
    options: &Options<'_>,
    file: &mut Q,
    input: &mut I,
    output: &mut O,
    errors: &mut E,
    listener: &mut L,
) -> Result<u8, TraceFault>
    ensures answers { AnswersFile options.now (Q.remaining file.old) (edge_of (I.remaining input.old)
        (I.remaining input.new) (O.contents output.old) (O.contents output.new)) (status_after result) }
    ensures status { IfOk result (λ status. status ≤ refused) }
    ensures quiet { IfOk result (λ status. status ≤ 1 → Keeps (E.contents errors.old) (E.contents errors.new)) }
    ensures silent { OnErr result (Keeps (E.contents errors.old) (E.contents errors.new)) }
{
    if !options.are_fit() {
        return Err(no_conditions(alloc, options));
    }
    if !options.are_answers_alone() {
        return show_file(alloc, options, file, input, output, listener);
    }
    answer_file(alloc, options, file, input, output, errors, listener)
}

/// The answer to a request.
fn answer_to<I: Read, L: Listener>(
    alloc: Global,
    request: TraceRequest<'_>,
    input: &mut I,
    listener: &mut L,
) -> Result<Printed, TraceFault>
    requires { AsksForOne request }
    ensures answer { IfOk result (λ answer. AnswersRequest request.entry (I.remaining input.old) (I.remaining input.new)
        answer.text.items answer.status) }
    ensures status { IfOk result (λ answer. answer.status ≤ refused) }
    ensures fault { IfErr result (λ fault. status_of_fault fault ≡ refused) }
{
    match request {
        TraceRequest::Trace(options) => match answer_to_log(alloc, &options, input, listener) {
            Err(TraceFault::Conditions(ConditionFault::Usage)) => Err(no_conditions(
                alloc, &options,
            )),
            answered => answered,
        },
        TraceRequest::Help(text) => Ok(Printed {
            text: text.into_bytes(),
            status: TOLD,
        }),
        TraceRequest::Version => {
            let mut text = Vec::new(alloc);
            text.extend_from_slice(VERSION.as_bytes())?;
            Ok(Printed { text, status: TOLD })
        }
        TraceRequest::Unknown(why) => Err(TraceFault::Usage { why }),
    }
}

/// The fault of options that say no conditions.
pub(crate) fn no_conditions(alloc: Global, options: &Options<'_>) -> TraceFault
    ensures { status_of_fault result ≡ refused }
{
    match why_none(alloc, options) {
        Ok(why) => TraceFault::Usage { why },
        Err(AllocError) => TraceFault::Io(IoFault::Memory),
    }
}

/// The answer to what the options ask of the log: lines, a page or a picture.
fn answer_to_log<I: Read, L: Listener>(
    alloc: Global,
    options: &Options<'_>,
    input: &mut I,
    listener: &mut L,
) -> Result<Printed, TraceFault>
    requires { options.now.all ≡ false }
    ensures answer { IfOk result (λ answer. AnswersLog (options.now.page || options.now.svg) options.now
        (I.remaining input.old) (I.remaining input.new) answer.text.items answer.status) }
    ensures status { IfOk result (λ answer. answer.status ≤ refused) }
    ensures fault { IfErr result (λ fault. status_of_fault fault ≡ refused) }
{
    if !options.are_fit() {
        return Err(TraceFault::Conditions(ConditionFault::Usage));
    }
    if options.page || options.svg {
        return answer_shown(alloc, options, input, listener);
    }
    answer_to_trace(alloc, options, input, listener)
}

/// The answer to what the options ask, told as lines or as JSON.
fn answer_to_trace<I: Read, L: Listener>(
    alloc: Global,
    options: &Options<'_>,
    input: &mut I,
    listener: &mut L,
) -> Result<Printed, TraceFault>
    requires together { go_together options.now ≡ true }
    requires one { options.now.all ≡ false }
    ensures answer { IfOk result (λ answer. AnswersTrace options.now (I.remaining input.old) (I.remaining input.new)
        answer.text.items answer.status) }
    ensures status { IfOk result (λ answer. answer.status ≤ refused) }
    ensures fault { IfErr result (λ fault. status_of_fault fault ≡ refused) }
{
    let question = question_of(alloc, options)?;
    let detected = detect(alloc, options, &question, input, listener)?;
    let answer = told(alloc, options.format, detected)?;
    Ok(answer)
}

/// The answer to what the options ask, shown by a page of the log or by a picture.
fn answer_shown<I: Read, L: Listener>(
    alloc: Global,
    options: &Options<'_>,
    input: &mut I,
    listener: &mut L,
) -> Result<Printed, TraceFault>
    requires { go_together options.now ≡ true }
    ensures answer { IfOk result (λ answer. AnswersShown options.now (I.remaining input.old) (I.remaining input.new)
        answer.text.items answer.status) }
    ensures status { IfOk result (λ answer. answer.status ≤ refused) }
    ensures fault { IfErr result (λ fault. status_of_fault fault ≡ refused) }
{
    let question = question_of(alloc, options)?;
    let answer = shown(alloc, options, options.form, &question, input, listener)?;
    Ok(answer)
}
