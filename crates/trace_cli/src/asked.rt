//! The questions that are asked of a log, by words or by a file.
ghost use Rattle.std.specs.Prelude.{◌≡◌, IfErr, IfOk, if◌then◌else◌};
ghost use Rattle.trace_asking.specs.declared.question.Subject.TheVariants as subject;
ghost use Rattle.trace_asking.specs.Seeking.{IsAskable};
ghost use Rattle.trace_cli.specs.Requested.{Asks, AsksSo};
ghost use Rattle.trace_cli.specs.Statuses.{refused, status_of as status_of_fault};

use crate::fault::TraceFault;
use crate::question_file::{alone, questions_in, unread};
use std::alloc::Global;
use std::io::Read;
use trace_asking::{Question, Subject};
use trace_condition::{Condition, ConditionFault, read_conditions};
use trace_pairs::read_hosts_condition;
use trace_words::{Options, TraceRequest};
use wcp_io::read_text;

/// Reads the text of the file that asks a request's questions. It is empty where the words name none.
pub fn read_file<Q: Read>(
    alloc: Global,
    request: &TraceRequest<'_>,
    file: &mut Q,
) -> Result<Vec<u8>, TraceFault> {
    let TraceRequest::Trace(options) = request else {
        return Ok(Vec::new(alloc));
    };
    if options.questions.is_none() || !options.are_fit() {
        return Ok(Vec::new(alloc));
    }
    match read_text(alloc, file) {
        Ok(text) => Ok(text),
        Err(fault) => Err(unread(alloc, options, fault)?),
    }
}

/// The questions that a request asks, by its words or by the file with this text. None are where they are refused.
pub fn asked_questions(alloc: Global, request: &TraceRequest<'_>, text: &[u8]) -> Vec<Question> {
    match request {
        TraceRequest::Trace(options) if options.are_fit() => {
            match questions_of(alloc, options, text) {
                Ok(questions) => questions,
                Err(_) => Vec::new(alloc),
            }
        }
        _ => Vec::new(alloc),
    }
}

/// The questions that the words ask, or the file with this text.
fn questions_of(
    alloc: Global,
    options: &Options<'_>,
    mut text: &[u8],
) -> Result<Vec<Question>, TraceFault> {
    if options.questions.is_some() {
        return questions_in(alloc, options, &mut text);
    }
    Ok(alone(alloc, question_of(alloc, options)?)?)
}

/// The question that the words ask, without a name. `Usage` where they ask nothing.
pub(crate) fn question_of(alloc: Global, options: &Options<'_>) -> Result<Question, TraceFault>
    ensures asks { IfOk result (AsksSo options.now) }
    ensures can { IfOk result (λ question. IsAskable question.subject) }
    ensures fault { IfErr result (λ fault. status_of_fault fault ≡ refused) }
{
    let subject = subject_of(alloc, options)?;
    Ok(Question {
        name: String::new(alloc),
        subject,
        why: options.explain,
    })
}

/// What the words ask.
fn subject_of(alloc: Global, options: &Options<'_>) -> Result<Subject, TraceFault>
    ensures asks { IfOk result (λ subject. Asks options.now subject) }
    ensures can { IfOk result (λ subject. IsAskable subject) }
    ensures fault { IfErr result (λ fault. status_of_fault fault ≡ refused) }
{
    if !options.asks_any_two() {
        let conditions = read_conditions(alloc, &options.condition_words())?;
        return Ok(of_hosts(options, conditions));
    }
    let Some(words) = options.pair_words() else {
        return Err(TraceFault::Conditions(ConditionFault::Usage));
    };
    let condition = read_hosts_condition(alloc, &words)?;
    Ok(Subject::AnyTwo(condition))
}

/// What is asked about the hosts with these conditions.
fn of_hosts(options: &Options<'_>, conditions: Vec<Condition>) -> Subject
    ensures { result ≡ (if options.now.definitely then subject.Definitely conditions else subject.Hosts conditions) }
{
    if options.definitely {
        Subject::Definitely(conditions)
    } else {
        Subject::Hosts(conditions)
    }
}
