//! The file that asks questions of a log: its questions, and how the log is read for them.
ghost use Rattle.std.specs.Prelude.{◌≡◌, ◌∷◌, [], IfErr, IfOk, IfSome};
ghost use Rattle.std.specs.List.{list_any};
ghost use Rattle.trace_asking.specs.Asking.{HaveAll};
ghost use Rattle.trace_questions.specs.Questions.{AreQuestionsOf, AskWhy};
ghost use Rattle.trace_cli.specs.Questions.{ArePicked, IsNamed, IsPicked, ask_definitely, asks_definitely, form_for};
ghost use Rattle.trace_cli.specs.Statuses.{refused, status_of as status_of_fault};

use crate::fault::TraceFault;
use crate::shown_names::ShownName;
use std::alloc::{AllocError, Global};
use std::io::Read;
use trace_asking::{Question, Subject};
use trace_log::Form;
use trace_questions::{QuestionsFault, read_questions};
use trace_words::Options;
use wcp_io::{IoFault, read_text};

/// The questions that are asked of the file that the options name, of which this reader has the bytes.
pub(crate) fn questions_in<Q: Read>(
    alloc: Global,
    options: &Options<'_>,
    file: &mut Q,
) -> Result<Vec<Question>, TraceFault>
    ensures asked { IfOk result (λ questions. IfSome (Q.remaining file.old) (λ text.
        ArePicked options.now text questions.items)) }
    ensures why { IfOk result (λ questions. AskWhy options.now.explain questions.items) }
    ensures have { IfOk result (λ questions. HaveAll questions.items) }
    ensures fault { IfErr result (λ fault. status_of_fault fault ≡ refused) }
{
    let questions = all_in(alloc, options, file)?;
    picked(alloc, options, questions)
}

/// All questions of the file.
fn all_in<Q: Read>(
    alloc: Global,
    options: &Options<'_>,
    file: &mut Q,
) -> Result<Vec<Question>, TraceFault>
    ensures asked { IfOk result (λ questions. IfSome (Q.remaining file.old) (λ text.
        AreQuestionsOf text questions.items)) }
    ensures why { IfOk result (λ questions. AskWhy options.now.explain questions.items) }
    ensures have { IfOk result (λ questions. HaveAll questions.items) }
    ensures fault { IfErr result (λ fault. status_of_fault fault ≡ refused) }
{
    let text = match read_text(alloc, file) {
        Ok(text) => text,
        Err(fault) => return Err(unread(alloc, options, fault)?),
    };
    match read_questions(alloc, &text, options.explain) {
        Ok(questions) => Ok(questions),
        Err(fault) => Err(not_asked(alloc, options, fault)?),
    }
}

/// Those of the questions of a file that are asked: all, or the one that the options name.
fn picked(
    alloc: Global,
    options: &Options<'_>,
    questions: Vec<Question>,
) -> Result<Vec<Question>, TraceFault>
    requires { HaveAll questions.items }
    ensures picks { IfOk result (λ picked. IsPicked options.now.question questions.items picked.items) }
    ensures why { AskWhy options.now.explain questions.items →
        IfOk result (λ picked. AskWhy options.now.explain picked.items) }
    ensures have { IfOk result (λ picked. HaveAll picked.items) }
    ensures fault { IfErr result (λ fault. status_of_fault fault ≡ refused) }
{
    let Some(name) = options.question else {
        return Ok(questions);
    };
    let Some(place) = place_named(&questions, name) else {
        return Err(no_question(alloc, options, &questions, name)?);
    };
    let mut left = questions;
    let question = left.swap_remove(place);
    Ok(alone(alloc, question)?)
}

/// The place of the question with this name, if there is one.
fn place_named(questions: &[Question], name: &str) -> Option<usize>
    ensures { IfSome result (IsNamed questions.now name.now) }
{
    for place in 0..questions.len() {
        let question = &questions[place];
        if question.name.as_str() == name {
            return Some(place);
        }
    }
    None
}

/// This question alone.
pub(crate) fn alone(alloc: Global, question: Question) -> Result<Vec<Question>, AllocError>
    ensures { IfOk result (λ questions. questions.items ≡ question ∷ []) }
{
    let mut questions = Vec::with_capacity(alloc, 1)?;
    questions.push(question)?;
    Ok(questions)
}

/// The fault of a file with these questions, none of which has this name.
fn no_question(
    alloc: Global,
    options: &Options<'_>,
    questions: &[Question],
    name: &str,
) -> Result<TraceFault, AllocError>
    ensures { IfOk result (λ given. status_of_fault given ≡ refused) }
{
    let mut why = format!(in alloc;
        "there is no question '{}'; the questions are ",
        ShownName(name)
    )?;
    for (place, question) in questions.iter().enumerate() {
        if place > 0 {
            why.push_str(", ")?;
        }
        write!(why, "{}", ShownName(question.name.as_str()))?;
    }
    not_asked(alloc, options, QuestionsFault::Question(why))
}

/// The fault of the file that asks the questions, if it asks none.
fn not_asked(
    alloc: Global,
    options: &Options<'_>,
    fault: QuestionsFault,
) -> Result<TraceFault, AllocError>
    ensures { IfOk result (λ given. status_of_fault given ≡ refused) }
{
    let name = name_of(alloc, options)?;
    Ok(TraceFault::Questions { name, fault })
}

/// The fault of the file that asks the questions, if it isn't read.
pub(crate) fn unread(
    alloc: Global,
    options: &Options<'_>,
    fault: IoFault,
) -> Result<TraceFault, AllocError>
    ensures { IfOk result (λ given. status_of_fault given ≡ refused) }
{
    let name = name_of(alloc, options)?;
    Ok(TraceFault::Unread { name, fault })
}

/// The name of the file that asks the questions.
fn name_of(alloc: Global, options: &Options<'_>) -> Result<String, AllocError> {
    String::from_str(alloc, options.questions.unwrap_or("-"))
}

/// The form in which a log is read for these questions: an event that forgets is a fault where one asks definitely.
pub(crate) fn form_for(form: Form, questions: &[Question]) -> Form
    ensures { result ≡ form_for form questions.now }
{
    Form {
        check: form.check || ask_definitely(questions),
        ..form
    }
}

/// Whether one of these questions asks whether its conditions must have held at once.
pub(crate) fn ask_definitely(questions: &[Question]) -> bool
    ensures { result ≡ ask_definitely questions.now }
{
    questions.iter().any(asks_definitely)
}

/// Whether a question does.
fn asks_definitely(question: &Question) -> bool
    ensures { result ≡ asks_definitely question.now }
{
    matches!(question.subject, Subject::Definitely(_))
}
