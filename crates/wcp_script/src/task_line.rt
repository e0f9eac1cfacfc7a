ghost use Rattle.std.specs.Prelude.{◌≡◌, ◌<◌, [], ◌∷◌, length, IfSome, MatchOption};
ghost use Rattle.std.specs.Option.{option_map};
ghost use Rattle.wcp_script.specs.Lines.{TextLine, lines_of, words_of};
ghost use Rattle.wcp_script.specs.WorkloadLines.{is_task_word, observation_form, message_form, form_of, task_of};
ghost use Rattle.wcp_script.specs.WorkloadLines.{is_within, task_in};
ghost use Rattle.wcp_script.specs.TextFault.{workloads};
ghost use Rattle.wcp_script.specs.Views.{seen_line, seen_form};

use crate::fault::{FaultKind, ask};
use crate::lines::{Line, Words, next_line, words_of};
use crate::number::number_in;
use crate::printed_line::read_printed_tasks;
use crate::step_line::StepLine;
use std::alloc::AllocError;
use wcp_model::{Action, Task};

impl StepLine for Task {
    ghost text_kind = { workloads };

    fn is_step_word(word: &[u8]) -> bool {
        is_task_word(word)
    }

    fn read_printed<'a>(
        n: u32,
        text: &'a [u8],
        tasks: &mut Vec<Task>,
    ) -> Result<&'a [u8], AllocError> {
        read_printed_tasks(n, text, tasks)
    }

    fn first(n: u32, text: &[u8]) -> Option<(Result<Task, FaultKind>, &[u8])> {
        let (line, rest) = next_line(text)?;
        Some((task_in(n, line), rest))
    }
}

/// Whether a step line of a workload begins with this word.
fn is_task_word(word: &[u8]) -> bool
    ensures { result ≡ is_task_word word.now }
{
    word == b"p".as_slice()
}

/// The task of a step line.
#[tactic(auto, unfolding(crate::specs::WorkloadLines::task_in))]
fn task_in(n: u32, line: Line<'_>) -> Result<Task, FaultKind>
    ensures { result ≡ task_in n (seen_line line.entry) }
{
    ask(line.ended, FaultKind::Line)?;
    let form = form_of(line.bytes).ok_or(FaultKind::Line)?;
    let task = task_of(form)?;
    ask(is_within(n, &task), FaultKind::Process)?;
    Ok(task)
}

/// The form of a step line: its process, and what that does. The numbers are still words.
#[derive(Clone, Copy)]
enum StepForm<'a> {
    Observe(&'a [u8], bool),
    Send(&'a [u8], &'a [u8]),
    Recv(&'a [u8], &'a [u8]),
}

#[tactic(auto, unfolding(crate::specs::WorkloadLines::form_of))]
fn form_of(line: &[u8]) -> Option<StepForm<'_>>
    ensures { option_map seen_form result ≡ form_of (words_of line.now) }
{
    let (first, form) = match words_of(line) {
        Words::Three(first, process, keyword) => (first, observation_form(process, keyword)),
        Words::Four(first, process, keyword, partner) => (
            first,
            message_form(process, keyword, partner),
        ),
        _ => return None,
    };
    if is_task_word(first) { form } else { None }
}

fn observation_form<'a>(process: &'a [u8], keyword: &[u8]) -> Option<StepForm<'a>>
    ensures { option_map seen_form result ≡ observation_form process.now keyword.now }
{
    if keyword == b"true".as_slice() {
        Some(StepForm::Observe(process, true))
    } else if keyword == b"false".as_slice() {
        Some(StepForm::Observe(process, false))
    } else {
        None
    }
}

fn message_form<'a>(process: &'a [u8], keyword: &[u8], partner: &'a [u8]) -> Option<StepForm<'a>>
    ensures { option_map seen_form result ≡ message_form process.now keyword.now partner.now }
{
    if keyword == b"send".as_slice() {
        Some(StepForm::Send(process, partner))
    } else if keyword == b"recv".as_slice() {
        Some(StepForm::Recv(process, partner))
    } else {
        None
    }
}

fn task_of(form: StepForm<'_>) -> Result<Task, FaultKind>
    ensures { result ≡ task_of (seen_form form.entry) }
{
    match form {
        StepForm::Observe(process, holds) => {
            let p = number_in(process)?;
            Ok(Task {
                p,
                action: Action::Observe(holds),
            })
        }
        StepForm::Send(process, partner) => {
            let p = number_in(process)?;
            let to = number_in(partner)?;
            Ok(Task {
                p,
                action: Action::Send(to),
            })
        }
        StepForm::Recv(process, partner) => {
            let p = number_in(process)?;
            let from = number_in(partner)?;
            Ok(Task {
                p,
                action: Action::Recv(from),
            })
        }
    }
}

pub(crate) fn is_within(n: u32, task: &Task) -> bool
    ensures { result ≡ is_within n task.now }
{
    let partner = match task.action {
        Action::Observe(_) => return task.p < n,
        Action::Send(to) => to,
        Action::Recv(from) => from,
    };
    task.p < n && partner < n && partner != task.p
}
