//! The page of the answer to one question of a file, or the picture of it.
ghost use Rattle.std.specs.Prelude.{◌≡◌, ◌≤◌, ◌∷◌, [], false, true, IfOk, IfSome};
ghost use Rattle.wcp_io.specs.Edge.{edge_of};
ghost use Rattle.trace_words.specs.Fitting.{are_answers_alone, go_together};
ghost use Rattle.trace_cli.specs.Questions.{AnswersFile};
ghost use Rattle.trace_cli.specs.Statuses.{refused, status_after};

use crate::fault::TraceFault;
use crate::program::no_conditions;
use crate::question_file::{form_for, questions_in};
use std::alloc::Global;
use std::io::{Read, Write};
use trace_asking::Question;
use trace_detect::Listener;
use trace_pages::shown;
use trace_words::Options;
use wcp_io::write_whole;

/// Shows the answer to the question of the file that the options name, as a page or a picture, and gives the status.
pub(crate) fn show_file<Q: Read, I: Read, O: Write, L: Listener>(
    alloc: Global,
    options: &Options<'_>,
    file: &mut Q,
    input: &mut I,
    output: &mut O,
    listener: &mut L,
) -> Result<u8, TraceFault>
    requires together { go_together options.now ≡ true }
    requires shown { are_answers_alone options.now ≡ false }
    ensures answers { AnswersFile options.now (Q.remaining file.old) (edge_of (I.remaining input.old)
        (I.remaining input.new) (O.contents output.old) (O.contents output.new)) (status_after result) }
    ensures status { IfOk result (λ status. status ≤ refused) }
{
    let questions = questions_in(alloc, options, file)?;
    let form = form_for(options.form, &questions);
    let Some(question) = alone_of(questions) else {
        return Err(no_conditions(alloc, options));
    };
    let answer = shown(alloc, options, form, &question, input, listener)?;
    write_whole(output, answer.text.as_slice())?;
    Ok(answer.status)
}

/// The question that is asked alone.
fn alone_of(questions: Vec<Question>) -> Option<Question>
    ensures { IfSome result (λ question. questions.items ≡ question ∷ []) }
{
    let mut left = questions;
    let question = left.pop()?;
    if !left.is_empty() {
        return None;
    }
    Some(question)
}
