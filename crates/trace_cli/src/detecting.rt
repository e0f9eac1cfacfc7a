//! What is detected for a question that the words ask.
ghost use Rattle.std.specs.Prelude.{◌≡◌, false, IfErr, IfOk, IsOk};
ghost use Rattle.trace_asking.specs.Seeking.{IsAskable};
ghost use Rattle.trace_cli.specs.Requested.{DetectsSo};
ghost use Rattle.trace_cli.specs.Scheduled.{RefusesInOrder};
ghost use Rattle.trace_cli.specs.Statuses.{refused, status_of as status_of_fault};

use crate::fault::TraceFault;
use std::alloc::Global;
use std::io::Read;
use trace_asking::{Question, ask};
use trace_detect::{DetectFault, Listener, ReasonedAnswer};
use trace_schedule::{ask_recorded, in_order};
use trace_words::Options;

/// What is detected for this question, with a schedule in the place of a moment where the words ask for one.
pub(crate) fn detect<I: Read, L: Listener>(
    alloc: Global,
    options: &Options<'_>,
    question: &Question,
    input: &mut I,
    listener: &mut L,
) -> Result<Result<ReasonedAnswer, DetectFault>, TraceFault>
    requires { IsAskable question.now.subject }
    ensures detects { IfOk result (DetectsSo options.now.order options.now.form question.now
        (I.remaining input.old) (I.remaining input.new)) }
    ensures refuses { IfErr result (RefusesInOrder options.now.form question.now
        (I.remaining input.old) (I.remaining input.new)) }
    ensures unasked { options.now.order ≡ false → IsOk result }
    ensures fault { IfErr result (λ fault. status_of_fault fault ≡ refused) }
{
    if !options.order {
        return Ok(ask(alloc, options.form, question, input, listener));
    }
    match ask_recorded(alloc, options.form, question, input, listener) {
        Ok(recorded) => Ok(Ok(in_order(alloc, recorded)?)),
        Err(fault) => Ok(Err(fault)),
    }
}
