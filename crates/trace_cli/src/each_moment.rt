//! The moments of a log, each told as soon as it is known.
ghost use Rattle.std.specs.Prelude.{◌≡◌, ◌≤◌, true, IfOk, List, Option, ℕ};
ghost use Rattle.wcp_io.specs.Edge.{edge_of};
ghost use Rattle.trace_log.specs.declared.turn.Form.{Form as LogForm};
ghost use Rattle.trace_condition.specs.declared.condition.Condition.{Condition as HostCondition};
ghost use Rattle.trace_condition.specs.Conditions.{HaveHosts};
ghost use Rattle.trace_detect.specs.Watcher.{HasCountedSome};
ghost use Rattle.trace_cli.specs.EachMoment.{AnswersAll, HasToldAll, HasToldLast, HasToldSome};
ghost use Rattle.trace_words.specs.Fitting.{go_together};
ghost use Rattle.trace_cli.specs.Statuses.{refused, status_after};

use crate::fault::TraceFault;
use crate::program::no_conditions;
use std::alloc::{AllocError, Global};
use std::io::{Read, Write};
use trace_condition::{Condition, ConditionFault, read_conditions};
use trace_detect::{DetectFault, Listener, Moments};
use trace_log::Form;
use trace_text::{AnswerFormat, UNKNOWN, answer_text, count_text, status_of, told};
use trace_words::Options;
use wcp_io::{IoFault, write_whole};

/// The status where there are moments.
const FOUND: u8 = 0;

/// Tells each moment of the log under the conditions that the options say, one behind the other, and then how many they
/// are; where there is none, what is answered without `--all`. Gives the status.
pub(crate) fn answer_all<I: Read, O: Write, L: Listener>(
    alloc: Global,
    options: &Options<'_>,
    input: &mut I,
    output: &mut O,
    listener: &mut L,
) -> Result<u8, TraceFault>
    requires { go_together options.now ≡ true }
    ensures answers { AnswersAll options.now (edge_of (I.remaining input.old) (I.remaining input.new)
        (O.contents output.old) (O.contents output.new)) (status_after result) }
    ensures status { IfOk result (λ status. status ≤ refused) }
{
    let conditions = match read_conditions(alloc, &options.condition_words()) {
        Ok(conditions) => conditions,
        Err(ConditionFault::Usage) => return Err(no_conditions(alloc, options)),
        Err(fault) => return Err(TraceFault::Conditions(fault)),
    };
    tell_each(
        alloc,
        options.form,
        options.format,
        &conditions,
        input,
        output,
        listener,
    )
}

/// Tells each moment of a log of this form under these conditions.
fn tell_each<I: Read, O: Write, L: Listener>(
    alloc: Global,
    form: Form,
    format: AnswerFormat,
    conditions: &[Condition],
    input: &mut I,
    output: &mut O,
    listener: &mut L,
) -> Result<u8, TraceFault>
    requires { HaveHosts conditions.now }
    ensures told { HasToldAll form format conditions.now (I.remaining input.old) (O.contents output.old)
        (O.contents output.new) (status_after result) }
    ensures status { IfOk result (λ status. status ≤ refused) }
{
    let mut moments = Moments::new(alloc, form, conditions)?;
    for count in 0..u64::MAX {
        let next = match moments.next_moment(input, listener) {
            Ok(next) => next,
            Err(fault) => return tell_unknown(alloc, format, fault, output),
        };
        let Some(answer) = next else {
            return tell_end(alloc, format, &moments, count, output);
        };
        let text = answer_text(alloc, format, None, &answer)?;
        write_whole(output, text.as_slice())?;
    }
    Err(TraceFault::Io(IoFault::Read))
}

/// Tells, behind the moments that were told, that it isn't known whether there are more, as lines wait at the end of the
/// log; or gives the fault back.
fn tell_unknown<O: Write>(
    alloc: Global,
    format: AnswerFormat,
    fault: DetectFault,
    output: &mut O,
) -> Result<u8, TraceFault>
    ensures told { (form : LogForm) (conditions : List HostCondition) (known before : Option (List ℕ)) →
        HasToldSome form format conditions known before (O.contents output.old) fault →
        HasToldAll form format conditions known before (O.contents output.new) (status_after result) }
    ensures status { IfOk result (λ status. status ≤ refused) }
{
    let unknown = told(alloc, format, Err(fault))?;
    write_whole(output, unknown.text.as_slice())?;
    Ok(UNKNOWN)
}

/// Tells how many moments were told, behind which there is none; or, where none was, the answer that there is none.
fn tell_end<O: Write>(
    alloc: Global,
    format: AnswerFormat,
    moments: &Moments<'_>,
    count: u64,
    output: &mut O,
) -> Result<u8, TraceFault>
    requires { HasCountedSome moments.now.watcher }
    ensures told { (form : LogForm) (conditions : List HostCondition) (known rest before : Option (List ℕ)) →
        HasToldLast form format conditions known rest before (O.contents output.old) count moments.now →
        HasToldAll form format conditions known before (O.contents output.new) (status_after result) }
    ensures status { IfOk result (λ status. status ≤ refused) }
{
    if count == 0 {
        let answer = moments.answer_none()?;
        let text = answer_text(alloc, format, None, &answer)?;
        write_whole(output, text.as_slice())?;
        return Ok(status_of(&answer));
    }
    let text = count_text(alloc, format, count)?;
    write_whole(output, text.as_slice())?;
    Ok(FOUND)
}
