ghost use Rattle.std.specs.Prelude.{◌≡◌, ◌≤◌, List, IfOk};
ghost use Rattle.wcp_script.specs.declared.fault.ReadFault.TheVariants.{Script, NoMemory};
ghost use Rattle.wcp_script.specs.Head.{most_head_lines};
ghost use Rattle.wcp_script.specs.ReadAnswers.{ReadsText};

use crate::fault::{FaultKind, ReadFault, ScriptFault};
use crate::head::{HeadRead, read_head};
use crate::step_line::{StepLine, read_steps};
use std::alloc::Global;
use wcp_model::Plan;

/// A text that was read: its plan, its steps, and the number of the last line of its head.
#[derive(Drop)]
pub(crate) struct Text<S> {
    pub plan: Plan,
    pub last: u32,
    pub steps: Vec<S>,
}

/// What a text of this kind of step lines spells.
pub(crate) fn read_text<S: StepLine>(alloc: Global, text: &[u8]) -> Result<Text<S>, ReadFault>
    ensures exact { ReadsText S.text_kind text.now result }
    ensures short { IfOk result (λ read. read.last ≤ most_head_lines) }
{
    let HeadRead { head, last, after } = read_head::<S>(alloc, text)?;
    let n = head.n;
    let plan = head.into_plan(alloc)?;
    match plan.check() {
        Ok(()) => {}
        Err(_) => {
            let kind = FaultKind::Plan;
            return Err(ReadFault::Script(ScriptFault { line: last, kind }));
        }
    }
    let steps = read_steps(alloc, n, last, after)?;
    Ok(Text { plan, last, steps })
}
