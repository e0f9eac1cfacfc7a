ghost use Rattle.std.specs.Prelude.{◌≡◌, ◌≤◌, ◌<◌, length, IfOk, IfSome, MatchOption};
ghost use Rattle.wcp_clock.specs.Limits.{most_processes};
ghost use Rattle.wcp_script.specs.Lines.{lines_of};
ghost use Rattle.wcp_script.specs.Head.{IsAllowed, IsPlanOf, IsWithinLimits, line_count, most_head_lines, first_head};
ghost use Rattle.wcp_script.specs.Head.{with_line, head_by, head_of};
ghost use Rattle.wcp_script.specs.ReadAnswers.{Gives};
ghost use Rattle.wcp_script.specs.Views.{seen_line, seen_head, seen_read, EndsHead, GoesOn};

use crate::fault::{ReadFault, ScriptFault};
use crate::head_line::HeadLine;
use crate::lines::{Line, first_word, next_line};
use crate::opening::{OPENING_LINES, read_opening};
use crate::step_line::StepLine;
use std::alloc::{AllocError, Global};
use wcp_model::{Flag, Parent, Plan, Watched, plain_plan};

/// How many notes each link and each inbox has room for, where the text doesn't say.
pub(crate) const PLAIN_CAP: u32 = 8;

/// How many notes the hold of each relay has room for, where the text doesn't say.
pub(crate) const PLAIN_HOLD: u32 = 4;

/// What the lines of a head said so far.
#[derive(Drop)]
pub(crate) struct Head {
    pub n: u32,
    pub cap: Option<u32>,
    pub hold: Option<u32>,
    pub parents: Vec<Parent>,
    /// The relay of each process.
    pub attach: Vec<Option<u32>>,
    /// The process of the last attach line.
    pub last_attached: Option<u32>,
    /// The processes of the watch line.
    pub watched: Option<Watched>,
    /// What the flag line says.
    pub flag: Option<Flag>,
}

/// A head, the number of its last line, and the text after it.
#[derive(Drop)]
pub(crate) struct HeadRead<'a> {
    pub head: Head,
    pub last: u32,
    pub after: &'a [u8],
}

/// The head of a text of this kind of step lines.
#[tactic(auto, unfolding(crate::specs::Head::head_of))]
pub(crate) fn read_head<S: StepLine>(alloc: Global, text: &[u8]) -> Result<HeadRead<'_>, ReadFault>
    ensures exact { Gives seen_read result (head_of S.text_kind.is_step_word text.now) }
    ensures short { IfOk result (λ read. read.last ≤ most_head_lines) }
    ensures few { IfOk result (λ read. read.head.n ≤ most_processes) }
{
    let (n, rest) = read_opening(text)?;
    let head = Head::new(alloc, n)?;
    read_head_lines::<S>(head, rest)
}

fn read_head_lines<S: StepLine>(mut head: Head, text: &[u8]) -> Result<HeadRead<'_>, ReadFault>
    requires few { head.n ≤ most_processes }
    requires new { seen_head head ≡ first_head head.n }
    ensures exact { Gives seen_read result (head_by S.text_kind.is_step_word (seen_head head) 2 (lines_of text.now)) }
    ensures short { IfOk result (λ read. read.last ≤ most_head_lines) }
    ensures few { IfOk result (λ read. read.head.n ≤ most_processes) }
{
    let mut last = OPENING_LINES;
    let mut rest = text;
    while let Some((line, after)) = next_head_line::<S>(rest) {
        let said = match head.judge(line) {
            Ok(said) => said,
            Err(kind) => {
                let line = last + 1;
                return Err(ReadFault::Script(ScriptFault { line, kind }));
            }
        };
        head.add(said)?;
        last += 1;
        rest = after;
    }
    Ok(HeadRead {
        head,
        last,
        after: rest,
    })
}

/// The next line of the head, unless a step line or the end of the text comes next.
#[tactic(auto, unfolding(crate::specs::Head::head_by))]
fn next_head_line<S: StepLine>(text: &[u8]) -> Option<(Line<'_>, &[u8])>
    ensures line { MatchOption result
        (EndsHead S.text_kind.is_step_word (lines_of text.now))
        (λ next. GoesOn S.text_kind.is_step_word (lines_of text.now) (seen_line next.0) (lines_of next.1.now)) }
    ensures shorter { IfSome result (λ next. length next.1.now < length text.now) }
{
    let (line, after) = next_line(text)?;
    if S::is_step_word(first_word(line.bytes)) {
        None
    } else {
        Some((line, after))
    }
}

impl Head {
    fn new(alloc: Global, n: u32) -> Result<Head, AllocError>
        ensures { IfOk result (λ head. seen_head head ≡ first_head n) }
    {
        Ok(Head {
            n,
            cap: None,
            hold: None,
            parents: Vec::new(alloc),
            attach: vec![in alloc; None; n as usize]?,
            last_attached: None,
            watched: None,
            flag: None,
        })
    }

    /// Adds what a line says. `Err` where memory runs out.
    fn add(&mut self, line: HeadLine) -> Result<(), AllocError>
        requires allowed { IsAllowed (seen_head self.old) line }
        requires within { IsWithinLimits (seen_head self.old) }
        ensures exact { IfOk result (λ _. seen_head self.new ≡ with_line (seen_head self.old) line) }
        ensures within { IfOk result (λ _. IsWithinLimits (seen_head self.new)) }
        ensures longer { IfOk result (λ _. line_count (seen_head self.old) < line_count (seen_head self.new)) }
    {
        match line {
            HeadLine::Cap(cap) => self.cap = Some(cap),
            HeadLine::Hold(hold) => self.hold = Some(hold),
            HeadLine::Relay(parent) => self.parents.push(parent)?,
            HeadLine::Attach(p, relay) => {
                self.attach[p as usize] = Some(relay);
                self.last_attached = Some(p);
            }
            HeadLine::Watch(watched) => self.watched = Some(watched),
            HeadLine::Reset(flag) => self.flag = Some(flag),
        }
        Ok(())
    }

    /// The plan that the head describes.
    pub(crate) fn into_plan(self, alloc: Global) -> Result<Plan, AllocError>
        requires { self.n ≤ most_processes }
        ensures { IfOk result (IsPlanOf (seen_head self)) }
    {
        let cap = self.cap.unwrap_or(PLAIN_CAP);
        let hold = self.hold.unwrap_or(PLAIN_HOLD);
        let watched = match self.watched {
            Some(watched) => watched,
            None => Watched::all(self.n),
        };
        let flag = self.flag.unwrap_or(Flag::Event);
        if self.parents.is_empty() {
            let mut plan = plain_plan(alloc, self.n, cap, hold)?;
            plan.watched = watched;
            plan.flag = flag;
            return Ok(plan);
        }
        let parents = self.parents;
        let attach = self.attach;
        let mut plan = Plan::new(self.n, cap, hold, parents, attach, watched);
        plan.flag = flag;
        Ok(plan)
    }
}
