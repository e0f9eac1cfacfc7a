ghost use Rattle.std.specs.Prelude.{◌≡◌, ◌≤◌, [], ◌∷◌, IfOk};
ghost use Rattle.wcp_clock.specs.Limits.{most_processes};
ghost use Rattle.wcp_script.specs.Head.{IsAllowed, parent_in, is_above, is_after, cap_line, hold_line, relay_line};
ghost use Rattle.wcp_script.specs.Head.{attach_line, flag_line, words_before_watch, head_line};
ghost use Rattle.wcp_script.specs.Views.{seen_line, seen_head, words_behind};

use crate::fault::{FaultKind, ask};
use crate::head::Head;
use crate::lines::{Line, Words, next_word, words_of};
use crate::number::number_in;
use crate::watch_line::watch_line;
use wcp_clock::{MAX_CAP, MAX_HOLD, MAX_RELAYS};
use wcp_model::{Flag, Parent, Watched};

/// What a line of the head says, behind its first two lines.
#[derive(Clone, Copy)]
pub(crate) enum HeadLine {
    /// The capacity of each link and inbox.
    Cap(u32),
    /// The capacity of each relay's hold.
    Hold(u32),
    /// The parent of the next relay.
    Relay(Parent),
    /// Process `.0` is served by relay `.1`.
    Attach(u32, u32),
    /// These processes have a condition.
    Watch(Watched),
    /// This resets the flag.
    Reset(Flag),
}

impl Head {
    /// What a further line says.
    #[tactic(auto, unfolding(crate::specs::Head::head_line))]
    pub(crate) fn judge(&self, line: Line<'_>) -> Result<HeadLine, FaultKind>
        requires few { self.now.n ≤ most_processes }
        ensures exact { result ≡ head_line (seen_head self.now) (seen_line line.entry) }
        ensures allowed { IfOk result (IsAllowed (seen_head self.now)) }
    {
        ask(line.ended && self.flag.is_none(), FaultKind::Line)?;
        let (first, others) = next_word(line.bytes);
        if first == b"flag".as_slice() {
            return flag_line(others);
        }
        ask(self.watched.is_none(), FaultKind::Line)?;
        if first == b"watch".as_slice() {
            return watch_line(self.n, others);
        }
        match words_of(line.bytes) {
            Words::Two(first, second) => self.capacity_line(first, second),
            Words::Three(first, second, third) => self.tree_line(first, second, third),
            _ => Err(FaultKind::Line),
        }
    }

    fn capacity_line(&self, first: &[u8], second: &[u8]) -> Result<HeadLine, FaultKind>
        ensures exact { result ≡ words_before_watch (seen_head self.now) (first.now ∷ second.now ∷ []) }
        ensures allowed { IfOk result (IsAllowed (seen_head self.now)) }
    {
        if first == b"cap".as_slice() {
            self.cap_line(second)
        } else if first == b"hold".as_slice() {
            self.hold_line(second)
        } else {
            Err(FaultKind::Line)
        }
    }

    fn tree_line(&self, first: &[u8], second: &[u8], third: &[u8]) -> Result<HeadLine, FaultKind>
        ensures exact { result ≡ words_before_watch (seen_head self.now) (first.now ∷ second.now ∷ third.now ∷ []) }
        ensures allowed { IfOk result (IsAllowed (seen_head self.now)) }
    {
        if first == b"relay".as_slice() {
            self.relay_line(second, third)
        } else if first == b"attach".as_slice() {
            self.attach_line(second, third)
        } else {
            Err(FaultKind::Line)
        }
    }

    fn cap_line(&self, word: &[u8]) -> Result<HeadLine, FaultKind>
        ensures exact { result ≡ cap_line (seen_head self.now) word.now }
        ensures allowed { IfOk result (IsAllowed (seen_head self.now)) }
    {
        ask(
            self.cap.is_none() && self.hold.is_none() && self.parents.is_empty(),
            FaultKind::Line,
        )?;
        let cap = number_in(word)?;
        ask((1..=MAX_CAP).contains(&cap), FaultKind::Plan)?;
        Ok(HeadLine::Cap(cap))
    }

    fn hold_line(&self, word: &[u8]) -> Result<HeadLine, FaultKind>
        ensures exact { result ≡ hold_line (seen_head self.now) word.now }
        ensures allowed { IfOk result (IsAllowed (seen_head self.now)) }
    {
        ask(
            self.hold.is_none() && self.parents.is_empty(),
            FaultKind::Line,
        )?;
        let hold = number_in(word)?;
        ask((1..=MAX_HOLD).contains(&hold), FaultKind::Plan)?;
        Ok(HeadLine::Hold(hold))
    }

    fn relay_line(&self, number: &[u8], above: &[u8]) -> Result<HeadLine, FaultKind>
        ensures exact { result ≡ relay_line (seen_head self.now) number.now above.now }
        ensures allowed { IfOk result (IsAllowed (seen_head self.now)) }
    {
        ask(self.last_attached.is_none(), FaultKind::Line)?;
        let relay = number_in(number)?;
        let parent = parent_in(above)?;
        ask(relay as usize == self.parents.len(), FaultKind::Line)?;
        ask(
            (relay as usize) < MAX_RELAYS && is_above(relay, parent),
            FaultKind::Plan,
        )?;
        Ok(HeadLine::Relay(parent))
    }

    fn attach_line(&self, process: &[u8], number: &[u8]) -> Result<HeadLine, FaultKind>
        ensures exact { result ≡ attach_line (seen_head self.now) process.now number.now }
        ensures allowed { IfOk result (IsAllowed (seen_head self.now)) }
    {
        ask(!self.parents.is_empty(), FaultKind::Line)?;
        let p = number_in(process)?;
        let relay = number_in(number)?;
        ask(is_after(self.last_attached, p), FaultKind::Line)?;
        ask(p < self.n, FaultKind::Process)?;
        Ok(HeadLine::Attach(p, relay))
    }
}

/// What a flag line says, by the words behind its first.
fn flag_line(words: Option<&[u8]>) -> Result<HeadLine, FaultKind>
    ensures { result ≡ flag_line (words_behind words.entry) }
{
    let Some(words) = words else {
        return Err(FaultKind::Line);
    };
    match words_of(words) {
        Words::One(word) if word == b"send".as_slice() => Ok(HeadLine::Reset(Flag::Send)),
        _ => Err(FaultKind::Line),
    }
}

fn parent_in(word: &[u8]) -> Result<Parent, FaultKind>
    ensures { result ≡ parent_in word.now }
{
    if word == b"root".as_slice() {
        return Ok(Parent::Root);
    }
    let above = number_in(word)?;
    Ok(Parent::Relay(above))
}

fn is_above(relay: u32, parent: Parent) -> bool
    ensures { result ≡ is_above relay parent }
{
    match parent {
        Parent::Root => true,
        Parent::Relay(above) => above < relay,
    }
}

pub(crate) fn is_after(last: Option<u32>, p: u32) -> bool
    ensures { result ≡ is_after last p }
{
    match last {
        None => true,
        Some(last) => last < p,
    }
}
