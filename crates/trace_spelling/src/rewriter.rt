use crate::finder::Finder;
use crate::waiting::{WaitingLine, behind_first, joined, number_at};
use std::alloc::{AllocError, Global};
use trace_log::{LogFaultKind, MAX_LINE};
use trace_rewrite::{Rewrite, push_fault};

/// Says the events of a log that is spelled in another way.
#[derive(Drop)]
pub struct SpellingRewriter<'s> {
    alloc: Global,
    finder: Finder<'s>,
    lines: usize,
    skips: bool,
    waits: Vec<WaitingLine>,
    skipped: u64,
}

impl<'s> SpellingRewriter<'s> {
    ghost use Rattle.std.specs.Prelude.{◌≡◌, ◌∷◌, ◌++◌, [], OnErr, OnOk, drop};
    ghost use Rattle.trace_spelling.specs.Said.{full_turn, rule_of, text_of};
    ghost use Rattle.trace_spelling.specs.Ways.{seen_way, spelled};
    ghost use Rattle.trace_spelling.specs.Windows.{seen_waits};

    /// A rewriter before the first line of a log.
    pub(crate) fn new(
        alloc: Global,
        finder: Finder<'s>,
        lines: usize,
        skips: bool,
    ) -> SpellingRewriter<'s>
        ensures rule { rule_of result ≡ record { way = seen_way finder.entry; lines = lines; skips = skips } }
        ensures none { seen_waits result.waits.items ≡ [] }
    {
        SpellingRewriter {
            alloc,
            finder,
            lines,
            skips,
            waits: Vec::new(alloc),
            skipped: 0,
        }
    }

    /// How many lines were passed over since they spell no event.
    pub fn skipped(&self) -> u64
        ensures { result ≡ self.now.skipped }
    {
        self.skipped
    }

    /// Says the event of the lines that wait, which are as many as an event has. Where they spell none, the first of
    /// them is passed over, or has a fault.
    fn say_waiting(&mut self, out: &mut Vec<u8>) -> Result<(), AllocError>
        ensures said { OnOk result (out.new.items ≡ out.old.items
            ++ (full_turn (rule_of self.old) (seen_waits self.old.waits.items)
            (spelled (seen_way self.old.finder) (text_of (seen_waits self.old.waits.items)))).said) }
        ensures waits { OnOk result (seen_waits self.new.waits.items
            ≡ (full_turn (rule_of self.old) (seen_waits self.old.waits.items)
            (spelled (seen_way self.old.finder) (text_of (seen_waits self.old.waits.items)))).waits) }
        ensures rule { rule_of self.new ≡ rule_of self.old }
        ensures err { OnErr result (self.new.waits.items ≡ self.old.waits.items) }
    {
        let text = joined(self.alloc, &self.waits)?;
        let text = behind_first(&text);
        if self.finder.say(self.alloc, text, &self.waits, out)? {
            self.waits.clear();
            return Ok(());
        }
        if self.skips {
            self.skip_first();
            return Ok(());
        }
        let number = number_at(&self.waits, 0);
        let words = self.finder.unmatched(self.alloc, text)?;
        push_fault(out, number, LogFaultKind::Text, words.as_str())?;
        self.waits.clear();
        Ok(())
    }

    /// Passes over the first line that waits.
    fn skip_first(&mut self)
        ensures waits { seen_waits self.new.waits.items ≡ drop 1 (seen_waits self.old.waits.items) }
        ensures rule { rule_of self.new ≡ rule_of self.old }
    {
        if self.waits.is_empty() {
            return;
        }
        let _ = self.waits.remove(0);
        self.skipped = self.skipped.saturating_add(1);
    }

    /// Adds a line to those that wait.
    fn wait(&mut self, number: u64, line: &[u8]) -> Result<(), AllocError>
        ensures ok { OnOk result
            (seen_waits self.new.waits.items ≡ seen_waits self.old.waits.items ++ (number, line.now) ∷ []) }
        ensures rule { rule_of self.new ≡ rule_of self.old }
        ensures err { OnErr result (self.new.waits.items ≡ self.old.waits.items) }
    {
        let one = WaitingLine::new(self.alloc, number, line)?;
        self.waits.push(one)?;
        Ok(())
    }
}

impl Rewrite for SpellingRewriter<'_> {
    ghost use Rattle.trace_spelling.specs.Said.{rewriter_says};

    ghost said = { rewriter_says };

    fn line(&mut self, number: u64, line: &[u8], out: &mut Vec<u8>) -> Result<(), AllocError> {
        if line.len() > MAX_LINE {
            push_fault(out, number, LogFaultKind::Long, "more than 65536 bytes")?;
            self.waits.clear();
            return Ok(());
        }
        self.wait(number, line)?;
        if self.waits.len() < self.lines {
            return Ok(());
        }
        match self.say_waiting(out) {
            Ok(()) => Ok(()),
            Err(error) => {
                let _ = self.waits.pop();
                Err(error)
            }
        }
    }

    fn end(&mut self, out: &mut Vec<u8>) -> Result<(), AllocError> {
        if self.skips {
            self.skipped = self.skipped.saturating_add(self.waits.len() as u64);
            return Ok(());
        }
        if self.waits.is_empty() {
            return Ok(());
        }
        let number = number_at(&self.waits, 0);
        let words = "the log ends before the other lines of this event";
        push_fault(out, number, LogFaultKind::Text, words)?;
        Ok(())
    }
}
