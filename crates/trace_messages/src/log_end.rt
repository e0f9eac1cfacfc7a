//! What is said at the end of a log without clocks.
ghost use Rattle.std.specs.Prelude.{◌≡◌, ◌++◌, [], IfOk, OnOk, false, true, string_bytes};
ghost use Rattle.std.specs.Option.{option_copied};
ghost use Rattle.trace_messages.specs.Said.{assumed_said, end_said, strict_said, strict_words, waiting_count};
ghost use Rattle.trace_messages.specs.Said.{waiting_id, waiting_line, waiting_said, waits_in, waits_said};
ghost use Rattle.trace_messages.specs.declared.unsent.Unsent.TheVariants as rule;
ghost use Rattle.trace_order.specs.Assumed.{assumed};
ghost use Rattle.trace_order.specs.Giving.{state_of};

use crate::message_log::MessageLog;
use crate::unsent::Unsent;
use json::Scratch;
use std::alloc::{AllocError, Global};
use trace_log::LogFaultKind;
use trace_order::MessageEvent;
use trace_rewrite::push_fault;

/// The most bytes of an id that is told.
const MAX_ID: usize = 1000;

impl MessageLog {
    /// Adds what the end of the log makes known.
    pub(crate) fn say_end(&self, out: &mut Vec<u8>) -> Result<(), AllocError>
        ensures { OnOk result (out.new.items
            ≡ out.old.items ++ end_said self.now.unsent self.now.last (state_of self.now.order)) }
    {
        match self.unsent {
            Unsent::Assumed => self.say_assumed(out),
            Unsent::Told | Unsent::Refused => self.say_waiting(out),
        }
    }

    /// Adds the events that wait, which receive what was sent alone, and the fault where lines wait then too.
    fn say_assumed(&self, out: &mut Vec<u8>) -> Result<(), AllocError>
        ensures { OnOk result (out.new.items
            ≡ out.old.items ++ assumed_said self.now.last (state_of self.now.order)) }
    {
        let mut rest = self.assumed()?;
        let many = rest.give_all()?;
        rest.add_said(self.last, many, out)?;
        if rest.is_over {
            return Ok(());
        }
        rest.say_waiting(out)
    }

    /// A copy of the log, where each event that waits for a message that no event sends receives nothing.
    fn assumed(&self) -> Result<MessageLog, AllocError>
        ensures state { IfOk result (λ rest. state_of rest.order ≡ assumed (state_of self.now.order)) }
        ensures begun { IfOk result (λ rest. waits_in rest ≡ []) }
        ensures rest { IfOk result (λ rest. (rest.is_over ≡ false) × (rest.is_giving ≡ true)
            × (rest.unsent ≡ rule.Told)) }
    {
        Ok(MessageLog {
            alloc: self.alloc,
            order: self.order.assume_sent()?,
            scratch: Scratch::new(self.alloc),
            unsent: Unsent::Told,
            is_over: false,
            is_giving: true,
            last: self.last,
            said: Vec::new(self.alloc),
            unsaid: None,
        })
    }

    /// Adds the fault of the log's end, where lines wait.
    fn say_waiting(&self, out: &mut Vec<u8>) -> Result<(), AllocError>
        ensures { OnOk result (out.new.items
            ≡ out.old.items ++ waiting_said self.now.unsent self.now.last (state_of self.now.order)) }
    {
        let count = self.order.waiting();
        if count == 0 {
            return Ok(());
        }
        match self.unsent {
            Unsent::Refused => self.say_refused(count, out),
            Unsent::Told | Unsent::Assumed => self.say_told(count, out),
        }
    }

    /// Adds the fault of the first of so many lines that wait.
    fn say_told(&self, count: u64, out: &mut Vec<u8>) -> Result<(), AllocError>
        requires { count ≡ waiting_count (state_of self.now.order) }
        ensures { OnOk result
            (out.new.items ≡ out.old.items ++ waits_said self.now.last (state_of self.now.order)) }
    {
        let first = self.order.first_waiting();
        let id = self.waiting_id(first);
        let words = format!(in self.alloc; "{count} {id}")?;
        push_fault(
            out,
            waiting_line(self.last, first),
            LogFaultKind::Waits,
            words.as_str(),
        )
    }

    /// Adds the fault of the log's last line, where so many lines wait.
    fn say_refused(&self, count: u64, out: &mut Vec<u8>) -> Result<(), AllocError>
        requires { count ≡ waiting_count (state_of self.now.order) }
        ensures { OnOk result
            (out.new.items ≡ out.old.items ++ strict_said self.now.last (state_of self.now.order)) }
    {
        let first = self.order.first_waiting();
        let line = waiting_line(self.last, first);
        let words = strict_words(self.alloc, count, line, self.waiting_id(first))?;
        push_fault(out, self.last, LogFaultKind::Order, words.as_str())
    }

    /// The id for which it waits, unless that is too long to be told.
    fn waiting_id<'e>(&self, first: Option<&'e MessageEvent>) -> &'e str
        ensures { result.now ≡ waiting_id (state_of self.now.order) (option_copied first.entry) }
    {
        let Some(event) = first else {
            return "";
        };
        match self.order.waited_for(event) {
            Some(id) if id.len() <= MAX_ID => id,
            _ => "",
        }
    }
}

/// The words of the fault that so many lines wait, and this one for this id.
fn strict_words(alloc: Global, count: u64, line: u64, id: &str) -> Result<String, AllocError>
    ensures { IfOk result (λ words. string_bytes words ≡ strict_words count line id.now) }
{
    format!(in alloc;
        "lines that wait for a message that nobody sent: {count}; line {line} waits for {id}"
    )
}

/// The line that is told where lines wait; this one where none does.
fn waiting_line(last: u64, first: Option<&MessageEvent>) -> u64
    ensures { result ≡ waiting_line last (option_copied first.entry) }
{
    match first {
        Some(event) => event.line(),
        None => last,
    }
}
