//! A log without clocks, said with clocks.
ghost use Rattle.std.specs.Prelude.{◌≡◌, ◌++◌, [], false, true, None, Some, OnErr, OnOk, IfErr, IfNone, IfOk, is_some};
ghost use Rattle.std.specs.Prelude.{if◌then◌else◌, ◌<◌};
ghost use Rattle.trace_order.specs.Giving.{state_of};
ghost use Rattle.trace_order.specs.State.{AllWait, HasOrdered, line_of, waiting_in};
ghost use Rattle.trace_messages.specs.Lines.{AreBefore, GivesOn, IsRefused, ReadsLine, SaysFault};

use crate::message_fault::MessageFault;
use crate::message_words::words_in;
use crate::printed::push_ordered;
use crate::unsent::Unsent;
use json::Scratch;
use std::alloc::{AllocError, Global};
use trace_log::LogFaultKind;
use trace_order::{GiveFault, MessageOrder, OrderedEvent};
use trace_rewrite::{Rewrite, push_fault};

/// A log without clocks, line by line: it is said with clocks, in numbered lines.
#[derive(Drop)]
pub struct MessageLog {
    pub(crate) alloc: Global,
    pub(crate) order: MessageOrder,
    pub(crate) scratch: Scratch,
    /// What becomes of lines that wait at the end of the log.
    pub(crate) unsent: Unsent,
    /// Whether a fault was said, behind which nothing more is.
    pub(crate) is_over: bool,
    /// Whether a line was read, and not all is said of it.
    pub(crate) is_giving: bool,
    /// The number of the last line of which all was said.
    pub(crate) last: u64,
    /// What is said of the line that was read.
    pub(crate) said: Vec<u8>,
    /// An event that was given on and isn't said yet.
    pub(crate) unsaid: Option<OrderedEvent>,
}

impl MessageLog {
    ghost use Rattle.std.specs.Prelude.{Err};
    ghost use Rattle.trace_order.specs.declared.order_fault.GiveFault.TheVariants.{Many};
    ghost use Rattle.trace_messages.specs.Lines.{TakesLine};
    ghost use Rattle.trace_messages.specs.Said.{IsGivenOut, IsGivingOn, IsTurn, line_turn, many_line};
    ghost use Rattle.trace_messages.specs.Said.{IsSaidOf, SaysOn, message_lines, message_says, waits_in};
    ghost use Rattle.trace_order.specs.State.{names_in};
    ghost use Rattle.trace_rewrite.specs.Saying.{SaysAgain, SaysLine, SaysSame};

    /// Before the first line.
    pub fn new(alloc: Global, unsent: Unsent) -> MessageLog
        ensures order { HasOrdered [] [] result.order }
        ensures goes_on { result.is_over ≡ false }
        ensures reads { result.is_giving ≡ false }
        ensures says { message_says result ≡ message_lines unsent }
    {
        MessageLog {
            alloc,
            order: MessageOrder::new(alloc),
            scratch: Scratch::new(alloc),
            unsent,
            is_over: false,
            is_giving: false,
            last: 0,
            said: Vec::new(alloc),
            unsaid: None,
        }
    }

    /// Adds what the line of this number makes known: the lines of the events that are given on, or its fault, behind
    /// which nothing more is said.
    pub fn take(&mut self, number: u64, line: &[u8], out: &mut Vec<u8>) -> Result<(), AllocError>
        ensures taken { OnOk result (self.old.is_giving ≡ false → self.new.is_over ≡ false → (log : _) (given : _) →
            HasOrdered log given self.old.order → AreBefore log number →
            TakesLine log given number line.now self.new.order out.old.items out.new.items) }
        ensures over { OnOk result (self.old.is_over ≡ false → self.new.is_over ≡ true →
            SaysFault (line_of self.old.order) number line.now out.old.items out.new.items) }
        ensures given { OnOk result (self.new.is_over ≡ false → self.new.is_giving ≡ false) }
        ensures said { OnOk result
            (SaysLine (message_says self.old) (message_says self.new) number line.now out.old.items out.new.items) }
        ensures again { OnErr result (SaysAgain (message_says self.old) (message_says self.new) number line.now) }
    {
        if self.is_over {
            return Ok(());
        }
        match self.begin(number, line) {
            Ok(()) => {}
            Err(MessageFault::Has(kind, words)) => {
                push_fault(out, number, kind, words)?;
                self.is_over = true;
                return Ok(());
            }
            Err(MessageFault::Told(kind, words)) => {
                push_fault(out, number, kind, words.as_str())?;
                self.is_over = true;
                return Ok(());
            }
            Err(MessageFault::Memory) => return Err(AllocError),
        }
        let many = self.give_all()?;
        self.add_said(number, many, out)
    }

    /// Reads the event of the line of this number, unless it was read.
    fn begin(&mut self, number: u64, line: &[u8]) -> Result<(), MessageFault>
        ensures read { OnOk result (self.old.is_giving ≡ false → (log : _) (given : _) →
            HasOrdered log given self.old.order → AreBefore log number →
            ReadsLine log given number line.now self.new.order) }
        ensures begun { OnOk result (self.old.is_giving ≡ false → waits_in self.new ≡ []) }
        ensures refused { IfErr result (λ fault. IsRefused fault (line_of self.old.order) number line.now) }
        ensures again { self.old.is_over ≡ false →
            SaysAgain (message_says self.old) (message_says self.new) number line.now }
        ensures fault { self.old.is_over ≡ false →
            IfErr result (λ fault. IsSaidOf fault (message_says self.old) number line.now) }
        ensures giving { OnOk result (self.new.is_giving ≡ true) }
        ensures goes_on { self.new.is_over ≡ self.old.is_over }
    {
        if self.is_giving {
            return Ok(());
        }
        self.read(number, line)
    }

    /// Reads the event of the line of this number, whose events are given on then.
    fn read(&mut self, number: u64, line: &[u8]) -> Result<(), MessageFault>
        ensures read { OnOk result ((log : _) (given : _) → HasOrdered log given self.old.order →
            AreBefore log number → ReadsLine log given number line.now self.new.order) }
        ensures refused { IfErr result (λ fault. IsRefused fault (line_of self.old.order) number line.now) }
        ensures turn { IsTurn result number (line_turn (state_of self.old.order) number line.now)
            (state_of self.new.order) }
        ensures begun { OnOk result (waits_in self.new ≡ []) }
        ensures goes_on { OnOk result (self.new ≡ record self.old {
          order = self.new.order;
          scratch = self.new.scratch;
          is_giving = true;
          said = self.new.said;
          unsaid = None;
        }) }
        ensures stays { OnErr result (self.new ≡ record self.old {
          order = self.new.order;
          scratch = self.new.scratch;
        }) }
        ensures same { OnErr result (state_of self.new.order ≡ state_of self.old.order) }
    {
        let words = words_in(self.alloc, &mut self.scratch, line)?;
        if let Err(fault) = self.order.read(number, words) {
            return Err(MessageFault::of_put(self.alloc, fault));
        }
        self.is_giving = true;
        self.said.clear();
        self.unsaid = None;
        Ok(())
    }

    /// Gives on all events that wait for none. What is said of them waits then. The line of an event whose number no
    /// clock can have is returned, which ends it.
    pub(crate) fn give_all(&mut self) -> Result<Option<u64>, AllocError>
        ensures given { (log : _) (given : _) → HasOrdered log given self.old.order →
            GivesOn log given self.new.order (waits_in self.old) (waits_in self.new) }
        ensures names { names_in self.new.order.hosts.items ≡ names_in self.old.order.hosts.items }
        ensures all_wait { IfOk result (λ many. many ≡ None → (log : _) (given : _) →
            HasOrdered log given self.new.order → AllWait given self.new.order.hosts.items) }
        ensures giving { OnOk result (IsGivingOn (waits_in self.old) (state_of self.old.order) (waits_in self.new)
            (state_of self.new.order)) }
        ensures again { self.old.is_over ≡ false → self.old.is_giving ≡ true → (number : _) (line : _) →
            SaysAgain (message_says self.old) (message_says self.new) number line }
        ensures out { IfOk result (λ many. IsGivenOut (state_of self.new.order) many) }
        ensures said { OnOk result (self.new.unsaid ≡ None) }
        ensures rest { self.new ≡ record self.old {
          order = self.new.order;
          said = self.new.said;
          unsaid = self.new.unsaid;
        } }
    {
        match self.give_on() {
            Ok(()) => Ok(None),
            Err(GiveFault::Many(at)) => Ok(Some(at)),
            Err(GiveFault::Memory) => Err(AllocError),
        }
    }

    /// Gives on all events that wait for none. What is said of them waits then.
    fn give_on(&mut self) -> Result<(), GiveFault>
        ensures given { (log : _) (given : _) → HasOrdered log given self.old.order →
            GivesOn log given self.new.order (waits_in self.old) (waits_in self.new) }
        ensures all_wait { OnOk result ((log : _) (given : _) → HasOrdered log given self.new.order →
            AllWait given self.new.order.hosts.items) }
        ensures giving { IsGivingOn (waits_in self.old) (state_of self.old.order) (waits_in self.new)
            (state_of self.new.order) }
        ensures out { OnOk result (IsGivenOut (state_of self.new.order) None) }
        ensures many { (at : _) → result ≡ Err (Many at) → IsGivenOut (state_of self.new.order) (Some at) }
        ensures said { OnOk result (self.new.unsaid ≡ None) }
        ensures all_said { (at : _) → result ≡ Err (Many at) → self.new.unsaid ≡ None }
        ensures rest { self.new ≡ record self.old {
          order = self.new.order;
          said = self.new.said;
          unsaid = self.new.unsaid;
        } }
    {
        while self.give_one()? {}
        Ok(())
    }

    /// Says the event that was given on last, and gives on the next one, if there is one.
    fn give_one(&mut self) -> Result<bool, GiveFault>
        ensures given { (log : _) (given : _) → HasOrdered log given self.old.order →
            GivesOn log given self.new.order (waits_in self.old) (waits_in self.new) }
        ensures all_wait { IfOk result (λ more. more ≡ false → (log : _) (given : _) →
            HasOrdered log given self.new.order → AllWait given self.new.order.hosts.items) }
        ensures giving { IsGivingOn (waits_in self.old) (state_of self.old.order) (waits_in self.new)
            (state_of self.new.order) }
        ensures fewer { IfOk result (λ more. more ≡ true →
            waiting_in self.new.order.hosts.items < waiting_in self.old.order.hosts.items) }
        ensures out { IfOk result (λ more. more ≡ false → IsGivenOut (state_of self.new.order) None) }
        ensures many { (at : _) → result ≡ Err (Many at) → IsGivenOut (state_of self.new.order) (Some at) }
        ensures said { IfOk result (λ more. more ≡ false → self.new.unsaid ≡ None) }
        ensures all_said { (at : _) → result ≡ Err (Many at) → self.new.unsaid ≡ None }
        ensures rest { self.new ≡ record self.old {
          order = self.new.order;
          said = self.new.said;
          unsaid = self.new.unsaid;
        } }
    {
        self.say_unsaid()?;
        self.unsaid = self.order.next()?;
        Ok(self.unsaid.is_some())
    }

    /// Says the event that was given on and isn't said yet.
    fn say_unsaid(&mut self) -> Result<(), AllocError>
        ensures waits { waits_in self.new ≡ waits_in self.old }
        ensures said { OnOk result (self.new.unsaid ≡ None) }
        ensures rest { self.new ≡ record self.old { said = self.new.said; unsaid = self.new.unsaid } }
    {
        let Some(one) = &self.unsaid else {
            return Ok(());
        };
        let mut line = Vec::new(self.alloc);
        push_ordered(self.alloc, &self.order, one, &mut line)?;
        self.said.extend_from_slice(&line)?;
        self.unsaid = None;
        Ok(())
    }

    /// Adds what was said of the line of this number, and the fault of an event whose number no clock can have.
    pub(crate) fn add_said(
        &mut self,
        number: u64,
        many: Option<u64>,
        out: &mut Vec<u8>,
    ) -> Result<(), AllocError>
        ensures added { OnOk result (out.new.items ≡ out.old.items ++ (self.old.said.items ++ many_line many)) }
        ensures says { OnOk result (self.old.is_over ≡ false → self.old.is_giving ≡ true → self.old.unsaid ≡ None →
            IsGivenOut (state_of self.old.order) many →
            SaysOn (message_says self.old) (message_says self.new) number (self.old.said.items ++ many_line many)) }
        ensures rest { OnOk result (self.new ≡ record self.old {
          said = self.new.said;
          is_giving = false;
          last = number;
          is_over = is_some many;
        }) }
        ensures same { OnErr result (self.new ≡ self.old) }
    {
        out.extend_from_slice(&self.said)?;
        if let Some(at) = many {
            push_fault(
                out,
                at,
                LogFaultKind::Many,
                "no clock can count so many events",
            )?;
        }
        self.is_over = many.is_some();
        self.is_giving = false;
        self.last = number;
        self.said.clear();
        Ok(())
    }
}

impl Rewrite for MessageLog {
    ghost use Rattle.trace_messages.specs.Said.{message_says};

    ghost said = { message_says };

    fn line(&mut self, number: u64, line: &[u8], out: &mut Vec<u8>) -> Result<(), AllocError> {
        self.take(number, line, out)
    }

    fn end(&mut self, out: &mut Vec<u8>) -> Result<(), AllocError> {
        if self.is_over {
            return Ok(());
        }
        self.say_end(out)
    }
}
