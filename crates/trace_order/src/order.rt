ghost use Rattle.std.specs.Prelude.{◌≡◌, ◌++◌, ◌∷◌, [], ℕ, ◌<◌, false, true, length, Err, IfOk, IfSome, IfNone, OnOk};
ghost use Rattle.std.specs.Prelude.{min};

use crate::announce::{announce, retract};
use crate::event::MessageEvent;
use crate::host::MessageHost;
use crate::message_words::MessageWords;
use crate::next_clock::next_clock;
use crate::order_fault::{GiveFault, PutFault};
use crate::sent::{first_unsent, note_sent, sent_clock};
use std::alloc::{AllocError, Global};
use std::collections::HashMap;

/// An event that is given on, and its clock: the number of each host, in the order in which the hosts came, and 0
/// behind the last.
#[derive(Debug, Drop)]
pub struct OrderedEvent {
    pub event: MessageEvent,
    pub clock: Vec<u32>,
}

/// The events of a log without clocks, on their way into an order that fits.
#[derive(Drop)]
pub struct MessageOrder {
    pub(crate) alloc: Global,
    pub(crate) hosts: Vec<MessageHost>,
    /// The line of the event that was read and sends each id.
    pub(crate) announced: HashMap<String, u64>,
    /// The clock of each id that was sent by an event that was given on.
    pub(crate) sent: HashMap<String, Vec<u32>>,
}

impl MessageOrder {
    ghost use Rattle.std.specs.Prelude.{slice_index, ◌≤◌, List, MatchOption, None, OnErr, Some};
    ghost use Rattle.trace_order.specs.Clocks.{most_number};
    ghost use Rattle.trace_order.specs.Giving.{after_reading, event_read, number_in, state_of};
    ghost use Rattle.trace_order.specs.Giving.{with_host};
    ghost use Rattle.trace_order.specs.Giving.{with_waiting, none_kept, first_ready, first_clock, next_in, next_of};
    ghost use Rattle.trace_order.specs.Giving.{IsGiven};
    ghost use Rattle.trace_order.specs.Giving.{IsNext, IsTooMany};
    ghost use Rattle.trace_order.specs.Orders.{host_at};
    ghost use Rattle.trace_order.specs.Ids.{AreNew, HasSecond, Second, second_in, with_announced};
    ghost use Rattle.trace_order.specs.declared.order_fault.GiveFault.TheVariants.{Many};
    ghost use Rattle.trace_order.specs.State.{AllWait, HasOrdered, IsBehind, can_go, is_announced, line_of};
    ghost use Rattle.trace_order.specs.State.{name_at, names_in, seen_ordered, sent_of, IsFirstClock, waiting_in};
    ghost use Rattle.trace_order.specs.State.{waits_in};
    ghost use Rattle.trace_order.specs.declared.order_fault.PutFault.TheVariants.{Twice};

    /// Before the first event.
    pub fn new(alloc: Global) -> MessageOrder
        ensures ordered { HasOrdered [] [] result }
        ensures none { state_of result ≡ none_kept }
    {
        MessageOrder {
            alloc,
            hosts: Vec::new(alloc),
            announced: HashMap::new(alloc),
            sent: HashMap::new(alloc),
        }
    }

    /// Reads the event of the next line of the log, counted from 1, which says these words. The event then waits.
    /// `Twice`: it sends an id that was sent, or one twice: the first of
    /// these. After an error the order is as before.
    pub fn read(&mut self, line: u64, words: MessageWords) -> Result<(), PutFault>
        ensures named { OnOk result (name_at (names_in self.new.hosts.items)
            (event_read self.old.hosts.items line words).host ≡ words.host) }
        ensures taken { OnOk result ((log : _) (given : _) → HasOrdered log given self.old →
            IsBehind log (event_read self.old.hosts.items line words) →
            HasOrdered (log ++ event_read self.old.hosts.items line words ∷ []) given self.new) }
        ensures kept { OnOk result (state_of self.new ≡ after_reading (state_of self.old) line words) }
        ensures new { OnOk result (AreNew (is_announced self.old) words.sends) }
        ensures none_second { OnOk result (second_in (line_of self.old) line words.sends ≡ None) }
        ensures twice { (second : Second) → result ≡ Err (Twice second) →
            HasSecond (is_announced self.old) words.sends }
        ensures first_second { (second : Second) → result ≡ Err (Twice second) →
            second_in (line_of self.old) line words.sends ≡ Some second }
        ensures same { OnErr result (state_of self.new ≡ state_of self.old) }
    {
        let known = self.hosts.len();
        let number = self.number(words.host())?;
        match self.put(words.event(line, number)) {
            Ok(()) => Ok(()),
            Err(fault) => {
                self.hosts.truncate(known);
                Err(fault)
            }
        }
    }

    /// The number of the host with this name, which comes behind the others if it is new.
    fn number(&mut self, name: &str) -> Result<usize, AllocError>
        ensures within { IfOk result (λ number. number < length self.new.hosts.items) }
        ensures named { IfOk result (λ number. name_at (names_in self.new.hosts.items) number ≡ name.now) }
        ensures number { IfOk result (λ number. number ≡ number_in self.old.hosts.items name.now) }
        ensures hosts { OnOk result (self.new.hosts.items ≡ with_host self.old.hosts.items name.now) }
        ensures announced { self.new.announced ≡ self.old.announced }
        ensures sent { self.new.sent ≡ self.old.sent }
        ensures same { OnErr result (self.new.hosts.items ≡ self.old.hosts.items) }
        ensures stays { (log : _) (given : _) → HasOrdered log given self.old → HasOrdered log given self.new }
    {
        if let Some(number) = self.number_of(name) {
            return Ok(number);
        }
        let number = self.hosts.len();
        let name = String::from_str(self.alloc, name)?;
        self.hosts.push(MessageHost::new(self.alloc, name))?;
        Ok(number)
    }

    /// The number of the host with this name.
    fn number_of(&self, name: &str) -> Option<usize>
        ensures first { MatchOption result
            (number_in self.now.hosts.items name.now ≡ length self.now.hosts.items)
            (λ number. number_in self.now.hosts.items name.now ≡ number) }
        ensures within { IfSome result (λ number. number < length self.now.hosts.items) }
        ensures named { IfSome result (λ number. name_at (names_in self.now.hosts.items) number ≡ name.now) }
        ensures none { IfNone result ((number : ℕ) → number < length self.now.hosts.items →
            name_at (names_in self.now.hosts.items) number ≡ name.now → ⊥) }
    {
        for number in 0..self.hosts.len() {
            if self.name(number) == name {
                return Some(number);
            }
        }
        None
    }

    /// Takes the next event of the log, which then waits. `Twice`: it sends an id that was sent, or one twice.
    fn put(&mut self, event: MessageEvent) -> Result<(), PutFault>
        requires { event.host < length self.old.hosts.items }
        ensures names { OnOk result (names_in self.new.hosts.items ≡ names_in self.old.hosts.items) }
        ensures taken { OnOk result ((log : _) (given : _) → HasOrdered log given self.old → IsBehind log event →
            HasOrdered (log ++ event ∷ []) given self.new) }
        ensures hosts { OnOk result (self.new.hosts.items ≡ with_waiting self.old.hosts.items event) }
        ensures announced { OnOk result ((id : List ℕ)
            → line_of self.new id ≡ with_announced (line_of self.old) event.line event.sends id) }
        ensures sent { self.new.sent ≡ self.old.sent }
        ensures new { OnOk result (AreNew (is_announced self.old) event.sends) }
        ensures twice { (second : Second) → result ≡ Err (Twice second) →
            HasSecond (is_announced self.old) event.sends }
        ensures first_second { (second : Second) → result ≡ Err (Twice second) →
            second_in (line_of self.old) event.line event.sends ≡ Some second }
        ensures same { OnErr result (self.new.hosts.items ≡ self.old.hosts.items) }
        ensures none { OnErr result ((id : List ℕ) → line_of self.new id ≡ line_of self.old id) }
    {
        announce(self.alloc, &mut self.announced, event.sends(), event.line())?;
        let number = event.host();
        if let Err(event) = self.hosts[number].push(event) {
            retract(&mut self.announced, event.sends());
            return Err(PutFault::Memory);
        }
        Ok(())
    }

    /// Gives on an event that waits for none: the first one of the first host whose first event is such a one. After an
    /// error the order is as before.
    pub fn next(&mut self) -> Result<Option<OrderedEvent>, GiveFault>
        ensures some { IfOk result (λ found. IfSome found (λ one. (log : _) (given : _) →
            HasOrdered log given self.old → HasOrdered log (given ++ seen_ordered one ∷ []) self.new)) }
        ensures names { OnOk result (names_in self.new.hosts.items ≡ names_in self.old.hosts.items) }
        ensures fewer { IfOk result (λ found. IfSome found (λ _.
            waiting_in self.new.hosts.items < waiting_in self.old.hosts.items)) }
        ensures none { IfOk result (λ found. IfNone found (self.new ≡ self.old)) }
        ensures all_wait { IfOk result (λ found. IfNone found ((log : _) (given : _) → HasOrdered log given self.old →
            AllWait given self.old.hosts.items)) }
        ensures next { IsNext result (next_in (state_of self.old)) (state_of self.old) (state_of self.new) }
    {
        let Some(number) = self.first_ready() else {
            return Ok(None);
        };
        Ok(Some(self.give(number)?))
    }

    /// The name of the host with this number.
    pub fn name(&self, number: usize) -> &str
        ensures { result.now ≡ name_at (names_in self.now.hosts.items) number }
    {
        match self.hosts.get(number) {
            Some(host) => host.name(),
            None => "",
        }
    }

    /// How many lines wait.
    pub fn waiting(&self) -> u64
        ensures { result ≡ min (waiting_in self.now.hosts.items) u64.MAX }
    {
        let mut count: u64 = 0;
        for host in &self.hosts {
            count = count.saturating_add(host.waiting() as u64);
        }
        count
    }

    /// The first host whose first event waits for none.
    fn first_ready(&self) -> Option<usize>
        ensures within { IfSome result (λ number. number < length self.now.hosts.items) }
        ensures ready { IfSome result (λ number.
            can_go (sent_of self.now) (waits_in self.now.hosts.items number) ≡ true) }
        ensures none { IfNone result ((number : ℕ) → number < length self.now.hosts.items →
            can_go (sent_of self.now) (waits_in self.now.hosts.items number) ≡ false) }
        ensures first { result ≡ first_ready (state_of self.now) }
    {
        for number in 0..self.hosts.len() {
            if self.is_ready(number) {
                return Some(number);
            }
        }
        None
    }

    /// Whether the first event of this host can be given on.
    fn is_ready(&self, number: usize) -> bool
        requires { number < length self.now.hosts.items }
        ensures { result ≡ can_go (sent_of self.now) (waits_in self.now.hosts.items number) }
    {
        let Some(event) = self.hosts[number].first() else {
            return false;
        };
        first_unsent(&self.sent, event.receives()).is_none()
    }

    /// Gives on the first event of this host.
    fn give(&mut self, number: usize) -> Result<OrderedEvent, GiveFault>
        requires within { number < length self.old.hosts.items }
        requires ready { can_go (sent_of self.old) (waits_in self.old.hosts.items number) ≡ true }
        ensures given { IfOk result (λ one. (log : _) (given : _) → HasOrdered log given self.old →
            HasOrdered log (given ++ seen_ordered one ∷ []) self.new) }
        ensures names { OnOk result (names_in self.new.hosts.items ≡ names_in self.old.hosts.items) }
        ensures fewer { OnOk result (waiting_in self.new.hosts.items < waiting_in self.old.hosts.items) }
        ensures next { IsGiven result (next_of (state_of self.old) number (waits_in self.old.hosts.items number))
            (state_of self.old) (state_of self.new) }
    {
        let clock = self.first_clock(number)?;
        let kept = Vec::from_slice(self.alloc, &clock)?;
        note_sent(
            self.alloc,
            &mut self.sent,
            self.hosts[number].sends(),
            &clock,
        )?;
        let event = self.hosts[number].pop(kept);
        Ok(OrderedEvent { event, clock })
    }

    /// The clock with which the first event of this host is given on.
    fn first_clock(&self, number: usize) -> Result<Vec<u32>, GiveFault>
        requires { number < length self.now.hosts.items }
        ensures clock { IfOk result (λ clock. IsFirstClock (sent_of self.now) (host_at self.now.hosts.items number)
            number clock.items) }
        ensures next { IfOk result (λ clock. clock.items ≡ first_clock (sent_of self.now)
            (host_at self.now.hosts.items number) number) }
        ensures fits { IfOk result (λ clock. slice_index clock.items number ≤ most_number) }
        ensures many { (at : ℕ) → result ≡ Err (Many at) → IsTooMany (sent_of self.now)
            (host_at self.now.hosts.items number) number at }
    {
        let host = &self.hosts[number];
        let Some(event) = host.first() else {
            return Ok(Vec::new(self.alloc));
        };
        let sender = sent_clock(self.alloc, &self.sent, event.receives())?;
        next_clock(self.alloc, host.clock(), &sender, number, event.line())
    }
}
