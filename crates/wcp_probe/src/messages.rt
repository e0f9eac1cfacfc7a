//! What a probe does at a send and at a receive. An open message is for whichever process takes it, as in a work queue.
ghost use Rattle.std.specs.Prelude.{◌≡◌, ◌≢◌, ◌≤◌, ◌↔◌, [], ◌∷◌, length, slice_index};
ghost use Rattle.std.specs.Prelude.{IsTrue, IfOk, OnOk, OnErr, IfErr, MatchResult, Some, None, true, false};
ghost use Rattle.wcp_model.specs.FirstReason.{first_reason};
ghost use Rattle.wcp_model.specs.ProbeLog.{Sent, Received, is_up_after_receive};
ghost use Rattle.wcp_probe.specs.Core.{Accepts, IsSameProbe};
ghost use Rattle.wcp_probe.specs.Seal.{seal_of, told_seal, open_seal, value_of, IsSealed};
ghost use Rattle.wcp_probe.specs.Refusals.{count_refusal, stamp_refusal, open_stamp_refusal, early_mismatches};
ghost use Rattle.wcp_probe.specs.Refusals.{stamp_mismatch, receive_refusal, open_mismatch, open_receive_refusal};
ghost use Rattle.wcp_probe.specs.Refusals.{is_ahead, is_own};

use crate::probe::{ProbeCore, Refusal};
use crate::stamp::Stamped;
use wcp_clock::Clock;

impl ProbeCore {
    /// The process sends a message: its stamp carries the clock after the send.
    pub fn stamp<T>(&mut self, to: u32, value: T) -> Result<Stamped<T>, (Refusal, T)>
        ensures first { MatchResult result (λ _. stamp_refusal self.old to ≡ None)
            (λ back. stamp_refusal self.old to ≡ Some back.0) }
        ensures accepted { OnOk result (Accepts self.old Sent self.new) }
        ensures same { OnOk result (IsSameProbe self.old self.new) }
        ensures rest { OnOk result (self.new ≡ record self.old { clock = self.new.clock; flag_up = false }) }
        ensures pending { OnOk result (self.new.pending ≡ self.old.pending) }
        ensures stamped { IfOk result (λ message. IsSealed message (record {
          watch = self.old.watch;
          from = self.old.id;
          to = to;
          clock = self.new.clock;
        }) value) }
        ensures refused { IfErr result (λ back. (back.1 ≡ value) × (self.new ≡ self.old)) }
    {
        if to >= self.clock.len() || to == self.id {
            return Err((Refusal::NoSuch, value));
        }
        if let Err(why) = self.count_send() {
            return Err((why, value));
        }
        let clock = self.clock;
        Ok(Stamped {
            watch: self.watch,
            from: self.id,
            to,
            clock,
            value,
        })
    }

    /// The process sends a message, whoever it is for: the stamp carries the clock after the send.
    pub(crate) fn count_send(&mut self) -> Result<(), Refusal>
        ensures first { MatchResult result (λ _. open_stamp_refusal self.old ≡ None)
            (λ why. open_stamp_refusal self.old ≡ Some why) }
        ensures accepted { OnOk result (Accepts self.old Sent self.new) }
        ensures same { OnOk result (IsSameProbe self.old self.new) }
        ensures rest { OnOk result (self.new ≡ record self.old { clock = self.new.clock; flag_up = false }) }
        ensures refused { OnErr result (self.new ≡ self.old) }
    {
        if self.closed {
            return Err(Refusal::Closed);
        }
        if self.pending.is_some() {
            return Err(Refusal::Backlog);
        }
        if !self.clock.tick(self.id, self.limit) {
            return Err(Refusal::ClockEnd);
        }
        self.flag_up = false;
        Ok(())
    }

    /// The process receives a message: its clock then knows what the sender's knew after the send.
    #[inline(always)]
    pub fn receive<T>(&mut self, message: Stamped<T>) -> Result<T, (Refusal, Stamped<T>)>
        ensures first { MatchResult result (λ _. receive_refusal self.old (seal_of message) ≡ None)
            (λ back. receive_refusal self.old (seal_of message) ≡ Some back.0) }
        ensures accepted { OnOk result (Accepts self.old (Received (seal_of message).clock) self.new) }
        ensures same { OnOk result (IsSameProbe self.old self.new) }
        ensures rest { OnOk result (self.new ≡ record self.old {
          clock = self.new.clock;
          flag_up = is_up_after_receive self.old.flag self.old.flag_up;
        }) }
        ensures pending { OnOk result (self.new.pending ≡ self.old.pending) }
        ensures value { IfOk result (λ value. value ≡ value_of message) }
        ensures refused { IfErr result (λ back. (back.1 ≡ message) × (self.new ≡ self.old)) }
    {
        if let Err(why) = self.receive_told(message.watch, message.to, &message.clock) {
            return Err((why, message));
        }
        let Stamped {
            watch: _,
            from: _,
            to: _,
            clock: _,
            value,
        } = message;
        Ok(value)
    }

    /// The process receives a message whose stamp says this: the watch, the receiver, and the sender's
    /// clock after the send.
    pub(crate) fn receive_told(&mut self, watch: u64, to: u32, clock: &Clock) -> Result<(), Refusal>
        ensures first { MatchResult result (λ _. receive_refusal self.old (told_seal watch to clock.now) ≡ None)
            (λ why. receive_refusal self.old (told_seal watch to clock.now) ≡ Some why) }
        ensures accepted { OnOk result (Accepts self.old (Received clock.now) self.new) }
        ensures same { OnOk result (IsSameProbe self.old self.new) }
        ensures rest { OnOk result (self.new ≡ record self.old {
          clock = self.new.clock;
          flag_up = is_up_after_receive self.old.flag self.old.flag_up;
        }) }
        ensures pending { OnOk result (self.new.pending ≡ self.old.pending) }
        ensures refused { OnErr result (self.new ≡ self.old) }
    {
        if let Some(why) = self.why_not(watch, to, clock) {
            return Err(why);
        }
        self.count_receive(clock)
    }

    /// The process takes an open message whose stamp says this: the watch, the sender, and the sender's clock after the
    /// send. The answer is whether that is counted: nothing is where the process takes a message of its own.
    pub(crate) fn receive_open(
        &mut self,
        watch: u64,
        from: u32,
        clock: &Clock,
    ) -> Result<bool, Refusal>
        ensures first { MatchResult result
            (λ _. open_receive_refusal self.old (open_seal watch from clock.now) ≡ None)
            (λ why. open_receive_refusal self.old (open_seal watch from clock.now) ≡ Some why) }
        ensures counted { IfOk result (λ counted. IsTrue counted ↔ (from ≢ self.old.id)) }
        ensures own { IfOk result (λ counted. counted ≡ false → self.new ≡ self.old) }
        ensures accepted { IfOk result (λ counted. IsTrue counted
            → Accepts self.old (Received clock.now) self.new) }
        ensures same { OnOk result (IsSameProbe self.old self.new) }
        ensures rest { IfOk result (λ counted. IsTrue counted → self.new ≡ record self.old {
          clock = self.new.clock;
          flag_up = is_up_after_receive self.old.flag self.old.flag_up;
        }) }
        ensures refused { OnErr result (self.new ≡ self.old) }
    {
        if let Some(why) = self.why_not_open(watch, clock) {
            return Err(why);
        }
        if from == self.id {
            return Ok(false);
        }
        self.count_receive(clock)?;
        Ok(true)
    }

    /// The process receives a message that fits, of a sender whose clock was this after the send: it counts an event,
    /// and then knows what the sender knew.
    fn count_receive(&mut self, clock: &Clock) -> Result<(), Refusal>
        requires free { self.old.pending ≡ None }
        requires processes { length clock.now ≡ length self.old.clock }
        requires behind { slice_index clock.now self.old.id ≤ slice_index self.old.clock self.old.id }
        ensures first { MatchResult result (λ _. count_refusal self.old ≡ None)
            (λ why. count_refusal self.old ≡ Some why) }
        ensures accepted { OnOk result (Accepts self.old (Received clock.now) self.new) }
        ensures same { OnOk result (IsSameProbe self.old self.new) }
        ensures rest { OnOk result (self.new ≡ record self.old {
          clock = self.new.clock;
          flag_up = is_up_after_receive self.old.flag self.old.flag_up;
        }) }
        ensures refused { OnErr result (self.new ≡ self.old) }
    {
        if !self.clock.tick(self.id, self.limit) {
            return Err(Refusal::ClockEnd);
        }
        self.clock = self.clock.merge(clock);
        self.flag_up = self.flag.is_up_after_receive(self.flag_up);
        Ok(())
    }

    /// Why a message with this stamp is refused, but for the end of the clock.
    fn why_not(&self, watch: u64, to: u32, clock: &Clock) -> Option<Refusal>
        ensures { result ≡ stamp_mismatch self.now (told_seal watch to clock.now) }
    {
        if let Some(why) = self.why_not_any(watch, clock) {
            return Some(why);
        }
        if to != self.id {
            return Some(Refusal::NotMine);
        }
        self.is_ahead(clock).then_some(Refusal::Ahead)
    }

    /// Why an open message with this stamp is refused, but for the end of the clock.
    fn why_not_open(&self, watch: u64, clock: &Clock) -> Option<Refusal>
        ensures { result ≡ open_mismatch self.now (open_seal watch 0 clock.now) }
    {
        if let Some(why) = self.why_not_any(watch, clock) {
            return Some(why);
        }
        self.is_ahead(clock).then_some(Refusal::Ahead)
    }

    /// Why a message of this watch is refused, whoever it is for, before it is asked what its stamp knows.
    fn why_not_any(&self, watch: u64, clock: &Clock) -> Option<Refusal>
        ensures { result ≡ first_reason (early_mismatches self.now (open_seal watch 0 clock.now)) }
    {
        if self.closed {
            return Some(Refusal::Closed);
        }
        if self.pending.is_some() {
            return Some(Refusal::Backlog);
        }
        if watch != self.watch || clock.len() != self.clock.len() {
            return Some(Refusal::Stranger);
        }
        None
    }

    /// Whether this clock knows of more events of the process than that has made.
    fn is_ahead(&self, clock: &Clock) -> bool
        ensures { result ≡ is_ahead self.now (open_seal 0 0 clock.now) }
    {
        clock.get(self.id) > self.clock.get(self.id)
    }
}
