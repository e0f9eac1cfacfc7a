//! Open messages of a lent probe, which are for whichever process takes them.
ghost use Rattle.std.specs.Prelude.{◌≡◌, ◌≢◌, ◌↔◌, IsTrue, IfOk, OnOk, OnErr, IfErr, MatchResult, Some, None, false};
ghost use Rattle.wcp_model.specs.ProbeLog.{Sent, Received};
ghost use Rattle.wcp_probe.specs.declared.probe.Refusal.TheVariants as refusal;
ghost use Rattle.wcp_probe.specs.Core.{setup_of};
ghost use Rattle.wcp_probe.specs.Known.{is_known};
ghost use Rattle.wcp_probe.specs.Refusals.{open_stamp_refusal, open_receive_refusal};
ghost use Rattle.wcp_probe.specs.Seal.{open_seal, open_seal_of, IsOpenSealed};
ghost use Rattle.wcp_relay.specs.LiveProbe.{LiveAccepts};
ghost use Rattle.wullaphi.specs.WatchedLocks.{TakesSeal, take_refusal};

use crate::lent_probe::{LentProbe, Loan};
use wcp_probe::{OpenStamped, Refusal};

impl<L: Loan> LentProbe<L> {
    /// The process sends an open message, for whichever process takes it. A refusal hands the value back and changes
    /// nothing; it is never `Closed` or `Backlog`.
    pub fn stamp_open<T>(&mut self, value: T) -> Result<OpenStamped<T>, (Refusal, T)>
        ensures first { MatchResult
            result
            (λ _. open_stamp_refusal self.old.core ≡ None)
            (λ back. open_stamp_refusal self.old.core ≡ Some back.0) }
        ensures unclosed { IfErr result (λ back. back.0 ≢ refusal.Closed) }
        ensures put { IfErr result (λ back. back.0 ≢ refusal.Backlog) }
        ensures accepted { OnOk result (LiveAccepts self.old Sent self.new) }
        ensures same { setup_of self.new.core ≡ setup_of self.old.core }
        ensures id { self.new.core.id ≡ self.old.core.id }
        ensures stamped { IfOk result (λ message. IsOpenSealed message
            (open_seal self.old.core.watch self.old.core.id self.new.core.clock) value) }
        ensures refused { IfErr result (λ back. (back.1 ≡ value) × (self.new ≡ self.old)) }
    {
        self.probe.stamp_open(value)
    }

    /// The process takes an open message, which stays where it is. The answer is whether that is counted: nothing is
    /// where the message is its own. A refusal changes nothing; it is never `Closed` or `Backlog`.
    pub fn take_open<T>(&mut self, message: &OpenStamped<T>) -> Result<bool, Refusal>
        ensures first { MatchResult
            result
            (λ _. open_receive_refusal self.old.core (open_seal_of message.now) ≡ None)
            (λ why. open_receive_refusal self.old.core (open_seal_of message.now) ≡ Some why) }
        ensures unclosed { IfErr result (λ why. why ≢ refusal.Closed) }
        ensures put { IfErr result (λ why. why ≢ refusal.Backlog) }
        ensures counted { IfOk result (λ counted.
            IsTrue counted ↔ ((open_seal_of message.now).from ≢ self.old.core.id)) }
        ensures own { IfOk result (λ counted. counted ≡ false → self.new ≡ self.old) }
        ensures accepted { IfOk result (λ counted. IsTrue counted
            → LiveAccepts self.old (Received (open_seal_of message.now).clock) self.new) }
        ensures same { setup_of self.new.core ≡ setup_of self.old.core }
        ensures refused { OnErr result (self.new ≡ self.old) }
    {
        self.probe.take_open(message)
    }

    /// Whether the process knows that this message was sent: then taking it would add nothing but an event.
    pub fn knows<T>(&self, message: &OpenStamped<T>) -> bool
        ensures { result ≡ is_known self.now.core (open_seal_of message.now) }
    {
        self.probe.knows(message)
    }

    /// Takes an open message, unless the process knows that it was sent.
    pub(crate) fn take_new<T>(&mut self, message: &OpenStamped<T>) -> Result<(), Refusal>
        ensures first { MatchResult
            result
            (λ _. take_refusal self.old.core (open_seal_of message.now) ≡ None)
            (λ why. take_refusal self.old.core (open_seal_of message.now) ≡ Some why) }
        ensures taken { OnOk result (TakesSeal (open_seal_of message.now) self.old self.new) }
        ensures same { setup_of self.new.core ≡ setup_of self.old.core }
        ensures refused { OnErr result (self.new ≡ self.old) }
    {
        if !self.knows(message) {
            self.take_open(message)?;
        }
        Ok(())
    }
}
