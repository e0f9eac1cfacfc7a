//! Open messages, which are for whichever process takes them: a probe takes one by reference, as it stands under a lock
//! or in a cell that many read.
ghost use Rattle.std.specs.Prelude.{◌≡◌, ◌≢◌, ◌↔◌, IsTrue, IfOk, OnOk, OnErr, IfErr, MatchResult, Some, None, false};
ghost use Rattle.wcp_model.specs.ProbeLog.{Sent, Received, is_up_after_receive};
ghost use Rattle.wcp_probe.specs.Core.{Accepts, IsSameProbe};
ghost use Rattle.wcp_probe.specs.Known.{is_known};
ghost use Rattle.wcp_probe.specs.Refusals.{open_stamp_refusal, open_receive_refusal};
ghost use Rattle.wcp_probe.specs.Seal.{open_seal, open_seal_of, IsOpenSealed};

use crate::open_stamp::OpenStamped;
use crate::probe::{ProbeCore, Refusal};

impl ProbeCore {
    /// The process sends an open message, for whichever process takes it: its stamp carries the clock after the send.
    pub fn stamp_open<T>(&mut self, value: T) -> Result<OpenStamped<T>, (Refusal, T)>
        ensures first { MatchResult result (λ _. open_stamp_refusal self.old ≡ None)
            (λ back. open_stamp_refusal self.old ≡ Some back.0) }
        ensures accepted { OnOk result (Accepts self.old Sent self.new) }
        ensures same { OnOk result (IsSameProbe self.old self.new) }
        ensures rest { OnOk result (self.new ≡ record self.old { clock = self.new.clock; flag_up = false }) }
        ensures pending { OnOk result (self.new.pending ≡ self.old.pending) }
        ensures stamped { IfOk result (λ message. IsOpenSealed message
            (open_seal self.old.watch self.old.id self.new.clock) value) }
        ensures refused { IfErr result (λ back. (back.1 ≡ value) × (self.new ≡ self.old)) }
    {
        match self.count_send() {
            Ok(()) => Ok(OpenStamped {
                watch: self.watch,
                from: self.id,
                clock: self.clock,
                value,
            }),
            Err(why) => Err((why, value)),
        }
    }

    /// The process takes an open message, which stays where it is: its clock then knows what the sender's knew after
    /// the send. The answer is whether that is counted: nothing is where the message is the process's own.
    pub fn take_open<T>(&mut self, message: &OpenStamped<T>) -> Result<bool, Refusal>
        ensures first { MatchResult result
            (λ _. open_receive_refusal self.old (open_seal_of message.now) ≡ None)
            (λ why. open_receive_refusal self.old (open_seal_of message.now) ≡ Some why) }
        ensures counted { IfOk result (λ counted. IsTrue counted ↔ ((open_seal_of message.now).from ≢ self.old.id)) }
        ensures own { IfOk result (λ counted. counted ≡ false → self.new ≡ self.old) }
        ensures accepted { IfOk result (λ counted. IsTrue counted
            → Accepts self.old (Received (open_seal_of message.now).clock) self.new) }
        ensures same { OnOk result (IsSameProbe self.old self.new) }
        ensures rest { IfOk result (λ counted. IsTrue counted → self.new ≡ record self.old {
          clock = self.new.clock;
          flag_up = is_up_after_receive self.old.flag self.old.flag_up;
        }) }
        ensures pending { OnOk result (self.new.pending ≡ self.old.pending) }
        ensures refused { OnErr result (self.new ≡ self.old) }
    {
        self.receive_open(message.watch, message.from, &message.clock)
    }

    /// Whether the process knows that this message was sent, as by one that it has received since: then its clock
    /// stands above the stamp's, and taking the message would add nothing but an event. It knows of its own sends, and
    /// of none in another watch.
    pub fn knows<T>(&self, message: &OpenStamped<T>) -> bool
        ensures { result ≡ is_known self.now (open_seal_of message.now) }
    {
        message.watch == self.watch
            && message.from < self.clock.len()
            && message.clock.get(message.from) <= self.clock.get(message.from)
    }
}
