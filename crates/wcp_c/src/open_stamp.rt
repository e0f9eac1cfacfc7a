//! Messages that are for whichever process takes them, as in a work queue.
ghost use Rattle.std.specs.Prelude.{◌≡◌, ◌≢◌, ◌↔◌, IsTrue, IfOk, OnErr, OnOk, MatchResult, Some, None, false, not};
ghost use Rattle.wcp_model.specs.ProbeLog.{Sent, Received, is_up_after_receive};
ghost use Rattle.wcp_probe.specs.Core.{Accepts, IsSameProbe};
ghost use Rattle.wcp_probe.specs.Refusals.{open_stamp_refusal};
ghost use Rattle.wcp_c.specs.Answers.{IsAnswer, done, done_with_note, no_probe};
ghost use Rattle.wcp_c.specs.Probes.{HoldsProbe, core_of};
ghost use Rattle.wcp_c.specs.Stamps.{HoldsStamp, seal_of, any_process, is_taken_back, refusal_of_stamp};

use crate::answer::{DONE, NO_PROBE, refusal_number};
use crate::probe::WcpProbe;
use crate::stamp::WcpStamp;
use wcp_clock::Clock;
use wcp_probe::{Refusal, ToldProbe};

/// The number that an open stamp has for a receiver.
const ANY_PROCESS: u32 = u32::MAX;

impl WcpStamp {
    /// Lets a probe's process receive the message of this stamp, whose clock this is. The answer is whether that is
    /// counted: it is not where the process takes back an open message of its own.
    pub fn receive_by(&self, probe: &mut ToldProbe, clock: &Clock) -> Result<bool, Refusal>
        requires { clock.now ≡ (seal_of self.now).clock }
        ensures first { MatchResult result (λ _. refusal_of_stamp probe.old self.now ≡ None)
            (λ why. refusal_of_stamp probe.old self.now ≡ Some why) }
        ensures counted { IfOk result (λ counted. counted ≡ not (is_taken_back probe.old self.now)) }
        ensures own { IfOk result (λ counted. counted ≡ false → probe.new ≡ probe.old) }
        ensures accepted { IfOk result (λ counted. IsTrue counted
            → Accepts probe.old (Received clock.now) probe.new) }
        ensures same { OnOk result (IsSameProbe probe.old probe.new) }
        ensures rest { IfOk result (λ counted. IsTrue counted → probe.new ≡ record probe.old {
          clock = probe.new.clock;
          flag_up = is_up_after_receive probe.old.flag probe.old.flag_up;
        }) }
        ensures refused { OnErr result (probe.new ≡ probe.old) }
    {
        if self.to == ANY_PROCESS {
            return probe.receive_open(self.watch, self.from, clock);
        }
        probe.receive(self.watch, self.to, clock)?;
        Ok(true)
    }
}

/// The process sends an open message, which is for whichever process takes it: the stamp goes along with it.
#[unsafe(no_mangle)]
pub extern "C" fn wcp_probe_stamp_open(probe: &mut WcpProbe, stamp: &mut WcpStamp) -> u32
    ensures held { result ≡ no_probe ↔ (HoldsProbe probe.old → ⊥) }
    ensures first { HoldsProbe probe.old → IsAnswer (open_stamp_refusal (core_of probe.old)) result }
    ensures alone { result ≢ done_with_note }
    ensures accepted { result ≡ done → Accepts (core_of probe.old) Sent (core_of probe.new) }
    ensures same { result ≡ done → IsSameProbe (core_of probe.old) (core_of probe.new) }
    ensures rest { result ≡ done → core_of probe.new
        ≡ record (core_of probe.old) { clock = (core_of probe.new).clock; flag_up = false } }
    ensures holds { HoldsProbe probe.old → HoldsProbe probe.new }
    ensures stamp { result ≡ done → HoldsStamp stamp.new }
    ensures sealed { result ≡ done → seal_of stamp.new ≡ record {
      watch = (core_of probe.old).watch;
      from = (core_of probe.old).id;
      to = any_process;
      clock = (core_of probe.new).clock;
    } }
    ensures refused { result ≢ done → (probe.new ≡ probe.old) × (stamp.new ≡ stamp.old) }
{
    let Some(mut core) = probe.load() else {
        return NO_PROBE;
    };
    if let Err(why) = core.send_open() {
        return refusal_number(why);
    }
    probe.set_clock(&core.parts().clock);
    probe.flag_up = 0;
    *stamp = probe.stamp_to(ANY_PROCESS);
    DONE
}
