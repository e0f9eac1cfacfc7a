//! The probe of one process, in a caller's memory.
ghost use Rattle.std.specs.Prelude.{◌≡◌, ◌≢◌, ◌==◌, ◌+◌, ◌<◌, ◌≤◌, ◌↔◌, ◌||◌, not, ℕ, IsSome, IsTrue, IfSome};
ghost use Rattle.std.specs.Prelude.{MatchOption};
ghost use Rattle.std.specs.Prelude.{length, replicate, true, false, Some, None, All, take, drop};
ghost use Rattle.wcp_clock.specs.Limits.{most_processes, most_events};
ghost use Rattle.wcp_clock.specs.declared.note.Note.{Note};
ghost use Rattle.wcp_clock.specs.declared.note.Note.TheVariants as note;
ghost use Rattle.wcp_model.specs.declared.flag.Flag.TheVariants.{Event};
ghost use Rattle.wcp_model.specs.ProbeLog.{Observed, Sent, Received, is_up_after_receive};
ghost use Rattle.wcp_model.specs.ProbeLog.{Closed as closed_call};
ghost use Rattle.wcp_probe.specs.Core.{Core, Accepts, IsProbe, IsSameProbe, StandsForLog};
ghost use Rattle.wcp_probe.specs.Refusals.{observe_refusal, close_refusal, stamp_refusal};
ghost use Rattle.wcp_c.specs.Answers.{IsAccepted, IsAnswer, done, done_with_note, no_probe, no_stamp, out_of_range};
ghost use Rattle.wcp_c.specs.Notes.{HoldsNote, item_of, says_watched};
ghost use Rattle.wcp_c.specs.Probes.{HoldsProbe, IsFreshProbe, IsLaidOut, core_of, flag_of, pending_of};
ghost use Rattle.wcp_c.specs.Stamps.{HoldsStamp, seal_of, stamp_magic, is_taken_back, refusal_of_stamp};

use crate::answer::{DONE, DONE_WITH_NOTE, NO_PROBE, NO_STAMP, OUT_OF_RANGE, refusal_number};
use crate::note::{NOTE_MAGIC, WcpNote};
use crate::stamp::{STAMP_MAGIC, WcpStamp};
use wcp_clock::{CLOCK_LIMIT, Clock, MAX_PROCS, Note};
use wcp_model::{Flag, ProbeSetup};
use wcp_probe::{ProbeCore, ProbeParts, ToldProbe};

/// The first word of a probe.
const PROBE_MAGIC: u32 = 0x5743_5031;

/// Nothing is pending.
const NOTHING: u32 = 0;

/// A snapshot is pending.
const SNAPSHOT: u32 = 1;

/// A close mark is pending.
const CLOSE_MARK: u32 = 2;

/// The probe of one process.
#[repr(C)]
#[derive(Clone, Copy)]
pub struct WcpProbe {
    pub magic: u32,
    pub processes: u32,
    pub process: u32,
    pub watched: u32,
    pub flag: u32,
    pub flag_up: u32,
    pub closed: u32,
    pub pending: u32,
    pub emitted: u32,
    pub reserved: u32,
    pub watch: u64,
    pub clock: [u32; MAX_PROCS],
}

impl WcpProbe {
    /// Whether the memory is laid out as a probe's is.
    fn is_laid_out(&self) -> bool
        ensures { IsTrue result ↔ IsLaidOut self.now }
    {
        let n = self.processes as usize;
        if self.magic != PROBE_MAGIC || n == 0 || n > MAX_PROCS {
            return false;
        }
        if self.watched > 1 || self.flag > 1 || self.flag_up > 1 || self.closed > 1 {
            return false;
        }
        if self.pending > CLOSE_MARK
            || (self.pending == SNAPSHOT && self.emitted == 0)
            || self.reserved != 0
        {
            return false;
        }
        self.clock[n..].iter().all(|count| *count == 0)
    }

    /// The probe's clock is this one now.
    #[tactic(auto, using(crate::proofs::Padded::zeros_behind))]
    pub fn set_clock(&mut self, clock: &Clock)
        requires { length clock.now ≡ self.old.processes }
        ensures clock { take self.old.processes self.new.clock ≡ clock.now }
        ensures behind { All (λ count. count ≡ 0) (drop self.old.processes self.new.clock) }
        ensures rest { self.new ≡ record self.old { clock = self.new.clock } }
    {
        self.clock = clock.padded();
    }

    /// The stamp of a message to process `to` that was just sent.
    pub fn stamp_to(&self, to: u32) -> WcpStamp
        ensures { result ≡ record {
          magic = stamp_magic;
          processes = self.now.processes;
          from = self.now.process;
          to = to;
          watch = self.now.watch;
          clock = self.now.clock;
        } }
    {
        WcpStamp {
            magic: STAMP_MAGIC,
            processes: self.processes,
            from: self.process,
            to,
            watch: self.watch,
            clock: self.clock,
        }
    }

    /// The note that is pending, of a probe with this clock.
    fn pending_note(&self, clock: Clock) -> Option<Note>
        requires { self.now.pending ≡ 1 → 0 < self.now.emitted }
        ensures { result ≡ pending_of self.now.pending self.now.emitted clock }
    {
        match self.pending {
            NOTHING => None,
            SNAPSHOT => Some(Note::Snap {
                number: self.emitted - 1,
                clock,
            }),
            _ => Some(Note::Close {
                count: self.emitted,
            }),
        }
    }

    /// Puts the note that is pending, as it is sent to the checker, with this tag.
    #[inline(always)]
    fn put_note(&self, tag: u64, note: &mut WcpNote)
        requires laid_out { IsLaidOut self.now }
        requires process { self.now.process < self.now.processes }
        requires pending { 0 < self.now.pending }
        ensures holds { HoldsNote note.new }
        ensures item { pending_of self.now.pending self.now.emitted (take self.now.processes self.now.clock)
            ≡ Some (item_of note.new).note }
        ensures from { note.new.process ≡ self.now.process }
        ensures processes { note.new.processes ≡ self.now.processes }
        ensures watch { note.new.watch ≡ self.now.watch }
        ensures watched { note.new.watched ≡ self.now.watched }
        ensures tag { note.new.tag ≡ tag }
    {
        note.magic = NOTE_MAGIC;
        note.processes = self.processes;
        note.process = self.process;
        note.kind = self.pending;
        note.watched = self.watched;
        note.watch = self.watch;
        note.tag = tag;
        if self.pending == SNAPSHOT {
            note.number = self.emitted - 1;
            note.clock = self.clock;
        } else {
            note.number = self.emitted;
            note.clock = [0; MAX_PROCS];
        }
    }

    /// The probe that the memory holds. Inlined, so that each call copies only what it needs of it.
    #[inline(always)]
    pub fn load(&self) -> Option<ToldProbe>
        ensures held { IsSome result ↔ HoldsProbe self.now }
        ensures core { IfSome result (λ core. core ≡ core_of self.now) }
    {
        if !self.is_laid_out() {
            return None;
        }
        let clock = Clock::from_padded(&self.clock, self.processes);
        ToldProbe::of_parts(ProbeParts {
            watch: self.watch,
            id: self.process,
            watched: self.watched == 1,
            flag: flag_of(self.flag),
            limit: CLOCK_LIMIT,
            clock,
            flag_up: self.flag_up == 1,
            closed: self.closed == 1,
            emitted: self.emitted,
            pending: self.pending_note(clock),
        })
    }
}

/// What resets the flag.
fn flag_of(number: u32) -> Flag
    ensures { result ≡ flag_of number }
{
    if number == 0 { Flag::Event } else { Flag::Send }
}

/// Makes a probe of process `process` of a watch of this number, of a process that has a condition and whose
/// flag each event resets.
#[unsafe(no_mangle)]
pub extern "C" fn wcp_probe_init(
    probe: &mut WcpProbe,
    watch: u64,
    process: u32,
    processes: u32,
) -> u32
    ensures done { result ≡ done ↔ ((process < processes) × (processes ≤ most_processes)) }
    ensures fresh { result ≡ done → IsFreshProbe probe.new (record {
      watch = watch;
      made = record { processes = processes; process = process; watched = true; flag = Event };
    }) }
    ensures refused { (result ≡ done → ⊥) → (result ≡ out_of_range) × (probe.new ≡ probe.old) }
{
    wcp_probe_init_with(probe, watch, process, processes, 1, 0)
}

/// The same where `watched` says by 1 that the process has a condition and by 0 that it has none, and
/// `flag` by 0 that each event resets the flag and by 1 that each send does.
#[unsafe(no_mangle)]
pub extern "C" fn wcp_probe_init_with(
    probe: &mut WcpProbe,
    watch: u64,
    process: u32,
    processes: u32,
    watched: u32,
    flag: u32,
) -> u32
    ensures done { result ≡ done
        ↔ ((process < processes) × (processes ≤ most_processes) × (watched ≤ 1) × (flag ≤ 1)) }
    ensures fresh { result ≡ done → IsFreshProbe probe.new (record {
      watch = watch;
      made = record {
        processes = processes;
        process = process;
        watched = watched == 1;
        flag = flag_of flag;
      };
    }) }
    ensures refused { (result ≡ done → ⊥) → (result ≡ out_of_range) × (probe.new ≡ probe.old) }
{
    if process >= processes || processes as usize > MAX_PROCS || watched > 1 || flag > 1 {
        return OUT_OF_RANGE;
    }
    let core = ProbeCore::new(
        watch,
        ProbeSetup {
            processes,
            process,
            watched: watched == 1,
            flag: flag_of(flag),
        },
        CLOCK_LIMIT,
    );
    *probe = WcpProbe {
        magic: PROBE_MAGIC,
        processes,
        process,
        watched,
        flag,
        flag_up: 0,
        closed: 0,
        pending: NOTHING,
        emitted: 0,
        reserved: 0,
        watch,
        clock: core.clock().padded(),
    };
    DONE
}

/// The process observes its condition; any number but 0 says that it holds.
#[unsafe(no_mangle)]
pub extern "C" fn wcp_probe_observe(probe: &mut WcpProbe, holds: u32) -> u32
    ensures held { result ≡ no_probe ↔ (HoldsProbe probe.old → ⊥) }
    ensures first { HoldsProbe probe.old → IsAnswer (observe_refusal (core_of probe.old)) result }
    ensures accepted { IsAccepted result
        → Accepts (core_of probe.old) (Observed (not (holds == 0))) (core_of probe.new) }
    ensures emits { IsAccepted result → (result ≡ done_with_note
        ↔ ((holds ≢ 0) × ((core_of probe.old).watched ≡ true) × ((core_of probe.old).flag_up ≡ false))) }
    ensures spared { result ≡ done_with_note → (core_of probe.old).pending ≡ None }
    ensures note { result ≡ done_with_note → core_of probe.new ≡ record (core_of probe.old) {
      flag_up = true;
      emitted = (core_of probe.old).emitted + 1;
      pending = Some (note.Snap (core_of probe.old).emitted (core_of probe.old).clock);
    } }
    ensures holds { HoldsProbe probe.old → HoldsProbe probe.new }
    ensures same { result ≢ done_with_note → probe.new ≡ probe.old }
{
    let Some(mut core) = probe.load() else {
        return NO_PROBE;
    };
    match core.observe(holds != 0) {
        Ok(true) => {
            probe.flag_up = 1;
            probe.emitted = core.parts().emitted;
            probe.pending = SNAPSHOT;
            DONE_WITH_NOTE
        }
        Ok(false) => DONE,
        Err(why) => refusal_number(why),
    }
}

/// The process sends a message to process `to`: the stamp goes along with it.
#[unsafe(no_mangle)]
pub extern "C" fn wcp_probe_stamp(probe: &mut WcpProbe, to: u32, stamp: &mut WcpStamp) -> u32
    ensures held { result ≡ no_probe ↔ (HoldsProbe probe.old → ⊥) }
    ensures first { HoldsProbe probe.old → IsAnswer (stamp_refusal (core_of probe.old) to) result }
    ensures alone { result ≢ done_with_note }
    ensures accepted { result ≡ done → Accepts (core_of probe.old) Sent (core_of probe.new) }
    ensures same { result ≡ done → IsSameProbe (core_of probe.old) (core_of probe.new) }
    ensures rest { result ≡ done → core_of probe.new
        ≡ record (core_of probe.old) { clock = (core_of probe.new).clock; flag_up = false } }
    ensures holds { HoldsProbe probe.old → HoldsProbe probe.new }
    ensures stamp { result ≡ done → HoldsStamp stamp.new }
    ensures sealed { result ≡ done → seal_of stamp.new ≡ record {
      watch = (core_of probe.old).watch;
      from = (core_of probe.old).id;
      to = to;
      clock = (core_of probe.new).clock;
    } }
    ensures refused { result ≢ done → (probe.new ≡ probe.old) × (stamp.new ≡ stamp.old) }
{
    let Some(mut core) = probe.load() else {
        return NO_PROBE;
    };
    if let Err(why) = core.send(to) {
        return refusal_number(why);
    }
    probe.set_clock(&core.parts().clock);
    probe.flag_up = 0;
    *stamp = probe.stamp_to(to);
    DONE
}

/// The process receives the message that this stamp came with. Where that is an open message of its own, nothing
/// changes.
#[unsafe(no_mangle)]
pub extern "C" fn wcp_probe_receive(probe: &mut WcpProbe, stamp: &WcpStamp) -> u32
    ensures held { result ≡ no_probe ↔ (HoldsProbe probe.old → ⊥) }
    ensures stamp { HoldsProbe probe.old → (result ≡ no_stamp ↔ (HoldsStamp stamp.now → ⊥)) }
    ensures first { HoldsProbe probe.old → HoldsStamp stamp.now
        → IsAnswer (refusal_of_stamp (core_of probe.old) stamp.now) result }
    ensures alone { result ≢ done_with_note }
    ensures own { IsTrue (is_taken_back (core_of probe.old) stamp.now) → probe.new ≡ probe.old }
    ensures accepted { result ≡ done → is_taken_back (core_of probe.old) stamp.now ≡ false
        → Accepts (core_of probe.old) (Received (seal_of stamp.now).clock) (core_of probe.new) }
    ensures same { result ≡ done → IsSameProbe (core_of probe.old) (core_of probe.new) }
    ensures rest { result ≡ done → is_taken_back (core_of probe.old) stamp.now ≡ false
        → core_of probe.new ≡ record (core_of probe.old) {
          clock = (core_of probe.new).clock;
          flag_up = is_up_after_receive (core_of probe.old).flag (core_of probe.old).flag_up;
        } }
    ensures holds { HoldsProbe probe.old → HoldsProbe probe.new }
    ensures refused { result ≢ done → probe.new ≡ probe.old }
{
    let Some(mut core) = probe.load() else {
        return NO_PROBE;
    };
    let Some(clock) = stamp.clock() else {
        return NO_STAMP;
    };
    match stamp.receive_by(&mut core, &clock) {
        Ok(true) => {
            let parts = core.parts();
            probe.set_clock(&parts.clock);
            probe.flag_up = u32::from(parts.flag_up);
            DONE
        }
        Ok(false) => DONE,
        Err(why) => refusal_number(why),
    }
}

/// Gives the pending note with this tag, if there is one, to be sent to the checker; it then is no longer pending.
#[unsafe(no_mangle)]
pub extern "C" fn wcp_probe_next(probe: &mut WcpProbe, tag: u64, note: &mut WcpNote) -> u32
    ensures held { result ≡ no_probe ↔ (HoldsProbe probe.old → ⊥) }
    ensures accepted { HoldsProbe probe.old → IsAccepted result }
    ensures pending { HoldsProbe probe.old
        → (result ≡ done_with_note ↔ IsSome (core_of probe.old).pending) }
    ensures note { result ≡ done_with_note → HoldsNote note.new }
    ensures item { result ≡ done_with_note
        → (core_of probe.old).pending ≡ Some (item_of note.new).note }
    ensures from { result ≡ done_with_note → (item_of note.new).from ≡ (core_of probe.old).id }
    ensures processes { result ≡ done_with_note → note.new.processes ≡ length (core_of probe.old).clock }
    ensures watch { result ≡ done_with_note → note.new.watch ≡ (core_of probe.old).watch }
    ensures watched { result ≡ done_with_note → says_watched note.new ≡ (core_of probe.old).watched }
    ensures tag { result ≡ done_with_note → note.new.tag ≡ tag }
    ensures put { result ≡ done_with_note → core_of probe.new ≡ record (core_of probe.old) { pending = None } }
    ensures holds { HoldsProbe probe.old → HoldsProbe probe.new }
    ensures same { result ≢ done_with_note → (probe.new ≡ probe.old) × (note.new ≡ note.old) }
{
    let Some(mut core) = probe.load() else {
        return NO_PROBE;
    };
    if core.pending().is_none() {
        return DONE;
    }
    probe.put_note(tag, note);
    core.was_put();
    probe.pending = NOTHING;
    DONE_WITH_NOTE
}

/// The process ends its part: a mark that counts its snapshots is pending, and nothing more is accepted.
#[unsafe(no_mangle)]
pub extern "C" fn wcp_probe_close(probe: &mut WcpProbe) -> u32
    ensures held { result ≡ no_probe ↔ (HoldsProbe probe.old → ⊥) }
    ensures first { HoldsProbe probe.old → IsAnswer (close_refusal (core_of probe.old)) result }
    ensures note { result ≢ done }
    ensures accepted { result ≡ done_with_note
        → Accepts (core_of probe.old) closed_call (core_of probe.new) }
    ensures pending { result ≡ done_with_note → core_of probe.new ≡ record (core_of probe.old) {
      closed = true;
      pending = Some (note.Close (core_of probe.old).emitted);
    } }
    ensures holds { HoldsProbe probe.old → HoldsProbe probe.new }
    ensures refused { result ≢ done_with_note → probe.new ≡ probe.old }
{
    let Some(mut core) = probe.load() else {
        return NO_PROBE;
    };
    if let Err(why) = core.close() {
        return refusal_number(why);
    }
    probe.closed = 1;
    probe.pending = CLOSE_MARK;
    DONE_WITH_NOTE
}
