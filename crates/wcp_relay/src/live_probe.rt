ghost use Rattle.std.specs.Prelude.{◌≡◌, ◌≢◌, ◌+◌, ◌<◌, ◌≤◌, ◌↔◌, true, false, [], ◌∷◌};
ghost use Rattle.std.specs.Prelude.{◌++◌, List, IsTrue, IsOk, IfOk, OnOk, OnErr, IfErr};
ghost use Rattle.std.specs.Prelude.{MatchResult, IsSome, if◌then◌else◌, slice_index};
ghost use Rattle.wcp_clock.specs.Limits.{most_processes};
ghost use Rattle.wcp_clock.specs.declared.note.Note.TheVariants as note;
ghost use Rattle.wcp_model.specs.ProbeLog.{Call, Observed, Sent, Received};
ghost use Rattle.wcp_probe.specs.declared.probe.Refusal.TheVariants as refusal;
ghost use Rattle.wcp_probe.specs.Core.{IsSameProbe};
ghost use Rattle.wcp_probe.specs.Seal.{seal_of, value_of, IsSealed};
ghost use Rattle.wcp_probe.specs.Refusals.{stamp_refusal, receive_refusal};
ghost use Rattle.wcp_relay.specs.LiveProbe.{LiveFor, LiveAccepts, HasEmitted, IsEndOfProbe};
ghost use Rattle.wcp_relay.specs.LiveProbe.{fresh_core, emitted_by, snapshots_in, NotesRise};

use std::alloc::{AllocError, Global};
use std::marker::Model;
use std::sync::Wait;
use wcp_clock::{CLOCK_LIMIT, Clock, Note};
use wcp_model::ProbeSetup;
use wcp_probe::{ProbeCore, Refusal, Stamped};
use wcp_ring::{Gone, PutterEnd, RingPutter, Sleeper};

/// The probe of a process that runs: its core, and the end of the ring by which its notes go to its
/// relay. None of its calls takes memory but `new_sleeper`, and none waits but `flush_waiting` and `close_waiting`, and
/// `flush_in_watch` and `close_in_watch`.
///
/// A contract sees it as its core and its end of the ring. It always stands for some log, so that the clocks of its
/// snapshots rise.
#[derive(Drop)]
pub struct LiveProbe {
    watch: u64,
    id: u32,
    pub(crate) core: ProbeCore,
    putter: RingPutter,
    /// By this it waits while the ring is full.
    sleeper: Sleeper,
}

impl Model for LiveProbe {
    ghost use Rattle.std.specs.Prelude.{◌≡◌, ◌<◌, false, length};
    ghost use Rattle.wcp_relay.specs.LiveProbe.{LiveSide, HasLog, emitted_by, snapshots_in};

    ghost Value = { LiveSide };

    ghost view = { λ p. record { core = p.core; link = p.putter } };

    ghost invariant = { λ p. record {
      watch : p.core.watch ≡ p.watch;
      process : p.core.id ≡ p.id;
      unclosed : p.core.closed ≡ false;
      counted : p.core.emitted ≡ snapshots_in (emitted_by (record { core = p.core; link = p.putter }));
      within : p.core.id < length p.core.clock;
      logged : HasLog (record { core = p.core; link = p.putter });
    } };
}

impl LiveProbe {
    /// The probe that is made with this, of a watch of this number, before any call. Its notes go into
    /// this ring, whose other end is to ring a bell of this sleeper.
    pub fn new(watch: u64, made: ProbeSetup, putter: RingPutter, sleeper: Sleeper) -> LiveProbe
        requires process { made.process < made.processes }
        requires processes { made.processes ≤ most_processes }
        requires empty { putter.put ≡ [] }
        ensures fresh { result ≡ record { core = fresh_core watch made; link = putter } }
        ensures stands { LiveFor result [] }
    {
        LiveProbe {
            watch,
            id: made.process,
            core: ProbeCore::new(watch, made, CLOCK_LIMIT),
            putter,
            sleeper,
        }
    }

    /// The same probe, which from now on tells its relay late of what it puts: once half of the link's room was filled,
    /// before it waits for room, and as it closes. A relay that sleeps doesn't see what is put between. So whoever has
    /// such a probe calls `tell_relay` before the process waits for anything, or waits by a sleeper of `new_sleeper`.
    pub fn telling_late(self) -> LiveProbe
        ensures { result ≡ self }
    {
        LiveProbe {
            watch: self.watch,
            id: self.id,
            core: self.core,
            putter: self.putter.ringing_late(),
            sleeper: self.sleeper,
        }
    }

    /// A sleeper for its process. It looks on for what it waits for while that pays, and tells the relay of what the
    /// probe has put before it says that it sleeps. `Err` where memory runs out.
    pub fn new_sleeper(&self, alloc: Global) -> Result<Sleeper, AllocError> {
        self.putter.new_sleeper(alloc)
    }

    /// Wakes its relay, if it sleeps, for what was put.
    pub fn tell_relay(&self) {
        self.putter.tell();
    }

    /// The number of its process.
    pub fn id(&self) -> u32
        ensures { result ≡ self.now.core.id }
    {
        self.id
    }

    /// The vector clock of its process.
    pub fn clock(&self) -> Clock
        ensures { result ≡ self.now.core.clock }
    {
        self.core.clock()
    }

    /// The number of the interval that its process is in: its own component of its clock.
    pub fn interval(&self) -> u32
        ensures { result ≡ slice_index self.now.core.clock self.now.core.id }
    {
        let clock = self.core.clock();
        let _processes = clock.len(); // at most 16, so that `get` is allowed
        clock.get(self.id)
    }

    /// The process observes its condition. The answer is whether a snapshot was emitted, which then
    /// is pending: a true observation emits one where the flag isn't up and the process is watched.
    pub fn observe(&mut self, holds: bool) -> bool
        ensures accepted { LiveAccepts self.old (Observed holds) self.new }
        ensures emits { IsTrue result
            ↔ (IsTrue holds × (self.old.core.watched ≡ true) × (self.old.core.flag_up ≡ false)) }
        ensures spared { IsTrue result → self.old.core.pending ≡ None }
        ensures link { self.new.link ≡ self.old.link }
        ensures pending { self.new.core ≡ (if result
            then record self.old.core {
              flag_up = true;
              emitted = self.old.core.emitted + 1;
              pending = Some (note.Snap self.old.core.emitted self.old.core.clock);
            }
            else self.old.core) }
    {
        match self.core.observe(holds) {
            Ok(emitted) => emitted,
            Err(_) => unreachable!(),
        }
    }

    /// Makes one try to put what is pending. The answer is whether nothing is pending afterwards.
    pub fn flush(&mut self) -> bool
        ensures done { IsTrue result ↔ (self.new.core.pending ≡ None) }
        ensures core { self.new.core ≡ record self.old.core { pending = self.new.core.pending } }
        ensures ring { self.new.link.ring ≡ self.old.link.ring }
        ensures whole { emitted_by self.new ≡ emitted_by self.old }
        ensures accepts { 0 < self.old.link.free → IsTrue result }
        ensures full { result ≡ false → self.new.link.free ≡ 0 }
        ensures kept { result ≡ false
            → (self.new.core ≡ self.old.core) × (self.new.link.put ≡ self.old.link.put) }
        ensures stands { (log : List Call) → LiveFor self.old log → LiveFor self.new log }
    {
        let Some(note) = self.core.pending() else {
            return true;
        };
        match self.putter.try_put(*note) {
            Ok(()) => {
                self.core.was_put();
                true
            }
            Err(_) => false,
        }
    }

    /// The process sends a message: its stamp carries the clock after the send.
    pub fn stamp<T>(&mut self, to: u32, value: T) -> Result<Stamped<T>, (Refusal, T)>
        ensures first { MatchResult
            result
            (λ _. stamp_refusal self.old.core to ≡ None)
            (λ back. stamp_refusal self.old.core to ≡ Some back.0) }
        ensures unclosed { IfErr result (λ back. back.0 ≢ refusal.Closed) }
        ensures accepted { OnOk result (LiveAccepts self.old Sent self.new) }
        ensures same { OnOk result (IsSameProbe self.old.core self.new.core) }
        ensures kept { OnOk result
            ((self.new.core.pending ≡ self.old.core.pending) × (self.new.link ≡ self.old.link)) }
        ensures stamped { IfOk result (λ message. IsSealed message (record {
          watch = self.old.core.watch;
          from = self.old.core.id;
          to = to;
          clock = self.new.core.clock;
        }) value) }
        ensures refused { IfErr result (λ back. (back.1 ≡ value) × (self.new ≡ self.old)) }
    {
        self.core.stamp(to, value)
    }

    /// The process receives a message: its clock then knows what the sender's knew after the send.
    pub fn receive<T>(&mut self, message: Stamped<T>) -> Result<T, (Refusal, Stamped<T>)>
        ensures first { MatchResult
            result
            (λ _. receive_refusal self.old.core (seal_of message) ≡ None)
            (λ back. receive_refusal self.old.core (seal_of message) ≡ Some back.0) }
        ensures unclosed { IfErr result (λ back. back.0 ≢ refusal.Closed) }
        ensures accepted { OnOk result (LiveAccepts self.old (Received (seal_of message).clock) self.new) }
        ensures same { OnOk result (IsSameProbe self.old.core self.new.core) }
        ensures kept { OnOk result
            ((self.new.core.pending ≡ self.old.core.pending) × (self.new.link ≡ self.old.link)) }
        ensures value { IfOk result (λ value. value ≡ value_of message) }
        ensures refused { IfErr result (λ back. (back.1 ≡ message) × (self.new ≡ self.old)) }
    {
        self.core.receive(message)
    }

    /// The process ends its part: the mark that counts its snapshots goes into the ring. Where a note is
    /// pending, or the ring has no room for the mark, the probe comes back as it was, and is not closed.
    pub fn close(mut self) -> Result<ProbeEnd, (Refusal, LiveProbe)>
        ensures backlog { IsSome self.core.pending → IfErr result (λ back. back.1 ≡ self) }
        ensures accepts { self.core.pending ≡ None → 0 < self.link.free → IsOk result }
        ensures reason { IfErr result (λ back. back.0 ≡ refusal.Backlog) }
        ensures unchanged { IfErr result (λ back.
            (back.1.core ≡ self.core) × (back.1.link.ring ≡ self.link.ring) × (back.1.link.put ≡ self.link.put)) }
        ensures full { self.core.pending ≡ None → IfErr result (λ back. back.1.link.free ≡ 0) }
        ensures closed { IfOk result (λ end. end ≡ record {
          watch = self.core.watch;
          id = self.core.id;
          link = record { ring = self.link.ring; put = self.link.put ++ note.Close self.core.emitted ∷ [] };
        }) }
        ensures accepted { IfOk result (λ end. (log : List Call) → LiveFor self log → HasEmitted self log end) }
    {
        if self.core.pending().is_some() {
            return Err((Refusal::Backlog, self));
        }
        let emitted = self.core.emitted();
        match self.putter.try_put(Note::Close { count: emitted }) {
            Ok(()) => Ok(ProbeEnd {
                watch: self.watch,
                id: self.id,
                emitted,
                link: self.putter.end(),
            }),
            Err(_) => Err((Refusal::Backlog, self)),
        }
    }

    /// Puts what is pending, and sleeps while the ring is full. A relay that runs makes room as it gets on, also where
    /// its own lane is cut. `Err` where the ring is full and the relay is gone, since it was dropped, or has ended by
    /// another fault: then what is pending can't be put any more.
    pub fn flush_waiting<R: Wait>(&mut self, rt: &R) -> Result<(), Gone>
        ensures put { OnOk result (self.new.core ≡ record self.old.core { pending = None }) }
        ensures gone { OnErr result (self.new.core ≡ self.old.core) }
        ensures ring { self.new.link.ring ≡ self.old.link.ring }
        ensures whole { emitted_by self.new ≡ emitted_by self.old }
        ensures stands { (log : List Call) → LiveFor self.old log → LiveFor self.new log }
    {
        for _ in rt.forever() {
            if self.flush() {
                self.sleeper.stir();
                return Ok(());
            }
            self.wait_for_room(rt)?;
        }
        unreachable!()
    }

    /// Puts what is pending, and closes the probe. It sleeps while the ring is full, as `flush_waiting` does. `Err`
    /// hands the probe back, open, where the ring is full and the relay is gone.
    pub fn close_waiting<R: Wait>(mut self, rt: &R) -> Result<ProbeEnd, (Gone, LiveProbe)>
        ensures closed { IfOk result (IsEndOfProbe self) }
        ensures emitted { IfOk result (λ end. (log : List Call) → LiveFor self log → HasEmitted self log end) }
        ensures core { IfErr result (λ back. back.1.core ≡ record self.core { pending = back.1.core.pending }) }
        ensures ring { IfErr result (λ back. back.1.link.ring ≡ self.link.ring) }
        ensures whole { IfErr result (λ back. emitted_by back.1 ≡ emitted_by self) }
        ensures stands { IfErr result (λ back. (log : List Call) → LiveFor self log → LiveFor back.1 log) }
    {
        if let Err(gone) = self.flush_waiting(rt) {
            return Err((gone, self));
        }
        let mut probe = self;
        for _ in rt.forever() {
            match probe.close() {
                Ok(end) => return Ok(end),
                Err((_, same)) => probe = same,
            }
            if let Err(gone) = probe.wait_for_room(rt) {
                return Err((gone, probe));
            }
        }
        unreachable!()
    }

    /// Puts what is pending, and sleeps while the ring is full, for a process whose relay runs until the process has
    /// ended, as each relay of a whole watch does. Where the relay is gone, this sleeps for good.
    pub fn flush_in_watch<R: Wait>(&mut self, rt: &R)
        ensures core { self.new.core ≡ record self.old.core { pending = None } }
        ensures ring { self.new.link.ring ≡ self.old.link.ring }
        ensures stands { (log : List Call) → LiveFor self.old log → LiveFor self.new log }
    {
        for _ in rt.forever() {
            match self.flush_waiting(rt) {
                Ok(()) => return,
                Err(_) => self.sleep(rt),
            }
        }
        unreachable!()
    }

    /// Puts what is pending, and closes the probe. It waits for its relay as `flush_in_watch` does.
    pub fn close_in_watch<R: Wait>(self, rt: &R) -> ProbeEnd
        ensures closed { IsEndOfProbe self result }
        ensures emitted { (log : List Call) → LiveFor self log → HasEmitted self log result }
    {
        let mut probe = self;
        for _ in rt.forever() {
            match probe.close_waiting(rt) {
                Ok(end) => return end,
                Err((_, same)) => probe = same,
            }
            probe.sleep(rt);
        }
        unreachable!()
    }

    /// Lets some time pass, while the ring is full: the relay is told of what was put, and wakes it once half of the
    /// room is free. `Err` where the relay is gone.
    fn wait_for_room<R: Wait>(&mut self, rt: &R) -> Result<(), Gone>
        ensures core { self.new.core ≡ self.old.core }
        ensures ring { self.new.link.ring ≡ self.old.link.ring }
        ensures put { self.new.link.put ≡ self.old.link.put }
        ensures stands { (log : List Call) → LiveFor self.old log → LiveFor self.new log }
    {
        self.putter.linked()?;
        self.putter.tell();
        self.sleeper.rest(rt);
        Ok(())
    }

    /// Lets some time pass.
    fn sleep<R: Wait>(&mut self, rt: &R)
        ensures { self.new ≡ self.old }
    {
        self.sleeper.rest(rt);
    }
}

/// What is left of a live probe that is closed. It keeps what was put into its ring: the clocks of these snapshots
/// never fall in a component, and rise in the process's own.
///
/// A contract sees it as its watch, its process and the end of its ring.
#[derive(Drop)]
pub struct ProbeEnd {
    watch: u64,
    id: u32,
    emitted: u32,
    link: PutterEnd,
}

impl Model for ProbeEnd {
    ghost use Rattle.std.specs.Prelude.{◌≡◌};
    ghost use Rattle.wcp_relay.specs.LiveProbe.{ClosedSide, NotesRise, snapshots_in};

    ghost Value = { ClosedSide };

    ghost view = { λ e. record { watch = e.watch; id = e.id; link = e.link } };

    ghost invariant = { λ e. record {
      counted : e.emitted ≡ snapshots_in e.link.put;
      rising : NotesRise e.id e.link.put;
    } };
}

impl ProbeEnd {
    /// The number of its watch.
    pub fn watch(&self) -> u64
        ensures { result ≡ self.now.watch }
    {
        self.watch
    }

    /// The number of its process.
    pub fn id(&self) -> u32
        ensures { result ≡ self.now.id }
    {
        self.id
    }

    /// How many snapshots the process has emitted.
    pub fn emitted(&self) -> u32
        ensures counted { result ≡ snapshots_in self.now.link.put }
        ensures rising { NotesRise self.now.id self.now.link.put }
    {
        self.emitted
    }

    /// The end of its ring.
    pub fn into_link(self) -> PutterEnd
        ensures link { result ≡ self.link }
        ensures rising { NotesRise self.id self.link.put }
    {
        self.link
    }
}
