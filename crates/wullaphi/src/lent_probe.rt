ghost use Rattle.std.specs.Prelude.{◌≡◌, ◌≢◌, ◌∷◌, [], ◌++◌, List, None, OnOk, IfOk, IfErr, MatchResult, Some};
ghost use Rattle.std.specs.Prelude.{slice_index};
ghost use Rattle.wcp_model.specs.ProbeLog.{Call, Closed, Observed, Received, Sent, state_of_log};
ghost use Rattle.wcp_probe.specs.declared.probe.Refusal.TheVariants as refusal;
ghost use Rattle.wcp_probe.specs.Core.{setup_of};
ghost use Rattle.wcp_probe.specs.Refusals.{stamp_refusal, receive_refusal};
ghost use Rattle.wcp_probe.specs.Seal.{IsSealed, seal_of, value_of};
ghost use Rattle.wcp_relay.specs.LiveProbe.{HasLog, LiveAccepts, LiveFor};

use crate::probe_counts::ProbeCounts;
use crate::watch_run::WatchRun;
use std::marker::{Brand, Model, PhantomData};
use std::sync::Wait;
use wcp_clock::Clock;
use wcp_probe::{Refusal, Stamped};
use wcp_tree::{LiveProbe, ProbeEnd};

/// Which probe is lent: a name for proofs, which a program hands on and never chooses.
pub trait Loan {
    ghost use Rattle.std.specs.Prelude.{ℕ, Option};
    ghost use Rattle.wcp_model.specs.declared.probe_setup.ProbeSetup.{ProbeSetup};
    ghost use Rattle.wcp_ring.specs.Ends.{Ring};

    ghost watch: { ℕ };

    ghost made: { ProbeSetup };

    ghost ring: { Option Ring };
}

impl Loan for Brand {
    ghost use Rattle.std.specs.Prelude.{None};
    ghost use Rattle.std.specs.FinSet as set;
    ghost use Rattle.wcp_model.specs.declared.flag.Flag.TheVariants as reset_at;
    ghost use Rattle.wcp_model.specs.ProbeLog.{setup};

    ghost watch = { 0 };

    ghost made = { setup 0 set.empty reset_at.Event 0 };

    ghost ring = { None };
}

/// The probe of a process, which it is lent for as long as it runs. It can be neither dropped nor closed by whoever
/// has it, and nothing is ever pending.
///
/// A contract sees it as the live probe that it is.
pub struct LentProbe<L: Loan> {
    pub(crate) probe: LiveProbe,
    pub(crate) run: WatchRun,
    /// Whether its condition lasts.
    pub(crate) lasts: bool,
    counts: ProbeCounts,
    of: PhantomData<L>,
}

impl<L: Loan> Model for LentProbe<L> {
    ghost use Rattle.wcp_relay.specs.LiveProbe.{LiveSide};
    ghost use Rattle.wullaphi.specs.Lent.{IsLent};

    ghost Value = { LiveSide };

    ghost view = { λ lent. lent.probe };

    ghost invariant = { λ lent. IsLent L.watch L.made L.ring lent.probe };
}

impl<L: Loan> LentProbe<L> {
    ghost use Rattle.wullaphi.specs.Lent.{IsLent};

    /// The probe of a process in this run, before any call.
    pub(crate) fn new(probe: LiveProbe, run: WatchRun) -> LentProbe<L>
        requires { IsLent L.watch L.made L.ring probe }
        ensures { result ≡ probe }
    {
        LentProbe {
            probe,
            run,
            lasts: false,
            counts: ProbeCounts::new(),
            of: PhantomData,
        }
    }

    /// The number of its process.
    pub fn id(&self) -> u32
        ensures { result ≡ self.now.core.id }
    {
        self.probe.id()
    }

    /// The vector clock of its process: how many sends and receives of each process it knows, and how many it has made
    /// itself.
    pub fn clock(&self) -> Clock
        ensures { result ≡ self.now.core.clock }
    {
        self.probe.clock()
    }

    /// The number of the interval that it is in: how many messages its process has sent and received, its own component
    /// of its clock.
    pub fn interval(&self) -> u32
        ensures { result ≡ slice_index self.now.core.clock self.now.core.id }
    {
        self.probe.interval()
    }

    /// The process observes its condition: the first true observation of an interval emits a snapshot, which is put at
    /// once. While the link to the relay is full this sleeps.
    pub fn observe<R: Wait>(&mut self, rt: &R, holds: bool)
        ensures accepted { LiveAccepts self.old (Observed holds) self.new }
        ensures same { setup_of self.new.core ≡ setup_of self.old.core }
    {
        self.counts.count_observation(holds);
        self.probe.observe(holds);
        self.probe.flush_in_watch(rt);
    }

    /// The process sends a message: its stamp goes with it to process `to`. A refusal hands the value back and changes
    /// nothing; it is never `Closed` or `Backlog`.
    pub fn stamp<T>(&mut self, to: u32, value: T) -> Result<Stamped<T>, (Refusal, T)>
        ensures first { MatchResult
            result
            (λ _. stamp_refusal self.old.core to ≡ None)
            (λ back. stamp_refusal self.old.core to ≡ Some back.0) }
        ensures unclosed { IfErr result (λ back. back.0 ≢ refusal.Closed) }
        ensures put { IfErr result (λ back. back.0 ≢ refusal.Backlog) }
        ensures accepted { OnOk result (LiveAccepts self.old Sent self.new) }
        ensures same { setup_of self.new.core ≡ setup_of self.old.core }
        ensures stamped { IfOk result (λ message. IsSealed message (record {
          watch = self.old.core.watch;
          from = self.old.core.id;
          to = to;
          clock = self.new.core.clock;
        }) value) }
        ensures refused { IfErr result (λ back. (back.1 ≡ value) × (self.new ≡ self.old)) }
    {
        let stamped = self.probe.stamp(to, value);
        self.counts.count_stamp(stamped.is_ok());
        stamped
    }

    /// The process receives a message. A refusal hands it back and changes nothing; it is never `Closed` or `Backlog`.
    pub fn receive<T>(&mut self, message: Stamped<T>) -> Result<T, (Refusal, Stamped<T>)>
        ensures first { MatchResult
            result
            (λ _. receive_refusal self.old.core (seal_of message) ≡ None)
            (λ back. receive_refusal self.old.core (seal_of message) ≡ Some back.0) }
        ensures unclosed { IfErr result (λ back. back.0 ≢ refusal.Closed) }
        ensures put { IfErr result (λ back. back.0 ≢ refusal.Backlog) }
        ensures accepted { OnOk result (LiveAccepts self.old (Received (seal_of message).clock) self.new) }
        ensures same { setup_of self.new.core ≡ setup_of self.old.core }
        ensures value { IfOk result (λ value. value ≡ value_of message) }
        ensures refused { IfErr result (λ back. (back.1 ≡ message) × (self.new ≡ self.old)) }
    {
        let from = message.from();
        let received = self.probe.receive(message);
        self.counts.count_receipt(from, received.is_ok());
        received
    }

    /// Puts the close mark, and sleeps while the link is full.
    pub(crate) fn close<R: Wait>(self, rt: &R) -> ProbeEnd
        ensures watch { result.watch ≡ L.watch }
        ensures id { result.id ≡ L.made.process }
        ensures ring { Some result.link.ring ≡ L.ring }
        ensures of_watch { self.core.watch ≡ L.watch }
        ensures process { setup_of self.core ≡ L.made }
        ensures some_log { HasLog self }
        ensures emitted { (log : List Call) → LiveFor self log
            → result.link.put ≡ (state_of_log L.made (log ++ Closed ∷ [])).notes }
    {
        let LentProbe {
            probe,
            run,
            lasts: _,
            counts,
            of: _,
        } = self;
        run.add(probe.id(), &counts);
        probe.close_in_watch(rt)
    }

    /// Drops the probe in place of closing it: its process is lost.
    pub(crate) fn lose(self)
        ensures of_watch { self.core.watch ≡ L.watch }
        ensures process { setup_of self.core ≡ L.made }
        ensures some_log { HasLog self }
    {
        let LentProbe {
            probe,
            run,
            lasts: _,
            counts,
            of: _,
        } = self;
        run.add(probe.id(), &counts);
        drop(probe);
    }
}
