ghost use Rattle.std.specs.Prelude.{◌≡◌, ◌≢◌, ◌<◌, ◌≤◌, [], MatchOption, length, None, true, OnOk};
ghost use Rattle.wcp_clock.specs.Limits.{most_processes};
ghost use Rattle.wcp_clock.specs.declared.note.Note.{Note};
ghost use Rattle.wcp_model.specs.ProbeLog.{Observed, Sent, Received, Closed};
ghost use Rattle.wcp_probe.specs.Seal.{seal_of};
ghost use Rattle.wcp_queue.specs.Checker.{MayTake, TakesItem, processes};
ghost use Rattle.wcp_single.specs.WorkloadProcess.{Feeds, IsRunning, IsCaughtUp, MayCommunicate, MayReceive, MakesCall};

use std::alloc::AllocError;
use wcp_clock::CLOCK_LIMIT;
use wcp_model::ProbeSetup;
use wcp_probe::{ProbeCore, Stamped};
use wcp_queue::Checker;

/// The watch of every probe of a workload.
const WATCH: u64 = 0;

/// A process of a workload: its number, and its probe, which feeds the checker.
#[derive(Drop)]
pub struct WorkloadProcess {
    id: u32,
    probe: ProbeCore,
}

impl WorkloadProcess {
    /// The process whose probe is made with this, before its first step.
    pub fn new(made: ProbeSetup) -> WorkloadProcess
        requires process { made.process < made.processes }
        requires few { made.processes ≤ most_processes }
        ensures { IsRunning made [] result }
    {
        WorkloadProcess {
            id: made.process,
            probe: ProbeCore::new(WATCH, made, CLOCK_LIMIT),
        }
    }

    /// The process observes its condition. `Err` where memory runs out.
    pub fn observe(&mut self, holds: bool, checker: &mut Checker) -> Result<(), AllocError>
        requires { IsCaughtUp self.old checker.old }
        ensures runs { OnOk result (MakesCall self.old (Observed holds) self.new) }
        ensures feeds { OnOk result (Feeds self.old (Observed holds) checker.old checker.new) }
    {
        match self.probe.observe(holds) {
            Ok(emitted) => {
                if emitted {
                    self.hand_over(checker)
                } else {
                    Ok(())
                }
            }
            Err(_) => unreachable!(),
        }
    }

    /// The process makes no more steps. `Err` where memory runs out.
    pub fn close(&mut self, checker: &mut Checker) -> Result<(), AllocError>
        requires { IsCaughtUp self.old checker.old }
        ensures feeds { OnOk result (Feeds self.old Closed checker.old checker.new) }
        ensures closed { OnOk result
            (self.new ≡ record self.old { probe = record self.old.probe { closed = true; pending = None } }) }
    {
        match self.probe.close() {
            Ok(()) => self.hand_over(checker),
            Err(_) => unreachable!(),
        }
    }

    /// The checker takes what is pending, if anything is. `Err` where memory runs out.
    #[inline(always)]
    fn hand_over(&mut self, checker: &mut Checker) -> Result<(), AllocError>
        requires { MatchOption
            self.old.probe.pending
            (Unit {0})
            (λ note. MayTake checker.old (record { from = self.old.id; note = note })) }
        ensures taken { OnOk result (MatchOption
            self.old.probe.pending
            (checker.new ≡ checker.old)
            (λ note. TakesItem checker.old checker.new (record { from = self.old.id; note = note }))) }
        ensures processes { processes checker.new ≡ processes checker.old }
        ensures watched { checker.new.watched ≡ checker.old.watched }
        ensures put { OnOk result (self.new ≡ record self.old { probe = record self.old.probe { pending = None } }) }
    {
        let Some(note) = self.probe.pending() else {
            return Ok(());
        };
        checker.take_note(self.id, note)?;
        self.probe.was_put();
        Ok(())
    }

    /// The process sends a message to another.
    pub fn send(&mut self, to: u32) -> Stamped<()>
        requires may { MayCommunicate self.old }
        requires within { to < length self.old.probe.clock }
        requires other { to ≢ self.old.probe.id }
        ensures runs { MakesCall self.old Sent self.new }
        ensures seal { seal_of result ≡ record {
          watch = self.old.probe.watch;
          from = self.old.probe.id;
          to = to;
          clock = self.new.probe.clock;
        } }
    {
        match self.probe.stamp(to, ()) {
            Ok(message) => message,
            Err(_) => unreachable!(),
        }
    }

    /// The process receives a message.
    pub fn receive(&mut self, message: Stamped<()>)
        requires { MayReceive self.old (seal_of message) }
        ensures { MakesCall self.old (Received (seal_of message).clock) self.new }
    {
        match self.probe.receive(message) {
            Ok(()) => {}
            Err(_) => unreachable!(),
        }
    }

    /// How many snapshots the process has emitted.
    pub fn emitted(&self) -> u32
        ensures { result ≡ self.now.probe.emitted }
    {
        self.probe.emitted()
    }
}
