//! A meeting of the processes of a watch: each waits at its place until all are there.
ghost use Rattle.std.specs.Prelude.{◌≡◌, true};
ghost use Rattle.wcp_model.specs.ProbeLog.{Observed};
ghost use Rattle.wcp_probe.specs.Core.{setup_of};
ghost use Rattle.wcp_relay.specs.LiveProbe.{LiveAccepts};

use crate::lent_probe::{LentProbe, Loan};
use std::sync::{Condvar, CondvarTimeouts, Mutex, Wait};
use std::time::{Clock, Duration};
use wcp_clock::MAX_PROCS;
use wcp_meeting::{Attendance, MeetingPlace, MeetingStep, Present};
use wcp_model::{GlobalCut, Watched};

/// A meeting of some processes of a watch: makes happen what a watch has found, in a second run. Each process that comes
/// to its place waits there for the others. Once all are at their places at the same time, all their conditions hold at
/// once: the moment has happened.
///
/// A meeting happens once: whoever arrives later goes on. That they haven't met proves nothing: either the moment can't
/// be, or the run didn't come there. Then try `at_cut` and `new` in turn, each in a run or more.
#[derive(Drop)]
pub struct Meeting {
    members: Watched,
    places: [MeetingPlace; MAX_PROCS],
    attendance: Mutex<Attendance>,
    changed: Condvar,
}

impl Meeting {
    /// A meeting of these processes, each wherever its condition holds. Nobody is there.
    pub fn new(members: Watched) -> Meeting {
        Meeting::placed(members, [MeetingPlace::Anywhere; MAX_PROCS])
    }

    /// A meeting of these processes, each at its place, and anywhere where it has none in the list. The last place of a
    /// process counts. A place of a process that is no member counts for nothing.
    pub fn at(members: Watched, places: &[(u32, MeetingPlace)]) -> Meeting {
        let mut all = [MeetingPlace::Anywhere; MAX_PROCS];
        for (process, place) in places {
            let number = *process as usize;
            if number < MAX_PROCS {
                all[number] = *place;
            }
        }
        Meeting::placed(members, all)
    }

    /// A meeting of the processes of a cut that a run has found, each in its interval.
    pub fn at_cut(cut: &GlobalCut) -> Meeting {
        let mut members = Watched::none();
        let mut places = [MeetingPlace::Anywhere; MAX_PROCS];
        for number in 0..MAX_PROCS {
            let process = number as u32;
            if let Some(interval) = cut.get(process) {
                members = members.with(process);
                places[number] = MeetingPlace::Interval(interval);
            }
        }
        Meeting::placed(members, places)
    }

    fn placed(members: Watched, places: [MeetingPlace; MAX_PROCS]) -> Meeting {
        Meeting {
            members,
            places,
            attendance: Mutex::new(Attendance::new(members)),
            changed: Condvar::new(),
        }
    }

    /// The process observes that its condition holds. If this is its place, it waits there until all members have
    /// arrived, or so long at most: then it is no longer there. Anywhere else it goes on at once. Answers whether they
    /// have met, now or before. A process that is no member only observes. The label is a number of the caller's, by
    /// which a place is told; what is told of a meeting gives it back.
    ///
    /// Call it at the end of the interval, before the next call of the probe: what the others are to get from the
    /// process it has sent by then. The process keeps the locks of its program, and holds none of the library's.
    pub fn arrive<L: Loan, R: Wait + Clock>(
        &self,
        rt: &R,
        probe: &mut LentProbe<L>,
        label: u64,
        patience: Duration,
    ) -> bool
        ensures observed { LiveAccepts probe.old (Observed true) probe.new }
        ensures same { setup_of probe.new.core ≡ setup_of probe.old.core }
    {
        probe.observe(rt, true);
        let interval = probe.interval();
        self.come(rt, probe.id(), Present { interval, label }, patience)
    }

    /// Waits until all members have arrived, or so long at most, if this is the place of the process. Answers whether
    /// they have.
    fn come<R: Wait + Clock>(
        &self,
        rt: &R,
        process: u32,
        present: Present,
        patience: Duration,
    ) -> bool {
        if !self.members.has(process) {
            return false;
        }
        let mut attendance = self.attendance.lock(rt);
        if !self.places[process as usize].waits_at(present) {
            return attendance.met().is_some();
        }
        attendance.take(MeetingStep::Arrive { process, present });
        if attendance.met().is_some() {
            self.changed.notify_all();
            return true;
        }
        let (mut attendance, _) = self.changed.wait_timeout_while(
            rt,
            attendance,
            patience,
            |seen: &mut Attendance| seen.met().is_none(),
        );
        if attendance.met().is_some() {
            return true;
        }
        attendance.take(MeetingStep::Leave { process });
        false
    }

    /// Who is there, who came, and whether all met.
    pub fn attendance<R: Wait>(&self, rt: &R) -> Attendance {
        *self.attendance.lock(rt)
    }
}
