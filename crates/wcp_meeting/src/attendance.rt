//! Who is at a meeting.
ghost use Rattle.std.specs.Prelude.{◌≡◌, ◌<◌, true, List, [], ◌∷◌, ◌++◌, ◌&&◌, is_some, not, slice_index_or, slice_set, Some, None, IfSome, IfNone, if◌then◌else◌};
ghost use Rattle.std.specs.FinSet as set;
ghost use Rattle.wcp_clock.specs.Limits.{most_processes};
ghost use Rattle.wcp_meeting.specs.Steps.{all_here, are_all_in, process_of};

use crate::present::Present;
use crate::step::MeetingStep;
use wcp_clock::{MAX_PROCS, ProcessSet};

/// For each process, by its number, where it is, if it is there.
pub type Gathering = [Option<Present>; MAX_PROCS];

/// Who of the members of a meeting is there, and whether all were at once.
#[derive(Clone, Copy, Debug)]
pub struct Attendance {
    members: ProcessSet,
    here: Gathering,
    came: ProcessSet,
    met: Option<Gathering>,
    ghost all_in: { are_all_in members met ≡ true },
}

impl Attendance {
    ghost use Rattle.wcp_meeting.specs.Attendance.{StandsFor};
    ghost use Rattle.wcp_meeting.specs.declared.step.MeetingStep.{MeetingStep as AnyStep};

    /// Nobody is there. These are to meet.
    pub fn new(members: ProcessSet) -> Attendance
        ensures { StandsFor members [] result }
    {
        let here = [None; MAX_PROCS];
        Attendance {
            members,
            here,
            came: ProcessSet::none(),
            met: met_at(&members, &here),
        }
    }

    /// The next step of a process.
    pub fn take(&mut self, step: MeetingStep)
        requires { process_of step < most_processes }
        ensures { (members : _) (steps : List AnyStep) → StandsFor members steps self.old →
            StandsFor members (steps ++ step ∷ []) self.new }
    {
        match step {
            MeetingStep::Arrive { process, present } => {
                self.came = self.came.with(process);
                self.put(process, Some(present));
            }
            MeetingStep::Leave { process } => self.put(process, None),
        }
    }

    /// A process is present so, or it isn't there, unless all have met.
    fn put(&mut self, process: u32, present: Option<Present>)
        requires { process < most_processes }
        ensures members { self.new.members ≡ self.old.members }
        ensures came { self.new.came ≡ self.old.came }
        ensures stays { IfSome self.old.met (λ _. self.new.met ≡ self.old.met) }
        ensures here { IfNone self.old.met (self.new.here ≡ slice_set self.old.here process present) }
        ensures met { IfNone self.old.met (self.new.met ≡ (if all_here self.old.members self.new.here
            then Some self.new.here else None)) }
    {
        if self.met.is_some() {
            return;
        }
        self.here[process as usize] = present;
        self.met = met_at(&self.members, &self.here);
    }

    /// Where each process was that was there, at the first point at which all members were.
    pub fn met(&self) -> Option<Gathering>
        ensures is { result ≡ self.now.met }
        ensures all_there { IfSome result (λ there. all_here self.now.members there ≡ true) }
    {
        self.met
    }

    /// Whether a process is there, while they have not met.
    pub fn is_here(&self, process: u32) -> bool
        requires { process < most_processes }
        ensures { result ≡ is_some (slice_index_or self.now.here process None) }
    {
        self.here[process as usize].is_some()
    }

    /// Whether a process is to meet the others.
    pub fn is_member(&self, process: u32) -> bool
        ensures { result ≡ set.contains self.now.members process }
    {
        self.members.has(process)
    }

    /// Whether a process ever came.
    pub fn has_come(&self, process: u32) -> bool
        ensures { result ≡ set.contains self.now.came process }
    {
        self.came.has(process)
    }
}

/// What this attendance is where all members are there.
fn met_at(members: &ProcessSet, here: &Gathering) -> Option<Gathering>
    ensures { result ≡ (if all_here members.now here.now then Some here.now else None) }
{
    if are_all_here(members, here) {
        Some(*here)
    } else {
        None
    }
}

/// Whether each member is there.
fn are_all_here(members: &ProcessSet, here: &Gathering) -> bool
    ensures { result ≡ all_here members.now here.now }
{
    for process in 0..MAX_PROCS {
        if is_missing(members, here, process) {
            return false;
        }
    }
    true
}

/// Whether this process is a member that isn't there.
fn is_missing(members: &ProcessSet, here: &Gathering, process: usize) -> bool
    requires { process < most_processes }
    ensures { result ≡ (set.contains members.now process && not (is_some (slice_index_or here.now process None))) }
{
    members.has(process as u32) && here[process].is_none()
}
