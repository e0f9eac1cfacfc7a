ghost use Rattle.std.specs.Prelude.{◌≡◌, ◌↔◌, ◌≤◌, IfSome, IsNone, List, length};
ghost use Rattle.wcp_clock.specs.ProcessNumbers.{NumberSet};
ghost use Rattle.wcp_queue.specs.Panel.{watched_by};
ghost use Rattle.wcp_relay.specs.declared.checker_inbox.CheckerInbox.{CheckerInbox};
ghost use Rattle.wcp_watch.specs.CheckerEnds as of_loop;
ghost use Rattle.wcp_watch.specs.CheckerEnds.{IsEndOfLoop, IsReportTold, report_at};

use thiserror::Error;
use wcp_lane::{Cut, TakeReceipt};
use wcp_model::Report;
use wcp_queue::Panel;
use wcp_relay::Bundle;

/// Why a report of a checker's loop isn't that of all snapshots: the first reason that applies.
#[derive(Clone, Copy, Debug, PartialEq, Eq, Error)]
pub enum CheckFault {
    /// Memory ran out as it took a snapshot: a question was starved.
    #[error("memory")]
    Memory,
    /// The root's lane was cut.
    #[error(transparent)]
    Cut(Cut),
    /// This process was lost, the lowest such one: its probe was dropped before it closed.
    #[error("process {0} was lost")]
    Lost(u32),
}

/// The fault of a loop of which a question was starved, whose lane was cut, or of which a process was lost.
pub fn first_fault(starved: bool, cut: Option<Cut>, lost: Option<u32>) -> Option<CheckFault>
    ensures { result ≡ of_loop.first_fault starved cut lost }
{
    if starved {
        return Some(CheckFault::Memory);
    }
    cut.map(CheckFault::Cut).or(lost.map(CheckFault::Lost))
}

/// What is left of the checker's loop.
#[derive(Drop)]
pub struct CheckerEnd {
    /// The number of its watch.
    pub(crate) watch: u64,
    /// How many processes the watch has.
    pub(crate) processes: u32,
    /// How many relays the watch has.
    pub(crate) relays: u32,
    /// What is left of the end of the root's lane that took.
    pub(crate) receipt: TakeReceipt<Bundle>,
    /// Its questions, which have taken all that was taken.
    pub(crate) panel: Panel,
    pub(crate) fault: Option<CheckFault>,
    /// What the root's lane answered, if it was cut.
    pub(crate) cut: Option<Cut>,
    /// The lowest process that was lost, if one was.
    pub(crate) lost: Option<u32>,
}

impl CheckerEnd {
    /// The number of its watch.
    pub fn watch(&self) -> u64
        ensures { result ≡ self.now.watch }
    {
        self.watch
    }

    /// What the snapshots that the checker took tell the first question. Where that was starved, it is a cut that was
    /// found before, or `Undecided`. Where a process was lost, it is a cut, or `Undecided`.
    pub fn report(&self) -> Report
        ensures value { result ≡ report_at self.now 0 }
        ensures told { (inbox : CheckerInbox) (questions : List NumberSet) → IsEndOfLoop inbox questions self.now
            → IsReportTold self.now 0 result }
    {
        self.panel.first().report()
    }

    /// What they tell the question of this number, as `report` does the first one. `None` where there are fewer.
    pub fn report_of(&self, question: usize) -> Option<Report>
        ensures none { IsNone result ↔ length self.now.panel ≤ question }
        ensures value { IfSome result (λ report. report ≡ report_at self.now question) }
        ensures told { IfSome result (λ report. (inbox : CheckerInbox) (questions : List NumberSet)
            → IsEndOfLoop inbox questions self.now → IsReportTold self.now question report) }
    {
        match self.panel.question(question) {
            Some(checker) => Some(checker.report()),
            None => None,
        }
    }

    /// How many questions there are. They are numbered from 0.
    pub fn questions(&self) -> usize
        ensures { result ≡ length self.now.panel }
    {
        self.panel.questions()
    }

    /// Why a report isn't that of all snapshots, if one isn't. Where a question was starved that is `Memory`, also
    /// where its lane was cut or a process was lost. Where its lane was cut that is else `Cut`, also where a process
    /// was lost.
    pub fn fault(&self) -> Option<CheckFault>
        ensures { result ≡ self.now.fault }
    {
        self.fault
    }

    /// What the root's lane answered, if it was cut before every process had its close mark or the mark that it was
    /// lost.
    pub fn cut(&self) -> Option<Cut>
        ensures { result ≡ self.now.cut }
    {
        self.cut
    }

    /// The lowest process that was lost, if one was: the mark that it was lost was taken.
    pub fn lost(&self) -> Option<u32>
        ensures { result ≡ self.now.lost }
    {
        self.lost
    }
}
