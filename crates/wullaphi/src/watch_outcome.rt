ghost use Rattle.std.specs.Prelude.{◌≡◌, ◌++◌, OnOk, string_bytes};
ghost use Rattle.wcp_report.specs.ReportText.{outcome_text};
ghost use Rattle.wullaphi.specs.Warnings.{warning_lines};

use crate::process_counts::ProcessCounts;
use crate::warnings::push_warnings;
use std::alloc::AllocError;
use wcp_model::{Outcome, Report, Tally};
use wcp_report::push_report;

/// What a watch tells: the report with the tallies, the totals, the reports of all questions, and what each process
/// answered and did, by its number.
#[derive(Drop)]
pub struct WatchOutcome<A: Drop> {
    /// The report of the first question, with the tallies.
    pub outcome: Outcome,
    /// The totals of the book.
    pub totals: Tally,
    /// The report of each question, in their order.
    pub reports: Vec<Report>,
    pub answers: Vec<A>,
    /// What each process did.
    pub counts: Vec<ProcessCounts>,
}

impl<A: Drop> WatchOutcome<A> {
    /// Adds the text of the outcome, as the function [`push_report`] does, and a line for each thing that looks wrong:
    /// a watched process that never observed its condition, and messages that were stamped and never received. `Err`
    /// where memory runs out.
    pub fn push_report(&self, text: &mut String) -> Result<(), AllocError>
        ensures { OnOk result (string_bytes text.new
            ≡ string_bytes text.old ++ (outcome_text self.now.outcome ++ warning_lines self.now.counts.items)) }
    {
        push_report(text, &self.outcome)?;
        push_warnings(text, &self.counts)
    }
}
