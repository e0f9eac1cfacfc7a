//! One run of a watch, by which a lock tells what was left in it from what an earlier run left.
use crate::probe_counts::ProbeCounts;
use crate::process_counts::ProcessCounts;
use crate::run_counts::RunCounts;
use std::alloc::{AllocError, Global};
use std::sync::Arc;
use std::sync::atomic::{AtomicU32, Ordering};
use wcp_model::Watched;

/// What all probes of a run share.
#[derive(Drop)]
struct RunState {
    number: u64,
    /// How many of its probes haven't ended.
    probes: AtomicU32,
    counts: RunCounts,
}

/// The run of a watch, as one of its probes has it. A run has ended once all its probes have.
pub(crate) struct WatchRun {
    state: Arc<RunState, Global>,
}

/// The run of a watch, as what was left in it has it.
#[derive(Drop)]
pub struct RunMark {
    state: Arc<RunState, Global>,
}

impl WatchRun {
    /// A new run of the watch of this number, of so many processes, for its first probe. `Err` where memory runs out.
    pub(crate) fn new(alloc: Global, number: u64, processes: u32) -> Result<WatchRun, AllocError> {
        let state = RunState {
            number,
            probes: AtomicU32::new(1),
            counts: RunCounts::new(alloc, processes)?,
        };
        Ok(WatchRun {
            state: Arc::new(alloc, state)?,
        })
    }

    /// The same run, for one more probe.
    pub(crate) fn for_another(&self) -> Result<WatchRun, AllocError> {
        let state = Arc::try_clone(&self.state)?;
        state.probes.fetch_add(1, Ordering::SeqCst);
        Ok(WatchRun { state })
    }

    /// A mark of this run for what is left in it, if there is room for one.
    pub(crate) fn mark(&self) -> Option<RunMark> {
        let state = Arc::try_clone(&self.state).ok()?;
        Some(RunMark { state })
    }

    /// Adds what the probe of this process counted.
    pub(crate) fn add(&self, process: u32, counts: &ProbeCounts) {
        self.state.counts.add(process, counts);
    }

    /// Whether this mark was made in this run: in one of the same number that hasn't ended.
    pub(crate) fn has_made(&self, mark: &RunMark) -> bool {
        mark.state.number == self.state.number && mark.state.probes.load(Ordering::SeqCst) > 0
    }
}

impl RunMark {
    /// What the probes of the run that have ended counted of each process, with whether it is one of these. `Err` where
    /// memory runs out.
    pub(crate) fn counts(
        &self,
        alloc: Global,
        watched: Watched,
    ) -> Result<Vec<ProcessCounts>, AllocError> {
        self.state.counts.told(alloc, watched)
    }
}

impl Drop for WatchRun {
    fn drop(self) {
        let WatchRun { state } = self;
        state.probes.fetch_sub(1, Ordering::SeqCst);
    }
}
