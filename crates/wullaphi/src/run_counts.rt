//! What the probes of a run counted together.
use crate::probe_counts::ProbeCounts;
use crate::process_counts::ProcessCounts;
use std::alloc::{AllocError, Global};
use std::sync::atomic::{AtomicU64, Ordering};
use wcp_clock::MAX_PROCS;
use wcp_model::Watched;

/// What was counted of a process: by its own probe, and by those that received what it sent.
#[derive(Drop)]
struct SharedCounts {
    observed: AtomicU64,
    held: AtomicU64,
    stamped: AtomicU64,
    received: AtomicU64,
}

impl SharedCounts {
    fn new() -> SharedCounts {
        SharedCounts {
            observed: AtomicU64::new(0),
            held: AtomicU64::new(0),
            stamped: AtomicU64::new(0),
            received: AtomicU64::new(0),
        }
    }

    /// Adds what the probe of this process counted.
    fn add(&self, counts: &ProbeCounts) {
        self.observed.fetch_add(counts.observed, Ordering::SeqCst);
        self.held.fetch_add(counts.held, Ordering::SeqCst);
        self.stamped.fetch_add(counts.stamped, Ordering::SeqCst);
    }

    fn told(&self, watched: bool) -> ProcessCounts {
        ProcessCounts {
            watched,
            observed: self.observed.load(Ordering::SeqCst),
            held: self.held.load(Ordering::SeqCst),
            stamped: self.stamped.load(Ordering::SeqCst),
            received: self.received.load(Ordering::SeqCst),
        }
    }
}

/// The counts of all processes of a run, to which each probe adds its own as it ends.
#[derive(Drop)]
pub(crate) struct RunCounts {
    processes: Vec<SharedCounts>,
}

impl RunCounts {
    /// Nothing is counted yet. `Err` where memory runs out.
    pub(crate) fn new(alloc: Global, processes: u32) -> Result<RunCounts, AllocError> {
        let mut counts = Vec::with_capacity(alloc, processes as usize)?;
        for _ in 0..processes {
            counts.push(SharedCounts::new())?;
        }
        Ok(RunCounts { processes: counts })
    }

    /// Adds what the probe of this process counted.
    pub(crate) fn add(&self, process: u32, counts: &ProbeCounts) {
        if let Some(own) = self.processes.get(process as usize) {
            own.add(counts);
        }
        for (from, sender) in self.processes.iter().enumerate() {
            if from < MAX_PROCS {
                sender
                    .received
                    .fetch_add(counts.received[from], Ordering::SeqCst);
            }
        }
    }

    /// What was counted of each process, with whether it is one of these. `Err` where memory runs out.
    pub(crate) fn told(
        &self,
        alloc: Global,
        watched: Watched,
    ) -> Result<Vec<ProcessCounts>, AllocError> {
        let mut told = Vec::with_capacity(alloc, self.processes.len())?;
        for (process, counts) in self.processes.iter().enumerate() {
            told.push(counts.told(process < MAX_PROCS && watched.has(process as u32)))?;
        }
        Ok(told)
    }
}
