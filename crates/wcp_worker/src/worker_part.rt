//! A worker as a part of a run.
use crate::gate::Gate;
use crate::worker::Worker;
use crate::worker_end::WorkerEnd;
use std::sync::Wait;
use wcp_threads::{Part, RunsWith};

impl Part<WorkerEnd> for Worker {
    ghost use Rattle.wcp_worker.specs.Played.{IsEndOfWorker, IsFreshPlayer};

    ghost is_ready = { λ worker. IsFreshPlayer worker.player };

    ghost is_end = { IsEndOfWorker };
}

impl<G: Gate> RunsWith<G, WorkerEnd> for Worker {
    fn run_with<R: Wait>(self, rt: &R, gate: &G) -> WorkerEnd {
        self.run(rt, gate)
    }
}
