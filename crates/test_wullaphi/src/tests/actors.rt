//! Processes that make the steps of a program, and see whether two of them are true at once.
use super::programs::{NARROW, Step, Which};
use super::steps::{get, nest, put, raise, wait_for, write};
use std::alloc::{AllocError, Global};
use std::sync::atomic::{AtomicBool, AtomicU32, Ordering};
use std::sync::{Barrier, Condvar, Mutex, Wait};
use std::thread::yield_now;
use wullaphi::{
    LentProbe, Loan, OpenStamped, Process, Refusal, WatchedMutex, WatchedOnce, WatchedQueue,
};

/// A number under a lock, and where is told that it was raised.
#[derive(Drop)]
pub struct Counter {
    pub number: WatchedMutex<u32>,
    pub raised: Condvar,
}

impl Counter {
    fn new() -> Counter {
        Counter {
            number: WatchedMutex::new(0),
            raised: Condvar::new(),
        }
    }
}

/// What the processes share. The watch sees nothing of the last four.
#[derive(Drop)]
pub struct Stage {
    pub first: Counter,
    pub second: Counter,
    pub cell: WatchedOnce<u32>,
    wide: WatchedQueue<u32>,
    narrow: WatchedQueue<u32>,
    start: WatchedQueue<u32>,
    end: WatchedQueue<u32>,
    message: Mutex<Option<OpenStamped<u32>>>,
    all: Barrier,
    /// How many of the first two have a condition that holds, and whether both ever had.
    true_now: AtomicU32,
    pub at_once: AtomicBool,
}

impl Stage {
    pub fn new(alloc: Global) -> Result<Stage, AllocError> {
        Ok(Stage {
            first: Counter::new(),
            second: Counter::new(),
            cell: WatchedOnce::new(),
            wide: WatchedQueue::new(alloc, 64)?,
            narrow: WatchedQueue::new(alloc, NARROW)?,
            start: WatchedQueue::new(alloc, 1)?,
            end: WatchedQueue::new(alloc, 1)?,
            message: Mutex::new(None),
            all: Barrier::new(3),
            true_now: AtomicU32::new(0),
            at_once: AtomicBool::new(false),
        })
    }

    fn counter(&self, which: Which) -> &Counter {
        match which {
            Which::First => &self.first,
            Which::Second => &self.second,
        }
    }
}

/// A process that makes these steps.
#[derive(Drop)]
pub struct Actor {
    steps: Vec<Step>,
    is_asked: bool,
    is_true: bool,
}

impl Actor {
    pub fn new(steps: Vec<Step>, is_asked: bool) -> Actor {
        Actor {
            steps,
            is_asked,
            is_true: false,
        }
    }
}

impl Process for Actor {
    type Shared = Stage;

    type Answer = Result<(), Refusal>;

    fn run<L: Loan, R: Wait>(
        self,
        rt: &R,
        probe: &mut LentProbe<L>,
        stage: &Stage,
    ) -> Result<(), Refusal> {
        let mut actor = self;
        stage.all.wait(rt);
        for at in 0..actor.steps.len() {
            if let Some(step) = actor.steps.get(at).copied() {
                actor.act(rt, probe, stage, step)?;
            }
        }
        actor.end(probe, stage);
        Ok(())
    }
}

impl Actor {
    fn begin<L: Loan, R: Wait>(&mut self, rt: &R, probe: &mut LentProbe<L>, stage: &Stage) {
        if self.is_true {
            return;
        }
        self.is_true = true;
        probe.hold(rt);
        if self.is_asked && stage.true_now.fetch_add(1, Ordering::SeqCst) > 0 {
            stage.at_once.store(true, Ordering::SeqCst);
        }
        yield_now();
    }

    fn end<L: Loan>(&mut self, probe: &mut LentProbe<L>, stage: &Stage) {
        if !self.is_true {
            return;
        }
        self.is_true = false;
        if self.is_asked {
            stage.true_now.fetch_sub(1, Ordering::SeqCst);
        }
        probe.let_go();
    }

    fn act<L: Loan, R: Wait>(
        &mut self,
        rt: &R,
        probe: &mut LentProbe<L>,
        stage: &Stage,
        step: Step,
    ) -> Result<(), Refusal> {
        match step {
            Step::Begin => self.begin(rt, probe, stage),
            Step::End => self.end(probe, stage),
            Step::TrueUnder(which) => self.true_under(rt, probe, stage, which)?,
            Step::Raise(which) => raise(rt, probe, stage.counter(which))?,
            Step::Await(which, least) => wait_for(rt, probe, stage.counter(which), least)?,
            Step::Nested => nest(rt, probe, stage)?,
            Step::Write => write(rt, probe, stage)?,
            Step::Read => {
                stage.cell.get(rt, probe)?;
            }
            Step::Put => put(rt, probe, &stage.wide)?,
            Step::Get => get(rt, probe, &stage.wide)?,
            Step::PutNarrow => put(rt, probe, &stage.narrow)?,
            Step::GetNarrow => get(rt, probe, &stage.narrow)?,
            Step::Leave => self.leave(rt, probe, stage)?,
            Step::Take => self.take(rt, probe, stage)?,
            Step::Start => put(rt, probe, &stage.start)?,
            Step::Started => get(rt, probe, &stage.start)?,
            Step::Ended => put(rt, probe, &stage.end)?,
            Step::Join => get(rt, probe, &stage.end)?,
        }
        Ok(())
    }

    fn true_under<L: Loan, R: Wait>(
        &mut self,
        rt: &R,
        probe: &mut LentProbe<L>,
        stage: &Stage,
        which: Which,
    ) -> Result<(), Refusal> {
        let guard = stage.counter(which).number.lock(rt, probe)?;
        self.begin(rt, probe, stage);
        self.end(probe, stage);
        guard.unlock(rt, probe)
    }

    fn leave<L: Loan, R: Wait>(
        &self,
        rt: &R,
        probe: &mut LentProbe<L>,
        stage: &Stage,
    ) -> Result<(), Refusal> {
        let message = probe.stamp_open(1).map_err(|(refusal, _)| refusal)?;
        self.go_on(rt, probe);
        *stage.message.lock(rt) = Some(message);
        Ok(())
    }

    fn take<L: Loan, R: Wait>(
        &self,
        rt: &R,
        probe: &mut LentProbe<L>,
        stage: &Stage,
    ) -> Result<(), Refusal> {
        let slot = stage.message.lock(rt);
        if let Some(message) = &*slot {
            probe.take_open(message)?;
        }
        self.go_on(rt, probe);
        Ok(())
    }

    /// Holds again after a message, if the condition lasts.
    fn go_on<L: Loan, R: Wait>(&self, rt: &R, probe: &mut LentProbe<L>) {
        if self.is_true {
            probe.hold(rt);
        }
    }
}
