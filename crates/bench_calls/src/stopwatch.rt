use std::alloc::{AllocError, Global};
use std::io;
use std::time::{Clock, CpuClock, Duration, Instant};

/// How long something took, in microseconds.
#[derive(Clone, Copy)]
pub struct Spent {
    pub wall: u64,
    /// The processor time of all threads together.
    pub processor: u64,
}

/// A moment from which time is measured.
#[derive(Clone, Copy)]
pub struct Stopwatch {
    wall: Instant,
    processor: Duration,
}

impl Stopwatch {
    /// Begins now.
    pub fn start<R: Clock + CpuClock>(rt: &R) -> io::Result<Stopwatch> {
        Ok(Stopwatch {
            processor: rt.process_cpu_time()?,
            wall: Instant::now(rt)?,
        })
    }

    /// What was spent since it began.
    pub fn stop<R: Clock + CpuClock>(self, rt: &R) -> io::Result<Spent> {
        let wall = self.wall.elapsed(rt)?;
        let processor = rt.process_cpu_time()?.saturating_sub(self.processor);
        Ok(Spent {
            wall: microseconds(wall),
            processor: microseconds(processor),
        })
    }
}

fn microseconds(span: Duration) -> u64 {
    u64::try_from(span.as_micros()).unwrap_or(u64::MAX)
}

/// What each of some runs took.
#[derive(Drop)]
pub struct Spendings {
    walls: Vec<u64>,
    processors: Vec<u64>,
}

impl Spendings {
    pub fn none(alloc: Global) -> Spendings {
        Spendings {
            walls: Vec::new(alloc),
            processors: Vec::new(alloc),
        }
    }

    pub fn add(&mut self, spent: Spent) -> Result<(), AllocError> {
        self.walls.push(spent.wall)?;
        self.processors.push(spent.processor)?;
        Ok(())
    }

    /// The medians, of wall time and of processor time. `None` where there are no runs.
    pub fn medians(&mut self) -> Option<Spent> {
        Some(Spent {
            wall: median(&mut self.walls)?,
            processor: median(&mut self.processors)?,
        })
    }
}

/// The median of these, which are sorted then.
fn median(numbers: &mut Vec<u64>) -> Option<u64> {
    numbers.sort_unstable();
    numbers.get(numbers.len() / 2).copied()
}
