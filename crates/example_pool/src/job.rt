ghost use Rattle.std.specs.Prelude.{◌≡◌, ◌-◌, ◌%◌, ◌^◌, sum, length, slice_get, IfOk, IfSome};

use std::alloc::{AllocError, Global};

/// How many numbers a job adds up.
const SIZE: u32 = 1_000;

/// The numbers of a job are to be added up.
#[derive(Clone, Copy, Debug, PartialEq, Eq)]
pub struct Job {
    /// Which job it is, from 1.
    pub number: u32,
}

/// The sum that a job asked for.
#[derive(Clone, Copy, Debug, PartialEq, Eq)]
pub struct JobSum {
    /// Which job it was.
    pub job: u32,
    pub sum: u64,
}

/// The numbers of each job. All replicas read the same ones.
#[derive(Drop)]
pub struct JobNumbers {
    jobs: Vec<Vec<u32>>,
}

impl JobNumbers {
    /// The numbers from 0 on, dealt out to so many jobs. `Err` where memory runs out.
    pub(crate) fn new(alloc: Global, jobs: u32) -> Result<JobNumbers, AllocError>
        ensures { IfOk result (λ numbers. length numbers.jobs.items ≡ jobs) }
    {
        let mut all = Vec::with_capacity(alloc, jobs as usize)?;
        for job in 0..jobs {
            all.push(numbers_from(alloc, job.wrapping_mul(SIZE))?)?;
        }
        Ok(JobNumbers { jobs: all })
    }

    /// Does a job: the sum of its numbers, which wraps at 2^64.
    pub(crate) fn answer(&self, job: Job) -> JobSum
        ensures job { result.job ≡ job.number }
        ensures sum { IfSome (slice_get self.now.jobs.items (job.number - 1)) (λ numbers.
            result.sum ≡ sum numbers.items % 2 ^ 64) }
    {
        let sum = match self.jobs.get((job.number as usize).saturating_sub(1)) {
            Some(numbers) => wrapping_sum(numbers),
            None => 0,
        };
        JobSum {
            job: job.number,
            sum,
        }
    }
}

/// As many numbers as a job has, from this one on. `Err` where memory runs out.
fn numbers_from(alloc: Global, first: u32) -> Result<Vec<u32>, AllocError> {
    let mut numbers = Vec::with_capacity(alloc, SIZE as usize)?;
    for place in 0..SIZE {
        numbers.push(first.wrapping_add(place))?;
    }
    Ok(numbers)
}

/// The sum of these, which wraps at 2^64.
fn wrapping_sum(numbers: &[u32]) -> u64
    ensures { result ≡ sum numbers.now % 2 ^ 64 }
{
    let mut total = 0u64;
    for number in numbers {
        total = total.wrapping_add(u64::from(*number));
    }
    total
}
