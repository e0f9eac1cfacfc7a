use std::time::{Clock, Instant};

/// The rounds of a trial.
const TRIAL: u64 = 4_000_000;

/// How many trials are made. The fastest counts.
const TRIALS: u32 = 5;

/// A computation that takes so many rounds, each of which needs what came of the one before.
#[derive(Clone, Copy)]
pub struct Work {
    rounds: u64,
}

impl Work {
    /// Work of so many microseconds, by trials that are made now.
    pub fn lasting<R: Clock>(rt: &R, microseconds: u32) -> anyhow::Result<Work> {
        let trial = Work { rounds: TRIAL };
        let mut fastest = u64::MAX;
        let mut value = 0u64;
        for _ in 0..TRIALS {
            let start = Instant::now(rt)?;
            value = trial.run(value);
            let nanoseconds = u64::try_from(start.elapsed(rt)?.as_nanos()).unwrap_or(u64::MAX);
            fastest = fastest.min(nanoseconds);
        }
        let nanoseconds = u64::from(microseconds).saturating_mul(1_000);
        let rounds = nanoseconds.saturating_mul(TRIAL) / fastest.max(1);
        // What came of the trials is used, so that the compiler leaves none out. It is never 0.
        Ok(Work {
            rounds: rounds.saturating_sub(u64::from(value == 0)),
        })
    }

    /// Computes a value from this one. Without any rounds it is another one too.
    pub fn run(self, value: u64) -> u64 {
        let mut value = value.wrapping_add(1);
        for _ in 0..self.rounds {
            value = (value ^ (value >> 29))
                .wrapping_mul(0xBF58_476D_1CE4_E5B9)
                .wrapping_add(1);
        }
        value
    }
}
