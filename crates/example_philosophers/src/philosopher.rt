use anyhow::{Result, anyhow};
use std::sync::Wait;
use std::sync::atomic::{AtomicBool, AtomicU32, Ordering};
use wullaphi::{Critical, LentProbe, Loan, Process, WatchedMutex};

/// The table, and who of those that are asked about eats.
#[derive(Drop)]
pub(crate) struct Table {
    /// Under each fork stands how often it was eaten with.
    pub(crate) forks: Vec<WatchedMutex<u32>>,
    pub(crate) eating: AtomicU32,
    /// Whether two ate at once. The watch sees neither of these two.
    pub(crate) at_once: AtomicBool,
}

impl Table {
    /// The fork of this number.
    fn fork(&self, number: usize) -> Result<&WatchedMutex<u32>> {
        self.forks
            .get(number)
            .ok_or_else(|| anyhow!("there is no such fork"))
    }
}

/// A philosopher. Its condition is that it eats.
#[derive(Drop)]
pub(crate) struct Philosopher {
    pub(crate) right: usize,
    pub(crate) left: usize,
    pub(crate) takes_both: bool,
    pub(crate) is_asked: bool,
    pub(crate) meals: u32,
}

impl Process for Philosopher {
    type Shared = Table;

    type Answer = Result<()>;

    fn run<L: Loan, R: Wait>(self, rt: &R, probe: &mut LentProbe<L>, table: &Table) -> Result<()> {
        // All take the fork of the lower number first, so that nobody waits for ever.
        let first = self.right.min(self.left);
        let second = self.right.max(self.left);
        for _ in 0..self.meals {
            let meal = Meal {
                table,
                is_asked: self.is_asked,
            };
            if self.takes_both {
                let rest = SecondFork { fork: second, meal };
                table.fork(first)?.with(rt, probe, rest)??;
            } else {
                table.fork(self.right)?.with(rt, probe, meal)?;
            }
        }
        Ok(())
    }
}

/// What is left to do with one fork in the hand: to take this one, and eat.
#[derive(Drop)]
struct SecondFork<'t> {
    fork: usize,
    meal: Meal<'t>,
}

impl Critical<u32> for SecondFork<'_> {
    type Answer = Result<()>;

    fn run<L: Loan, R: Wait>(
        self,
        rt: &R,
        probe: &mut LentProbe<L>,
        meals: &mut u32,
    ) -> Result<()> {
        *meals = meals.saturating_add(1);
        let SecondFork { fork, meal } = self;
        meal.table.fork(fork)?.with(rt, probe, meal)?;
        Ok(())
    }
}

/// A meal.
#[derive(Drop)]
struct Meal<'t> {
    table: &'t Table,
    is_asked: bool,
}

impl Critical<u32> for Meal<'_> {
    type Answer = ();

    fn run<L: Loan, R: Wait>(self, rt: &R, probe: &mut LentProbe<L>, meals: &mut u32) {
        probe.hold(rt);
        *meals = meals.saturating_add(1);
        if self.is_asked {
            if self.table.eating.fetch_add(1, Ordering::SeqCst) > 0 {
                self.table.at_once.store(true, Ordering::SeqCst);
            }
            self.table.eating.fetch_sub(1, Ordering::SeqCst);
        }
        probe.let_go();
    }
}
