ghost use Rattle.std.specs.Prelude.{◌≡◌, ℕ, ◌+◌, ◌*◌, ◌<◌, ◌≤◌, ◌↔◌, ◌⊎◌, List, [], ◌∷◌, ◌++◌, length, replicate, Some};
ghost use Rattle.std.specs.Prelude.{All, IfOk, OnOk, IfNone, IfSome, count_by, filter, map};
ghost use Rattle.std.specs.List.{slice_get, slice_set, slice_index};
ghost use Rattle.wcp_clock.specs.Limits.{most_processes};
ghost use Rattle.wcp_model.specs.WorkloadComputation.{IsFitOrder, IsWithin, is_task_of};
ghost use Rattle.wcp_order.specs.Progress.{HasGrown, IsBlocked, IsFirstLeft, IsHistory, IsReady, IsSoundProgress};
ghost use Rattle.wcp_order.specs.Progress.{IsStuck, history_at, in_transit_after};
ghost use Rattle.wcp_order.specs.Stuck.{IfOrder, IfStuck, IsAsListed, IsFirstStuck};
ghost use Rattle.std.specs.Bool.{MatchBool};
ghost use Rattle.wcp_model.specs.declared.workload.Task.{Task};

use crate::channels::{count, is_ready};
use crate::listing::is_fit;
use std::alloc::{AllocError, Global};
use wcp_model::Task;

/// What the search for a fit order of a workload's tasks found.
#[derive(Debug, Drop)]
pub enum FitOrder {
    /// The tasks are in a fit order as they are listed.
    AsListed,
    /// A fit order of all tasks, which is another one than they are listed in.
    Order(Vec<Task>),
    /// No order is fit. The task at this place is the first that can never be done.
    Stuck(usize),
}

/// The tasks of each process, in their order.
fn histories(alloc: Global, n: u32, tasks: &[Task]) -> Result<Vec<Vec<Task>>, AllocError>
    requires { All (IsWithin n) tasks.now }
    ensures processes { IfOk result (λ histories. length histories.items ≡ n) }
    ensures tasks { IfOk result (λ histories. (p : ℕ) → p < n
        → history_at histories.items p ≡ filter (is_task_of p) tasks.now) }
{
    let mut histories = Vec::with_capacity(alloc, n as usize)?;
    for _ in 0..n {
        histories.push(Vec::new(alloc))?;
    }
    for task in tasks {
        histories[task.p as usize].push(*task)?;
    }
    Ok(histories)
}

/// How far the tasks have been put in order.
#[derive(Drop)]
struct Progress {
    /// The tasks that are done, in the order in which they were.
    order: Vec<Task>,
    /// For each process, how many of its tasks are done.
    done: Vec<usize>,
    /// For each channel, how many messages were sent on it and not received.
    in_transit: Vec<usize>,
}

impl Progress {
    /// No task is done.
    fn new(alloc: Global, n: u32, tasks: usize) -> Result<Progress, AllocError>
        requires { n ≤ most_processes }
        ensures order { IfOk result (λ progress. progress.order.items ≡ []) }
        ensures done { IfOk result (λ progress. progress.done.items ≡ replicate n 0) }
        ensures channels { IfOk result (λ progress. progress.in_transit.items ≡ replicate (n * n) 0) }
    {
        Ok(Progress {
            order: Vec::with_capacity(alloc, tasks)?,
            done: vec![in alloc; 0; n as usize]?,
            in_transit: vec![in alloc; 0; (n * n) as usize]?,
        })
    }

    /// The next task of a process, of which these are the tasks, if it can be done now.
    fn next_ready(&self, n: u32, history: &[Task], p: u32) -> Option<Task>
        requires few { n ≤ most_processes }
        requires processes { length self.now.done.items ≡ n }
        requires channels { length self.now.in_transit.items ≡ n * n }
        requires p { p < n }
        requires history { IsHistory n p history.now }
        ensures blocked { IfNone result
            (IsBlocked n history.now self.now.done.items self.now.in_transit.items p) }
        ensures place { IfSome result
            (λ task. slice_get history.now (slice_index self.now.done.items p) ≡ Some task) }
        ensures ready { IfSome result (λ task. IsReady n self.now.in_transit.items p task.action) }
    {
        let task = *history.get(self.done[p as usize])?;
        if is_ready(&self.in_transit, n, p, task.action) {
            Some(task)
        } else {
            None
        }
    }

    /// Does the next task of its process.
    fn perform(&mut self, n: u32, task: Task) -> Result<(), AllocError>
        requires few { n ≤ most_processes }
        requires processes { length self.old.done.items ≡ n }
        requires channels { length self.old.in_transit.items ≡ n * n }
        requires within { IsWithin n task }
        requires ready { IsReady n self.old.in_transit.items task.p task.action }
        requires counts { slice_index self.old.done.items task.p ≤ length self.old.order.items }
        requires counted { (q : ℕ) → q < n
            → slice_index self.old.in_transit.items (task.p * n + q) ≤ length self.old.order.items }
        ensures order { OnOk result (self.new.order.items ≡ self.old.order.items ++ task ∷ []) }
        ensures done { OnOk result (self.new.done.items
            ≡ slice_set self.old.done.items task.p (slice_index self.old.done.items task.p + 1)) }
        ensures in_transit { OnOk result (self.new.in_transit.items
            ≡ in_transit_after n self.old.in_transit.items task.p task.action) }
    {
        self.order.push(task)?;
        self.done[task.p as usize] += 1;
        count(&mut self.in_transit, n, task.p, task.action);
        Ok(())
    }

    /// Does the tasks of a process as far as they can be done.
    fn run(&mut self, n: u32, histories: &[Vec<Task>], p: u32) -> Result<(), AllocError>
        requires few { n ≤ most_processes }
        requires processes { length histories.now ≡ n }
        requires p { p < n }
        requires history { IsHistory n p (history_at histories.now p) }
        requires sound { IsSoundProgress n (history_at histories.now) self.old }
        ensures sound { OnOk result (IsSoundProgress n (history_at histories.now) self.new) }
        ensures stuck { OnOk result (IsStuck n (history_at histories.now p) self.new p) }
        ensures grown { OnOk result (HasGrown self.old self.new ⊎ (self.new ≡ self.old)) }
    {
        while let Some(task) = self.next_ready(n, &histories[p as usize], p) {
            self.perform(n, task)?;
        }
        Ok(())
    }

    /// Runs each process once, and says whether any task was done.
    fn round(&mut self, n: u32, histories: &[Vec<Task>]) -> Result<bool, AllocError>
        requires few { n ≤ most_processes }
        requires processes { length histories.now ≡ n }
        requires histories { (p : ℕ) → p < n → IsHistory n p (history_at histories.now p) }
        requires sound { IsSoundProgress n (history_at histories.now) self.old }
        ensures sound { OnOk result (IsSoundProgress n (history_at histories.now) self.new) }
        ensures grown { IfOk result (λ grown. MatchBool grown (HasGrown self.old self.new)
            ((p : ℕ) → p < n → IsStuck n (history_at histories.now p) self.new p)) }
    {
        let before = self.order.len();
        for p in 0..n {
            self.run(n, histories, p)?;
        }
        Ok(self.order.len() > before)
    }

    /// What is found where no process can go on.
    fn conclude(self, n: u32, tasks: &[Task]) -> FitOrder
        requires within { All (IsWithin n) tasks.now }
        requires sound { IsSoundProgress n (λ p. filter (is_task_of p) tasks.now) self }
        requires stuck { (p : ℕ) → p < n → IsStuck n (filter (is_task_of p) tasks.now) self p }
        ensures other { IsAsListed result → ⊥ }
        ensures order { IfOrder tasks.now result (IsFitOrder tasks.now) }
        ensures all_tasks { IfOrder tasks.now result (λ order. length order ≡ length tasks.now) }
        ensures stuck { IfStuck result (IsFirstStuck tasks.now) }
        ensures no_order { IfStuck result
            (λ _. (order : List Task) → IsFitOrder tasks.now order → ⊥) }
    {
        let mut done = self.done;
        match first_left(tasks, &mut done) {
            Some(place) => FitOrder::Stuck(place),
            None => FitOrder::Order(self.order),
        }
    }
}

/// The place of the first task that is left, where so many tasks of each process are done. Counts
/// down what is done before it.
fn first_left(tasks: &[Task], done: &mut [usize]) -> Option<usize>
    requires { All (λ task. task.p < length done.old) tasks.now }
    ensures first { IfSome result (IsFirstLeft tasks.now done.old) }
    ensures none { IfNone result ((p : ℕ) → p < length done.old
        → count_by (is_task_of p) tasks.now ≤ slice_index done.old p) }
{
    for (place, task) in tasks.iter().enumerate() {
        let left = &mut done[task.p as usize];
        if *left == 0 {
            return Some(place);
        }
        *left -= 1;
    }
    None
}

/// A fit order of the tasks of n processes, or the first task that can never be done. Where they
/// are in a fit order as they are listed, this takes one look at each. Else each process does its
/// tasks as far as it can, in turn, until none can go on: at most n looks for each task. `Err` where
/// memory runs out.
pub fn fit_order(alloc: Global, n: u32, tasks: &[Task]) -> Result<FitOrder, AllocError>
    requires few { n ≤ most_processes }
    requires within { All (IsWithin n) tasks.now }
    ensures order { IfOk result (λ found. IfOrder tasks.now found (IsFitOrder tasks.now)) }
    ensures all_tasks { IfOk result (λ found. IfOrder tasks.now found
        (λ order. length order ≡ length tasks.now)) }
    ensures as_listed { IfOk result (λ found. IsAsListed found ↔ IsFitOrder tasks.now tasks.now) }
    ensures stuck { IfOk result (λ found. IfStuck found (IsFirstStuck tasks.now)) }
    ensures no_order { IfOk result (λ found. IfStuck found
        (λ _. (order : List Task) → IsFitOrder tasks.now order → ⊥)) }
{
    if is_fit(n, tasks) {
        return Ok(FitOrder::AsListed);
    }
    search(alloc, n, tasks)
}

/// The search for a fit order, whether or not the tasks are listed in one.
fn search(alloc: Global, n: u32, tasks: &[Task]) -> Result<FitOrder, AllocError>
    requires few { n ≤ most_processes }
    requires within { All (IsWithin n) tasks.now }
    ensures other { IfOk result (λ found. IsAsListed found → ⊥) }
    ensures order { IfOk result (λ found. IfOrder tasks.now found (IsFitOrder tasks.now)) }
    ensures all_tasks { IfOk result (λ found. IfOrder tasks.now found
        (λ order. length order ≡ length tasks.now)) }
    ensures stuck { IfOk result (λ found. IfStuck found (IsFirstStuck tasks.now)) }
    ensures no_order { IfOk result (λ found. IfStuck found
        (λ _. (order : List Task) → IsFitOrder tasks.now order → ⊥)) }
{
    let histories = histories(alloc, n, tasks)?;
    let mut progress = Progress::new(alloc, n, tasks.len())?;
    while progress.round(n, &histories)? {}
    Ok(progress.conclude(n, tasks))
}
