use crate::plan::Plan;

/// What a process does in one step of a workload.
#[derive(Clone, Copy, Debug, PartialEq, Eq)]
pub enum Action {
    /// It observes its condition, which holds or not.
    Observe(bool),
    /// It sends a message to this process.
    Send(u32),
    /// It receives the next message from this process: its m-th receive from there takes the m-th
    /// message sent to it from there.
    Recv(u32),
}

/// One step of a process in a workload.
#[derive(Clone, Copy, Debug, PartialEq, Eq)]
pub struct Task {
    pub p: u32,
    pub action: Action,
}

/// What the processes of a computation do, each in its own order, under a plan for its detector.
#[derive(Debug, Drop)]
pub struct Workload {
    pub plan: Plan,
    /// The tasks of all processes; only the order of each process's own tasks counts.
    pub tasks: Vec<Task>,
}
