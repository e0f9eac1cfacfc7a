use wcp_clock::Item;

/// One event of a watched computation or of its detector. Processes and relays are numbered from 0.
#[derive(Clone, Copy, Debug, PartialEq, Eq)]
pub enum Step {
    /// Process `.0` observes its condition, which holds or not.
    Observe(u32, bool),
    /// Process `.0` sends a message to process `.1`.
    Send(u32, u32),
    /// Process `.0` receives message `.1`; messages are numbered by their sends, from 0.
    Recv(u32, u64),
    /// Process `.0` ends its part of the computation.
    Close(u32),
    /// Process `.0` is lost: it vanishes without a close.
    Dropped(u32),
    /// The link of process `.0` takes its pending note.
    Put(u32),
    /// Relay `.0` takes a note from the link of process `.1` into its hold.
    Admit(u32, u32),
    /// Relay `.0` takes an item from its inbox into its hold.
    Pull(u32),
    /// Relay `.0` passes an item from its hold to its parent's inbox.
    Pass(u32),
    /// The checker takes an item from the root inbox.
    Check,
}

/// Why a step was refused. Where several reasons hold, the first in this order is given.
#[derive(Clone, Copy, Debug, PartialEq, Eq)]
pub enum Why {
    /// There is no such process, relay, message or attachment.
    NoSuch,
    /// The process is closed or lost.
    Closed,
    /// A note of the process is pending.
    Backlog,
    /// The message was received already.
    Gone,
    /// The process has made as many communication events as its clock can count.
    ClockEnd,
    /// The place that the step takes from is empty.
    Empty,
    /// The place that the step puts into is full.
    Full,
}

/// What a step is answered.
#[derive(Clone, Copy, Debug, PartialEq, Eq)]
pub enum Reply {
    /// The step was made.
    Done,
    /// The checker took this item.
    Took(Item),
    /// The step was refused, and changed nothing.
    Refused(Why),
}
