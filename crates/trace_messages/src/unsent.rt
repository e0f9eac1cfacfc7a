/// What becomes of the lines that wait at the end of a log for a message that no event sends.
#[derive(Clone, Copy, Debug, PartialEq, Eq)]
pub enum Unsent {
    /// They are told: the fault `waits` of the first of them.
    Told,
    /// They are the fault `order` of the log's last line.
    Refused,
    /// They receive nothing, since the sender is assumed to be one that logs nothing.
    Assumed,
}
