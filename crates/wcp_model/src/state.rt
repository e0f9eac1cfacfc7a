/// A local state: a process in one of its intervals. It is in interval k from its k-th communication
/// event to the next one, and in interval 0 before the first.
#[derive(Clone, Copy, Debug, PartialEq, Eq)]
pub struct State {
    pub process: u32,
    pub interval: u64,
}
